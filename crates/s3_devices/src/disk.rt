//! What every cache disk is.
ghost use Rattle.std.specs.Prelude.{◌≡◌, ◌+◌, ◌^◌, ◌≤◌, ℕ, List, Option, length, IfOk, OnOk, OnErr};
ghost use Rattle.s3_base.specs.Faults.{HasCause};
ghost use Rattle.s3_devices.specs.DiskBytes.{IsRead, IsWritten, KeepsOutside};
ghost use Rattle.s3_devices.specs.Told.{IfTold, Becomes};
ghost use Rattle.s3_devices.specs.DiskAnswers.{has_failed};

use std::alloc::AllocError;

/// Why a disk gave no answer.
#[derive(Clone, Copy, Debug, PartialEq, Eq)]
pub enum DiskFault {
    /// The device that it stands on failed.
    Failed,
    /// There was no memory for the answer or for the change.
    Memory,
}

impl From<AllocError> for DiskFault {
    ghost use Rattle.std.specs.Prelude.{◌≡◌};
    ghost use Rattle.s3_devices.specs.declared.disk.DiskFault.TheVariants.{Memory};

    ghost from_gives = { λ _ fault. fault ≡ Memory };

    fn from(_refused: AllocError) -> Self {
        DiskFault::Memory
    }
}

/// The cache disk: bytes by their places. A disk may tell its bytes, those that a read gives; where it does not, the clauses on
/// bytes say nothing.
pub trait Disk {
    /// The bytes, where the disk tells them.
    ghost told: { Self → Option (List ℕ) };

    /// How often the device below has failed.
    ghost faults: { Self → ℕ };

    /// Fills the buffer with the bytes from `at` on; those past the end are zero. A refused call leaves anything in it.
    fn read_at(&mut self, at: u64, buf: &mut [u8]) -> Result<(), DiskFault>
        ensures bytes { OnOk result (IfTold (told self.old) (IsRead at buf.new)) }
        ensures same { told self.new ≡ told self.old }
        ensures cause { HasCause (faults self.old) (faults self.new) (has_failed result) };

    /// Writes the bytes from `at` on. A refused call leaves anything there. All other bytes stay.
    fn write_at(&mut self, at: u64, bytes: &[u8]) -> Result<(), DiskFault>
        requires { at + length bytes.now ≤ 2 ^ 32 }
        ensures ok { OnOk result (Becomes (IsWritten at bytes.now) (told self.old) (told self.new)) }
        ensures err { OnErr result (Becomes (KeepsOutside at (length bytes.now)) (told self.old) (told self.new)) }
        ensures cause { HasCause (faults self.old) (faults self.new) (has_failed result) };

    /// What was written before outlasts a crash.
    fn sync(&mut self) -> Result<(), DiskFault>
        ensures same { told self.new ≡ told self.old }
        ensures cause { HasCause (faults self.old) (faults self.new) (has_failed result) };

    /// How many bytes the disk has.
    fn len(&mut self) -> Result<u64, DiskFault>
        ensures len { IfOk result (λ n. IfTold (told self.old) (λ d. n ≡ length d)) }
        ensures same { told self.new ≡ told self.old }
        ensures cause { HasCause (faults self.old) (faults self.new) (has_failed result) };
}

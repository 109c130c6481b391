ghost use Rattle.std.specs.Prelude.{◌≡◌, ◌+◌, ◌^◌, ◌≤◌, Some, length, IfOk, OnOk, OnErr};
ghost use Rattle.s3_base.specs.Faults.{HasCause};
ghost use Rattle.s3_devices.specs.DiskAnswers.{has_failed};
ghost use Rattle.s3_devices.specs.DiskBytes.{IsRead, IsWritten, KeepsOutside};
ghost use Rattle.mem_disk.specs.Memory.{IsCall};

use crate::MemDisk;
use crate::bytes::{grow, read_bytes, write_bytes};
use s3_devices::{Disk, DiskFault};

/// Every call is counted, and fails where its number is listed. Else only a lack of memory refuses it, and that a write alone.
impl Disk for MemDisk {
    ghost told = { λ d. Some d.bytes };

    ghost faults = { λ d. d.faults };

    fn read_at(&mut self, at: u64, buf: &mut [u8]) -> Result<(), DiskFault>
        ensures bytes { OnOk result (IsRead at buf.new self.old.bytes) }
        ensures same { self.new.bytes ≡ self.old.bytes }
        ensures cause { HasCause self.old.faults self.new.faults (has_failed result) }
        ensures call { IsCall result self.old self.new }
    {
        self.begin()?;
        read_bytes(self.bytes.as_slice(), at, buf);
        Ok(())
    }

    fn write_at(&mut self, at: u64, bytes: &[u8]) -> Result<(), DiskFault>
        requires { at + length bytes.now ≤ 2 ^ 32 }
        ensures ok { OnOk result (IsWritten at bytes.now self.old.bytes self.new.bytes) }
        ensures err { OnErr result (KeepsOutside at (length bytes.now) self.old.bytes self.new.bytes) }
        ensures cause { HasCause self.old.faults self.new.faults (has_failed result) }
        ensures call { IsCall result self.old self.new }
    {
        self.begin()?;
        let at = at as usize;
        grow(&mut self.bytes, at + bytes.len())?;
        write_bytes(self.bytes.as_mut_slice(), at, bytes);
        Ok(())
    }

    fn sync(&mut self) -> Result<(), DiskFault>
        ensures same { self.new.bytes ≡ self.old.bytes }
        ensures cause { HasCause self.old.faults self.new.faults (has_failed result) }
        ensures call { IsCall result self.old self.new }
    {
        self.begin()
    }

    fn len(&mut self) -> Result<u64, DiskFault>
        ensures len { IfOk result (λ n. n ≡ length self.old.bytes) }
        ensures same { self.new.bytes ≡ self.old.bytes }
        ensures cause { HasCause self.old.faults self.new.faults (has_failed result) }
        ensures call { IsCall result self.old self.new }
    {
        self.begin()?;
        Ok(self.bytes.len() as u64)
    }
}

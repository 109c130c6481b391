use s3_devices::{DiskFault, LinkFault};
use std::alloc::AllocError;
use std::io;
use std::io::ErrorKind;

/// Why a call of the system gave no answer.
#[derive(Clone, Copy, Debug, PartialEq, Eq)]
pub(crate) enum Refused {
    /// The system refused it.
    System,
    /// There was no memory.
    Memory,
}

impl From<io::Error> for Refused {
    fn from(error: io::Error) -> Self {
        match error.kind() {
            ErrorKind::OutOfMemory => Refused::Memory,
            _ => Refused::System,
        }
    }
}

impl From<AllocError> for Refused {
    fn from(_error: AllocError) -> Self {
        Refused::Memory
    }
}

impl From<Refused> for LinkFault {
    ghost use Rattle.std.specs.Prelude.{◌≡◌};
    ghost use Rattle.local_devices.specs.declared.refused.Refused.TheVariants.{System, Memory};
    ghost use Rattle.s3_devices.specs.declared.link.LinkFault.TheVariants as faults;

    ghost from_gives = { λ refused fault. fault ≡ (elim refused [ System ↦ faults.Failed | Memory ↦ faults.Memory ]) };

    fn from(refused: Refused) -> Self {
        match refused {
            Refused::System => LinkFault::Failed,
            Refused::Memory => LinkFault::Memory,
        }
    }
}

impl From<Refused> for DiskFault {
    ghost use Rattle.std.specs.Prelude.{◌≡◌};
    ghost use Rattle.local_devices.specs.declared.refused.Refused.TheVariants.{System, Memory};
    ghost use Rattle.s3_devices.specs.declared.disk.DiskFault.TheVariants as faults;

    ghost from_gives = { λ refused fault. fault ≡ (elim refused [ System ↦ faults.Failed | Memory ↦ faults.Memory ]) };

    fn from(refused: Refused) -> Self {
        match refused {
            Refused::System => DiskFault::Failed,
            Refused::Memory => DiskFault::Memory,
        }
    }
}

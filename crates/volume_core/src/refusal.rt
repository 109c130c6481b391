ghost use Rattle.std.specs.Prelude.{◌≡◌};
ghost use Rattle.s3_rows.specs.declared.keeper.KeeperFault.{KeeperFault};
ghost use Rattle.s3_rows.specs.declared.keeper.KeeperFault.TheVariants as faults;
ghost use Rattle.volume_core.specs.declared.refusal.Refusal.TheVariants.{Refused, Keeper, Memory};

use file_ops::FileFault;
use s3_base::Errno;
use s3_rows::{Digest, KeeperFault};
use std::alloc::{AllocError, AllocFailed};

/// Why an operation was not carried out.
#[derive(Clone, Copy, Debug, PartialEq, Eq)]
pub enum Refusal {
    /// A check of the operation fails.
    Refused(Errno),
    /// It needs a number or a count that is at its end.
    Worn,
    /// The keeper failed.
    Keeper,
    /// The link failed.
    Link,
    /// The store has no bytes of the object (`got` is `None`), or bytes of the digest `got` in place of `kept`.
    Lost {
        object: u64,
        kept: Digest,
        got: Option<Digest>,
    },
    /// There is no memory for it.
    Memory,
}

impl From<Errno> for Refusal {
    ghost from_gives = { λ e r. r ≡ Refused e };

    fn from(errno: Errno) -> Self {
        Refusal::Refused(errno)
    }
}

impl From<AllocError> for Refusal {
    ghost from_gives = { λ _ r. r ≡ Memory };

    fn from(_error: AllocError) -> Self {
        Refusal::Memory
    }
}

impl From<KeeperFault> for Refusal {
    ghost from_gives = { λ f r. r ≡ (elim f [ faults.Failed ↦ Keeper | faults.Memory ↦ Memory ]) };

    fn from(fault: KeeperFault) -> Self {
        match fault {
            KeeperFault::Failed => Refusal::Keeper,
            KeeperFault::Memory => Refusal::Memory,
        }
    }
}

impl From<FileFault> for Refusal {
    ghost use Rattle.std.specs.Prelude.{◌≡◌};
    ghost use Rattle.volume_core.specs.Refusals.{refusal_of};

    ghost from_gives = { λ f r. r ≡ refusal_of f };

    fn from(fault: FileFault) -> Self {
        match fault {
            FileFault::Keeper => Refusal::Keeper,
            FileFault::Link => Refusal::Link,
            FileFault::Lost { object, kept, got } => Refusal::Lost { object, kept, got },
            FileFault::Worn => Refusal::Worn,
            FileFault::Memory => Refusal::Memory,
        }
    }
}

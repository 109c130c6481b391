use crate::LoadFault;
use s3_devices::LinkFault;
use s3_rows::{Digest, KeeperFault};
use std::alloc::AllocError;

/// Why blocks of a file were not given, or not placed.
#[derive(Clone, Copy, Debug, PartialEq, Eq)]
pub enum FileFault {
    /// The keeper of the tables failed.
    Keeper,
    /// The link failed.
    Link,
    /// The store has no bytes of the object (`got` is `None`), or bytes of the digest `got` in place of `kept`.
    Lost {
        object: u64,
        kept: Digest,
        got: Option<Digest>,
    },
    /// A number or a count has come to its end.
    Worn,
    /// There was no memory.
    Memory,
}

impl From<LoadFault> for FileFault {
    ghost use Rattle.std.specs.Prelude.{◌≡◌};
    ghost use Rattle.file_ops.specs.declared.load_fault.LoadFault.TheVariants as faults;
    ghost use Rattle.file_ops.specs.declared.file_fault.FileFault.TheVariants.{Link, Lost, Memory};

    ghost from_gives = { λ f r. r ≡ (elim f [ faults.Link ↦ Link | faults.Lost object kept got ↦ Lost object kept got | faults.Memory ↦ Memory ]) };

    fn from(fault: LoadFault) -> Self {
        match fault {
            LoadFault::Link => FileFault::Link,
            LoadFault::Lost { object, kept, got } => FileFault::Lost { object, kept, got },
            LoadFault::Memory => FileFault::Memory,
        }
    }
}

impl From<KeeperFault> for FileFault {
    ghost use Rattle.std.specs.Prelude.{◌≡◌};
    ghost use Rattle.s3_rows.specs.declared.keeper.KeeperFault.TheVariants as faults;
    ghost use Rattle.file_ops.specs.declared.file_fault.FileFault.TheVariants.{Keeper, Memory};

    ghost from_gives = { λ f r. r ≡ (elim f [ faults.Failed ↦ Keeper | faults.Memory ↦ Memory ]) };

    fn from(fault: KeeperFault) -> Self {
        match fault {
            KeeperFault::Failed => FileFault::Keeper,
            KeeperFault::Memory => FileFault::Memory,
        }
    }
}

impl From<LinkFault> for FileFault {
    ghost use Rattle.std.specs.Prelude.{◌≡◌};
    ghost use Rattle.s3_devices.specs.declared.link.LinkFault.TheVariants as faults;
    ghost use Rattle.file_ops.specs.declared.file_fault.FileFault.TheVariants.{Link, Memory};

    ghost from_gives = { λ f r. r ≡ (elim f [ faults.Failed ↦ Link | faults.Memory ↦ Memory ]) };

    fn from(fault: LinkFault) -> Self {
        match fault {
            LinkFault::Failed => FileFault::Link,
            LinkFault::Memory => FileFault::Memory,
        }
    }
}

impl From<AllocError> for FileFault {
    ghost use Rattle.std.specs.Prelude.{◌≡◌};
    ghost use Rattle.file_ops.specs.declared.file_fault.FileFault.TheVariants.{Memory};

    ghost from_gives = { λ _ fault. fault ≡ Memory };

    fn from(_refused: AllocError) -> Self {
        FileFault::Memory
    }
}

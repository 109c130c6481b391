ghost use Rattle.std.specs.Prelude.{◌≡◌};
ghost use Rattle.s3_devices.specs.declared.link.LinkFault.TheVariants as link_faults;
ghost use Rattle.s3_rows.specs.declared.keeper.KeeperFault.TheVariants as keeper_faults;
ghost use Rattle.fsck_findings.specs.declared.repair.PassFault.TheVariants as pass_faults;
ghost use Rattle.fsck_run.specs.declared.fault.FsckFault.TheVariants as faults;

use fsck_findings::PassFault;
use s3_devices::LinkFault;
use s3_rows::KeeperFault;
use std::alloc::AllocError;

/// Why a file system was not checked.
#[derive(Clone, Copy, Debug, PartialEq, Eq)]
pub enum FsckFault {
    /// The keeper has no parameters.
    NoFileSystem,
    /// The store has a newer generation of the metadata than the keeper.
    Newer { store: u64, keeper: u64 },
    /// The cache disk has a block that is not in the store yet, in this slot first. No pass brings it there yet.
    Slots(u32),
    /// A pass needs a number, and none is left.
    Worn,
    /// The keeper failed.
    Keeper,
    /// The link failed.
    Link,
    /// There was no memory.
    Memory,
}

impl From<KeeperFault> for FsckFault {
    ghost from_gives = { λ e r. r ≡ (elim e [ keeper_faults.Failed ↦ faults.Keeper | keeper_faults.Memory ↦ faults.Memory ]) };

    fn from(fault: KeeperFault) -> Self {
        match fault {
            KeeperFault::Failed => FsckFault::Keeper,
            KeeperFault::Memory => FsckFault::Memory,
        }
    }
}

impl From<LinkFault> for FsckFault {
    ghost from_gives = { λ e r. r ≡ (elim e [ link_faults.Failed ↦ faults.Link | link_faults.Memory ↦ faults.Memory ]) };

    fn from(fault: LinkFault) -> Self {
        match fault {
            LinkFault::Failed => FsckFault::Link,
            LinkFault::Memory => FsckFault::Memory,
        }
    }
}

impl From<PassFault> for FsckFault {
    ghost from_gives = { λ e r. r ≡ (elim e [ pass_faults.Worn ↦ faults.Worn | pass_faults.Memory ↦ faults.Memory ]) };

    fn from(fault: PassFault) -> Self {
        match fault {
            PassFault::Worn => FsckFault::Worn,
            PassFault::Memory => FsckFault::Memory,
        }
    }
}

impl From<AllocError> for FsckFault {
    ghost from_gives = { λ _ r. r ≡ faults.Memory };

    fn from(_refused: AllocError) -> Self {
        FsckFault::Memory
    }
}

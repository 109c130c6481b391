ghost use Rattle.std.specs.Prelude.{◌≡◌};
ghost use Rattle.s3_devices.specs.declared.link.LinkFault.TheVariants as link_faults;
ghost use Rattle.s3_rows.specs.declared.keeper.KeeperFault.TheVariants as keeper_faults;
ghost use Rattle.mkfs_ops.specs.declared.fault.MakeFault.TheVariants as faults;

use s3_devices::LinkFault;
use s3_rows::KeeperFault;
use std::alloc::AllocError;

/// Why no file system was made.
#[derive(Clone, Copy, Debug, PartialEq, Eq)]
pub enum MakeFault {
    /// The keeper has a file system, or the store has a key of one.
    Exists,
    /// The keeper failed.
    Keeper,
    /// The link failed.
    Link,
    /// There was no memory.
    Memory,
}

impl From<KeeperFault> for MakeFault {
    ghost from_gives = { λ e r. r ≡ (elim e [ keeper_faults.Failed ↦ faults.Keeper | keeper_faults.Memory ↦ faults.Memory ]) };

    fn from(fault: KeeperFault) -> Self {
        match fault {
            KeeperFault::Failed => MakeFault::Keeper,
            KeeperFault::Memory => MakeFault::Memory,
        }
    }
}

impl From<LinkFault> for MakeFault {
    ghost from_gives = { λ e r. r ≡ (elim e [ link_faults.Failed ↦ faults.Link | link_faults.Memory ↦ faults.Memory ]) };

    fn from(fault: LinkFault) -> Self {
        match fault {
            LinkFault::Failed => MakeFault::Link,
            LinkFault::Memory => MakeFault::Memory,
        }
    }
}

impl From<AllocError> for MakeFault {
    ghost from_gives = { λ _ r. r ≡ faults.Memory };

    fn from(_refused: AllocError) -> Self {
        MakeFault::Memory
    }
}

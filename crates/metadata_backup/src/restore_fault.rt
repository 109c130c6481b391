ghost use Rattle.std.specs.Prelude.{◌≡◌};
ghost use Rattle.s3_devices.specs.declared.link.LinkFault.TheVariants as link_faults;
ghost use Rattle.s3_rows.specs.declared.keeper.KeeperFault.TheVariants as keeper_faults;
ghost use Rattle.metadata_backup.specs.declared.restore_fault.RestoreFault.TheVariants as faults;

use keeper_dump::DumpFault;
use s3_devices::LinkFault;
use s3_rows::KeeperFault;
use std::alloc::AllocError;

/// Why a generation was not restored.
#[derive(Clone, Copy, Debug, PartialEq, Eq)]
pub enum RestoreFault {
    /// The tables are served, or their server ended without closing them.
    Mounted,
    /// The store has no generation.
    NoFileSystem,
    /// The store has not this generation.
    NoGeneration,
    /// What is stored is no dump; never for want of memory.
    Dump(DumpFault),
    /// The keeper failed.
    Keeper,
    /// The link failed.
    Link,
    /// There was no memory.
    Memory,
}

impl From<KeeperFault> for RestoreFault {
    ghost from_gives = { λ e r. r ≡ (elim e [ keeper_faults.Failed ↦ faults.Keeper | keeper_faults.Memory ↦ faults.Memory ]) };

    fn from(fault: KeeperFault) -> Self {
        match fault {
            KeeperFault::Failed => RestoreFault::Keeper,
            KeeperFault::Memory => RestoreFault::Memory,
        }
    }
}

impl From<LinkFault> for RestoreFault {
    ghost from_gives = { λ e r. r ≡ (elim e [ link_faults.Failed ↦ faults.Link | link_faults.Memory ↦ faults.Memory ]) };

    fn from(fault: LinkFault) -> Self {
        match fault {
            LinkFault::Failed => RestoreFault::Link,
            LinkFault::Memory => RestoreFault::Memory,
        }
    }
}

impl From<AllocError> for RestoreFault {
    ghost from_gives = { λ _ r. r ≡ faults.Memory };

    fn from(_refused: AllocError) -> Self {
        RestoreFault::Memory
    }
}

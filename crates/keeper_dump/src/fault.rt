ghost use Rattle.std.specs.Prelude.{◌≡◌};
ghost use Rattle.keeper_dump.specs.declared.fault.DumpFault.TheVariants.{Memory};
ghost use Rattle.keeper_dump.specs.Part.{fault_of_field};

use frame_fields::FrameFault;
use std::alloc::AllocError;

/// Why some bytes are not read as a dump.
#[derive(Clone, Copy, Debug, PartialEq, Eq)]
pub enum DumpFault {
    /// The bytes end inside the dump, and no field before is outside its rule.
    Short,
    /// The place of the first field outside its rule, or of the first byte past the end.
    Bad(u64),
    /// The place of the first row whose key is not greater than that of the row before.
    OutOfOrder(u64),
    /// There is no memory for the tables.
    Memory,
}

impl From<FrameFault> for DumpFault {
    ghost from_gives = { λ e d. d ≡ fault_of_field e };

    fn from(fault: FrameFault) -> Self {
        match fault {
            FrameFault::Short => DumpFault::Short,
            FrameFault::Bad(place) => DumpFault::Bad(place),
            FrameFault::Memory => DumpFault::Memory,
        }
    }
}

impl From<AllocError> for DumpFault {
    ghost from_gives = { λ _ e. e ≡ Memory };

    fn from(_error: AllocError) -> Self {
        DumpFault::Memory
    }
}

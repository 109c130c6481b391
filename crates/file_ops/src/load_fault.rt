use s3_devices::LinkFault;
use s3_rows::Digest;
use std::alloc::AllocError;

/// Why the bytes of an object were not given.
#[derive(Clone, Copy, Debug, PartialEq, Eq)]
pub enum LoadFault {
    /// The link failed.
    Link,
    /// The store has no bytes of the object (`got` is `None`), or bytes of the digest `got` in place of `kept`.
    Lost {
        object: u64,
        kept: Digest,
        got: Option<Digest>,
    },
    /// There was no memory for the bytes.
    Memory,
}

impl From<LinkFault> for LoadFault {
    ghost use Rattle.std.specs.Prelude.{◌≡◌};
    ghost use Rattle.s3_devices.specs.declared.link.LinkFault.TheVariants as faults;
    ghost use Rattle.file_ops.specs.declared.load_fault.LoadFault.TheVariants.{Link, Memory};

    ghost from_gives = { λ f r. r ≡ (elim f [ faults.Failed ↦ Link | faults.Memory ↦ Memory ]) };

    fn from(fault: LinkFault) -> Self {
        match fault {
            LinkFault::Failed => LoadFault::Link,
            LinkFault::Memory => LoadFault::Memory,
        }
    }
}

impl From<AllocError> for LoadFault {
    ghost use Rattle.std.specs.Prelude.{◌≡◌};
    ghost use Rattle.file_ops.specs.declared.load_fault.LoadFault.TheVariants.{Memory};

    ghost from_gives = { λ _ fault. fault ≡ Memory };

    fn from(_refused: AllocError) -> Self {
        LoadFault::Memory
    }
}

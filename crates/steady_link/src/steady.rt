ghost use Rattle.std.specs.Prelude.{◌≡◌, []};

use mem_link::MemLink;
use std::alloc::Global;
use std::marker::Model;

/// An object store in memory whose calls never fail: only a lack of memory refuses one.
#[derive(Debug, Drop)]
pub struct SteadyLink {
    pub(crate) link: MemLink,
}

impl Model for SteadyLink {
    ghost use Rattle.std.specs.Prelude.{◌≡◌, []};
    ghost use Rattle.s3_devices.specs.Objects.{Objects};

    ghost Value = { Objects };

    ghost view = { λ s. s.link.objects };

    ghost invariant = { λ s. s.link.fails ≡ [] };
}

impl SteadyLink {
    /// An empty store, which takes no memory.
    pub fn new(alloc: Global) -> Self
        ensures { result ≡ [] }
    {
        SteadyLink {
            link: MemLink::new(alloc),
        }
    }
}

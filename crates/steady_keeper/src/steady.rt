ghost use Rattle.std.specs.Prelude.{◌≡◌, List, []};
ghost use Rattle.s3_rows.specs.Tables.{no_tables};

use mem_keeper::MemKeeper;
use s3_rows::Tables;
use std::alloc::Global;
use std::marker::Model;

/// A keeper in memory whose calls never fail: only a lack of memory refuses one.
#[derive(Debug, Drop)]
pub struct SteadyKeeper {
    pub(crate) keeper: MemKeeper,
}

impl Model for SteadyKeeper {
    ghost use Rattle.std.specs.Prelude.{◌≡◌, []};
    ghost use Rattle.s3_rows.specs.Told.{Told};

    ghost Value = { Told };

    ghost view = { λ s. s.keeper.told };

    ghost invariant = { λ s. s.keeper.fails ≡ [] };
}

impl SteadyKeeper {
    /// An empty keeper, which takes no memory.
    pub fn new(alloc: Global) -> Self
        ensures { result ≡ record { tables = no_tables; commits = 0 } }
    {
        SteadyKeeper {
            keeper: MemKeeper::new(alloc),
        }
    }

    /// A keeper of these tables. It keeps the lists as they are, and takes no memory.
    pub fn of(alloc: Global, tables: Tables) -> Self
        ensures { result ≡ record { tables = tables; commits = 0 } }
    {
        SteadyKeeper {
            keeper: MemKeeper::of(alloc, tables),
        }
    }
}

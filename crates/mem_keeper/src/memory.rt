ghost use Rattle.std.specs.Prelude.{◌≡◌, []};
ghost use Rattle.s3_rows.specs.Tables.{no_tables};

use crate::filings::Filings;
use crate::indexes::Indexes;
use crate::store::{Store, tell_all_ranges};
use s3_base::NumberList;
use s3_rows::Tables;
use std::alloc::Global;
use std::marker::Model;

/// A store of tables in memory, whose calls of stated numbers fail. It tells its tables and how many batches were
/// committed.
#[derive(Debug, Drop)]
pub struct MemKeeper {
    pub(crate) store: Store,
    pub(crate) indexes: Indexes,
    pub(crate) filings: Filings,
    pub(crate) commits: u64,
    pub(crate) calls: u64,
    pub(crate) fails: NumberList,
    pub(crate) faults: u64,
    pub(crate) alloc: Global,
}

impl Model for MemKeeper {
    ghost use Rattle.std.specs.Prelude.{IsTrue};
    ghost use Rattle.s3_rows.specs.Ranges.{HasRanges};
    ghost use Rattle.mem_keeper.specs.Memory.{KeeperState};
    ghost use Rattle.mem_keeper.specs.Store.{IsMaps, tables_of};
    ghost use Rattle.mem_keeper.specs.Indexes.{Stand};
    ghost use Rattle.mem_keeper.specs.Filed.{AreStanding};

    ghost Value = { KeeperState };

    ghost view = { λ k. record { told = record { tables = tables_of k.store; commits = k.commits }; calls = k.calls; fails = k.fails; faults = k.faults } };

    ghost invariant = { λ k. record { maps : IsMaps k.store.maps; ranges : HasRanges (tables_of k.store); standing : IsTrue k.indexes.stand → Stand k.indexes (tables_of k.store); filed : AreStanding k.filings (tables_of k.store) } };
}

impl MemKeeper {
    /// An empty keeper that never fails, which takes no memory.
    pub fn new(alloc: Global) -> Self
        ensures { result ≡ record { told = record { tables = no_tables; commits = 0 }; calls = 0; fails = []; faults = 0 } }
    {
        MemKeeper::with_fails(alloc, NumberList::new(alloc))
    }

    /// An empty keeper. `fails` has the numbers of the calls that fail, counted from 0.
    pub fn with_fails(alloc: Global, fails: NumberList) -> Self
        ensures { result ≡ record { told = record { tables = no_tables; commits = 0 }; calls = 0; fails = fails; faults = 0 } }
    {
        MemKeeper {
            store: Store::new(alloc),
            indexes: Indexes::new(alloc),
            filings: Filings::new(alloc),
            commits: 0,
            calls: 0,
            fails,
            faults: 0,
            alloc,
        }
    }

    /// A keeper of these tables that never fails. It keeps the lists as they are until the next call, and takes no memory.
    pub fn of(alloc: Global, tables: Tables) -> Self
        ensures { result ≡ record { told = record { tables = tables; commits = 0 }; calls = 0; fails = []; faults = 0 } }
    {
        tell_all_ranges(&tables);
        MemKeeper {
            store: Store::of(alloc, tables),
            indexes: Indexes::new(alloc),
            filings: Filings::new(alloc),
            commits: 0,
            calls: 0,
            fails: NumberList::new(alloc),
            faults: 0,
            alloc,
        }
    }
}

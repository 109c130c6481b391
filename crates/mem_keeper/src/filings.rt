//! The entries by their directories and names, and the attributes by their inodes and names.
ghost use Rattle.std.specs.Prelude.{IsTrue, IfOk, All};
ghost use Rattle.s3_rows.specs.Tables.{Tables, by_entry, by_attr};
ghost use Rattle.mem_keeper.specs.Filed.{keeps_bytes, entry_put, attr_put, AreStanding, IsMoved};
ghost use Rattle.mem_keeper.specs.Store.{IsMaps, tables_in};

use crate::filing::{Filing, Plan, follow, plan_of};
use crate::store::Maps;
use s3_rows::{AttrRow, Change, ContentRow};
use std::alloc::{AllocError, Global};

/// The filings of the entries and of the attributes. They may not stand yet.
#[derive(Debug, Drop)]
pub(crate) struct Filings {
    pub entries: Filing,
    pub attrs: Filing,
}

/// What is known of a batch before it is made.
#[derive(Debug, Drop)]
pub(crate) struct Plans {
    pub entries: Plan,
    pub attrs: Plan,
}

impl Filings {
    /// Filings that do not stand yet, which take no memory.
    pub(crate) fn new(alloc: Global) -> Self
        ensures { (t : Tables) → AreStanding result t }
    {
        Filings {
            entries: Filing::new(alloc),
            attrs: Filing::new(alloc),
        }
    }
}

/// What has to be known of changes before they are made.
pub(crate) fn plans_of(
    filings: &Filings,
    alloc: Global,
    maps: &Maps,
    changes: &[Change],
) -> Result<Plans, AllocError>
    requires { IsMaps maps.now }
    ensures entries { IfOk result (λ p. IsTrue p.entries.keeps → All (λ c. IsTrue (keeps_bytes filings.now.entries.used (tables_in maps.now).names c)) changes.now) }
    ensures attrs { IfOk result (λ p. IsTrue p.attrs.keeps → All (λ c. IsTrue (keeps_bytes filings.now.attrs.used (tables_in maps.now).names c)) changes.now) }
{
    Ok(Plans {
        entries: plan_of::<ContentRow>(&filings.entries, alloc, &maps.names, changes)?,
        attrs: plan_of::<AttrRow>(&filings.attrs, alloc, &maps.names, changes)?,
    })
}

/// Files what changes have put, and takes out what they have deleted.
pub(crate) fn follow_both(filings: &mut Filings, maps: &Maps, changes: &[Change], plans: Plans)
    requires maps { IsMaps maps.now }
    requires entries { IsTrue filings.old.entries.stand → IsTrue plans.entries.keeps → IsMoved by_entry.key entry_put filings.old.entries (tables_in maps.now).names changes.now (tables_in maps.now).contents }
    requires attrs { IsTrue filings.old.attrs.stand → IsTrue plans.attrs.keeps → IsMoved by_attr.key attr_put filings.old.attrs (tables_in maps.now).names changes.now (tables_in maps.now).attrs }
    ensures { AreStanding filings.new (tables_in maps.now) }
{
    follow::<ContentRow>(
        &mut filings.entries,
        &maps.contents,
        &maps.names,
        changes,
        plans.entries,
    );
    follow::<AttrRow>(
        &mut filings.attrs,
        &maps.attrs,
        &maps.names,
        changes,
        plans.attrs,
    );
}

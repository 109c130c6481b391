//! A batch, committed whole or not at all.
ghost use Rattle.std.specs.Prelude.{◌≡◌, IsTrue, IfOk, OnOk, OnErr, All};
ghost use Rattle.s3_rows.specs.Batches.{tables_after};
ghost use Rattle.s3_rows.specs.Ranges.{HasRanges};
ghost use Rattle.mem_keeper.specs.Filed.{AreStanding};
ghost use Rattle.mem_keeper.specs.Indexes.{Stand, IsListedChange, StayListed};
ghost use Rattle.mem_keeper.specs.Store.{IsMaps, tables_in, tables_of, HasPlace};

use crate::filings::{Filings, follow_both, plans_of};
use crate::indexes::{Indexes, list_changes, tidy};
use crate::store::{Gone, Maps, Store, apply_change, drop_change, hold_change, settle};
use s3_rows::{Batch, Change};
use std::alloc::{AllocError, Global};

// Holds the places of the rows that the changes put.
fn hold_places(maps: &mut Maps, changes: &[Change]) -> Result<(), AllocError>
    requires { IsMaps maps.old }
    ensures maps { IsMaps maps.new }
    ensures tables { tables_in maps.new ≡ tables_in maps.old }
    ensures held { OnOk result (All (HasPlace maps.new) changes.now) }
{
    for change in changes {
        hold_change(maps, change)?;
    }
    Ok(())
}

// Lets go of the places that have no row.
fn drop_places(maps: &mut Maps, changes: &[Change])
    requires { IsMaps maps.old }
    ensures maps { IsMaps maps.new }
    ensures tables { tables_in maps.new ≡ tables_in maps.old }
{
    for change in changes {
        drop_change(maps, change);
    }
}

// Makes the changes in order.
fn apply_changes(maps: &mut Maps, gone: &mut Gone, mut changes: Vec<Change>)
    requires maps { IsMaps maps.old }
    requires ranges { HasRanges (tables_in maps.old) }
    requires places { All (HasPlace maps.old) changes.items }
    ensures tables { tables_in maps.new ≡ tables_after changes.items (tables_in maps.old) }
    ensures ranges { HasRanges (tables_in maps.new) }
    ensures maps { IsMaps maps.new }
{
    changes.reverse();
    while let Some(change) = changes.pop() {
        apply_change(maps, gone, change);
    }
}

// Makes the changes in order, and keeps the indexes.
fn apply_whole(maps: &mut Maps, indexes: &mut Indexes, mut gone: Gone, changes: Vec<Change>)
    requires maps { IsMaps maps.old }
    requires ranges { HasRanges (tables_in maps.old) }
    requires places { All (HasPlace maps.old) changes.items }
    requires standing { IsTrue indexes.old.stand → Stand indexes.old (tables_in maps.old) }
    requires listed { IsTrue indexes.old.stand → All (IsListedChange indexes.old) changes.items }
    ensures tables { tables_in maps.new ≡ tables_after changes.items (tables_in maps.old) }
    ensures standing { IsTrue indexes.new.stand → Stand indexes.new (tables_in maps.new) }
    ensures ranges { HasRanges (tables_in maps.new) }
    ensures maps { IsMaps maps.new }
{
    apply_changes(maps, &mut gone, changes);
    if indexes.stand {
        tidy(indexes, maps, &gone);
    }
}

// Makes the changes in order, or none where there is no memory for the places of their rows.
fn hold_and_apply(
    maps: &mut Maps,
    indexes: &mut Indexes,
    gone: Gone,
    changes: Vec<Change>,
) -> Result<(), AllocError>
    requires maps { IsMaps maps.old }
    requires ranges { HasRanges (tables_in maps.old) }
    requires standing { IsTrue indexes.old.stand → Stand indexes.old (tables_in maps.old) }
    requires listed { IsTrue indexes.old.stand → All (IsListedChange indexes.old) changes.items }
    ensures ok { OnOk result (tables_in maps.new ≡ tables_after changes.items (tables_in maps.old)) }
    ensures err { OnErr result (tables_in maps.new ≡ tables_in maps.old) }
    ensures standing { IsTrue indexes.new.stand → Stand indexes.new (tables_in maps.new) }
    ensures ranges { HasRanges (tables_in maps.new) }
    ensures maps { IsMaps maps.new }
{
    hold_places(maps, changes.as_slice())?;
    apply_whole(maps, indexes, gone, changes);
    Ok(())
}

// Lists the rows that the changes put, where the indexes stand.
fn list_puts(indexes: &mut Indexes, alloc: Global, changes: &[Change]) -> Result<(), AllocError>
    ensures ok { OnOk result (IsTrue indexes.new.stand → All (IsListedChange indexes.new) changes.now) }
    ensures kept { StayListed indexes.old indexes.new }
    ensures same { indexes.new.stand ≡ indexes.old.stand }
{
    if indexes.stand {
        list_changes(indexes, alloc, changes)
    } else {
        Ok(())
    }
}

// A copy of a batch.
fn copy_of(batch: &Batch) -> Result<Batch, AllocError>
    ensures { IfOk result (λ b. b ≡ batch.now) }
{
    batch.clone()
}

// Room for the rows that changes replace or delete.
fn room_for_gone(alloc: Global, rows: usize) -> Result<Gone, AllocError> {
    Ok(Gone {
        names: Vec::with_capacity(alloc, rows)?,
        blocks: Vec::with_capacity(alloc, rows)?,
        contents: Vec::with_capacity(alloc, rows)?,
    })
}

// Makes the changes of a batch in the maps, or changes nothing where there is no memory.
fn commit_maps(
    alloc: Global,
    maps: &mut Maps,
    indexes: &mut Indexes,
    batch: &Batch,
) -> Result<(), AllocError>
    requires maps { IsMaps maps.old }
    requires ranges { HasRanges (tables_in maps.old) }
    requires standing { IsTrue indexes.old.stand → Stand indexes.old (tables_in maps.old) }
    ensures ok { OnOk result (tables_in maps.new ≡ tables_after batch.now (tables_in maps.old)) }
    ensures err { OnErr result (tables_in maps.new ≡ tables_in maps.old) }
    ensures standing { IsTrue indexes.new.stand → Stand indexes.new (tables_in maps.new) }
    ensures ranges { HasRanges (tables_in maps.new) }
    ensures maps { IsMaps maps.new }
{
    let changes = copy_of(batch)?.into_vec();
    let gone = room_for_gone(alloc, changes.len())?;
    list_puts(indexes, alloc, changes.as_slice())?;
    let done = hold_and_apply(maps, indexes, gone, changes);
    drop_places(maps, batch.as_slice());
    done
}

// Makes the changes of a batch in the maps and in the filings, or changes nothing where there is no memory.
fn commit_filed(
    alloc: Global,
    maps: &mut Maps,
    indexes: &mut Indexes,
    filings: &mut Filings,
    batch: &Batch,
) -> Result<(), AllocError>
    requires maps { IsMaps maps.old }
    requires ranges { HasRanges (tables_in maps.old) }
    requires standing { IsTrue indexes.old.stand → Stand indexes.old (tables_in maps.old) }
    requires filed { AreStanding filings.old (tables_in maps.old) }
    ensures ok { OnOk result (tables_in maps.new ≡ tables_after batch.now (tables_in maps.old)) }
    ensures err { OnErr result (tables_in maps.new ≡ tables_in maps.old) }
    ensures standing { IsTrue indexes.new.stand → Stand indexes.new (tables_in maps.new) }
    ensures filed { AreStanding filings.new (tables_in maps.new) }
    ensures ranges { HasRanges (tables_in maps.new) }
    ensures maps { IsMaps maps.new }
{
    let plans = plans_of(filings, alloc, maps, batch.as_slice())?;
    commit_maps(alloc, maps, indexes, batch)?;
    follow_both(filings, maps, batch.as_slice(), plans);
    Ok(())
}

/// Makes the changes of a batch, or changes nothing where there is no memory.
pub(crate) fn commit_batch(
    alloc: Global,
    store: &mut Store,
    indexes: &mut Indexes,
    filings: &mut Filings,
    batch: &Batch,
) -> Result<(), AllocError>
    requires maps { IsMaps store.old.maps }
    requires ranges { HasRanges (tables_of store.old) }
    requires standing { IsTrue indexes.old.stand → Stand indexes.old (tables_of store.old) }
    requires filed { AreStanding filings.old (tables_of store.old) }
    ensures ok { OnOk result (tables_of store.new ≡ tables_after batch.now (tables_of store.old)) }
    ensures err { OnErr result (tables_of store.new ≡ tables_of store.old) }
    ensures standing { IsTrue indexes.new.stand → Stand indexes.new (tables_of store.new) }
    ensures filed { AreStanding filings.new (tables_of store.new) }
    ensures ranges { HasRanges (tables_of store.new) }
    ensures maps { IsMaps store.new.maps }
{
    settle(store, alloc)?;
    commit_filed(alloc, &mut store.maps, indexes, filings, batch)
}

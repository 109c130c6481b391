//! The places of a file that go.
ghost use Rattle.std.specs.Prelude.{◌≡◌, ◌≤◌, ◌<◌, ◌^◌, ◌++◌, IfOk, OnOk};
ghost use Rattle.std.specs.Option.{ForSome};
ghost use Rattle.s3_base.specs.Faults.{HasCause};
ghost use Rattle.s3_rows.specs.Rows.{IsId};
ghost use Rattle.s3_rows.specs.Tables.{IsOrdered};
ghost use Rattle.s3_rows.specs.Batches.{tables_after};
ghost use Rattle.s3_rows.specs.Told.{IfTold, has_failed};
ghost use Rattle.ref_counts.specs.Links.{next_place, places_dropped, places_from, places_of_gone};

use crate::links::relink;
use s3_rows::{Batch, Keeper, KeeperFault, Spot};
use std::alloc::Global;

/// The number of the first block of a file that has a row, from one on.
fn find_place<K: Keeper>(keeper: &mut K, inode: u64, from: u64) -> Result<Option<u64>, KeeperFault>
    ensures next { IfOk result (λ found. IfTold (K.told keeper.old) (λ t. found ≡ next_place t inode from)) }
    ensures from { IfOk result (λ found. ForSome found (λ n. from ≤ n)) }
    ensures short { IfOk result (λ found. ForSome found (λ n. n < 2 ^ 38)) }
    ensures same { K.told keeper.new ≡ K.told keeper.old }
    ensures cause { HasCause (K.faults keeper.old) (K.faults keeper.new) (has_failed result) }
{
    let page = keeper.blocks_of(inode, from, 1)?;
    match page.as_slice().first() {
        Some(row) => Ok(Some(row.blockno)),
        None => Ok(None),
    }
}

/// Adds the changes by which the places of a file from a block on name no block any more, in the order of their numbers. A refused
/// call leaves a batch that is to be dropped.
pub fn drop_links<K: Keeper>(
    keeper: &mut K,
    batch: &mut Batch,
    inode: u64,
    from: u64,
) -> Result<(), KeeperFault>
    requires inode { IsId inode }
    ensures dropped { OnOk result (IfTold (K.told keeper.old) (λ t. IsOrdered t → batch.new ≡ batch.old ++ places_dropped (places_from t inode from) (tables_after batch.old t))) }
    ensures same { K.told keeper.new ≡ K.told keeper.old }
    ensures cause { HasCause (K.faults keeper.old) (K.faults keeper.new) (has_failed result) }
{
    let mut next = from;
    'places: loop {
        let Some(blockno) = find_place(keeper, inode, next)? else {
            return Ok(());
        };
        relink(keeper, batch, Spot { inode, blockno }, None)?;
        next = blockno + 1;
    }
}

/// The batch by which the places of a file that goes name no block any more, and an empty one where something keeps the file.
pub fn drop_gone_links<K: Keeper>(
    alloc: Global,
    keeper: &mut K,
    kept: bool,
    inode: u64,
) -> Result<Batch, KeeperFault>
    requires { IsId inode }
    ensures batch { IfOk result (λ b. IfTold (K.told keeper.old) (λ t. IsOrdered t → b ≡ places_of_gone kept t inode)) }
    ensures same { K.told keeper.new ≡ K.told keeper.old }
    ensures cause { HasCause (K.faults keeper.old) (K.faults keeper.new) (has_failed result) }
{
    let mut batch = Batch::new(alloc);
    if kept {
        return Ok(batch);
    }
    drop_links(keeper, &mut batch, inode, 0)?;
    Ok(batch)
}

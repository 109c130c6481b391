//! Which block lies at a place of a file, and the counts of blocks and objects.
ghost use Rattle.std.specs.Prelude.{◌≡◌, ◌+◌, ◌<◌, ◌^◌, ◌++◌, ◌∷◌, [], ℕ, Some, None, IfOk, OnOk};
ghost use Rattle.std.specs.Option.{ForSome};
ghost use Rattle.s3_base.specs.Faults.{HasCause};
ghost use Rattle.s3_rows.specs.Rows.{IsId};
ghost use Rattle.s3_rows.specs.Batches.{tables_after};
ghost use Rattle.s3_rows.specs.Selections.{block_at, object_at};
ghost use Rattle.s3_rows.specs.Told.{IfTold, has_failed};
ghost use Rattle.ref_counts.specs.Links.{counted_block, link_set, lowered_block, lowered_object, relinked, IsCounted};

use crate::pending::{pending_block, pending_link, pending_object};
use s3_base::LIMIT;
use s3_rows::{Batch, BlockRow, Change, InodeBlockRow, Keeper, KeeperFault, ObjectRow, Spot};

/// Adds the change by which a block has one place more, over the batch so far. `false` where the block has no row, or its count would
/// not be below 2^62; nothing is added then. A refused call leaves a batch that is to be dropped.
pub fn count_block<K: Keeper>(
    keeper: &mut K,
    batch: &mut Batch,
    block: u64,
) -> Result<bool, KeeperFault>
    ensures counted { IfOk result (λ done. IfTold (K.told keeper.old) (λ t. IsCounted (counted_block (block_at (tables_after batch.old t) block)) batch.old done batch.new)) }
    ensures same { K.told keeper.new ≡ K.told keeper.old }
    ensures cause { HasCause (K.faults keeper.old) (K.faults keeper.new) (has_failed result) }
{
    let Some(row) = pending_block(keeper, batch, block)? else {
        return Ok(false);
    };
    let refcount = row.refcount + 1;
    if refcount >= LIMIT {
        return Ok(false);
    }
    batch.push(Change::PutBlock(BlockRow { refcount, ..row }))?;
    Ok(true)
}

/// Adds the change by which an object has one block less; none where it has no row.
fn lower_object<K: Keeper>(
    keeper: &mut K,
    batch: &mut Batch,
    object: u64,
) -> Result<(), KeeperFault>
    ensures lowered { OnOk result (IfTold (K.told keeper.old) (λ t. batch.new ≡ batch.old ++ lowered_object (object_at (tables_after batch.old t) object))) }
    ensures same { K.told keeper.new ≡ K.told keeper.old }
    ensures cause { HasCause (K.faults keeper.old) (K.faults keeper.new) (has_failed result) }
{
    if let Some(row) = pending_object(keeper, batch, object)? {
        batch.push(Change::PutObject(ObjectRow {
            refcount: row.refcount.saturating_sub(1),
            ..row
        }))?;
    }
    Ok(())
}

/// Adds the changes by which a block has one place less; none where it has no row.
fn lower_block<K: Keeper>(keeper: &mut K, batch: &mut Batch, block: u64) -> Result<(), KeeperFault>
    ensures lowered { OnOk result (IfTold (K.told keeper.old) (λ t. batch.new ≡ batch.old ++ lowered_block (tables_after batch.old t) (block_at (tables_after batch.old t) block))) }
    ensures same { K.told keeper.new ≡ K.told keeper.old }
    ensures cause { HasCause (K.faults keeper.old) (K.faults keeper.new) (has_failed result) }
{
    let Some(row) = pending_block(keeper, batch, block)? else {
        return Ok(());
    };
    if row.refcount != 1 {
        batch.push(Change::PutBlock(BlockRow {
            refcount: row.refcount.saturating_sub(1),
            ..row
        }))?;
        return Ok(());
    }
    batch.push(Change::DeleteBlock(row.id))?;
    lower_object(keeper, batch, row.object)
}

/// The change by which a place names a block, or none.
fn link_change(spot: Spot, block: Option<u64>) -> Change
    requires inode { IsId spot.inode }
    requires place { spot.blockno < 2 ^ 38 }
    requires block { ForSome block IsId }
    ensures { result ≡ link_set spot.inode spot.blockno block }
{
    match block {
        Some(block) => Change::PutInodeBlock(InodeBlockRow {
            inode: spot.inode,
            blockno: spot.blockno,
            block,
        }),
        None => Change::DeleteInodeBlock(spot.inode, spot.blockno),
    }
}

/// Adds the changes by which a place names a block, or none, over the batch so far. The block that it named has one place less: its row
/// goes with the last, and then its object has one block less. The new block is counted before, by `count_block`; where a
/// call changes several places, all new blocks are counted before the first place is changed, so that a block which moves from
/// one place to another keeps its row. A refused call leaves a batch that is to be dropped.
pub fn relink<K: Keeper>(
    keeper: &mut K,
    batch: &mut Batch,
    spot: Spot,
    block: Option<u64>,
) -> Result<(), KeeperFault>
    requires inode { IsId spot.inode }
    requires place { spot.blockno < 2 ^ 38 }
    requires block { ForSome block IsId }
    ensures relinked { OnOk result (IfTold (K.told keeper.old) (λ t. batch.new ≡ batch.old ++ relinked (tables_after batch.old t) spot.inode spot.blockno block)) }
    ensures same { K.told keeper.new ≡ K.told keeper.old }
    ensures cause { HasCause (K.faults keeper.old) (K.faults keeper.new) (has_failed result) }
{
    let Some(old) = pending_link(keeper, batch, spot)? else {
        if block.is_some() {
            batch.push(link_change(spot, block))?;
        }
        return Ok(());
    };
    batch.push(link_change(spot, block))?;
    lower_block(keeper, batch, old.block)
}

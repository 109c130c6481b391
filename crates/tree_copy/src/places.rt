//! The places of the copy of a file.
ghost use Rattle.std.specs.Prelude.{◌≡◌, ◌≤◌, ◌++◌, [], ◌∷◌, true, find, IfOk, OnOk};
ghost use Rattle.std.specs.Option.{ForSome};
ghost use Rattle.s3_base.specs.Faults.{HasCause};
ghost use Rattle.s3_rows.specs.declared.change.Change.TheVariants as changes;
ghost use Rattle.s3_rows.specs.Batches.{tables_after};
ghost use Rattle.s3_rows.specs.Rows.{IsId};
ghost use Rattle.s3_rows.specs.Selections.{block_at};
ghost use Rattle.s3_rows.specs.Tables.{IsOrdered};
ghost use Rattle.s3_rows.specs.Told.{IfTold, has_failed};
ghost use Rattle.ref_counts.specs.Links.{is_place_from, places_from};
ghost use Rattle.tree_copy.specs.CopiedPlaces.{block_fits, file_copied, file_fits, moved_place, place_copied};

use ref_counts::count_block;
use s3_rows::{Batch, Change, InodeBlockRow, Keeper, KeeperFault};
use std::alloc::AllocError;

/// The first place of a file that has a row, from a number on.
fn next_place<K: Keeper>(
    keeper: &mut K,
    inode: u64,
    from: u64,
) -> Result<Option<InodeBlockRow>, KeeperFault>
    ensures next { IfOk result (λ found. IfTold (K.told keeper.old) (λ t. found ≡ find (is_place_from inode from) t.inode_blocks)) }
    ensures from { IfOk result (λ found. ForSome found (λ r. from ≤ r.blockno)) }
    ensures same { K.told keeper.new ≡ K.told keeper.old }
    ensures cause { HasCause (K.faults keeper.old) (K.faults keeper.new) (has_failed result) }
{
    let page = keeper.blocks_of(inode, from, 1)?;
    match page.as_slice().first() {
        Some(row) => Ok(Some(*row)),
        None => Ok(None),
    }
}

/// The same place of another file names the block.
fn put_place(batch: &mut Batch, row: &InodeBlockRow, copy: u64) -> Result<(), AllocError>
    requires { IsId copy }
    ensures { OnOk result (batch.new ≡ batch.old ++ changes.PutInodeBlock (moved_place copy row.now) ∷ []) }
{
    batch.push(Change::PutInodeBlock(InodeBlockRow {
        inode: copy,
        ..*row
    }))?;
    Ok(())
}

/// Adds the changes by which a place of the copy names the block of the same place of the file. False where the block may not count
/// one place more; the batch is to be dropped then.
fn copy_place<K: Keeper>(
    keeper: &mut K,
    batch: &mut Batch,
    row: &InodeBlockRow,
    copy: u64,
) -> Result<bool, KeeperFault>
    requires { IsId copy }
    ensures fits { IfOk result (λ fits. IfTold (K.told keeper.old) (λ t. fits ≡ block_fits (block_at (tables_after batch.old t) row.now.block))) }
    ensures copied { IfOk result (λ fits. IfTold (K.told keeper.old) (λ t. fits ≡ true → batch.new ≡ batch.old ++ place_copied copy row.now (tables_after batch.old t))) }
    ensures same { K.told keeper.new ≡ K.told keeper.old }
    ensures cause { HasCause (K.faults keeper.old) (K.faults keeper.new) (has_failed result) }
{
    if !count_block(keeper, batch, row.block)? {
        return Ok(false);
    }
    put_place(batch, row, copy)?;
    Ok(true)
}

/// Adds the changes by which the places of the copy of a file name the blocks of the file, one after the other. False where a block
/// may not count one place more; the batch is to be dropped then.
pub fn copy_places<K: Keeper>(
    keeper: &mut K,
    batch: &mut Batch,
    file: u64,
    copy: u64,
) -> Result<bool, KeeperFault>
    requires { IsId copy }
    ensures fits { IfOk result (λ fits. IfTold (K.told keeper.old) (λ t. IsOrdered t → fits ≡ file_fits copy (places_from t file 0) (tables_after batch.old t))) }
    ensures copied { IfOk result (λ fits. IfTold (K.told keeper.old) (λ t. IsOrdered t → fits ≡ true
        → batch.new ≡ batch.old ++ file_copied copy (places_from t file 0) (tables_after batch.old t))) }
    ensures same { K.told keeper.new ≡ K.told keeper.old }
    ensures cause { HasCause (K.faults keeper.old) (K.faults keeper.new) (has_failed result) }
{
    let mut next = 0;
    'places: loop {
        let Some(row) = next_place(keeper, file, next)? else {
            return Ok(true);
        };
        if !copy_place(keeper, batch, &row, copy)? {
            return Ok(false);
        }
        next = row.blockno + 1;
    }
}

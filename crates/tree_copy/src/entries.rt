//! What comes for an entry of the source and for what it names.
ghost use Rattle.std.specs.Prelude.{◌≡◌, ◌<◌, ◌^◌, ◌++◌, true, None, IfOk};
ghost use Rattle.s3_base.specs.Faults.{HasCause};
ghost use Rattle.plain_tree.specs.Checks.{attribute_name_check};
ghost use Rattle.s3_rows.specs.Batches.{tables_after};
ghost use Rattle.s3_rows.specs.Rows.{IsId};
ghost use Rattle.s3_rows.specs.Selections.{inode_at};
ghost use Rattle.s3_rows.specs.Tables.{IsOrdered};
ghost use Rattle.s3_rows.specs.Told.{IfTold, has_failed};
ghost use Rattle.ref_counts.specs.Names.{StaysUnique};
ghost use Rattle.tree_copy.specs.CopiedNames.{AreAttrNames, child_may_come, entry_may_come, may_link, may_link_to, with_entry};
ghost use Rattle.tree_copy.specs.CopiedRows.{child_copied, link_counted};

use crate::rows::{copy_entry, copy_node};
use ref_counts::pending_inode;
use s3_base::{ByteList, LIMIT};
use s3_rows::{Batch, Change, InodeRow, Keeper, KeeperFault};
use std::alloc::{AllocError, Global};

/// Where the copy of an entry comes: the copy of its directory, the number of the copy of what it names, whether that came before,
/// and the time.
#[derive(Clone, Copy, Debug)]
pub struct CopySpot {
    pub directory: u64,
    pub copy: u64,
    pub again: bool,
    pub now: u64,
}

/// Adds the change by which one entry more names the inode. False where its count is at its end; nothing is added then.
fn link_row(batch: &mut Batch, row: InodeRow) -> Result<bool, AllocError>
    ensures fits { IfOk result (λ fits. fits ≡ may_link_to row) }
    ensures counted { IfOk result (λ fits. fits ≡ true → batch.new ≡ batch.old ++ link_counted (Some row)) }
{
    let refcount = row.refcount + 1;
    if refcount >= LIMIT {
        return Ok(false);
    }
    batch.push(Change::PutInode(InodeRow { refcount, ..row }))?;
    Ok(true)
}

/// Adds the change by which one entry more names the inode, over the batch so far. False where its count is at its end; nothing is
/// added then, nor where it has no row.
fn count_link<K: Keeper>(keeper: &mut K, batch: &mut Batch, id: u64) -> Result<bool, KeeperFault>
    ensures fits { IfOk result (λ fits. IfTold (K.told keeper.old) (λ t. fits ≡ may_link (inode_at (tables_after batch.old t) id))) }
    ensures counted { IfOk result (λ fits. IfTold (K.told keeper.old) (λ t. fits ≡ true
        → batch.new ≡ batch.old ++ link_counted (inode_at (tables_after batch.old t) id))) }
    ensures same { K.told keeper.new ≡ K.told keeper.old }
    ensures cause { HasCause (K.faults keeper.old) (K.faults keeper.new) (has_failed result) }
{
    match pending_inode(keeper, batch, id)? {
        Some(row) => Ok(link_row(batch, row)?),
        None => Ok(true),
    }
}

/// Adds the changes by which what an entry names comes with the copy: a node more at the first visit, and a link more at a later one.
/// False where a name, a number or a count is at its end; the batch is to be dropped then.
fn copy_child<K: Keeper>(
    alloc: Global,
    keeper: &mut K,
    batch: &mut Batch,
    row: &InodeRow,
    spot: CopySpot,
) -> Result<bool, KeeperFault>
    requires copy { IsId spot.copy }
    requires now { spot.now < 2 ^ 62 }
    ensures fits { IfOk result (λ fits. IfTold (K.told keeper.old) (λ t. IsOrdered t → StaysUnique batch.old t → AreAttrNames t row.now.id
        → fits ≡ child_may_come spot.again t spot.copy spot.now row.now (tables_after batch.old t))) }
    ensures copied { IfOk result (λ fits. IfTold (K.told keeper.old) (λ t. IsOrdered t → StaysUnique batch.old t → AreAttrNames t row.now.id → fits ≡ true
        → batch.new ≡ batch.old ++ child_copied spot.again t spot.copy spot.now row.now (tables_after batch.old t))) }
    ensures unique { IfOk result (λ fits. IfTold (K.told keeper.old) (λ t. IsOrdered t → StaysUnique batch.old t → AreAttrNames t row.now.id → fits ≡ true
        → StaysUnique batch.new t)) }
    ensures same { K.told keeper.new ≡ K.told keeper.old }
    ensures cause { HasCause (K.faults keeper.old) (K.faults keeper.new) (has_failed result) }
{
    if spot.again {
        count_link(keeper, batch, spot.copy)
    } else {
        copy_node(alloc, keeper, batch, row, spot.copy, spot.now)
    }
}

/// Adds the changes by which an entry of the source comes with the copy: what it names, and then the entry itself. False where a name, a
/// number or a count is at its end; the batch is to be dropped then.
pub fn copy_visit<K: Keeper>(
    alloc: Global,
    keeper: &mut K,
    batch: &mut Batch,
    row: &InodeRow,
    name: &ByteList,
    spot: CopySpot,
) -> Result<bool, KeeperFault>
    requires directory { IsId spot.directory }
    requires copy { IsId spot.copy }
    requires now { spot.now < 2 ^ 62 }
    ensures fits { IfOk result (λ fits. IfTold (K.told keeper.old) (λ t. IsOrdered t → StaysUnique batch.old t → AreAttrNames t row.now.id → attribute_name_check name.now ≡ None
        → fits ≡ entry_may_come spot.again t spot.copy spot.now row.now name.now (tables_after batch.old t))) }
    ensures copied { IfOk result (λ fits. IfTold (K.told keeper.old) (λ t. IsOrdered t → StaysUnique batch.old t → AreAttrNames t row.now.id → attribute_name_check name.now ≡ None
        → fits ≡ true
        → batch.new ≡ batch.old ++ with_entry (child_copied spot.again t spot.copy spot.now row.now (tables_after batch.old t)) spot.directory name.now spot.copy (tables_after batch.old t))) }
    ensures unique { IfOk result (λ fits. IfTold (K.told keeper.old) (λ t. IsOrdered t → StaysUnique batch.old t → AreAttrNames t row.now.id → attribute_name_check name.now ≡ None
        → fits ≡ true → StaysUnique batch.new t)) }
    ensures same { K.told keeper.new ≡ K.told keeper.old }
    ensures cause { HasCause (K.faults keeper.old) (K.faults keeper.new) (has_failed result) }
{
    if !copy_child(alloc, keeper, batch, row, spot)? {
        return Ok(false);
    }
    copy_entry(keeper, batch, name, spot.directory, spot.copy)
}

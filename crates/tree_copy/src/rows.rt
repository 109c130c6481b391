//! The row of the copy of a node with its target, all that is its own, and an entry that names it.
ghost use Rattle.std.specs.Prelude.{◌≡◌, ◌<◌, ◌^◌, ◌++◌, ◌∷◌, [], ◌&&◌, true, is_some, None, IfOk, OnOk};
ghost use Rattle.s3_base.specs.Faults.{HasCause};
ghost use Rattle.plain_tree.specs.Checks.{attribute_name_check};
ghost use Rattle.s3_rows.specs.declared.change.Change.TheVariants as changes;
ghost use Rattle.s3_rows.specs.Batches.{tables_after};
ghost use Rattle.s3_rows.specs.Rows.{IsId};
ghost use Rattle.s3_rows.specs.Selections.{target_at};
ghost use Rattle.s3_rows.specs.Tables.{IsOrdered};
ghost use Rattle.s3_rows.specs.Told.{IfTold, has_failed};
ghost use Rattle.ref_counts.specs.Names.{raised, StaysUnique};
ghost use Rattle.ref_counts.specs.Pending.{params_set};
ghost use Rattle.tree_copy.specs.CopiedNames.{AreAttrNames, may_draw, may_draw_from};
ghost use Rattle.tree_copy.specs.CopiedRows.{copied_row, drawing, entry_copied, node_copied, node_fits, row_copied, target_copied};
ghost use Rattle.row_steps.specs.RowChanges.{drawn};

use crate::names::{copy_attrs, use_name};
use s3_base::{ByteList, LIMIT};
use s3_rows::{Batch, Change, ContentRow, InodeRow, Keeper, KeeperFault, Params, RowId, TargetRow};
use std::alloc::{AllocError, Global};

/// The parameters that a change sets.
fn params_set(change: &Change) -> Option<Params>
    ensures { result ≡ params_set change.now }
{
    match change {
        Change::SetParams(params) => Some(*params),
        _ => None,
    }
}

/// The parameters after the batch.
fn pending_params<K: Keeper>(keeper: &mut K, batch: &Batch) -> Result<Option<Params>, KeeperFault>
    ensures row { IfOk result (λ r. IfTold (K.told keeper.old) (λ t. r ≡ (tables_after batch.now t).params)) }
    ensures same { K.told keeper.new ≡ K.told keeper.old }
    ensures cause { HasCause (K.faults keeper.old) (K.faults keeper.new) (has_failed result) }
{
    match batch.last(RowId::Params) {
        Some(change) => Ok(params_set(change)),
        None => keeper.params(),
    }
}

/// Draws the number that comes next. False where none is left; nothing is added then.
fn draw_from(batch: &mut Batch, params: Params) -> Result<bool, AllocError>
    ensures fits { IfOk result (λ fits. fits ≡ may_draw_from params) }
    ensures drawn { IfOk result (λ fits. fits ≡ true → batch.new ≡ batch.old ++ changes.SetParams (drawn params) ∷ []) }
{
    let next = params.next_inode;
    if next >= LIMIT {
        return Ok(false);
    }
    batch.push(Change::SetParams(Params {
        next_inode: next + 1,
        ..params
    }))?;
    Ok(true)
}

/// Draws the number that comes next after the batch. False where none is left; nothing is added then.
fn draw<K: Keeper>(keeper: &mut K, batch: &mut Batch) -> Result<bool, KeeperFault>
    ensures fits { IfOk result (λ fits. IfTold (K.told keeper.old) (λ t. fits ≡ may_draw (tables_after batch.old t).params)) }
    ensures drawn { IfOk result (λ fits. IfTold (K.told keeper.old) (λ t. fits ≡ true → batch.new ≡ batch.old ++ drawing (tables_after batch.old t).params)) }
    ensures same { K.told keeper.new ≡ K.told keeper.old }
    ensures cause { HasCause (K.faults keeper.old) (K.faults keeper.new) (has_failed result) }
{
    match pending_params(keeper, batch)? {
        Some(params) => Ok(draw_from(batch, params)?),
        None => Ok(false),
    }
}

/// Puts the same target for the copy.
fn put_target(batch: &mut Batch, target: TargetRow, copy: u64) -> Result<(), AllocError>
    requires { IsId copy }
    ensures { OnOk result (batch.new ≡ batch.old ++ changes.PutTarget (record { inode = copy; target = target.target }) ∷ []) }
{
    batch.push(Change::PutTarget(TargetRow {
        inode: copy,
        target: target.target,
    }))?;
    Ok(())
}

/// Adds the change by which the target of a symbolic link comes with its copy, if there is one.
fn copy_target<K: Keeper>(
    keeper: &mut K,
    batch: &mut Batch,
    node: u64,
    copy: u64,
) -> Result<(), KeeperFault>
    requires { IsId copy }
    ensures copied { OnOk result (IfTold (K.told keeper.old) (λ t. batch.new ≡ batch.old ++ target_copied copy (target_at t node))) }
    ensures same { K.told keeper.new ≡ K.told keeper.old }
    ensures cause { HasCause (K.faults keeper.old) (K.faults keeper.new) (has_failed result) }
{
    match keeper.target(node)? {
        Some(target) => Ok(put_target(batch, target, copy)?),
        None => Ok(()),
    }
}

/// Puts the row of the copy, which one entry names and which is not locked.
fn put_row(batch: &mut Batch, row: &InodeRow, copy: u64, now: u64) -> Result<(), AllocError>
    requires copy { IsId copy }
    requires now { now < 2 ^ 62 }
    ensures { OnOk result (batch.new ≡ batch.old ++ changes.PutInode (copied_row copy now row.now) ∷ []) }
{
    batch.push(Change::PutInode(InodeRow {
        id: copy,
        ctime: now,
        refcount: 1,
        locked: false,
        ..*row
    }))?;
    Ok(())
}

/// Adds the changes by which a number is drawn and the row of a copy comes under it, with its target. False where no number is left;
/// the batch is to be dropped then.
fn copy_row<K: Keeper>(
    keeper: &mut K,
    batch: &mut Batch,
    row: &InodeRow,
    copy: u64,
    now: u64,
) -> Result<bool, KeeperFault>
    requires copy { IsId copy }
    requires now { now < 2 ^ 62 }
    ensures fits { IfOk result (λ fits. IfTold (K.told keeper.old) (λ t. fits ≡ may_draw (tables_after batch.old t).params)) }
    ensures copied { IfOk result (λ fits. IfTold (K.told keeper.old) (λ t. fits ≡ true
        → batch.new ≡ batch.old ++ row_copied t copy now row.now (tables_after batch.old t))) }
    ensures same { K.told keeper.new ≡ K.told keeper.old }
    ensures cause { HasCause (K.faults keeper.old) (K.faults keeper.new) (has_failed result) }
{
    if !draw(keeper, batch)? {
        return Ok(false);
    }
    copy_target(keeper, batch, row.id, copy)?;
    put_row(batch, row, copy, now)?;
    Ok(true)
}

/// Adds the changes by which the copy of a node comes with all that is its own: its row under the number drawn, its target and its
/// attributes. False where no number is left, or where a name may not be used once more; the batch is to be dropped then.
pub fn copy_node<K: Keeper>(
    alloc: Global,
    keeper: &mut K,
    batch: &mut Batch,
    row: &InodeRow,
    copy: u64,
    now: u64,
) -> Result<bool, KeeperFault>
    requires copy { IsId copy }
    requires now { now < 2 ^ 62 }
    ensures fits { IfOk result (λ fits. IfTold (K.told keeper.old) (λ t. IsOrdered t → StaysUnique batch.old t → AreAttrNames t row.now.id
        → fits ≡ (may_draw (tables_after batch.old t).params && node_fits t copy now row.now (tables_after batch.old t)))) }
    ensures copied { IfOk result (λ fits. IfTold (K.told keeper.old) (λ t. IsOrdered t → StaysUnique batch.old t → AreAttrNames t row.now.id → fits ≡ true
        → batch.new ≡ batch.old ++ node_copied t copy now row.now (tables_after batch.old t))) }
    ensures unique { IfOk result (λ fits. IfTold (K.told keeper.old) (λ t. IsOrdered t → StaysUnique batch.old t → AreAttrNames t row.now.id → fits ≡ true
        → StaysUnique batch.new t)) }
    ensures same { K.told keeper.new ≡ K.told keeper.old }
    ensures cause { HasCause (K.faults keeper.old) (K.faults keeper.new) (has_failed result) }
{
    if !copy_row(keeper, batch, row, copy, now)? {
        return Ok(false);
    }
    copy_attrs(alloc, keeper, batch, row.id, copy)
}

/// Puts an entry of a directory.
fn put_entry(batch: &mut Batch, directory: u64, name_id: u64, copy: u64) -> Result<(), AllocError>
    requires directory { IsId directory }
    requires name { IsId name_id }
    requires copy { IsId copy }
    ensures { OnOk result (batch.new ≡ batch.old ++ changes.PutContent (record { parent = directory; name_id = name_id; inode = copy }) ∷ []) }
{
    batch.push(Change::PutContent(ContentRow {
        parent: directory,
        name_id,
        inode: copy,
    }))?;
    Ok(())
}

/// Adds the changes by which an entry of a directory names the copy. False where the name may not be used once more; the batch is to
/// be dropped then.
pub fn copy_entry<K: Keeper>(
    keeper: &mut K,
    batch: &mut Batch,
    name: &ByteList,
    directory: u64,
    copy: u64,
) -> Result<bool, KeeperFault>
    requires directory { IsId directory }
    requires copy { IsId copy }
    ensures fits { IfOk result (λ fits. IfTold (K.told keeper.old) (λ t. IsOrdered t → StaysUnique batch.old t → attribute_name_check name.now ≡ None
        → fits ≡ is_some (raised (tables_after batch.old t) name.now))) }
    ensures copied { IfOk result (λ fits. IfTold (K.told keeper.old) (λ t. IsOrdered t → StaysUnique batch.old t → attribute_name_check name.now ≡ None
        → fits ≡ true → batch.new ≡ batch.old ++ entry_copied directory name.now copy (tables_after batch.old t))) }
    ensures unique { IfOk result (λ fits. IfTold (K.told keeper.old) (λ t. IsOrdered t → StaysUnique batch.old t → attribute_name_check name.now ≡ None
        → fits ≡ true → StaysUnique batch.new t)) }
    ensures same { K.told keeper.new ≡ K.told keeper.old }
    ensures cause { HasCause (K.faults keeper.old) (K.faults keeper.new) (has_failed result) }
{
    let Some(name_id) = use_name(keeper, batch, name)? else {
        return Ok(false);
    };
    put_entry(batch, directory, name_id, copy)?;
    Ok(true)
}

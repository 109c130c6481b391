//! The plan of a RemoveTree.
ghost use Rattle.std.specs.Prelude.{◌≡◌, ◌<◌, ◌^◌, ◌++◌, ℕ, List, [], None, Some, IfOk, OnOk};
ghost use Rattle.s3_base.specs.Faults.{HasCause};
ghost use Rattle.op_frames.specs.declared.operation.Op.TheVariants as ops;
ghost use Rattle.plain_tree.specs.Tree.{Tree};
ghost use Rattle.plain_tree.specs.WellFormed.{IsWellFormed};
ghost use Rattle.s3_rows.specs.Batches.{tables_after};
ghost use Rattle.s3_rows.specs.Rows.{Inode, Name};
ghost use Rattle.s3_rows.specs.Selections.{name_at};
ghost use Rattle.s3_rows.specs.Tables.{IsOrdered};
ghost use Rattle.s3_rows.specs.Told.{IfTold, has_failed};
ghost use Rattle.s3_rows.specs.Validity.{IsValid, HasUniqueNames};
ghost use Rattle.tree_rows.specs.Shapes.{Represents};
ghost use Rattle.op_checks.specs.Rows.{directory_row_check};
ghost use Rattle.ref_counts.specs.Handles.{HasHandles};
ghost use Rattle.ref_counts.specs.Plans.{HasFitReply, IsPlanOf};
ghost use Rattle.immutable_trees.specs.Branches.{IsTakenBelow};
ghost use Rattle.immutable_trees.specs.Removals.{FindsEntry};
ghost use Rattle.immutable_trees.specs.RemovedRows.{HasOwn, uprooted};

use crate::lock::with_done;
use crate::uproot::take_tree;
use dir_ops::old_entry::{OldEntry, drop_entry, find_old_entry};
use op_checks::check_directory;
use ref_counts::{Handles, Plan, drop_file, pending_inode};
use s3_base::ByteList;
use s3_rows::{Batch, Keeper, KeeperFault};
use std::alloc::Global;

/// Deletes the entry of an empty directory, touches the directory that it is in, and takes the directory away.
fn take_last<K: Keeper>(
    keeper: &mut K,
    batch: &mut Batch,
    old: &OldEntry,
    now: u64,
) -> Result<(), KeeperFault>
    requires { now < 2 ^ 62 }
    ensures taken { OnOk result (IfTold (K.told keeper.old) (λ t. IsOrdered t → (n : Name) (r : Inode) → name_at (tables_after batch.old t) old.now.entry.name_id ≡ Some n
        → r.id ≡ old.now.entry.inode → HasOwn t (tables_after batch.old t) r.id → batch.new ≡ batch.old ++ uprooted now (tables_after batch.old t) old.now.directory r old.now.entry n)) }
    ensures same { K.told keeper.new ≡ K.told keeper.old }
    ensures cause { HasCause (K.faults keeper.old) (K.faults keeper.new) (has_failed result) }
{
    drop_entry(keeper, batch, old, now)?;
    drop_file(keeper, batch, old.entry.inode)
}

/// The plan of a RemoveTree of which the batch takes all below the directory.
fn with_last<K: Keeper>(
    alloc: Global,
    keeper: &mut K,
    batch: Batch,
    old: &OldEntry,
    now: u64,
) -> Result<Plan, KeeperFault>
    requires { now < 2 ^ 62 }
    ensures plan { IfOk result (λ p. IfTold (K.told keeper.old) (λ t. (whole : Tree) (pass parent : ℕ) (name : List ℕ) → FindsEntry t whole parent name old.now.entry old.now.child
        → directory_row_check (Some old.now.child) ≡ None → IsTakenBelow t whole old.now.entry.inode now batch → IsPlanOf t whole pass (ops.RemoveTree parent name) now p)) }
    ensures same { K.told keeper.new ≡ K.told keeper.old }
    ensures cause { HasCause (K.faults keeper.old) (K.faults keeper.new) (has_failed result) }
    ensures fit { IfOk result HasFitReply }
{
    let mut batch = batch;
    let old = *old;
    let Some(directory) = pending_inode(keeper, &batch, old.entry.parent)? else {
        return Ok(Plan::Worn);
    };
    take_last(keeper, &mut batch, &OldEntry { directory, ..old }, now)?;
    Ok(with_done(alloc, Some(batch)))
}

/// The plan of a RemoveTree whose entry was found, and passed the checks of an entry that goes.
fn plan_removal<K: Keeper>(
    alloc: Global,
    keeper: &mut K,
    handles: &Handles,
    old: &OldEntry,
    now: u64,
) -> Result<Plan, KeeperFault>
    requires { now < 2 ^ 62 }
    ensures plan { IfOk result (λ p. IfTold (K.told keeper.old) (λ t. (whole : Tree) (pass parent : ℕ) (name : List ℕ) → FindsEntry t whole parent name old.now.entry old.now.child
        → HasHandles handles.now whole → IsPlanOf t whole pass (ops.RemoveTree parent name) now p)) }
    ensures same { K.told keeper.new ≡ K.told keeper.old }
    ensures cause { HasCause (K.faults keeper.old) (K.faults keeper.new) (has_failed result) }
    ensures fit { IfOk result HasFitReply }
{
    if let Err(errno) = check_directory(&old.child) {
        return Ok(Plan::Refuse(errno));
    }
    let Some(batch) = take_tree(alloc, keeper, handles, old.entry.inode, now)? else {
        return Ok(Plan::Worn);
    };
    with_last(alloc, keeper, batch, old, now)
}

/// The plan of a RemoveTree. Nothing is committed.
pub fn remove_batch<K: Keeper>(
    alloc: Global,
    keeper: &mut K,
    handles: &Handles,
    parent: u64,
    name: &ByteList,
    now: u64,
) -> Result<Plan, KeeperFault>
    requires { now < 2 ^ 62 }
    ensures plan { IfOk result (λ p. IfTold (K.told keeper.old) (λ t. IsValid t → HasUniqueNames t → t.slots ≡ []
        → (whole : Tree) (pass : ℕ) → Represents t whole → IsWellFormed whole → HasHandles handles.now whole → IsPlanOf t whole pass (ops.RemoveTree parent name.now) now p)) }
    ensures same { K.told keeper.new ≡ K.told keeper.old }
    ensures cause { HasCause (K.faults keeper.old) (K.faults keeper.new) (has_failed result) }
    ensures fit { IfOk result HasFitReply }
{
    match find_old_entry(keeper, parent, name)? {
        Ok(old) => plan_removal(alloc, keeper, handles, &old, now),
        Err(errno) => Ok(Plan::Refuse(errno)),
    }
}

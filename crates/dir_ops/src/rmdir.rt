//! The plan of an empty directory that goes.
ghost use Rattle.std.specs.Prelude.{◌≡◌, ◌<◌, ◌^◌, ◌++◌, ℕ, List, [], ◌∷◌, Some, Ok, IfOk};
ghost use Rattle.s3_base.specs.Errors.{enotempty};
ghost use Rattle.s3_base.specs.Faults.{HasCause};
ghost use Rattle.op_frames.specs.declared.operation.Op.TheVariants as ops;
ghost use Rattle.plain_tree.specs.Tree.{Tree};
ghost use Rattle.plain_tree.specs.WellFormed.{IsWellFormed};
ghost use Rattle.plain_tree.specs.Checks.{fails_with, first_failure};
ghost use Rattle.s3_rows.specs.Rows.{Name};
ghost use Rattle.s3_rows.specs.Tables.{IsOrdered};
ghost use Rattle.s3_rows.specs.Batches.{tables_after};
ghost use Rattle.s3_rows.specs.Selections.{name_at};
ghost use Rattle.s3_rows.specs.Told.{IfTold, has_failed};
ghost use Rattle.s3_rows.specs.Validity.{IsValid, HasUniqueNames};
ghost use Rattle.tree_rows.specs.Shapes.{Represents};
ghost use Rattle.op_checks.specs.Checks.{Checks};
ghost use Rattle.op_checks.specs.Rows.{directory_row_check, lock_row_check};
ghost use Rattle.ref_counts.specs.Plans.{IsPlanOf, HasFitReply};
ghost use Rattle.ref_counts.specs.Removals.{removal};
ghost use Rattle.row_steps.specs.RowChanges.{dropping};
ghost use Rattle.dir_ops.specs.OldEntries.{IsOldEntry};

use crate::emptiness::{check_empty, has_entries};
use crate::new_entry::with_reply;
use crate::old_entry::{OldEntry, drop_entry, find_old_entry};
use op_checks::{check_directory, check_unlocked};
use op_frames::Reply;
use ref_counts::{Plan, drop_file};
use row_steps::old_directories_are_steps;
use s3_base::{ByteList, Errno};
use s3_rows::{Batch, InodeRow, Keeper, KeeperFault};
use std::alloc::Global;

/// The checks of an inode that is to be an empty directory.
fn check_old_directory(child: &InodeRow, full: bool) -> Result<(), Errno>
    ensures { Checks result (first_failure (directory_row_check (Some child.now) ∷ lock_row_check (Some child.now) ∷ fails_with enotempty full ∷ [])) }
{
    check_directory(child)?;
    check_unlocked(child)?;
    check_empty(full)
}

/// The batch by which a directory goes with its entry, at the time `now`.
fn drop_directory<K: Keeper>(
    alloc: Global,
    keeper: &mut K,
    old: &OldEntry,
    now: u64,
) -> Result<Batch, KeeperFault>
    requires { now < 2 ^ 62 }
    ensures batch { IfOk result (λ b. IfTold (K.told keeper.old) (λ t. IsOrdered t → (n : Name) → name_at t old.now.entry.name_id ≡ Some n
        → b ≡ dropping old.now.directory old.now.entry n now ++ removal t old.now.child.id (tables_after (dropping old.now.directory old.now.entry n now) t))) }
    ensures same { K.told keeper.new ≡ K.told keeper.old }
    ensures cause { HasCause (K.faults keeper.old) (K.faults keeper.new) (has_failed result) }
{
    let child = old.child;
    let mut batch = Batch::new(alloc);
    drop_entry(keeper, &mut batch, old, now)?;
    drop_file(keeper, &mut batch, child.id)?;
    Ok(batch)
}

/// The plan of a directory that goes, where the checks of its entry have passed.
fn rmdir<K: Keeper>(
    alloc: Global,
    keeper: &mut K,
    old: &OldEntry,
    now: u64,
) -> Result<Plan, KeeperFault>
    requires { now < 2 ^ 62 }
    ensures plan { IfOk result (λ p. IfTold (K.told keeper.old) (λ t. IsValid t → HasUniqueNames t → (whole : Tree) (pass parent : ℕ) (name : List ℕ) → Represents t whole → IsWellFormed whole
        → IsOldEntry t whole parent name (Ok old.now) → IsPlanOf t whole pass (ops.Rmdir parent name) now p)) }
    ensures same { K.told keeper.new ≡ K.told keeper.old }
    ensures cause { HasCause (K.faults keeper.old) (K.faults keeper.new) (has_failed result) }
    ensures fit { IfOk result HasFitReply }
{
    let full = has_entries(alloc, keeper, &old.child)?;
    if let Err(errno) = check_old_directory(&old.child, full) {
        return Ok(Plan::Refuse(errno));
    }
    old_directories_are_steps();
    let batch = drop_directory(alloc, keeper, old, now)?;
    Ok(with_reply(alloc, Some(batch), Reply::Done))
}

/// The plan of an Rmdir.
pub fn plan_rmdir<K: Keeper>(
    alloc: Global,
    keeper: &mut K,
    parent: u64,
    name: &ByteList,
    now: u64,
) -> Result<Plan, KeeperFault>
    requires { now < 2 ^ 62 }
    ensures plan { IfOk result (λ p. IfTold (K.told keeper.old) (λ t. IsValid t → HasUniqueNames t → (whole : Tree) (pass : ℕ) → Represents t whole → IsWellFormed whole
        → IsPlanOf t whole pass (ops.Rmdir parent name.now) now p)) }
    ensures same { K.told keeper.new ≡ K.told keeper.old }
    ensures cause { HasCause (K.faults keeper.old) (K.faults keeper.new) (has_failed result) }
    ensures fit { IfOk result HasFitReply }
{
    match find_old_entry(keeper, parent, name)? {
        Ok(old) => rmdir(alloc, keeper, &old, now),
        Err(errno) => Ok(Plan::Refuse(errno)),
    }
}

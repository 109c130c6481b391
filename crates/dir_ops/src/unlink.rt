//! The plan of an entry of a file that goes.
ghost use Rattle.std.specs.Prelude.{◌≡◌, ◌<◌, ◌^◌, ℕ, List, [], ◌∷◌, Some, Ok, IfOk};
ghost use Rattle.s3_base.specs.Errors.{eisdir};
ghost use Rattle.s3_base.specs.Faults.{HasCause};
ghost use Rattle.op_frames.specs.declared.operation.Op.TheVariants as ops;
ghost use Rattle.plain_tree.specs.Tree.{Tree};
ghost use Rattle.plain_tree.specs.WellFormed.{IsWellFormed};
ghost use Rattle.plain_tree.specs.Checks.{first_failure};
ghost use Rattle.s3_rows.specs.Rows.{Name};
ghost use Rattle.s3_rows.specs.Tables.{IsOrdered};
ghost use Rattle.s3_rows.specs.Selections.{name_at};
ghost use Rattle.s3_rows.specs.Told.{IfTold, has_failed};
ghost use Rattle.s3_rows.specs.Validity.{IsValid, HasUniqueNames};
ghost use Rattle.tree_rows.specs.Shapes.{Represents};
ghost use Rattle.op_checks.specs.Checks.{Checks};
ghost use Rattle.op_checks.specs.Rows.{no_directory_row_check, lock_row_check};
ghost use Rattle.ref_counts.specs.Handles.{HasHandles};
ghost use Rattle.ref_counts.specs.Plans.{IsPlanOf, HasFitReply};
ghost use Rattle.row_steps.specs.RowChanges.{unlinking};
ghost use Rattle.dir_ops.specs.OldEntries.{IsOldEntry};

use crate::new_entry::with_reply;
use crate::old_entry::{OldEntry, drop_entry, find_old_entry};
use crate::old_link::{drop_link, is_kept};
use op_checks::{check_no_directory, check_unlocked};
use op_frames::Reply;
use ref_counts::{Handles, Plan, drop_gone_links};
use row_steps::old_links_are_steps;
use s3_base::{ByteList, Errno};
use s3_rows::{Batch, InodeRow, Keeper, KeeperFault};
use std::alloc::Global;

/// The checks of an inode that is to be no directory.
fn check_old_file(child: &InodeRow) -> Result<(), Errno>
    ensures { Checks result (first_failure (no_directory_row_check eisdir (Some child.now) ∷ lock_row_check (Some child.now) ∷ [])) }
{
    check_no_directory(child, Errno::EISDIR)?;
    check_unlocked(child)
}

/// The batch by which an entry goes, with a link of its file or with the file, at the time `now`.
fn drop_named<K: Keeper>(
    alloc: Global,
    keeper: &mut K,
    old: &OldEntry,
    kept: bool,
    now: u64,
) -> Result<Batch, KeeperFault>
    requires { now < 2 ^ 62 }
    ensures batch { IfOk result (λ b. IfTold (K.told keeper.old) (λ t. IsOrdered t → (n : Name) → name_at t old.now.entry.name_id ≡ Some n
        → b ≡ unlinking kept t old.now.directory old.now.child old.now.entry n now)) }
    ensures same { K.told keeper.new ≡ K.told keeper.old }
    ensures cause { HasCause (K.faults keeper.old) (K.faults keeper.new) (has_failed result) }
{
    let child = old.child;
    let mut batch = drop_gone_links(alloc, keeper, kept, child.id)?;
    drop_entry(keeper, &mut batch, old, now)?;
    drop_link(keeper, &mut batch, kept, &child, now)?;
    Ok(batch)
}

/// The plan of an entry of a file that goes, where the checks of the entry have passed.
fn unlink<K: Keeper>(
    alloc: Global,
    keeper: &mut K,
    handles: &Handles,
    old: &OldEntry,
    now: u64,
) -> Result<Plan, KeeperFault>
    requires { now < 2 ^ 62 }
    ensures plan { IfOk result (λ p. IfTold (K.told keeper.old) (λ t. IsValid t → HasUniqueNames t → t.slots ≡ []
        → (whole : Tree) (pass parent : ℕ) (name : List ℕ) → Represents t whole → IsWellFormed whole → HasHandles handles.now whole
        → IsOldEntry t whole parent name (Ok old.now) → IsPlanOf t whole pass (ops.Unlink parent name) now p)) }
    ensures same { K.told keeper.new ≡ K.told keeper.old }
    ensures cause { HasCause (K.faults keeper.old) (K.faults keeper.new) (has_failed result) }
    ensures fit { IfOk result HasFitReply }
{
    if let Err(errno) = check_old_file(&old.child) {
        return Ok(Plan::Refuse(errno));
    }
    old_links_are_steps();
    let kept = is_kept(&old.child, handles);
    let batch = drop_named(alloc, keeper, old, kept, now)?;
    Ok(with_reply(alloc, Some(batch), Reply::Done))
}

/// The plan of an Unlink.
pub fn plan_unlink<K: Keeper>(
    alloc: Global,
    keeper: &mut K,
    handles: &Handles,
    parent: u64,
    name: &ByteList,
    now: u64,
) -> Result<Plan, KeeperFault>
    requires { now < 2 ^ 62 }
    ensures plan { IfOk result (λ p. IfTold (K.told keeper.old) (λ t. IsValid t → HasUniqueNames t → t.slots ≡ []
        → (whole : Tree) (pass : ℕ) → Represents t whole → IsWellFormed whole → HasHandles handles.now whole → IsPlanOf t whole pass (ops.Unlink parent name.now) now p)) }
    ensures same { K.told keeper.new ≡ K.told keeper.old }
    ensures cause { HasCause (K.faults keeper.old) (K.faults keeper.new) (has_failed result) }
    ensures fit { IfOk result HasFitReply }
{
    match find_old_entry(keeper, parent, name)? {
        Ok(old) => unlink(alloc, keeper, handles, &old, now),
        Err(errno) => Ok(Plan::Refuse(errno)),
    }
}

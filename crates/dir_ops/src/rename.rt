//! The plan of an entry that moves.
ghost use Rattle.std.specs.Prelude.{◌≡◌, ◌<◌, ◌^◌, ℕ, List, [], nat_eq, None, Ok, IfOk};
ghost use Rattle.std.specs.Cmp.Lexicographic.{pointwise};
ghost use Rattle.s3_base.specs.Faults.{HasCause};
ghost use Rattle.op_frames.specs.declared.operation.Op.TheVariants as ops;
ghost use Rattle.plain_tree.specs.Tree.{Tree};
ghost use Rattle.plain_tree.specs.Checks.{name_check};
ghost use Rattle.plain_tree.specs.WellFormed.{IsWellFormed};
ghost use Rattle.s3_rows.specs.Told.{IfTold, has_failed};
ghost use Rattle.s3_rows.specs.Validity.{IsValid, HasUniqueNames};
ghost use Rattle.tree_rows.specs.Shapes.{Represents};
ghost use Rattle.ref_counts.specs.Handles.{HasHandles};
ghost use Rattle.ref_counts.specs.Plans.{IsPlanOf, HasFitReply};
ghost use Rattle.dir_ops.specs.Moves.{IsMove};

use crate::moved_entry::move_entry;
use crate::moves::{Move, check_replaced, find_move, would_hold_itself};
use crate::new_entry::with_reply;
use op_frames::Reply;
use ref_counts::{Handles, Plan};
use row_steps::renames_are_steps;
use s3_base::{ByteList, Errno};
use s3_rows::{Batch, Keeper, KeeperFault};
use std::alloc::Global;

/// The plan of an entry that moves, where the checks of both names have passed: `same` says that its name stays.
fn rename<K: Keeper>(
    alloc: Global,
    keeper: &mut K,
    handles: &Handles,
    moved: &Move,
    same: bool,
    new_name: &ByteList,
    now: u64,
) -> Result<Plan, KeeperFault>
    requires name { name_check new_name.now ≡ None }
    requires now { now < 2 ^ 62 }
    ensures plan { IfOk result (λ p. IfTold (K.told keeper.old) (λ t. IsValid t → HasUniqueNames t → t.slots ≡ []
        → (whole : Tree) (pass parent new_parent : ℕ) (name : List ℕ) → Represents t whole → IsWellFormed whole → HasHandles handles.now whole
        → IsMove t whole parent name new_parent new_name.now (Ok moved.now) → same ≡ pointwise nat_eq name new_name.now
        → IsPlanOf t whole pass (ops.Rename parent name new_parent new_name.now) now p)) }
    ensures same { K.told keeper.new ≡ K.told keeper.old }
    ensures cause { HasCause (K.faults keeper.old) (K.faults keeper.new) (has_failed result) }
    ensures fit { IfOk result HasFitReply }
{
    renames_are_steps();
    if moved.is_itself() {
        return Ok(with_reply(alloc, Some(Batch::new(alloc)), Reply::Done));
    }
    let Some(below) = would_hold_itself(keeper, moved)? else {
        return Ok(Plan::Worn);
    };
    if below {
        return Ok(Plan::Refuse(Errno::EINVAL));
    }
    if let Err(errno) = check_replaced(alloc, keeper, moved)? {
        return Ok(Plan::Refuse(errno));
    }
    let batch = move_entry(alloc, keeper, handles, moved, same, new_name, now)?;
    Ok(with_reply(alloc, batch, Reply::Done))
}

/// The plan of a Rename.
pub fn plan_rename<K: Keeper>(
    alloc: Global,
    keeper: &mut K,
    handles: &Handles,
    parent: u64,
    name: &ByteList,
    new_parent: u64,
    new_name: &ByteList,
    now: u64,
) -> Result<Plan, KeeperFault>
    requires { now < 2 ^ 62 }
    ensures plan { IfOk result (λ p. IfTold (K.told keeper.old) (λ t. IsValid t → HasUniqueNames t → t.slots ≡ []
        → (whole : Tree) (pass : ℕ) → Represents t whole → IsWellFormed whole → HasHandles handles.now whole
        → IsPlanOf t whole pass (ops.Rename parent name.now new_parent new_name.now) now p)) }
    ensures same { K.told keeper.new ≡ K.told keeper.old }
    ensures cause { HasCause (K.faults keeper.old) (K.faults keeper.new) (has_failed result) }
    ensures fit { IfOk result HasFitReply }
{
    match find_move(keeper, parent, name, new_parent, new_name)? {
        Ok(moved) => {
            let same = name.as_slice() == new_name.as_slice();
            rename(alloc, keeper, handles, &moved, same, new_name, now)
        }
        Err(errno) => Ok(Plan::Refuse(errno)),
    }
}

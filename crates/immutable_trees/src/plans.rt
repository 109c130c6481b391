//! The plan of an operation.
ghost use Rattle.std.specs.Prelude.{◌≡◌, ◌<◌, ◌^◌, ℕ, [], IsTrue, IfOk};
ghost use Rattle.s3_base.specs.Faults.{HasCause};
ghost use Rattle.plain_tree.specs.Tree.{Tree};
ghost use Rattle.plain_tree.specs.WellFormed.{IsWellFormed};
ghost use Rattle.s3_rows.specs.Told.{IfTold, has_failed};
ghost use Rattle.s3_rows.specs.Validity.{IsValid, HasUniqueNames};
ghost use Rattle.tree_rows.specs.Shapes.{Represents};
ghost use Rattle.ref_counts.specs.Handles.{HasHandles};
ghost use Rattle.ref_counts.specs.Plans.{IsPlanOf, HasFitReply};
ghost use Rattle.immutable_trees.specs.Plans.{is_planned};

use crate::lock::lock_batch;
use crate::removal::remove_batch;
use op_frames::Op;
use ref_counts::{Handles, Plan};
use s3_rows::{Keeper, KeeperFault};
use std::alloc::Global;

/// The plan of a LockTree or a RemoveTree of a pass, at a time. It commits nothing.
pub fn plan<K: Keeper>(
    alloc: Global,
    keeper: &mut K,
    handles: &Handles,
    pass: u64,
    op: &Op,
    now: u64,
) -> Result<Plan, KeeperFault>
    requires planned { IsTrue (is_planned op.now) }
    requires now { now < 2 ^ 62 }
    ensures plan { IfOk result (λ p. IfTold (K.told keeper.old) (λ t. IsValid t → HasUniqueNames t → t.slots ≡ []
        → (whole : Tree) → Represents t whole → IsWellFormed whole → HasHandles handles.now whole → IsPlanOf t whole pass op.now now p)) }
    ensures same { K.told keeper.new ≡ K.told keeper.old }
    ensures cause { HasCause (K.faults keeper.old) (K.faults keeper.new) (has_failed result) }
    ensures fit { IfOk result HasFitReply }
{
    match op {
        Op::LockTree { inode } => lock_batch(alloc, keeper, *inode),
        Op::RemoveTree { parent, name } => {
            remove_batch(alloc, keeper, handles, *parent, name, now)
        }
        _ => unreachable!(),
    }
}

//! The plan of a LockTree.
ghost use Rattle.std.specs.Prelude.{◌≡◌, ℕ, [], ◌∷◌, Some, IfOk};
ghost use Rattle.s3_base.specs.Faults.{HasCause};
ghost use Rattle.op_frames.specs.declared.operation.Op.TheVariants as ops;
ghost use Rattle.plain_tree.specs.Checks.{first_failure, root_check};
ghost use Rattle.plain_tree.specs.Tree.{Tree};
ghost use Rattle.plain_tree.specs.WellFormed.{IsWellFormed};
ghost use Rattle.s3_rows.specs.Told.{IfTold, has_failed};
ghost use Rattle.s3_rows.specs.Validity.{IsValid};
ghost use Rattle.tree_rows.specs.Shapes.{Represents};
ghost use Rattle.op_checks.specs.Checks.{Checks};
ghost use Rattle.op_checks.specs.Rows.{row_check, directory_row_check};
ghost use Rattle.ref_counts.specs.Plans.{IsPlanOf, HasFitReply};
ghost use Rattle.immutable_trees.specs.Levels.{lock_plan};

use crate::walk::lock_tree;
use op_checks::{check_directory, check_node, check_root};
use op_frames::Reply;
use ref_counts::Plan;
use s3_base::{Errno, Sequence};
use s3_rows::{Batch, InodeRow, Keeper, KeeperFault};
use std::alloc::Global;

/// The row of a directory that is to be locked: it is there, and not the root.
fn check_top(found: Option<InodeRow>, inode: u64) -> Result<InodeRow, Errno>
    ensures check { Checks result (first_failure (row_check found ∷ directory_row_check found ∷ root_check inode ∷ [])) }
    ensures row { IfOk result (λ r. found ≡ Some r) }
{
    let row = check_node(found)?;
    check_directory(&row)?;
    check_root(inode)?;
    Ok(row)
}

/// The batch is committed, and the reply is Done.
pub(crate) fn with_done(alloc: Global, batch: Option<Batch>) -> Plan
    ensures plan { result ≡ lock_plan batch }
    ensures fit { HasFitReply result }
{
    match batch {
        Some(batch) => Plan::Commit {
            batch,
            reply: Reply::Done,
            drop: Sequence::new(alloc),
        },
        None => Plan::Worn,
    }
}

/// The plan of a LockTree. Nothing is committed.
pub fn lock_batch<K: Keeper>(alloc: Global, keeper: &mut K, inode: u64) -> Result<Plan, KeeperFault>
    ensures plan { IfOk result (λ p. IfTold (K.told keeper.old) (λ t. IsValid t → (whole : Tree) (pass now : ℕ) → Represents t whole → IsWellFormed whole
        → IsPlanOf t whole pass (ops.LockTree inode) now p)) }
    ensures same { K.told keeper.new ≡ K.told keeper.old }
    ensures cause { HasCause (K.faults keeper.old) (K.faults keeper.new) (has_failed result) }
    ensures fit { IfOk result HasFitReply }
{
    let found = keeper.inode(inode)?;
    match check_top(found, inode) {
        Ok(top) => {
            let batch = lock_tree(alloc, keeper, &top)?;
            Ok(with_done(alloc, batch))
        }
        Err(errno) => Ok(Plan::Refuse(errno)),
    }
}

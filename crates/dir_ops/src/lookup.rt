//! The plan of a look-up by name.
ghost use Rattle.std.specs.Prelude.{◌≡◌, ℕ, [], ◌∷◌, IsTrue, IfOk};
ghost use Rattle.s3_base.specs.Faults.{HasCause};
ghost use Rattle.op_frames.specs.declared.operation.Op.TheVariants as ops;
ghost use Rattle.op_frames.specs.declared.reply.Reply.TheVariants as replies;
ghost use Rattle.plain_tree.specs.Tree.{Tree};
ghost use Rattle.plain_tree.specs.Checks.{first_failure};
ghost use Rattle.s3_rows.specs.Told.{IfTold, has_failed};
ghost use Rattle.s3_rows.specs.Validity.{IsValid, HasUniqueNames};
ghost use Rattle.tree_rows.specs.Attrs.{attr_of_row};
ghost use Rattle.tree_rows.specs.Shapes.{Represents};
ghost use Rattle.op_checks.specs.Checks.{Checks};
ghost use Rattle.op_checks.specs.Rows.{row_check, directory_row_check};
ghost use Rattle.ref_counts.specs.Answers.{IsReplyOf};
ghost use Rattle.ref_counts.specs.Plans.{IsPlanOf, HasFitReply, is_fit};

use crate::entries::{find_child, find_entry};
use op_checks::{check_directory, check_name, check_node};
use op_frames::Reply;
use ref_counts::{Plan, answer, attr_of};
use s3_base::{ByteList, Errno};
use s3_rows::{InodeRow, Keeper, KeeperFault};
use std::alloc::Global;

/// The attributes of the inode that an entry of a directory names: `child` is its row, and none where there is no such entry.
fn child_reply(found: Option<InodeRow>, child: Option<InodeRow>) -> Result<Reply, Errno>
    ensures check { Checks result (first_failure (row_check found ∷ directory_row_check found ∷ row_check child ∷ [])) }
    ensures reply { IfOk result (IsReplyOf child (λ r. replies.Attr (attr_of_row r))) }
    ensures fit { IfOk result (λ reply. IsTrue (is_fit reply)) }
{
    let directory = check_node(found)?;
    check_directory(&directory)?;
    let row = check_node(child)?;
    Ok(Reply::Attr(attr_of(&row)))
}

/// The plan of a Lookup.
pub fn plan_lookup<K: Keeper>(
    alloc: Global,
    keeper: &mut K,
    parent: u64,
    name: &ByteList,
) -> Result<Plan, KeeperFault>
    ensures plan { IfOk result (λ p. IfTold (K.told keeper.old) (λ t. IsValid t → HasUniqueNames t → (whole : Tree) (pass now : ℕ) → Represents t whole → IsPlanOf t whole pass (ops.Lookup parent name.now) now p)) }
    ensures same { K.told keeper.new ≡ K.told keeper.old }
    ensures cause { HasCause (K.faults keeper.old) (K.faults keeper.new) (has_failed result) }
    ensures fit { IfOk result HasFitReply }
{
    if let Err(errno) = check_name(name) {
        return Ok(Plan::Refuse(errno));
    }
    let found = keeper.inode(parent)?;
    let entry = find_entry(keeper, parent, name)?;
    let child = find_child(keeper, entry)?;
    Ok(answer(alloc, child_reply(found, child)))
}

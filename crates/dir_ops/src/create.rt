//! The plan of a new file.
ghost use Rattle.std.specs.Prelude.{◌≡◌, ◌<◌, ◌^◌, ℕ, None, Ok, IfOk};
ghost use Rattle.s3_base.specs.Faults.{HasCause};
ghost use Rattle.op_frames.specs.declared.operation.Op.TheVariants as ops;
ghost use Rattle.op_frames.specs.declared.reply.Reply.TheVariants as replies;
ghost use Rattle.plain_tree.specs.Tree.{Tree};
ghost use Rattle.plain_tree.specs.WellFormed.{IsWellFormed};
ghost use Rattle.plain_tree.specs.Checks.{name_check, mode_check};
ghost use Rattle.s3_rows.specs.Told.{IfTold, has_failed};
ghost use Rattle.s3_rows.specs.Validity.{IsValid, HasUniqueNames};
ghost use Rattle.tree_rows.specs.Attrs.{attr_of_row};
ghost use Rattle.tree_rows.specs.Shapes.{Represents};
ghost use Rattle.ref_counts.specs.Handles.{HasHandles};
ghost use Rattle.ref_counts.specs.Plans.{IsPlanOf, HasFitReply};
ghost use Rattle.dir_ops.specs.Places.{IsPlaced};
ghost use Rattle.dir_ops.specs.Plans.{entry_plan};

use crate::new_entry::{NewInode, new_entry, new_row, with_reply};
use crate::places::find_place;
use op_checks::{check_hand, check_mode, check_name};
use op_frames::Reply;
use ref_counts::{Handles, Plan, attr_of};
use row_steps::{new_files_are_steps, new_rows_are_found};
use s3_base::{ByteList, Kind};
use s3_rows::{Batch, InodeRow, Keeper, KeeperFault, Params};
use std::alloc::Global;

/// The batch is committed, and the reply is the next handle with the attributes of the row; or the name is worn.
fn opened(alloc: Global, handles: &Handles, batch: Option<Batch>, row: &InodeRow) -> Plan
    ensures plan { result ≡ entry_plan batch (replies.Opened handles.now.next (attr_of_row row.now)) }
    ensures fit { HasFitReply result }
{
    let reply = Reply::Opened {
        handle: handles.next(),
        attr: attr_of(row),
    };
    with_reply(alloc, batch, reply)
}

/// The plan of a new file in a directory, whose checks have passed, but for the one of the handle.
fn make_file<K: Keeper>(
    alloc: Global,
    keeper: &mut K,
    handles: &Handles,
    directory: &InodeRow,
    params: &Params,
    name: &ByteList,
    new: &NewInode,
) -> Result<Plan, KeeperFault>
    requires name { name_check name.now ≡ None }
    requires mode { mode_check new.now.mode ≡ None }
    requires now { new.now.now < 2 ^ 62 }
    requires next { params.now.next_inode < 2 ^ 62 }
    ensures plan { IfOk result (λ p. IfTold (K.told keeper.old) (λ t. IsValid t → HasUniqueNames t → (whole : Tree) (pass parent : ℕ) → Represents t whole → IsWellFormed whole → HasHandles handles.now whole
        → IsPlaced t whole parent name.now (Ok (directory.now, params.now))
        → IsPlanOf t whole pass (ops.Create parent name.now new.entry.now.mode new.entry.now.uid new.entry.now.gid) new.entry.now.now p)) }
    ensures same { K.told keeper.new ≡ K.told keeper.old }
    ensures cause { HasCause (K.faults keeper.old) (K.faults keeper.new) (has_failed result) }
    ensures fit { IfOk result HasFitReply }
{
    if let Err(errno) = check_hand(handles.is_full()) {
        return Ok(Plan::Refuse(errno));
    }
    new_files_are_steps();
    new_rows_are_found();
    let row = new_row(params, Kind::Regular, new);
    let batch = new_entry(alloc, keeper, directory, params, name, &row, new.now)?;
    Ok(opened(alloc, handles, batch, &row))
}

/// The plan of a Create.
pub fn plan_create<K: Keeper>(
    alloc: Global,
    keeper: &mut K,
    handles: &Handles,
    parent: u64,
    name: &ByteList,
    new: &NewInode,
) -> Result<Plan, KeeperFault>
    requires { new.now.now < 2 ^ 62 }
    ensures plan { IfOk result (λ p. IfTold (K.told keeper.old) (λ t. IsValid t → HasUniqueNames t → (whole : Tree) (pass : ℕ) → Represents t whole → IsWellFormed whole → HasHandles handles.now whole
        → IsPlanOf t whole pass (ops.Create parent name.now new.entry.now.mode new.entry.now.uid new.entry.now.gid) new.entry.now.now p)) }
    ensures same { K.told keeper.new ≡ K.told keeper.old }
    ensures cause { HasCause (K.faults keeper.old) (K.faults keeper.new) (has_failed result) }
    ensures fit { IfOk result HasFitReply }
{
    if let Err(errno) = check_name(name) {
        return Ok(Plan::Refuse(errno));
    }
    if let Err(errno) = check_mode(new.mode) {
        return Ok(Plan::Refuse(errno));
    }
    let (directory, params) = match find_place(keeper, parent, name)? {
        Ok(place) => place,
        Err(errno) => return Ok(Plan::Refuse(errno)),
    };
    make_file(alloc, keeper, handles, &directory, &params, name, new)
}

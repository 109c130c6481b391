//! The plan of a new directory.
ghost use Rattle.std.specs.Prelude.{◌≡◌, ◌<◌, ◌^◌, ℕ, None, Ok, IfOk};
ghost use Rattle.s3_base.specs.Faults.{HasCause};
ghost use Rattle.op_frames.specs.declared.operation.Op.TheVariants as ops;
ghost use Rattle.plain_tree.specs.Tree.{Tree};
ghost use Rattle.plain_tree.specs.WellFormed.{IsWellFormed};
ghost use Rattle.plain_tree.specs.Checks.{name_check, mode_check};
ghost use Rattle.s3_rows.specs.Told.{IfTold, has_failed};
ghost use Rattle.s3_rows.specs.Validity.{IsValid, HasUniqueNames};
ghost use Rattle.tree_rows.specs.Shapes.{Represents};
ghost use Rattle.ref_counts.specs.Handles.{HasHandles};
ghost use Rattle.ref_counts.specs.Plans.{IsPlanOf, HasFitReply};
ghost use Rattle.dir_ops.specs.Places.{IsPlaced};

use crate::new_entry::{NewInode, attributed, new_entry, new_row};
use crate::places::find_place;
use op_checks::{check_mode, check_name};
use ref_counts::Plan;
use row_steps::{new_directories_are_steps, new_rows_are_found};
use s3_base::{ByteList, Kind};
use s3_rows::{InodeRow, Keeper, KeeperFault, Params};
use std::alloc::Global;

/// The plan of a new directory in another one, whose checks have passed.
fn make_directory<K: Keeper>(
    alloc: Global,
    keeper: &mut K,
    directory: &InodeRow,
    params: &Params,
    name: &ByteList,
    new: &NewInode,
) -> Result<Plan, KeeperFault>
    requires name { name_check name.now ≡ None }
    requires mode { mode_check new.now.mode ≡ None }
    requires now { new.now.now < 2 ^ 62 }
    requires next { params.now.next_inode < 2 ^ 62 }
    ensures plan { IfOk result (λ p. IfTold (K.told keeper.old) (λ t. IsValid t → HasUniqueNames t → (whole : Tree) (pass parent : ℕ) → Represents t whole → IsWellFormed whole
        → IsPlaced t whole parent name.now (Ok (directory.now, params.now))
        → IsPlanOf t whole pass (ops.Mkdir parent name.now new.entry.now.mode new.entry.now.uid new.entry.now.gid) new.entry.now.now p)) }
    ensures same { K.told keeper.new ≡ K.told keeper.old }
    ensures cause { HasCause (K.faults keeper.old) (K.faults keeper.new) (has_failed result) }
    ensures fit { IfOk result HasFitReply }
{
    new_directories_are_steps();
    new_rows_are_found();
    let row = new_row(params, Kind::Directory, new);
    let batch = new_entry(alloc, keeper, directory, params, name, &row, new.now)?;
    Ok(attributed(alloc, batch, &row))
}

/// The plan of a Mkdir.
pub fn plan_mkdir<K: Keeper>(
    alloc: Global,
    keeper: &mut K,
    parent: u64,
    name: &ByteList,
    new: &NewInode,
) -> Result<Plan, KeeperFault>
    requires { new.now.now < 2 ^ 62 }
    ensures plan { IfOk result (λ p. IfTold (K.told keeper.old) (λ t. IsValid t → HasUniqueNames t → (whole : Tree) (pass : ℕ) → Represents t whole → IsWellFormed whole
        → IsPlanOf t whole pass (ops.Mkdir parent name.now new.entry.now.mode new.entry.now.uid new.entry.now.gid) new.entry.now.now p)) }
    ensures same { K.told keeper.new ≡ K.told keeper.old }
    ensures cause { HasCause (K.faults keeper.old) (K.faults keeper.new) (has_failed result) }
    ensures fit { IfOk result HasFitReply }
{
    if let Err(errno) = check_name(name) {
        return Ok(Plan::Refuse(errno));
    }
    if let Err(errno) = check_mode(new.mode) {
        return Ok(Plan::Refuse(errno));
    }
    let (directory, params) = match find_place(keeper, parent, name)? {
        Ok(place) => place,
        Err(errno) => return Ok(Plan::Refuse(errno)),
    };
    make_directory(alloc, keeper, &directory, &params, name, new)
}

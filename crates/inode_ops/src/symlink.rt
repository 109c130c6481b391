//! The plan of a new symbolic link.
ghost use Rattle.std.specs.Prelude.{◌≡◌, ◌<◌, ◌^◌, ◌++◌, ℕ, [], ◌∷◌, None, Ok, IfOk, option_map};
ghost use Rattle.s3_base.specs.Faults.{HasCause};
ghost use Rattle.op_frames.specs.declared.operation.Op.TheVariants as ops;
ghost use Rattle.plain_tree.specs.Tree.{Tree};
ghost use Rattle.plain_tree.specs.WellFormed.{IsWellFormed};
ghost use Rattle.plain_tree.specs.Checks.{name_check, target_check};
ghost use Rattle.s3_rows.specs.declared.change.Change.TheVariants as changes;
ghost use Rattle.s3_rows.specs.Told.{IfTold, has_failed};
ghost use Rattle.s3_rows.specs.Validity.{IsValid, HasUniqueNames};
ghost use Rattle.tree_rows.specs.Shapes.{Represents};
ghost use Rattle.ref_counts.specs.Plans.{IsPlanOf, HasFitReply};
ghost use Rattle.row_steps.specs.RowChanges.{new_link_row};
ghost use Rattle.dir_ops.specs.Places.{IsPlaced};

use dir_ops::new_entry::{NewInode, attributed, new_entry, new_row};
use dir_ops::places::find_place;
use op_checks::{check_name, check_target};
use ref_counts::Plan;
use row_steps::{new_rows_are_found, symlinks_are_steps};
use s3_base::{ByteList, Kind};
use s3_rows::{Batch, Change, InodeRow, Keeper, KeeperFault, Params, TargetRow};
use std::alloc::{AllocError, Global};

/// The mode of every symbolic link: all permissions.
pub const LINK_MODE: u16 = 0o777;

/// The row of a new symbolic link, which is as long as its target.
fn link_row(params: &Params, target: &ByteList, new: &NewInode) -> InodeRow
    requires target { target_check target.now ≡ None }
    requires mode { new.now.mode ≡ 511 }
    requires now { new.now.now < 2 ^ 62 }
    requires next { params.now.next_inode < 2 ^ 62 }
    ensures { result ≡ new_link_row params.now.next_inode target.now new.entry.now.uid new.entry.now.gid new.entry.now.now }
{
    InodeRow {
        size: target.len() as u64,
        ..new_row(params, Kind::Link, new)
    }
}

/// The batch, where there is one, with the target of a symbolic link put at its end.
fn with_target(
    batch: Option<Batch>,
    row: &InodeRow,
    target: &ByteList,
) -> Result<Option<Batch>, AllocError>
    requires target { target_check target.now ≡ None }
    ensures { IfOk result (λ b. b ≡ option_map (λ cs. cs ++ changes.PutTarget (record { inode = row.now.id; target = target.now }) ∷ []) batch) }
{
    let Some(mut batch) = batch else {
        return Ok(None);
    };
    batch.push(Change::PutTarget(TargetRow {
        inode: row.id,
        target: target.clone()?,
    }))?;
    Ok(Some(batch))
}

/// The plan of a new symbolic link in a directory, whose checks have passed.
fn make_link<K: Keeper>(
    alloc: Global,
    keeper: &mut K,
    place: &(InodeRow, Params),
    name: &ByteList,
    target: &ByteList,
    new: &NewInode,
) -> Result<Plan, KeeperFault>
    requires name { name_check name.now ≡ None }
    requires target { target_check target.now ≡ None }
    requires mode { new.now.mode ≡ 511 }
    requires now { new.now.now < 2 ^ 62 }
    requires next { place.now.1.next_inode < 2 ^ 62 }
    ensures plan { IfOk result (λ p. IfTold (K.told keeper.old) (λ t. IsValid t → HasUniqueNames t → (whole : Tree) (pass parent : ℕ) → Represents t whole → IsWellFormed whole
        → IsPlaced t whole parent name.now (Ok place.now)
        → IsPlanOf t whole pass (ops.Symlink parent name.now target.now new.entry.now.uid new.entry.now.gid) new.entry.now.now p)) }
    ensures same { K.told keeper.new ≡ K.told keeper.old }
    ensures cause { HasCause (K.faults keeper.old) (K.faults keeper.new) (has_failed result) }
    ensures fit { IfOk result HasFitReply }
{
    symlinks_are_steps();
    new_rows_are_found();
    let row = link_row(&place.1, target, new);
    let batch = new_entry(alloc, keeper, &place.0, &place.1, name, &row, new.now)?;
    let batch = with_target(batch, &row, target)?;
    Ok(attributed(alloc, batch, &row))
}

/// The plan of a Symlink.
pub fn plan_symlink<K: Keeper>(
    alloc: Global,
    keeper: &mut K,
    parent: u64,
    name: &ByteList,
    target: &ByteList,
    new: &NewInode,
) -> Result<Plan, KeeperFault>
    requires mode { new.now.mode ≡ 511 }
    requires now { new.now.now < 2 ^ 62 }
    ensures plan { IfOk result (λ p. IfTold (K.told keeper.old) (λ t. IsValid t → HasUniqueNames t → (whole : Tree) (pass : ℕ) → Represents t whole → IsWellFormed whole
        → IsPlanOf t whole pass (ops.Symlink parent name.now target.now new.entry.now.uid new.entry.now.gid) new.entry.now.now p)) }
    ensures same { K.told keeper.new ≡ K.told keeper.old }
    ensures cause { HasCause (K.faults keeper.old) (K.faults keeper.new) (has_failed result) }
    ensures fit { IfOk result HasFitReply }
{
    if let Err(errno) = check_name(name) {
        return Ok(Plan::Refuse(errno));
    }
    if let Err(errno) = check_target(target) {
        return Ok(Plan::Refuse(errno));
    }
    match find_place(keeper, parent, name)? {
        Ok(place) => make_link(alloc, keeper, &place, name, target, new),
        Err(errno) => Ok(Plan::Refuse(errno)),
    }
}

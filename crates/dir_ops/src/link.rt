//! The plan of a further entry of a file.
ghost use Rattle.std.specs.Prelude.{◌≡◌, ◌+◌, ◌<◌, ◌^◌, ℕ, [], ◌∷◌, None, Some, Ok, IfOk, option_map};
ghost use Rattle.s3_base.specs.Errors.{eexist, eperm};
ghost use Rattle.s3_base.specs.Faults.{HasCause};
ghost use Rattle.op_frames.specs.declared.operation.Op.TheVariants as ops;
ghost use Rattle.plain_tree.specs.Tree.{Tree};
ghost use Rattle.plain_tree.specs.WellFormed.{IsWellFormed};
ghost use Rattle.plain_tree.specs.Checks.{fails_with, first_failure, name_check};
ghost use Rattle.s3_rows.specs.Tables.{IsOrdered};
ghost use Rattle.s3_rows.specs.Told.{IfTold, has_failed};
ghost use Rattle.s3_rows.specs.Validity.{IsValid, HasUniqueNames};
ghost use Rattle.tree_rows.specs.Shapes.{Represents};
ghost use Rattle.op_checks.specs.Checks.{Checks};
ghost use Rattle.op_checks.specs.Rows.{row_check, directory_row_check, no_directory_row_check, lock_row_check, named_row_check};
ghost use Rattle.ref_counts.specs.Names.{raised};
ghost use Rattle.ref_counts.specs.Plans.{IsPlanOf, HasFitReply};
ghost use Rattle.row_steps.specs.RowChanges.{counted_row, linking};
ghost use Rattle.dir_ops.specs.Links.{IsLinkable};

use crate::entries::has_entry;
use crate::new_entry::attributed;
use op_checks::{
    check_directory, check_free, check_name, check_named, check_no_directory, check_node,
    check_unlocked,
};
use ref_counts::{Plan, name_up};
use row_steps::links_are_steps;
use s3_base::{ByteList, Errno, LIMIT};
use s3_rows::{Batch, Change, ContentRow, InodeRow, Keeper, KeeperFault};
use std::alloc::Global;

/// The file and the directory, where no check fails: `taken` says that the directory has such an entry already.
fn check_link(
    file: Option<InodeRow>,
    parent: Option<InodeRow>,
    taken: bool,
) -> Result<(InodeRow, InodeRow), Errno>
    ensures file { IfOk result (λ rows. file ≡ Some rows.0) }
    ensures directory { IfOk result (λ rows. parent ≡ Some rows.1) }
    ensures check { Checks result (first_failure (row_check file ∷ row_check parent ∷ directory_row_check parent ∷ no_directory_row_check eperm file
        ∷ lock_row_check file ∷ lock_row_check parent ∷ named_row_check file ∷ fails_with eexist taken ∷ [])) }
{
    let file = check_node(file)?;
    let directory = check_node(parent)?;
    check_directory(&directory)?;
    check_no_directory(&file, Errno::EPERM)?;
    check_unlocked(&file)?;
    check_unlocked(&directory)?;
    check_named(&file)?;
    check_free(taken)?;
    Ok((file, directory))
}

/// The file and the directory in which it gets a further entry, or the error of the first check of them that fails.
fn find_link<K: Keeper>(
    keeper: &mut K,
    inode: u64,
    parent: u64,
    name: &ByteList,
) -> Result<Result<(InodeRow, InodeRow), Errno>, KeeperFault>
    ensures rows { IfOk result (λ r. IfTold (K.told keeper.old) (λ t. IsValid t → HasUniqueNames t → (whole : Tree) → Represents t whole → IsLinkable t whole inode parent name.now r)) }
    ensures same { K.told keeper.new ≡ K.told keeper.old }
    ensures cause { HasCause (K.faults keeper.old) (K.faults keeper.new) (has_failed result) }
{
    let file = keeper.inode(inode)?;
    let directory = keeper.inode(parent)?;
    let taken = has_entry(keeper, parent, name)?;
    Ok(check_link(file, directory, taken))
}

/// The batch of a further entry of a file, which counts it, in a directory, which is touched, at the time `now`. None where the
/// name is worn.
fn further_entry<K: Keeper>(
    alloc: Global,
    keeper: &mut K,
    directory: &InodeRow,
    file: &InodeRow,
    name: &ByteList,
    now: u64,
) -> Result<Option<Batch>, KeeperFault>
    requires name { name_check name.now ≡ None }
    requires count { file.now.refcount + 1 < 2 ^ 62 }
    requires now { now < 2 ^ 62 }
    ensures batch { IfOk result (λ b. IfTold (K.told keeper.old) (λ t. IsOrdered t → HasUniqueNames t
        → b ≡ option_map (λ more. linking directory.now file.now more now) (raised t name.now))) }
    ensures same { K.told keeper.new ≡ K.told keeper.old }
    ensures cause { HasCause (K.faults keeper.old) (K.faults keeper.new) (has_failed result) }
{
    let mut batch = Batch::new(alloc);
    batch.push(Change::PutInode(counted_once_more(file, now)))?;
    let Some(name_id) = name_up(keeper, &mut batch, name)? else {
        return Ok(None);
    };
    batch.push(Change::PutContent(ContentRow {
        parent: directory.id,
        name_id,
        inode: file.id,
    }))?;
    batch.push(Change::PutInode(InodeRow {
        mtime: now,
        ctime: now,
        ..*directory
    }))?;
    Ok(Some(batch))
}

/// The row with one link more.
fn counted_once_more(file: &InodeRow, now: u64) -> InodeRow
    requires count { file.now.refcount + 1 < 2 ^ 62 }
    requires now { now < 2 ^ 62 }
    ensures { result ≡ counted_row (file.now.refcount + 1) now file.now }
{
    InodeRow {
        refcount: file.refcount + 1,
        ctime: now,
        ..*file
    }
}

/// The plan of a further entry whose checks have passed.
fn link<K: Keeper>(
    alloc: Global,
    keeper: &mut K,
    directory: &InodeRow,
    file: &InodeRow,
    name: &ByteList,
    now: u64,
) -> Result<Plan, KeeperFault>
    requires name { name_check name.now ≡ None }
    requires now { now < 2 ^ 62 }
    ensures plan { IfOk result (λ p. IfTold (K.told keeper.old) (λ t. IsValid t → HasUniqueNames t → (whole : Tree) (pass inode parent : ℕ) → Represents t whole → IsWellFormed whole
        → IsLinkable t whole inode parent name.now (Ok (file.now, directory.now)) → IsPlanOf t whole pass (ops.Link inode parent name.now) now p)) }
    ensures same { K.told keeper.new ≡ K.told keeper.old }
    ensures cause { HasCause (K.faults keeper.old) (K.faults keeper.new) (has_failed result) }
    ensures fit { IfOk result HasFitReply }
{
    if file.refcount + 1 >= LIMIT {
        return Ok(Plan::Worn);
    }
    links_are_steps();
    let batch = further_entry(alloc, keeper, directory, file, name, now)?;
    let row = counted_once_more(file, now);
    Ok(attributed(alloc, batch, &row))
}

/// The plan of a Link.
pub fn plan_link<K: Keeper>(
    alloc: Global,
    keeper: &mut K,
    inode: u64,
    parent: u64,
    name: &ByteList,
    now: u64,
) -> Result<Plan, KeeperFault>
    requires { now < 2 ^ 62 }
    ensures plan { IfOk result (λ p. IfTold (K.told keeper.old) (λ t. IsValid t → HasUniqueNames t → (whole : Tree) (pass : ℕ) → Represents t whole → IsWellFormed whole
        → IsPlanOf t whole pass (ops.Link inode parent name.now) now p)) }
    ensures same { K.told keeper.new ≡ K.told keeper.old }
    ensures cause { HasCause (K.faults keeper.old) (K.faults keeper.new) (has_failed result) }
    ensures fit { IfOk result HasFitReply }
{
    if let Err(errno) = check_name(name) {
        return Ok(Plan::Refuse(errno));
    }
    match find_link(keeper, inode, parent, name)? {
        Ok(rows) => link(alloc, keeper, &rows.1, &rows.0, name, now),
        Err(errno) => Ok(Plan::Refuse(errno)),
    }
}

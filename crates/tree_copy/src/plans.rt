//! The plan of a CopyTree.
ghost use Rattle.std.specs.Prelude.{◌≡◌, ◌≤◌, ◌<◌, ◌+◌, ◌^◌, ℕ, List, [], ◌∷◌, length, None, Some, IfOk};
ghost use Rattle.s3_base.specs.Errors.{eexist, einval};
ghost use Rattle.s3_base.specs.Faults.{HasCause};
ghost use Rattle.plain_tree.specs.Checks.{fails_with, first_failure, name_check};
ghost use Rattle.plain_tree.specs.Tree.{Tree};
ghost use Rattle.plain_tree.specs.WellFormed.{IsWellFormed};
ghost use Rattle.s3_rows.specs.Rows.{Inode};
ghost use Rattle.s3_rows.specs.Told.{IfTold, has_failed};
ghost use Rattle.s3_rows.specs.Validity.{HasUniqueNames, IsValid};
ghost use Rattle.tree_rows.specs.Shapes.{Represents};
ghost use Rattle.op_checks.specs.Checks.{Checks};
ghost use Rattle.op_checks.specs.Rows.{directory_row_check, lock_row_check, row_check};
ghost use Rattle.ref_counts.specs.Plans.{HasFitReply};
ghost use Rattle.tree_copy.specs.CopiedRows.{copied_row};
ghost use Rattle.tree_copy.specs.CopyPlans.{FindsBoth, IsCopyPlan, IsCopyable, MayHave};
ghost use Rattle.tree_copy.specs.CopyWalks.{IsCopiedWhole};

use crate::files::copy_files;
use crate::progress::Copied;
use crate::walk::copy_names;
use dir_ops::entries::has_entry;
use dir_ops::new_entry::attributed;
use dir_ops::upward::lies_within;
use op_checks::{check_directory, check_free, check_ids, check_name, check_node, check_unlocked};
use ref_counts::Plan;
use s3_base::{ByteList, Errno, LIMIT};
use s3_rows::{Batch, InodeRow, Keeper, KeeperFault, Params};
use std::alloc::Global;

/// The row of the copy of the source.
fn row_of_copy(top: &InodeRow, next: u64, now: u64) -> InodeRow
    requires some { 0 < next }
    requires next { next < 2 ^ 62 }
    requires now { now < 2 ^ 62 }
    ensures { result ≡ copied_row next now top.now }
{
    InodeRow {
        id: next,
        ctime: now,
        refcount: 1,
        locked: false,
        ..*top
    }
}

/// The plan of a copy whose names have come: the places of its files come behind them.
fn with_files<K: Keeper>(
    alloc: Global,
    keeper: &mut K,
    batch: Batch,
    seen: &[u64],
    top: &InodeRow,
    params: &Params,
    now: u64,
) -> Result<Plan, KeeperFault>
    requires now { now < 2 ^ 62 }
    requires room { params.now.next_inode + length seen.now ≤ 2 ^ 62 }
    ensures plan { IfOk result (λ p. IfTold (K.told keeper.old) (λ t. (whole : Tree) (pass source parent : ℕ) (name : List ℕ) (directory : Inode) (c : Copied)
        → IsCopyable t whole source parent name top.now directory params.now → IsCopiedWhole t whole now top.now directory name c → c.names ≡ Some batch → c.seen.items ≡ seen.now
        → IsCopyPlan t whole pass source parent name now p)) }
    ensures same { K.told keeper.new ≡ K.told keeper.old }
    ensures cause { HasCause (K.faults keeper.old) (K.faults keeper.new) (has_failed result) }
    ensures fit { IfOk result HasFitReply }
{
    let mut batch = batch;
    let next = params.next_inode;
    if next >= LIMIT {
        return Ok(Plan::Worn);
    }
    if !copy_files(keeper, &mut batch, seen, next)? {
        return Ok(Plan::Worn);
    }
    let row = row_of_copy(top, next, now);
    Ok(attributed(alloc, Some(batch), &row))
}

/// The plan of a copy of which the walk has made all names.
fn finish<K: Keeper>(
    alloc: Global,
    keeper: &mut K,
    copied: Copied,
    top: &InodeRow,
    params: &Params,
    now: u64,
) -> Result<Plan, KeeperFault>
    requires { now < 2 ^ 62 }
    ensures plan { IfOk result (λ p. IfTold (K.told keeper.old) (λ t. (whole : Tree) (pass source parent : ℕ) (name : List ℕ) (directory : Inode)
        → IsCopyable t whole source parent name top.now directory params.now → IsCopiedWhole t whole now top.now directory name copied
        → IsCopyPlan t whole pass source parent name now p)) }
    ensures same { K.told keeper.new ≡ K.told keeper.old }
    ensures cause { HasCause (K.faults keeper.old) (K.faults keeper.new) (has_failed result) }
    ensures fit { IfOk result HasFitReply }
{
    let Copied {
        names,
        seen,
        numbers: _,
    } = copied;
    if let Err(errno) = check_ids(params, seen.len() as u64) {
        return Ok(Plan::Refuse(errno));
    }
    match names {
        Some(batch) => with_files(alloc, keeper, batch, &seen, top, params, now),
        None => Ok(Plan::Worn),
    }
}

/// The plan of a copy that no check but that of the numbers refuses.
fn plan_copy<K: Keeper>(
    alloc: Global,
    keeper: &mut K,
    top: &InodeRow,
    directory: &InodeRow,
    name: &ByteList,
    now: u64,
) -> Result<Plan, KeeperFault>
    requires { now < 2 ^ 62 }
    ensures plan { IfOk result (λ p. IfTold (K.told keeper.old) (λ t. (whole : Tree) (pass source parent : ℕ)
        → MayHave t whole source parent name.now top.now directory.now → IsCopyPlan t whole pass source parent name.now now p)) }
    ensures same { K.told keeper.new ≡ K.told keeper.old }
    ensures cause { HasCause (K.faults keeper.old) (K.faults keeper.new) (has_failed result) }
    ensures fit { IfOk result HasFitReply }
{
    let Some(params) = keeper.params()? else {
        return Ok(Plan::Worn);
    };
    let Some(copied) = copy_names(alloc, keeper, top, directory, name, &params, now)? else {
        return Ok(Plan::Worn);
    };
    finish(alloc, keeper, copied, top, &params, now)
}

/// Both directories.
fn check_folders(
    top: Option<InodeRow>,
    directory: Option<InodeRow>,
) -> Result<(InodeRow, InodeRow), Errno>
    ensures top { IfOk result (λ rows. top ≡ Some rows.0) }
    ensures directory { IfOk result (λ rows. directory ≡ Some rows.1) }
    ensures check { Checks result (first_failure (row_check top ∷ directory_row_check top ∷ row_check directory ∷ directory_row_check directory ∷ [])) }
{
    let top = check_node(top)?;
    check_directory(&top)?;
    let directory = check_node(directory)?;
    check_directory(&directory)?;
    Ok((top, directory))
}

/// EINVAL where the directory is the source or lies below it, EPERM where it is locked, EEXIST where it has such an entry.
fn check_target(within: bool, directory: &InodeRow, taken: bool) -> Result<(), Errno>
    ensures { Checks result (first_failure (fails_with einval within ∷ lock_row_check (Some directory.now) ∷ fails_with eexist taken ∷ [])) }
{
    if within {
        return Err(Errno::EINVAL);
    }
    check_unlocked(directory)?;
    check_free(taken)?;
    Ok(())
}

/// The plan of a copy of one directory into another.
fn plan_into<K: Keeper>(
    alloc: Global,
    keeper: &mut K,
    source: u64,
    parent: u64,
    top: &InodeRow,
    directory: &InodeRow,
    name: &ByteList,
    now: u64,
) -> Result<Plan, KeeperFault>
    requires { now < 2 ^ 62 }
    ensures plan { IfOk result (λ p. IfTold (K.told keeper.old) (λ t. (whole : Tree) (pass : ℕ)
        → FindsBoth t whole source parent name.now top.now directory.now → IsCopyPlan t whole pass source parent name.now now p)) }
    ensures same { K.told keeper.new ≡ K.told keeper.old }
    ensures cause { HasCause (K.faults keeper.old) (K.faults keeper.new) (has_failed result) }
    ensures fit { IfOk result HasFitReply }
{
    let Some(within) = lies_within(keeper, source, parent)? else {
        return Ok(Plan::Worn);
    };
    let taken = has_entry(keeper, parent, name)?;
    if let Err(errno) = check_target(within, directory, taken) {
        return Ok(Plan::Refuse(errno));
    }
    plan_copy(alloc, keeper, top, directory, name, now)
}

/// The plan of a CopyTree. Nothing is committed.
pub fn copy_batch<K: Keeper>(
    alloc: Global,
    keeper: &mut K,
    source: u64,
    parent: u64,
    name: &ByteList,
    now: u64,
) -> Result<Plan, KeeperFault>
    requires { now < 2 ^ 62 }
    ensures plan { IfOk result (λ p. IfTold (K.told keeper.old) (λ t. IsValid t → HasUniqueNames t → (whole : Tree) (pass : ℕ) → Represents t whole → IsWellFormed whole
        → IsCopyPlan t whole pass source parent name.now now p)) }
    ensures same { K.told keeper.new ≡ K.told keeper.old }
    ensures cause { HasCause (K.faults keeper.old) (K.faults keeper.new) (has_failed result) }
    ensures fit { IfOk result HasFitReply }
{
    if let Err(errno) = check_name(name) {
        return Ok(Plan::Refuse(errno));
    }
    let top = keeper.inode(source)?;
    let directory = keeper.inode(parent)?;
    match check_folders(top, directory) {
        Ok(rows) => plan_into(alloc, keeper, source, parent, &rows.0, &rows.1, name, now),
        Err(errno) => Ok(Plan::Refuse(errno)),
    }
}

//! The walk through a directory and all below it, by which the entries below it go.
ghost use Rattle.std.specs.Prelude.{◌≡◌, ◌<◌, ◌^◌, ◌++◌, ℕ, List, [], ◌∷◌, Some, reverse, true, false, IfOk, OnOk};
ghost use Rattle.std.specs.List.{slice_get};
ghost use Rattle.s3_base.specs.Faults.{HasCause};
ghost use Rattle.plain_tree.specs.Tree.{Tree};
ghost use Rattle.s3_rows.specs.Batches.{tables_after};
ghost use Rattle.s3_rows.specs.Selections.{entries_listed, inode_at};
ghost use Rattle.s3_rows.specs.Told.{IfTold, has_failed};
ghost use Rattle.s3_rows.specs.Validity.{is_directory};
ghost use Rattle.immutable_trees.specs.Branches.{CanRemove, HasTaken, TakesBelow, below_entry, first_branch, is_end, moved};

use crate::taken::{take_file, take_folder};
use crate::walk::{Level, next_entry};
use dir_ops::old_link::is_kept;
use ref_counts::{Handles, pending_inode};
use s3_base::{ByteList, Kind};
use s3_rows::{Batch, ContentRow, InodeRow, Keeper, KeeperFault, NamedEntry};
use std::alloc::{AllocError, Global};

/// A directory that the walk is in, and its own entry, but for the first.
#[derive(Debug, Drop)]
pub struct Branch {
    level: Level,
    own: Option<ContentRow>,
}

/// Before all entries of a directory.
fn first_branches(alloc: Global, directory: u64) -> Result<Vec<Branch>, AllocError>
    ensures { IfOk result (λ branches. branches.items ≡ first_branch directory ∷ []) }
{
    let mut branches = Vec::new(alloc);
    branches.push(Branch {
        level: Level {
            directory,
            last: ByteList::new(alloc),
        },
        own: None,
    })?;
    Ok(branches)
}

/// Goes on behind a name.
fn go_behind(branches: &mut Vec<Branch>, branch: Branch, name: ByteList) -> Result<(), AllocError>
    ensures { OnOk result (branches.new.items ≡ branches.old.items ++ moved branch name ∷ []) }
{
    branches.push(Branch {
        level: Level {
            directory: branch.level.directory,
            last: name,
        },
        own: branch.own,
    })?;
    Ok(())
}

/// Goes into the directory that an entry names, and then on behind it.
fn go_down(
    alloc: Global,
    branches: &mut Vec<Branch>,
    branch: Branch,
    entry: NamedEntry,
) -> Result<(), AllocError>
    ensures { OnOk result (branches.new.items ≡ branches.old.items ++ moved branch entry.name ∷ below_entry entry ∷ []) }
{
    let row = entry.row;
    go_behind(branches, branch, entry.name)?;
    branches.push(Branch {
        level: Level {
            directory: row.inode,
            last: ByteList::new(alloc),
        },
        own: Some(row),
    })?;
    Ok(())
}

/// Takes the entry of what is no directory.
fn take_here<K: Keeper>(
    keeper: &mut K,
    handles: &Handles,
    batch: &mut Batch,
    branches: &mut Vec<Branch>,
    branch: Branch,
    entry: NamedEntry,
    child: &InodeRow,
    now: u64,
) -> Result<bool, KeeperFault>
    requires { now < 2 ^ 62 }
    ensures taken { IfOk result (λ there. IfTold (K.told keeper.old) (λ t. (whole : Tree) (parent top : ℕ) (name : List ℕ) → CanRemove t whole parent top name handles.now
        → HasTaken t whole top now batch.old (branch ∷ reverse branches.old.items) → slice_get (entries_listed t branch.level.directory branch.level.last 1) 0 ≡ Some entry
        → inode_at (tables_after batch.old t) entry.row.inode ≡ Some child.now → is_directory child.now.kind ≡ false
        → (there ≡ true) × HasTaken t whole top now batch.new (reverse branches.new.items))) }
    ensures same { K.told keeper.new ≡ K.told keeper.old }
    ensures cause { HasCause (K.faults keeper.old) (K.faults keeper.new) (has_failed result) }
{
    let kept = is_kept(child, handles);
    take_file(keeper, batch, kept, &entry.row, child, now)?;
    go_behind(branches, branch, entry.name)?;
    Ok(true)
}

/// Goes into the directory that the next entry names, or takes the entry of what is none. False where it names no row.
fn take_next<K: Keeper>(
    alloc: Global,
    keeper: &mut K,
    handles: &Handles,
    batch: &mut Batch,
    branches: &mut Vec<Branch>,
    branch: Branch,
    entry: NamedEntry,
    now: u64,
) -> Result<bool, KeeperFault>
    requires { now < 2 ^ 62 }
    ensures taken { IfOk result (λ there. IfTold (K.told keeper.old) (λ t. (whole : Tree) (parent top : ℕ) (name : List ℕ) → CanRemove t whole parent top name handles.now
        → HasTaken t whole top now batch.old (branch ∷ reverse branches.old.items) → slice_get (entries_listed t branch.level.directory branch.level.last 1) 0 ≡ Some entry
        → (there ≡ true) × HasTaken t whole top now batch.new (reverse branches.new.items))) }
    ensures same { K.told keeper.new ≡ K.told keeper.old }
    ensures cause { HasCause (K.faults keeper.old) (K.faults keeper.new) (has_failed result) }
{
    let Some(child) = pending_inode(keeper, batch, entry.row.inode)? else {
        return Ok(false);
    };
    match child.kind {
        Kind::Directory => {
            go_down(alloc, branches, branch, entry)?;
            Ok(true)
        }
        Kind::Regular | Kind::Link => {
            take_here(keeper, handles, batch, branches, branch, entry, &child, now)
        }
    }
}

/// The first directory has no entry left.
fn is_end(next: &Option<NamedEntry>, branch: &Branch) -> bool
    ensures { result ≡ is_end next.now branch.now }
{
    next.is_none() && branch.own.is_none()
}

/// Takes the next entry of a directory, and its own where there is none.
fn turn<K: Keeper>(
    alloc: Global,
    keeper: &mut K,
    handles: &Handles,
    batch: &mut Batch,
    branches: &mut Vec<Branch>,
    branch: Branch,
    next: Option<NamedEntry>,
    now: u64,
) -> Result<bool, KeeperFault>
    requires { now < 2 ^ 62 }
    ensures taken { IfOk result (λ there. IfTold (K.told keeper.old) (λ t. (whole : Tree) (parent top : ℕ) (name : List ℕ) → CanRemove t whole parent top name handles.now
        → HasTaken t whole top now batch.old (branch ∷ reverse branches.old.items) → next ≡ slice_get (entries_listed t branch.level.directory branch.level.last 1) 0
        → is_end next branch ≡ false → (there ≡ true) × HasTaken t whole top now batch.new (reverse branches.new.items))) }
    ensures same { K.told keeper.new ≡ K.told keeper.old }
    ensures cause { HasCause (K.faults keeper.old) (K.faults keeper.new) (has_failed result) }
{
    match next {
        Some(entry) => take_next(alloc, keeper, handles, batch, branches, branch, entry, now),
        None => match branch.own {
            Some(own) => {
                take_folder(keeper, batch, &own)?;
                Ok(true)
            }
            None => Ok(false),
        },
    }
}

/// The batch that takes all entries below a directory, which stays, empty. None where an entry names an inode that has no row. The
/// walk keeps one name and one entry for each directory on the way down. Where it took as many turns as a number can count there is
/// no memory for the batch.
pub(crate) fn take_tree<K: Keeper>(
    alloc: Global,
    keeper: &mut K,
    handles: &Handles,
    top: u64,
    now: u64,
) -> Result<Option<Batch>, KeeperFault>
    requires { now < 2 ^ 62 }
    ensures taken { IfOk result (λ b. IfTold (K.told keeper.old) (λ t. (whole : Tree) (parent : ℕ) (name : List ℕ) → CanRemove t whole parent top name handles.now
        → TakesBelow t whole top now b)) }
    ensures same { K.told keeper.new ≡ K.told keeper.old }
    ensures cause { HasCause (K.faults keeper.old) (K.faults keeper.new) (has_failed result) }
{
    let mut batch = Batch::new(alloc);
    let mut branches = first_branches(alloc, top)?;
    'turns: for _turn in 0..u64::MAX {
        let Some(branch) = branches.pop() else {
            return Ok(None);
        };
        let next = next_entry(keeper, &branch.level)?;
        if is_end(&next, &branch) {
            return Ok(Some(batch));
        }
        if !turn(
            alloc,
            keeper,
            handles,
            &mut batch,
            &mut branches,
            branch,
            next,
            now,
        )? {
            return Ok(None);
        }
    }
    Err(KeeperFault::Memory)
}

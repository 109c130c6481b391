//! What a Rename moves, and the checks of it.
ghost use Rattle.std.specs.Prelude.{◌≡◌, ◌&&◌, not, [], ◌∷◌, None, Some, IsTrue, IfOk, OnOk};
ghost use Rattle.s3_base.specs.Errors.{eisdir, enotdir, enotempty};
ghost use Rattle.s3_base.specs.Faults.{HasCause};
ghost use Rattle.plain_tree.specs.Below.{is_at_or_below};
ghost use Rattle.plain_tree.specs.Tree.{Tree};
ghost use Rattle.plain_tree.specs.Checks.{fails_with, first_failure, name_check};
ghost use Rattle.plain_tree.specs.WellFormed.{IsWellFormed};
ghost use Rattle.s3_rows.specs.Told.{IfTold, has_failed};
ghost use Rattle.s3_rows.specs.Validity.{IsValid, HasUniqueNames, has_inode, is_directory};
ghost use Rattle.tree_rows.specs.Shapes.{Represents};
ghost use Rattle.op_checks.specs.Checks.{Checks};
ghost use Rattle.op_checks.specs.Rows.{lock_row_check};
ghost use Rattle.dir_ops.specs.Moves.{IsFound, IsMove, both_row_checks, holds_entries, over_checks, is_itself};

use crate::emptiness::{check_empty, has_entries};
use crate::old_entry::{OldEntry, find_named_child};
use crate::upward::lies_within;
use op_checks::{
    check_directory, check_keep, check_name, check_no_directory, check_node, check_unlocked,
};
use s3_base::{ByteList, Errno, Kind};
use s3_rows::{ContentRow, InodeRow, Keeper, KeeperFault};
use std::alloc::Global;

/// The rows that a Rename reads: both directories, and the entries of both names with their inodes.
#[derive(Clone, Copy, Debug)]
pub struct Found {
    pub directory: Option<InodeRow>,
    pub new_directory: Option<InodeRow>,
    pub child: Option<(ContentRow, InodeRow)>,
    pub replaced: Option<(ContentRow, InodeRow)>,
}

/// The entry that moves, the directory where it goes, and what it replaces there: another entry, with its inode.
#[derive(Clone, Copy, Debug)]
pub struct Move {
    pub old: OldEntry,
    pub directory: InodeRow,
    pub replaced: Option<(ContentRow, InodeRow)>,
}

impl Move {
    /// The entry that would be replaced names the inode that moves.
    pub fn is_itself(&self) -> bool
        ensures { result ≡ is_itself self.now }
    {
        match self.replaced {
            Some(replaced) => replaced.0.inode == self.old.entry.inode,
            None => false,
        }
    }
}

/// The rows of both directories and of what their entries name.
fn find_rows<K: Keeper>(
    keeper: &mut K,
    parent: u64,
    name: &ByteList,
    new_parent: u64,
    new_name: &ByteList,
) -> Result<Found, KeeperFault>
    ensures found { IfOk result (λ f. IfTold (K.told keeper.old) (λ t. IsValid t → HasUniqueNames t → IsFound t parent name.now new_parent new_name.now f)) }
    ensures same { K.told keeper.new ≡ K.told keeper.old }
    ensures cause { HasCause (K.faults keeper.old) (K.faults keeper.new) (has_failed result) }
{
    let directory = keeper.inode(parent)?;
    let new_directory = keeper.inode(new_parent)?;
    let child = find_named_child(keeper, parent, name)?;
    let replaced = find_named_child(keeper, new_parent, new_name)?;
    Ok(Found {
        directory,
        new_directory,
        child,
        replaced,
    })
}

/// What moves, where no check of both names and of what they name fails.
fn check_both(
    parent: u64,
    name: &ByteList,
    new_parent: u64,
    new_name: &ByteList,
    found: &Found,
) -> Result<Move, Errno>
    ensures legal { OnOk result (name_check new_name.now ≡ None) }
    ensures directory { IfOk result (λ m. found.now.directory ≡ Some m.old.directory) }
    ensures child { IfOk result (λ m. found.now.child ≡ Some (m.old.entry, m.old.child)) }
    ensures new_directory { IfOk result (λ m. found.now.new_directory ≡ Some m.directory) }
    ensures replaced { IfOk result (λ m. found.now.replaced ≡ m.replaced) }
    ensures check { Checks result (first_failure (both_row_checks parent name.now new_parent new_name.now found.now)) }
{
    check_name(name)?;
    check_name(new_name)?;
    let directory = check_node(found.directory)?;
    check_directory(&directory)?;
    let new_directory = check_node(found.new_directory)?;
    check_directory(&new_directory)?;
    check_unlocked(&directory)?;
    check_unlocked(&new_directory)?;
    check_keep(parent, name)?;
    check_keep(new_parent, new_name)?;
    let (entry, child) = found.child.ok_or(Errno::ENOENT)?;
    check_unlocked(&child)?;
    Ok(Move {
        old: OldEntry {
            directory,
            entry,
            child,
        },
        directory: new_directory,
        replaced: found.replaced,
    })
}

/// What a Rename moves, or the error of the first check of both names and of what they name that fails.
pub fn find_move<K: Keeper>(
    keeper: &mut K,
    parent: u64,
    name: &ByteList,
    new_parent: u64,
    new_name: &ByteList,
) -> Result<Result<Move, Errno>, KeeperFault>
    ensures moved { IfOk result (λ r. IfTold (K.told keeper.old) (λ t. IsValid t → HasUniqueNames t → (whole : Tree) → Represents t whole
        → IsMove t whole parent name.now new_parent new_name.now r)) }
    ensures legal { IfOk result (λ r. OnOk r (name_check new_name.now ≡ None)) }
    ensures same { K.told keeper.new ≡ K.told keeper.old }
    ensures cause { HasCause (K.faults keeper.old) (K.faults keeper.new) (has_failed result) }
{
    let found = find_rows(keeper, parent, name, new_parent, new_name)?;
    Ok(check_both(parent, name, new_parent, new_name, &found))
}

/// A directory would lie at or below itself. None where the way up from where it goes has no end.
pub fn would_hold_itself<K: Keeper>(
    keeper: &mut K,
    moved: &Move,
) -> Result<Option<bool>, KeeperFault>
    ensures below { IfOk result (λ b. IfTold (K.told keeper.old) (λ t. IsValid t → (whole : Tree) → Represents t whole → IsWellFormed whole
        → IsTrue (has_inode is_directory t moved.now.directory.id)
        → b ≡ Some (is_directory moved.now.old.child.kind && is_at_or_below whole moved.now.old.child.id moved.now.directory.id))) }
    ensures same { K.told keeper.new ≡ K.told keeper.old }
    ensures cause { HasCause (K.faults keeper.old) (K.faults keeper.new) (has_failed result) }
{
    match moved.old.child.kind {
        Kind::Directory => lies_within(keeper, moved.old.child.id, moved.directory.id),
        Kind::Regular | Kind::Link => Ok(Some(false)),
    }
}

/// It is a directory that has entries.
fn is_full<K: Keeper>(alloc: Global, keeper: &mut K, row: &InodeRow) -> Result<bool, KeeperFault>
    ensures full { IfOk result (λ full. IfTold (K.told keeper.old) (λ t. full ≡ holds_entries t row.now)) }
    ensures same { K.told keeper.new ≡ K.told keeper.old }
    ensures cause { HasCause (K.faults keeper.old) (K.faults keeper.new) (has_failed result) }
{
    match row.kind {
        Kind::Directory => has_entries(alloc, keeper, row),
        Kind::Regular | Kind::Link => Ok(false),
    }
}

/// EISDIR where what is no directory would replace one.
fn check_over_file(child: &InodeRow, replaced: &InodeRow) -> Result<(), Errno>
    ensures { Checks result (fails_with eisdir (not (is_directory child.now.kind) && is_directory replaced.now.kind)) }
{
    match child.kind {
        Kind::Directory => Ok(()),
        Kind::Regular | Kind::Link => check_no_directory(replaced, Errno::EISDIR),
    }
}

/// ENOTDIR where a directory would replace what is none.
fn check_over_directory(child: &InodeRow, replaced: &InodeRow) -> Result<(), Errno>
    ensures { Checks result (fails_with enotdir (is_directory child.now.kind && not (is_directory replaced.now.kind))) }
{
    match child.kind {
        Kind::Directory => check_directory(replaced),
        Kind::Regular | Kind::Link => Ok(()),
    }
}

/// The checks of an inode that is replaced by another: `full` says that it is a directory with entries.
fn check_over(child: &InodeRow, replaced: &InodeRow, full: bool) -> Result<(), Errno>
    ensures { Checks result (first_failure (lock_row_check (Some replaced.now)
        ∷ fails_with eisdir (not (is_directory child.now.kind) && is_directory replaced.now.kind)
        ∷ fails_with enotdir (is_directory child.now.kind && not (is_directory replaced.now.kind)) ∷ fails_with enotempty full ∷ [])) }
{
    check_unlocked(replaced)?;
    check_over_file(child, replaced)?;
    check_over_directory(child, replaced)?;
    check_empty(full)
}

/// The first check of what is replaced that fails.
pub fn check_replaced<K: Keeper>(
    alloc: Global,
    keeper: &mut K,
    moved: &Move,
) -> Result<Result<(), Errno>, KeeperFault>
    ensures check { IfOk result (λ r. IfTold (K.told keeper.old) (λ t. Checks r (first_failure (over_checks t moved.now.old.child moved.now.replaced)))) }
    ensures same { K.told keeper.new ≡ K.told keeper.old }
    ensures cause { HasCause (K.faults keeper.old) (K.faults keeper.new) (has_failed result) }
{
    match moved.replaced {
        Some((_, replaced)) => {
            let full = is_full(alloc, keeper, &replaced)?;
            Ok(check_over(&moved.old.child, &replaced, full))
        }
        None => Ok(Ok(())),
    }
}

//! An entry of a directory that goes, whatever it names.
ghost use Rattle.std.specs.Prelude.{◌≡◌, ◌<◌, ◌^◌, ◌++◌, [], ◌∷◌, Some, IfOk, OnOk};
ghost use Rattle.s3_base.specs.Faults.{HasCause};
ghost use Rattle.plain_tree.specs.Tree.{Tree};
ghost use Rattle.plain_tree.specs.Checks.{first_failure, keep_check, name_check};
ghost use Rattle.s3_rows.specs.declared.change.Change.TheVariants as changes;
ghost use Rattle.s3_rows.specs.Rows.{Name};
ghost use Rattle.s3_rows.specs.Batches.{tables_after};
ghost use Rattle.s3_rows.specs.Selections.{inode_at, name_at};
ghost use Rattle.s3_rows.specs.Told.{IfTold, has_failed};
ghost use Rattle.s3_rows.specs.Validity.{IsValid, HasUniqueNames};
ghost use Rattle.tree_rows.specs.Shapes.{Represents};
ghost use Rattle.op_checks.specs.Checks.{Checks};
ghost use Rattle.op_checks.specs.Rows.{row_check, directory_row_check, lock_row_check};
ghost use Rattle.row_steps.specs.RowChanges.{dropping, touched_row};
ghost use Rattle.dir_ops.specs.OldEntries.{child_of, child_named, child_check, IsOldEntry};

use crate::entries::find_entry;
use op_checks::{check_directory, check_keep, check_name, check_node, check_unlocked};
use ref_counts::name_down;
use s3_base::{ByteList, Errno};
use s3_rows::{Batch, Change, ContentRow, InodeRow, Keeper, KeeperFault};
use std::alloc::AllocError;

/// The directory, its entry that goes, and the inode that the entry names.
#[derive(Clone, Copy, Debug)]
pub struct OldEntry {
    pub directory: InodeRow,
    pub entry: ContentRow,
    pub child: InodeRow,
}

/// An entry with the row of its inode, where there is one.
fn with_child(entry: &ContentRow, child: Option<InodeRow>) -> Option<(ContentRow, InodeRow)>
    ensures { result ≡ child_of entry.now child }
{
    match child {
        Some(child) => Some((*entry, child)),
        None => None,
    }
}

/// The inode that an entry names, with the entry.
fn find_child_of<K: Keeper>(
    keeper: &mut K,
    entry: &ContentRow,
) -> Result<Option<(ContentRow, InodeRow)>, KeeperFault>
    ensures found { IfOk result (λ found. IfTold (K.told keeper.old) (λ t. found ≡ child_of entry.now (inode_at t entry.now.inode))) }
    ensures same { K.told keeper.new ≡ K.told keeper.old }
    ensures cause { HasCause (K.faults keeper.old) (K.faults keeper.new) (has_failed result) }
{
    let child = keeper.inode(entry.inode)?;
    Ok(with_child(entry, child))
}

/// The entry of a directory that has this name, and the inode that it names.
pub fn find_named_child<K: Keeper>(
    keeper: &mut K,
    parent: u64,
    name: &ByteList,
) -> Result<Option<(ContentRow, InodeRow)>, KeeperFault>
    ensures found { IfOk result (λ found. IfTold (K.told keeper.old) (λ t. IsValid t → HasUniqueNames t → found ≡ child_named t parent name.now)) }
    ensures same { K.told keeper.new ≡ K.told keeper.old }
    ensures cause { HasCause (K.faults keeper.old) (K.faults keeper.new) (has_failed result) }
{
    match find_entry(keeper, parent, name)? {
        Some(entry) => find_child_of(keeper, &entry),
        None => Ok(None),
    }
}

/// The rows, where no check of an entry that goes fails.
fn check_old_entry(
    parent: u64,
    name: &ByteList,
    found: Option<InodeRow>,
    child: Option<(ContentRow, InodeRow)>,
) -> Result<OldEntry, Errno>
    ensures directory { IfOk result (λ old. found ≡ Some old.directory) }
    ensures child { IfOk result (λ old. child ≡ Some (old.entry, old.child)) }
    ensures check { Checks result (first_failure (name_check name.now ∷ row_check found ∷ directory_row_check found ∷ lock_row_check found
        ∷ keep_check parent name.now ∷ child_check child ∷ [])) }
{
    check_name(name)?;
    let directory = check_node(found)?;
    check_directory(&directory)?;
    check_unlocked(&directory)?;
    check_keep(parent, name)?;
    let (entry, child) = child.ok_or(Errno::ENOENT)?;
    Ok(OldEntry {
        directory,
        entry,
        child,
    })
}

/// The entry of a directory that goes, or the error of the first check of it that fails.
pub fn find_old_entry<K: Keeper>(
    keeper: &mut K,
    parent: u64,
    name: &ByteList,
) -> Result<Result<OldEntry, Errno>, KeeperFault>
    ensures old { IfOk result (λ r. IfTold (K.told keeper.old) (λ t. IsValid t → HasUniqueNames t → (whole : Tree) → Represents t whole → IsOldEntry t whole parent name.now r)) }
    ensures same { K.told keeper.new ≡ K.told keeper.old }
    ensures cause { HasCause (K.faults keeper.old) (K.faults keeper.new) (has_failed result) }
{
    let found = keeper.inode(parent)?;
    let child = find_named_child(keeper, parent, name)?;
    Ok(check_old_entry(parent, name, found, child))
}

/// Adds the changes by which an entry is deleted and its directory touched at the time `now`; the uses of its name are as before.
pub fn lift_entry(batch: &mut Batch, old: &OldEntry, now: u64) -> Result<(), AllocError>
    requires { now < 2 ^ 62 }
    ensures { OnOk result (batch.new ≡ batch.old ++ changes.DeleteContent old.now.entry.parent old.now.entry.name_id ∷ changes.PutInode (touched_row now old.now.directory) ∷ []) }
{
    let directory = old.directory;
    let entry = old.entry;
    batch.push(Change::DeleteContent(entry.parent, entry.name_id))?;
    batch.push(Change::PutInode(InodeRow {
        mtime: now,
        ctime: now,
        ..directory
    }))?;
    Ok(())
}

/// Adds the changes by which an entry goes: it is deleted, its directory touched at the time `now`, and its name used once less.
pub fn drop_entry<K: Keeper>(
    keeper: &mut K,
    batch: &mut Batch,
    old: &OldEntry,
    now: u64,
) -> Result<(), KeeperFault>
    requires { now < 2 ^ 62 }
    ensures dropped { OnOk result (IfTold (K.told keeper.old) (λ t. (n : Name) → name_at (tables_after batch.old t) old.now.entry.name_id ≡ Some n
        → batch.new ≡ batch.old ++ dropping old.now.directory old.now.entry n now)) }
    ensures same { K.told keeper.new ≡ K.told keeper.old }
    ensures cause { HasCause (K.faults keeper.old) (K.faults keeper.new) (has_failed result) }
{
    lift_entry(batch, old, now)?;
    name_down(keeper, batch, old.entry.name_id)
}

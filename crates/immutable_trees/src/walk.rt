//! The walk through a directory and all below it, by which their rows are locked.
ghost use Rattle.std.specs.Prelude.{◌≡◌, ◌≤◌, ◌<◌, ◌^◌, ◌++◌, ℕ, [], ◌∷◌, length, true, IsTrue, IfOk, OnOk, Some};
ghost use Rattle.std.specs.List.{slice_get};
ghost use Rattle.s3_base.specs.Faults.{HasCause};
ghost use Rattle.plain_tree.specs.Tree.{Tree};
ghost use Rattle.plain_tree.specs.WellFormed.{IsWellFormed};
ghost use Rattle.s3_rows.specs.declared.change.Change.TheVariants as changes;
ghost use Rattle.s3_rows.specs.Selections.{entries_listed, inode_at};
ghost use Rattle.s3_rows.specs.Told.{IfTold, has_failed};
ghost use Rattle.s3_rows.specs.Validity.{IsValid, is_directory};
ghost use Rattle.tree_rows.specs.Shapes.{Represents};
ghost use Rattle.immutable_trees.specs.Levels.{HasCome, IsLockOf, first_level, levels_behind, steps_left};
ghost use Rattle.immutable_trees.specs.LockedRows.{locked_row};

use s3_base::{ByteList, Kind};
use s3_rows::{Batch, Change, InodeRow, Keeper, KeeperFault, NamedEntry};
use std::alloc::{AllocError, Global};

/// A directory that the walk is in, and the name of the entry that it met there last.
#[derive(Debug, Drop)]
pub struct Level {
    pub(crate) directory: u64,
    pub(crate) last: ByteList,
}

/// Locks a row. The batch stays so short that its length is a number.
fn lock_row(batch: &mut Batch, row: &InodeRow) -> Result<(), AllocError>
    ensures locked { OnOk result (batch.new ≡ batch.old ++ changes.PutInode (locked_row row.now) ∷ []) }
    ensures short { OnOk result (length batch.new < 2 ^ 64) }
{
    batch.push(Change::PutInode(InodeRow {
        locked: true,
        ..*row
    }))?;
    let _length = batch.as_slice().len();
    Ok(())
}

/// The entry behind the last one.
pub(crate) fn next_entry<K: Keeper>(
    keeper: &mut K,
    level: &Level,
) -> Result<Option<NamedEntry>, KeeperFault>
    ensures next { IfOk result (λ found. IfTold (K.told keeper.old) (λ t. found ≡ slice_get (entries_listed t level.now.directory level.now.last 1) 0)) }
    ensures same { K.told keeper.new ≡ K.told keeper.old }
    ensures cause { HasCause (K.faults keeper.old) (K.faults keeper.new) (has_failed result) }
{
    let page = keeper.entries(level.directory, &level.last, 1)?;
    match page.as_slice().first() {
        Some(entry) => Ok(Some(entry.clone()?)),
        None => Ok(None),
    }
}

/// Goes on behind an entry, with the inode that it names before its directory.
fn go_on(
    alloc: Global,
    levels: &mut Vec<Level>,
    directory: u64,
    name: ByteList,
    row: &InodeRow,
) -> Result<(), AllocError>
    ensures { OnOk result (levels.new.items ≡ levels.old.items ++ levels_behind directory name row.now) }
{
    levels.push(Level {
        directory,
        last: name,
    })?;
    match row.kind {
        Kind::Directory => levels.push(Level {
            directory: row.id,
            last: ByteList::new(alloc),
        })?,
        Kind::Regular | Kind::Link => {}
    }
    Ok(())
}

/// Locks the inode of the next entry of a level. False where it has no row.
fn lock_next<K: Keeper>(
    alloc: Global,
    keeper: &mut K,
    batch: &mut Batch,
    levels: &mut Vec<Level>,
    level: Level,
) -> Result<bool, KeeperFault>
    ensures come { IfOk result (λ there. IfTold (K.told keeper.old) (λ t. IsValid t → (whole : Tree) (top : ℕ) → Represents t whole → IsWellFormed whole
        → HasCome t whole top batch.old (levels.old.items ++ level ∷ []) → (there ≡ true) × HasCome t whole top batch.new levels.new.items)) }
    ensures nearer { IfOk result (λ _. steps_left batch.new levels.new.items ≤ steps_left batch.old levels.old.items) }
    ensures same { K.told keeper.new ≡ K.told keeper.old }
    ensures cause { HasCause (K.faults keeper.old) (K.faults keeper.new) (has_failed result) }
{
    let Some(entry) = next_entry(keeper, &level)? else {
        return Ok(true);
    };
    let Some(row) = keeper.inode(entry.row.inode)? else {
        return Ok(false);
    };
    lock_row(batch, &row)?;
    go_on(alloc, levels, level.directory, entry.name, &row)?;
    Ok(true)
}

/// Before all entries of a directory.
fn first_levels(alloc: Global, directory: u64) -> Result<Vec<Level>, AllocError>
    ensures { IfOk result (λ levels. levels.items ≡ first_level directory ∷ []) }
{
    let mut levels = Vec::new(alloc);
    levels.push(Level {
        directory,
        last: ByteList::new(alloc),
    })?;
    Ok(levels)
}

/// The batch that locks a directory and all below it. None where an entry names an inode that has no row. The walk keeps one name
/// for each directory on the way down, and ends, whatever the keeper tells: each entry adds a change to the batch.
pub fn lock_tree<K: Keeper>(
    alloc: Global,
    keeper: &mut K,
    top: &InodeRow,
) -> Result<Option<Batch>, KeeperFault>
    ensures batch { IfOk result (λ b. IfTold (K.told keeper.old) (λ t. IsValid t → (whole : Tree) → Represents t whole → IsWellFormed whole
        → inode_at t top.now.id ≡ Some top.now → IsTrue (is_directory top.now.kind) → IsLockOf t whole top.now.id b)) }
    ensures same { K.told keeper.new ≡ K.told keeper.old }
    ensures cause { HasCause (K.faults keeper.old) (K.faults keeper.new) (has_failed result) }
{
    let mut batch = Batch::new(alloc);
    lock_row(&mut batch, top)?;
    let mut levels = first_levels(alloc, top.id)?;
    'levels: while let Some(level) = levels.pop() {
        if !lock_next(alloc, keeper, &mut batch, &mut levels, level)? {
            return Ok(None);
        }
    }
    Ok(Some(batch))
}

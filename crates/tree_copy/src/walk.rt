//! The walk through a directory and all below it, by which the names of its copy come.
ghost use Rattle.std.specs.Prelude.{◌≡◌, ◌<◌, ◌^◌, ◌++◌, ℕ, List, [], ◌∷◌, reverse, true, Some, IfOk, OnOk};
ghost use Rattle.std.specs.List.{slice_get};
ghost use Rattle.s3_base.specs.Faults.{HasCause};
ghost use Rattle.plain_tree.specs.Tree.{Tree};
ghost use Rattle.s3_rows.specs.Rows.{Inode};
ghost use Rattle.s3_rows.specs.Selections.{entries_listed};
ghost use Rattle.s3_rows.specs.Told.{IfTold, has_failed};
ghost use Rattle.tree_copy.specs.CopyLevels.{first_level, levels_after};
ghost use Rattle.tree_copy.specs.CopyPlans.{IsCopyable};
ghost use Rattle.tree_copy.specs.CopyWalks.{GoesOn, IsWholeCopy};

use crate::entries::CopySpot;
use crate::progress::Copied;
use crate::source::copy_source;
use s3_base::{ByteList, Kind};
use s3_rows::{InodeRow, Keeper, KeeperFault, NamedEntry, Params};
use std::alloc::{AllocError, Global};
use std::collections::BTreeMap;

/// A directory that the walk is in, the number of its copy, and the name of the entry that it met there last.
#[derive(Debug, Drop)]
pub struct Level {
    pub(crate) directory: u64,
    pub(crate) copy: u64,
    pub(crate) last: ByteList,
}

/// The entry behind the last one.
fn next_entry<K: Keeper>(keeper: &mut K, level: &Level) -> Result<Option<NamedEntry>, KeeperFault>
    ensures next { IfOk result (λ found. IfTold (K.told keeper.old) (λ t. found ≡ slice_get (entries_listed t level.now.directory level.now.last 1) 0)) }
    ensures same { K.told keeper.new ≡ K.told keeper.old }
    ensures cause { HasCause (K.faults keeper.old) (K.faults keeper.new) (has_failed result) }
{
    let page = keeper.entries(level.directory, &level.last, 1)?;
    match page.as_slice().first() {
        Some(entry) => Ok(Some(entry.clone()?)),
        None => Ok(None),
    }
}

/// Goes on behind an entry, but first through the directory that it names, where that was not seen before.
fn go_on(
    alloc: Global,
    levels: &mut Vec<Level>,
    level: Level,
    entry: NamedEntry,
    child: &InodeRow,
    spot: CopySpot,
) -> Result<(), AllocError>
    ensures { OnOk result (reverse levels.new.items ≡ levels_after level entry child.now spot.again spot.copy (reverse levels.old.items)) }
{
    levels.push(Level {
        directory: level.directory,
        copy: level.copy,
        last: entry.name,
    })?;
    if !spot.again && matches!(child.kind, Kind::Directory) {
        levels.push(Level {
            directory: child.id,
            copy: spot.copy,
            last: ByteList::new(alloc),
        })?;
    }
    Ok(())
}

/// Visits an entry of a level. False where it names no row.
fn turn<K: Keeper>(
    alloc: Global,
    keeper: &mut K,
    copied: &mut Copied,
    levels: &mut Vec<Level>,
    level: Level,
    entry: NamedEntry,
    params: &Params,
    now: u64,
) -> Result<bool, KeeperFault>
    requires { now < 2 ^ 62 }
    ensures goes { IfOk result (λ there. IfTold (K.told keeper.old) (λ t. (whole : Tree) (source parent : ℕ) (name : List ℕ) (top directory : Inode)
        → IsCopyable t whole source parent name top directory params.now → GoesOn t whole now top directory name copied.old (level ∷ reverse levels.old.items)
        → slice_get (entries_listed t level.directory level.last 1) 0 ≡ Some entry
        → (there ≡ true) × GoesOn t whole now top directory name copied.new (reverse levels.new.items))) }
    ensures same { K.told keeper.new ≡ K.told keeper.old }
    ensures cause { HasCause (K.faults keeper.old) (K.faults keeper.new) (has_failed result) }
{
    let Some(child) = keeper.inode(entry.row.inode)? else {
        return Ok(false);
    };
    let spot = copied.spot(&level, child.id, params, now);
    copied.visit(alloc, keeper, &child, &entry.name, spot)?;
    go_on(alloc, levels, level, entry, &child, spot)?;
    Ok(true)
}

/// Visits the next entry of a level, which is done where it has none. False where the entry names no row.
fn step<K: Keeper>(
    alloc: Global,
    keeper: &mut K,
    copied: &mut Copied,
    levels: &mut Vec<Level>,
    level: Level,
    params: &Params,
    now: u64,
) -> Result<bool, KeeperFault>
    requires { now < 2 ^ 62 }
    ensures goes { IfOk result (λ there. IfTold (K.told keeper.old) (λ t. (whole : Tree) (source parent : ℕ) (name : List ℕ) (top directory : Inode)
        → IsCopyable t whole source parent name top directory params.now → GoesOn t whole now top directory name copied.old (level ∷ reverse levels.old.items)
        → (there ≡ true) × GoesOn t whole now top directory name copied.new (reverse levels.new.items))) }
    ensures same { K.told keeper.new ≡ K.told keeper.old }
    ensures cause { HasCause (K.faults keeper.old) (K.faults keeper.new) (has_failed result) }
{
    match next_entry(keeper, &level)? {
        Some(entry) => turn(alloc, keeper, copied, levels, level, entry, params, now),
        None => Ok(true),
    }
}

/// Before all entries of the source.
fn first_levels(alloc: Global, directory: u64, copy: u64) -> Result<Vec<Level>, AllocError>
    ensures { IfOk result (λ levels. levels.items ≡ first_level directory copy ∷ []) }
{
    let mut levels = Vec::new(alloc);
    levels.push(Level {
        directory,
        copy,
        last: ByteList::new(alloc),
    })?;
    Ok(levels)
}

/// The source is seen first.
fn first_seen(alloc: Global, source: u64) -> Result<Vec<u64>, AllocError>
    ensures { IfOk result (λ seen. seen.items ≡ source ∷ []) }
{
    let mut seen = Vec::new(alloc);
    seen.push(source)?;
    Ok(seen)
}

/// What there is of a copy before all entries of the source.
fn first_copied<K: Keeper>(
    alloc: Global,
    keeper: &mut K,
    top: &InodeRow,
    directory: &InodeRow,
    name: &ByteList,
    params: &Params,
    now: u64,
) -> Result<Copied, KeeperFault>
    requires { now < 2 ^ 62 }
    ensures goes { IfOk result (λ c. IfTold (K.told keeper.old) (λ t. (whole : Tree) (source parent : ℕ) → IsCopyable t whole source parent name.now top.now directory.now params.now
        → GoesOn t whole now top.now directory.now name.now c (first_level top.now.id params.now.next_inode ∷ []))) }
    ensures same { K.told keeper.new ≡ K.told keeper.old }
    ensures cause { HasCause (K.faults keeper.old) (K.faults keeper.new) (has_failed result) }
{
    let names = copy_source(alloc, keeper, top, directory, name, params, now)?;
    let seen = first_seen(alloc, top.id)?;
    Ok(Copied {
        names,
        seen,
        numbers: BTreeMap::new(alloc),
    })
}

/// All that the walk makes of a copy. None where an entry names an inode that has no row. The walk keeps one name for each directory on
/// the way down. Where it took as many turns as a number can count there is no memory for the batch.
pub(crate) fn copy_names<K: Keeper>(
    alloc: Global,
    keeper: &mut K,
    top: &InodeRow,
    directory: &InodeRow,
    name: &ByteList,
    params: &Params,
    now: u64,
) -> Result<Option<Copied>, KeeperFault>
    requires { now < 2 ^ 62 }
    ensures copied { IfOk result (λ c. IfTold (K.told keeper.old) (λ t. (whole : Tree) (source parent : ℕ) → IsCopyable t whole source parent name.now top.now directory.now params.now
        → IsWholeCopy t whole now top.now directory.now name.now c)) }
    ensures same { K.told keeper.new ≡ K.told keeper.old }
    ensures cause { HasCause (K.faults keeper.old) (K.faults keeper.new) (has_failed result) }
{
    let mut copied = first_copied(alloc, keeper, top, directory, name, params, now)?;
    let mut levels = first_levels(alloc, top.id, params.next_inode)?;
    'levels: for _turn in 0..u64::MAX {
        let Some(level) = levels.pop() else {
            return Ok(Some(copied));
        };
        if !step(alloc, keeper, &mut copied, &mut levels, level, params, now)? {
            return Ok(None);
        }
    }
    Err(KeeperFault::Memory)
}

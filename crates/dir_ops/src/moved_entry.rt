//! The batch of an entry that moves.
ghost use Rattle.std.specs.Prelude.{◌≡◌, ◌<◌, ◌^◌, ◌++◌, [], ◌∷◌, None, IfOk, OnOk, option_map};
ghost use Rattle.s3_base.specs.Faults.{HasCause};
ghost use Rattle.plain_tree.specs.Checks.{name_check};
ghost use Rattle.s3_rows.specs.declared.change.Change.TheVariants as changes;
ghost use Rattle.s3_rows.specs.Rows.{Name, IsId};
ghost use Rattle.s3_rows.specs.Tables.{IsOrdered};
ghost use Rattle.s3_rows.specs.Batches.{tables_after};
ghost use Rattle.s3_rows.specs.Selections.{name_at};
ghost use Rattle.s3_rows.specs.Told.{IfTold, has_failed};
ghost use Rattle.ref_counts.specs.Names.{raised, StaysUnique};
ghost use Rattle.row_steps.specs.RowChanges.{dropping, moving, other_name, replacing, same_name, stamped_row, touched_row};
ghost use Rattle.dir_ops.specs.Moves.{moved_changes};

use crate::moves::Move;
use crate::old_entry::{drop_entry, lift_entry};
use crate::old_link::{drop_link, is_kept};
use ref_counts::{Handles, drop_gone_links, name_up};
use s3_base::ByteList;
use s3_rows::{Batch, Change, ContentRow, InodeRow, Keeper, KeeperFault};
use std::alloc::{AllocError, Global};

/// Adds the changes that put the entry where it goes, under a name, touch its new directory, and stamp its inode.
fn put_moved(batch: &mut Batch, moved: &Move, name_id: u64, now: u64) -> Result<(), AllocError>
    requires id { IsId name_id }
    requires now { now < 2 ^ 62 }
    ensures { OnOk result (batch.new ≡ batch.old ++ changes.PutContent (record { parent = moved.now.directory.id; name_id = name_id; inode = moved.now.old.child.id })
        ∷ changes.PutInode (touched_row now moved.now.directory) ∷ changes.PutInode (stamped_row now moved.now.old.child) ∷ []) }
{
    let directory = moved.directory;
    let child = moved.old.child;
    batch.push(Change::PutContent(ContentRow {
        parent: directory.id,
        name_id,
        inode: child.id,
    }))?;
    batch.push(Change::PutInode(InodeRow {
        mtime: now,
        ctime: now,
        ..directory
    }))?;
    batch.push(Change::PutInode(InodeRow {
        ctime: now,
        ..child
    }))?;
    Ok(())
}

/// The batch by which an entry moves to another directory under its own name.
fn move_under_same_name(alloc: Global, moved: &Move, now: u64) -> Result<Batch, AllocError>
    requires { now < 2 ^ 62 }
    ensures { IfOk result (λ b. b ≡ moving moved.now.old.directory moved.now.directory moved.now.old.entry (same_name moved.now.old.entry) moved.now.old.child now) }
{
    let mut batch = Batch::new(alloc);
    lift_entry(&mut batch, &moved.old, now)?;
    put_moved(&mut batch, moved, moved.old.entry.name_id, now)?;
    Ok(batch)
}

/// The batch by which an entry moves under another name. None where that is worn.
fn move_under_other_name<K: Keeper>(
    alloc: Global,
    keeper: &mut K,
    moved: &Move,
    new_name: &ByteList,
    now: u64,
) -> Result<Option<Batch>, KeeperFault>
    requires name { name_check new_name.now ≡ None }
    requires now { now < 2 ^ 62 }
    ensures batch { IfOk result (λ b. IfTold (K.told keeper.old) (λ t. IsOrdered t → (n : Name) → name_at t moved.now.old.entry.name_id ≡ Some n
        → StaysUnique (dropping moved.now.old.directory moved.now.old.entry n now) t
        → b ≡ option_map (λ more. moving moved.now.old.directory moved.now.directory moved.now.old.entry (other_name n more) moved.now.old.child now)
        (raised (tables_after (dropping moved.now.old.directory moved.now.old.entry n now) t) new_name.now))) }
    ensures same { K.told keeper.new ≡ K.told keeper.old }
    ensures cause { HasCause (K.faults keeper.old) (K.faults keeper.new) (has_failed result) }
{
    let mut batch = Batch::new(alloc);
    drop_entry(keeper, &mut batch, &moved.old, now)?;
    let Some(name_id) = name_up(keeper, &mut batch, new_name)? else {
        return Ok(None);
    };
    put_moved(&mut batch, moved, name_id, now)?;
    Ok(Some(batch))
}

/// The batch by which an entry moves to the place of another, whose inode loses a link, or goes where nothing keeps it.
fn move_over<K: Keeper>(
    alloc: Global,
    keeper: &mut K,
    moved: &Move,
    entry: &ContentRow,
    replaced: &InodeRow,
    kept: bool,
    now: u64,
) -> Result<Batch, KeeperFault>
    requires { now < 2 ^ 62 }
    ensures batch { IfOk result (λ b. IfTold (K.told keeper.old) (λ t. IsOrdered t → (n : Name) → name_at t moved.now.old.entry.name_id ≡ Some n
        → b ≡ replacing kept t moved.now.old.directory moved.now.directory moved.now.old.child replaced.now moved.now.old.entry entry.now n now)) }
    ensures same { K.told keeper.new ≡ K.told keeper.old }
    ensures cause { HasCause (K.faults keeper.old) (K.faults keeper.new) (has_failed result) }
{
    let mut batch = drop_gone_links(alloc, keeper, kept, replaced.id)?;
    drop_entry(keeper, &mut batch, &moved.old, now)?;
    put_moved(&mut batch, moved, entry.name_id, now)?;
    drop_link(keeper, &mut batch, kept, replaced, now)?;
    Ok(batch)
}

/// The batch by which an entry moves at the time `now`: `same` says that its name stays. None where the new name is worn.
pub fn move_entry<K: Keeper>(
    alloc: Global,
    keeper: &mut K,
    handles: &Handles,
    moved: &Move,
    same: bool,
    new_name: &ByteList,
    now: u64,
) -> Result<Option<Batch>, KeeperFault>
    requires name { name_check new_name.now ≡ None }
    requires now { now < 2 ^ 62 }
    ensures batch { IfOk result (λ b. IfTold (K.told keeper.old) (λ t. IsOrdered t → (n : Name) → name_at t moved.now.old.entry.name_id ≡ Some n
        → StaysUnique (dropping moved.now.old.directory moved.now.old.entry n now) t → b ≡ moved_changes t handles.now moved.now n same new_name.now now)) }
    ensures same { K.told keeper.new ≡ K.told keeper.old }
    ensures cause { HasCause (K.faults keeper.old) (K.faults keeper.new) (has_failed result) }
{
    match moved.replaced {
        Some((entry, replaced)) => {
            let kept = is_kept(&replaced, handles);
            Ok(Some(move_over(alloc, keeper, moved, &entry, &replaced, kept, now)?))
        }
        None if same => Ok(Some(move_under_same_name(alloc, moved, now)?)),
        None => move_under_other_name(alloc, keeper, moved, new_name, now),
    }
}

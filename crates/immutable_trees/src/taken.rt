//! What goes with an entry that goes.
ghost use Rattle.std.specs.Prelude.{◌≡◌, ◌<◌, ◌^◌, ◌++◌, [], Some, if◌then◌else◌, OnOk};
ghost use Rattle.s3_base.specs.Faults.{HasCause};
ghost use Rattle.s3_rows.specs.Batches.{tables_after};
ghost use Rattle.s3_rows.specs.Rows.{Inode, IsId, Name};
ghost use Rattle.s3_rows.specs.Selections.{name_at};
ghost use Rattle.s3_rows.specs.Tables.{IsOrdered};
ghost use Rattle.s3_rows.specs.Told.{IfTold, has_failed};
ghost use Rattle.ref_counts.specs.Links.{places_dropped, places_from};
ghost use Rattle.immutable_trees.specs.RemovedRows.{HasOwn, file_taken, folder_taken, taking};

use dir_ops::old_link::drop_link;
use ref_counts::{drop_file, drop_links, name_down};
use s3_rows::{Batch, Change, ContentRow, InodeRow, Keeper, KeeperFault};

/// Deletes an entry, and takes the use of its name away.
fn take_entry<K: Keeper>(
    keeper: &mut K,
    batch: &mut Batch,
    entry: &ContentRow,
) -> Result<(), KeeperFault>
    ensures taken { OnOk result (IfTold (K.told keeper.old) (λ t. (n : Name) → name_at (tables_after batch.old t) entry.now.name_id ≡ Some n
        → batch.new ≡ batch.old ++ taking entry.now n)) }
    ensures same { K.told keeper.new ≡ K.told keeper.old }
    ensures cause { HasCause (K.faults keeper.old) (K.faults keeper.new) (has_failed result) }
{
    batch.push(Change::DeleteContent(entry.parent, entry.name_id))?;
    name_down(keeper, batch, entry.name_id)
}

/// Deletes the entry of a directory, and the directory.
pub(crate) fn take_folder<K: Keeper>(
    keeper: &mut K,
    batch: &mut Batch,
    entry: &ContentRow,
) -> Result<(), KeeperFault>
    ensures taken { OnOk result (IfTold (K.told keeper.old) (λ t. IsOrdered t → (n : Name) (r : Inode) → name_at (tables_after batch.old t) entry.now.name_id ≡ Some n
        → r.id ≡ entry.now.inode → HasOwn t (tables_after batch.old t) r.id → batch.new ≡ batch.old ++ folder_taken (tables_after batch.old t) entry.now n r)) }
    ensures same { K.told keeper.new ≡ K.told keeper.old }
    ensures cause { HasCause (K.faults keeper.old) (K.faults keeper.new) (has_failed result) }
{
    take_entry(keeper, batch, entry)?;
    drop_file(keeper, batch, entry.inode)
}

/// The places of a file that goes name no block any more.
fn drop_places<K: Keeper>(
    keeper: &mut K,
    batch: &mut Batch,
    kept: bool,
    inode: u64,
) -> Result<(), KeeperFault>
    requires { IsId inode }
    ensures dropped { OnOk result (IfTold (K.told keeper.old) (λ t. IsOrdered t → batch.new ≡ batch.old ++ (if kept then [] else places_dropped (places_from t inode 0) (tables_after batch.old t)))) }
    ensures same { K.told keeper.new ≡ K.told keeper.old }
    ensures cause { HasCause (K.faults keeper.old) (K.faults keeper.new) (has_failed result) }
{
    if kept {
        return Ok(());
    }
    drop_links(keeper, batch, inode, 0)
}

/// Deletes the entry of a file or a link, which stays, stamped, where it is kept, and goes where it is not.
pub(crate) fn take_file<K: Keeper>(
    keeper: &mut K,
    batch: &mut Batch,
    kept: bool,
    entry: &ContentRow,
    file: &InodeRow,
    now: u64,
) -> Result<(), KeeperFault>
    requires { now < 2 ^ 62 }
    ensures taken { OnOk result (IfTold (K.told keeper.old) (λ t. IsOrdered t → (n : Name) → name_at (tables_after batch.old t) entry.now.name_id ≡ Some n
        → HasOwn t (tables_after batch.old t) file.now.id → batch.new ≡ batch.old ++ file_taken kept now (tables_after batch.old t) entry.now n file.now)) }
    ensures same { K.told keeper.new ≡ K.told keeper.old }
    ensures cause { HasCause (K.faults keeper.old) (K.faults keeper.new) (has_failed result) }
{
    drop_places(keeper, batch, kept, file.id)?;
    take_entry(keeper, batch, entry)?;
    drop_link(keeper, batch, kept, file, now)
}

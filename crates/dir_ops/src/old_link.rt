//! A link that a file loses, with the file where nothing keeps it.
ghost use Rattle.std.specs.Prelude.{◌≡◌, ◌-◌, ◌<◌, ◌^◌, ◌++◌, ◌||◌, [], ◌∷◌, nat_lt, if◌then◌else◌, OnOk};
ghost use Rattle.s3_base.specs.Faults.{HasCause};
ghost use Rattle.s3_rows.specs.declared.change.Change.TheVariants as changes;
ghost use Rattle.s3_rows.specs.Tables.{IsOrdered};
ghost use Rattle.s3_rows.specs.Batches.{tables_after};
ghost use Rattle.s3_rows.specs.Told.{IfTold, has_failed};
ghost use Rattle.ref_counts.specs.Handles.{is_held};
ghost use Rattle.ref_counts.specs.Removals.{removal};
ghost use Rattle.row_steps.specs.RowChanges.{counted_row};

use ref_counts::{Handles, drop_file};
use s3_rows::{Batch, Change, InodeRow, Keeper, KeeperFault};

/// Another entry names the file, or a handle is open on it.
pub fn is_kept(file: &InodeRow, handles: &Handles) -> bool
    ensures { result ≡ (nat_lt 1 file.now.refcount || is_held handles.now file.now.id) }
{
    file.refcount > 1 || handles.is_held(file.id)
}

/// The row with one link less.
fn counted_once_less(file: &InodeRow, now: u64) -> InodeRow
    requires { now < 2 ^ 62 }
    ensures { result ≡ counted_row (file.now.refcount - 1) now file.now }
{
    InodeRow {
        refcount: file.refcount.saturating_sub(1),
        ctime: now,
        ..*file
    }
}

/// Adds the change by which a file counts one link less where it is kept, or else those by which it goes.
pub fn drop_link<K: Keeper>(
    keeper: &mut K,
    batch: &mut Batch,
    kept: bool,
    file: &InodeRow,
    now: u64,
) -> Result<(), KeeperFault>
    requires { now < 2 ^ 62 }
    ensures dropped { OnOk result (IfTold (K.told keeper.old) (λ t. IsOrdered t → batch.new ≡ batch.old ++ (if kept
        then changes.PutInode (counted_row (file.now.refcount - 1) now file.now) ∷ [] else removal t file.now.id (tables_after batch.old t)))) }
    ensures same { K.told keeper.new ≡ K.told keeper.old }
    ensures cause { HasCause (K.faults keeper.old) (K.faults keeper.new) (has_failed result) }
{
    if kept {
        batch.push(Change::PutInode(counted_once_less(file, now)))?;
        return Ok(());
    }
    drop_file(keeper, batch, file.id)
}

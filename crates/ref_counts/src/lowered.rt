//! One use less of a name.
ghost use Rattle.std.specs.Prelude.{◌≡◌, ◌++◌, OnOk};
ghost use Rattle.s3_base.specs.Faults.{HasCause};
ghost use Rattle.s3_rows.specs.Batches.{tables_after};
ghost use Rattle.s3_rows.specs.Told.{IfTold, has_failed};
ghost use Rattle.ref_counts.specs.Names.{lowered, lowered_at};

use crate::pending::pending_name;
use s3_rows::{Batch, Change, Keeper, KeeperFault, NameRow};
use std::alloc::AllocError;

/// Takes one use of a name that is there away: the row goes with the last.
fn lower(batch: &mut Batch, row: NameRow) -> Result<(), AllocError>
    ensures { OnOk result (batch.new ≡ batch.old ++ lowered row) }
{
    if row.refcount == 1 {
        batch.push(Change::DeleteName(row.id))?;
        return Ok(());
    }
    batch.push(Change::PutName(NameRow {
        refcount: row.refcount.saturating_sub(1),
        ..row
    }))?;
    Ok(())
}

/// Adds the change by which a name has one use less, over the batch so far; none where the name has no row. A refused call
/// leaves a batch that is to be dropped.
pub fn name_down<K: Keeper>(
    keeper: &mut K,
    batch: &mut Batch,
    name_id: u64,
) -> Result<(), KeeperFault>
    ensures lowered { OnOk result (IfTold (K.told keeper.old) (λ t. batch.new ≡ batch.old ++ lowered_at (tables_after batch.old t) name_id)) }
    ensures same { K.told keeper.new ≡ K.told keeper.old }
    ensures cause { HasCause (K.faults keeper.old) (K.faults keeper.new) (has_failed result) }
{
    if let Some(row) = pending_name(keeper, batch, name_id)? {
        lower(batch, row)?;
    }
    Ok(())
}

//! Counts of names.
ghost use Rattle.std.specs.Prelude.{◌≡◌, IfOk, IfSome};
ghost use Rattle.s3_base.specs.Faults.{HasCause};
ghost use Rattle.s3_rows.specs.Rows.{IsId, IsText};
ghost use Rattle.s3_rows.specs.Tables.{IsOrdered};
ghost use Rattle.s3_rows.specs.Batches.{tables_after};
ghost use Rattle.s3_rows.specs.Told.{IfTold, has_failed};
ghost use Rattle.ref_counts.specs.Names.{raised, raised_row, new_row, StaysUnique, IsRaised};

use crate::pending::{pending_name_of_bytes, pending_params};
use s3_base::{ByteList, LIMIT};
use s3_rows::{Batch, Change, Keeper, KeeperFault, NameRow, Params};
use std::alloc::AllocError;

/// Adds one more use of a name that is there.
fn raise(batch: &mut Batch, row: NameRow) -> Result<Option<u64>, AllocError>
    ensures raised { IfOk result (λ id. IsRaised (raised_row row) batch.old id batch.new) }
    ensures id { IfOk result (λ id. IfSome id IsId) }
{
    let refcount = row.refcount + 1;
    if refcount >= LIMIT {
        return Ok(None);
    }
    let id = row.id;
    batch.push(Change::PutName(NameRow {
        id,
        refcount,
        name: row.name,
    }))?;
    Ok(Some(id))
}

/// Adds a new name with one use.
fn add_new(batch: &mut Batch, name: &ByteList, params: Params) -> Result<Option<u64>, AllocError>
    requires { IsText 255 name.now }
    ensures raised { IfOk result (λ id. IsRaised (new_row name.now params) batch.old id batch.new) }
    ensures id { IfOk result (λ id. IfSome id IsId) }
{
    let id = params.next_name;
    if id >= LIMIT {
        return Ok(None);
    }
    batch.push(Change::PutName(NameRow {
        id,
        refcount: 1,
        name: name.clone()?,
    }))?;
    batch.push(Change::SetParams(Params {
        next_name: id + 1,
        ..params
    }))?;
    Ok(Some(id))
}

/// Adds changes to the batch by which the name has one use more, and answers its id: a name that is not there gets the next
/// id. `None` where the count or the id would not be below 2^62; nothing is added then. A refused call leaves a batch that is
/// to be dropped.
pub fn name_up<K: Keeper>(
    keeper: &mut K,
    batch: &mut Batch,
    name: &ByteList,
) -> Result<Option<u64>, KeeperFault>
    requires { IsText 255 name.now }
    ensures raised { IfOk result (λ id. IfTold (K.told keeper.old) (λ t. IsOrdered t → StaysUnique batch.old t
        → IsRaised (raised (tables_after batch.old t) name.now) batch.old id batch.new)) }
    ensures id { IfOk result (λ id. IfSome id IsId) }
    ensures same { K.told keeper.new ≡ K.told keeper.old }
    ensures cause { HasCause (K.faults keeper.old) (K.faults keeper.new) (has_failed result) }
{
    if let Some(row) = pending_name_of_bytes(keeper, batch, name)? {
        return Ok(raise(batch, row)?);
    }
    match pending_params(keeper, batch)? {
        Some(params) => Ok(add_new(batch, name, params)?),
        None => Ok(None),
    }
}

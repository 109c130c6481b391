//! Objects of new blocks: they are drawn in the tables, and then their bytes are put.
ghost use Rattle.std.specs.Prelude.{◌≡◌, ◌≤◌, ◌<◌, ◌+◌, ◌^◌, ℕ, All, Some, length, count_by, IfOk, OnOk, OnErr};
ghost use Rattle.s3_base.specs.Faults.{HasCause};
ghost use Rattle.s3_rows.specs.Tables.{Tables};
ghost use Rattle.s3_rows.specs.Batches.{tables_after};
ghost use Rattle.s3_rows.specs.Told as keepers;
ghost use Rattle.s3_devices.specs.LinkAnswers as link_answers;
ghost use Rattle.s3_devices.specs.Told.{Becomes};
ghost use Rattle.core_model.specs.Safe.{with_new_objects};
ghost use Rattle.file_ops.specs.Placed.{AreDrawn, ArePut, IsPut, KeepsOldObject, KeepsOldObjects};

use crate::new_block::NewBlock;
use crate::place::Place;
use crate::stored::store;
use s3_devices::{Link, LinkFault};
use s3_rows::{Batch, Change, Keeper, KeeperFault, ObjectRow, Params};
use std::alloc::{AllocError, Global};

/// The batch that draws so many objects: each comes under the next number, without bytes and without a block.
fn drawing(alloc: Global, params: &Params, count: u64) -> Result<Batch, AllocError>
    requires { params.now.next_object + count ≤ 2 ^ 62 }
    ensures { IfOk result (λ batch. (t : Tables) → t.params ≡ Some params.now → tables_after batch t ≡ with_new_objects count t) }
{
    let mut batch = Batch::new(alloc);
    let first = params.next_object;
    for n in 0..count {
        batch.push(Change::PutObject(ObjectRow {
            id: first + n,
            refcount: 0,
            size: None,
        }))?;
        batch.push(Change::SetParams(Params {
            next_object: first + n + 1,
            ..*params
        }))?;
    }
    Ok(batch)
}

/// Draws so many objects in the tables, by one batch, or by none where there are none.
pub(crate) fn draw_objects<K: Keeper>(
    alloc: Global,
    keeper: &mut K,
    params: &Params,
    count: u64,
) -> Result<(), KeeperFault>
    requires { params.now.next_object + count ≤ 2 ^ 62 }
    ensures drawn { OnOk result (Becomes (AreDrawn params.now count) (K.told keeper.old) (K.told keeper.new)) }
    ensures err { OnErr result (K.told keeper.new ≡ K.told keeper.old) }
    ensures cause { HasCause (K.faults keeper.old) (K.faults keeper.new) (keepers.has_failed result) }
{
    if count > 0 {
        let batch = drawing(alloc, params, count)?;
        keeper.commit(&batch)?;
    }
    Ok(())
}

/// Puts the bytes of one new block.
fn store_one<L: Link>(
    alloc: Global,
    link: &mut L,
    block: &NewBlock,
    place: &Place,
) -> Result<(), LinkFault>
    ensures put { OnOk result (Becomes (IsPut block.now.stored place.now) (L.told link.old) (L.told link.new)) }
    ensures err { OnErr result (Becomes (KeepsOldObject place.now) (L.told link.old) (L.told link.new)) }
    ensures cause { HasCause (L.faults link.old) (L.faults link.new) (link_answers.has_failed result) }
{
    if let Place::New(row) = place {
        store(alloc, link, row.object, &block.stored)?;
    }
    Ok(())
}

/// Puts the bytes of each new block under the number of its object. All others stay, also where one is refused.
pub(crate) fn store_objects<L: Link>(
    alloc: Global,
    link: &mut L,
    blocks: &[NewBlock],
    places: &[Place],
) -> Result<(), LinkFault>
    requires { length places.now ≡ length blocks.now }
    ensures put { OnOk result (Becomes (ArePut blocks.now places.now) (L.told link.old) (L.told link.new)) }
    ensures err { OnErr result (Becomes (KeepsOldObjects places.now) (L.told link.old) (L.told link.new)) }
    ensures cause { HasCause (L.faults link.old) (L.faults link.new) (link_answers.has_failed result) }
{
    for (i, block) in blocks.iter().enumerate() {
        store_one(alloc, link, block, &places[i])?;
    }
    Ok(())
}

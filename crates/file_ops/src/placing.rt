//! New blocks of a file: their bytes are put into the store where no row has them yet, and the places of the file name them.
ghost use Rattle.std.specs.Prelude.{◌≡◌, ◌<◌, ◌≤◌, ◌^◌, ◌++◌, ◌∷◌, All, Some, None, false, length, count_by, IfOk, IfErr, OnOk};
ghost use Rattle.std.specs.Option.{ForSome};
ghost use Rattle.sha2.specs.Sha256.{sha256};
ghost use Rattle.s3_base.specs.Faults.{HasCause};
ghost use Rattle.s3_rows.specs.Rows.{IsId};
ghost use Rattle.s3_rows.specs.Batches.{tables_after};
ghost use Rattle.s3_rows.specs.Told.{IfTold, has_failed};
ghost use Rattle.s3_rows.specs.Stores.{AreHeld};
ghost use Rattle.s3_devices.specs.Keys.{objects_in};
ghost use Rattle.s3_devices.specs.Told.{Becomes};
ghost use Rattle.core_model.specs.Safe.{HaveHeld};
ghost use Rattle.tree_rows.specs.Contents.{Contents, HaveBytes};
ghost use Rattle.block_steps.specs.Places.{block_made, places_relinked};
ghost use Rattle.file_ops.specs.declared.file_fault.FileFault.TheVariants.{Worn};
ghost use Rattle.file_ops.specs.FileChanges.{AreFew};
ghost use Rattle.file_ops.specs.FileFaults.{is_lost, keeper_failed, link_failed};
ghost use Rattle.file_ops.specs.Placed.{AreCounted, ArePlaceable, ArePlaced, ArePrepared, ArePut, AreReady, IsWornFor, HaveTheirForms, KeepsOldObjects, KnowsBlocks, LacksNumbers, links_of, place_counted, places_counted, places_in, with_next_block};
ghost use Rattle.file_ops.specs.Resolved.{id_of, is_new};

use crate::file_fault::FileFault;
use crate::laws::placed_blocks_leave_valid_tables;
use crate::new_block::NewBlock;
use crate::objects::{draw_objects, store_objects};
use crate::place::Place;
use crate::resolving::resolve;
use ref_counts::{count_block, relink};
use s3_base::Sequence;
use s3_devices::Link;
use s3_rows::{Batch, BlockRow, Change, Keeper, KeeperFault, ObjectRow, Params, Spot};
use std::alloc::{AllocError, Global};

/// Adds the changes by which a new block comes, for one place.
fn make_block(batch: &mut Batch, params: &Params, row: &BlockRow) -> Result<(), AllocError>
    ensures { OnOk result (batch.new ≡ batch.old ++ block_made (with_next_block row.now.id params.now) row.now.object row.now.digest row.now.size) }
{
    batch.push(Change::SetParams(Params {
        next_block: row.id + 1,
        ..*params
    }))?;
    batch.push(Change::PutObject(ObjectRow {
        id: row.object,
        refcount: 1,
        size: Some(row.size),
    }))?;
    batch.push(Change::PutBlock(BlockRow {
        refcount: 1,
        ..*row
    }))
}

/// Adds the changes by which a block has one place more, or comes. `false` where its count is at its end.
fn count_place<K: Keeper>(
    keeper: &mut K,
    batch: &mut Batch,
    params: &Params,
    place: &Place,
) -> Result<bool, KeeperFault>
    ensures counted { IfOk result (λ done. IfTold (K.told keeper.old) (λ t. AreCounted (place_counted params.now place.now (tables_after batch.old t)) batch.old done batch.new)) }
    ensures same { K.told keeper.new ≡ K.told keeper.old }
    ensures cause { HasCause (K.faults keeper.old) (K.faults keeper.new) (has_failed result) }
{
    match place {
        Place::Zeros => Ok(true),
        Place::Known(row) => count_block(keeper, batch, row.id),
        Place::New(row) => {
            make_block(batch, params, row)?;
            Ok(true)
        }
    }
}

/// Adds the changes by which all blocks have one place more, or come. `false` where a count is at its end.
fn count_places<K: Keeper>(
    keeper: &mut K,
    batch: &mut Batch,
    params: &Params,
    places: &[Place],
) -> Result<bool, KeeperFault>
    ensures counted { IfOk result (λ done. IfTold (K.told keeper.old) (λ t. AreCounted (places_counted params.now places.now (tables_after batch.old t)) batch.old done batch.new)) }
    ensures same { K.told keeper.new ≡ K.told keeper.old }
    ensures cause { HasCause (K.faults keeper.old) (K.faults keeper.new) (has_failed result) }
{
    for place in places {
        if !count_place(keeper, batch, params, place)? {
            return Ok(false);
        }
    }
    Ok(true)
}

/// The number of the block that a place names.
fn id_of(place: &Place) -> Option<u64>
    ensures id { result ≡ id_of place.now }
    ensures short { ForSome result IsId }
{
    match place {
        Place::Zeros => None,
        Place::Known(row) | Place::New(row) => Some(row.id),
    }
}

/// Lets the places of a file name their blocks, which were counted before.
fn relink_places<K: Keeper>(
    keeper: &mut K,
    batch: &mut Batch,
    inode: u64,
    blocks: &[NewBlock],
    places: &[Place],
) -> Result<(), KeeperFault>
    requires inode { IsId inode }
    requires numbers { All (λ b. b.blockno < 2 ^ 38) blocks.now }
    requires length { length places.now ≡ length blocks.now }
    ensures relinked { OnOk result (IfTold (K.told keeper.old) (λ t. batch.new ≡ batch.old ++ places_relinked inode (links_of blocks.now places.now) (tables_after batch.old t))) }
    ensures same { K.told keeper.new ≡ K.told keeper.old }
    ensures cause { HasCause (K.faults keeper.old) (K.faults keeper.new) (has_failed result) }
{
    for (i, block) in blocks.iter().enumerate() {
        let spot = Spot {
            inode,
            blockno: block.blockno,
        };
        relink(keeper, batch, spot, id_of(&places[i]))?;
    }
    Ok(())
}

/// How many places are of new blocks.
fn count_new(places: &[Place]) -> usize
    ensures { result ≡ count_by is_new places.now }
{
    let mut count = 0;
    for place in places {
        if let Place::New(_) = place {
            count += 1;
        }
    }
    count
}

/// Where blocks are found, once objects are drawn for the new ones and their bytes are put.
#[derive(Debug, Drop)]
struct Prepared {
    params: Params,
    places: Sequence<Place>,
}

/// Finds blocks, draws objects for the new ones, in a batch of its own, and puts their bytes.
fn prepare_blocks<K: Keeper, L: Link>(
    alloc: Global,
    keeper: &mut K,
    link: &mut L,
    blocks: &[NewBlock],
) -> Result<Prepared, FileFault>
    requires sizes { All (λ b. length b.stored ≤ 10485760) blocks.now }
    ensures length { IfOk result (λ r. length r.places ≡ length blocks.now) }
    ensures found { IfOk result (λ r. Becomes (AreReady sha256 blocks.now r.params r.places) (K.told keeper.old) (K.told keeper.new)) }
    ensures put { IfOk result (λ r. Becomes (ArePut blocks.now r.places) (L.told link.old) (L.told link.new)) }
    ensures prepared { Becomes ArePrepared (K.told keeper.old) (K.told keeper.new) }
    ensures drawn { IfTold (K.told keeper.old) (λ t. IfTold (K.told keeper.new) (λ later. AreFew (length blocks.now) t later)) }
    ensures others { IfTold (K.told keeper.old) (λ t. Becomes (KeepsOldObjects (places_in sha256 t blocks.now)) (L.told link.old) (L.told link.new)) }
    ensures worn { IfErr result (λ fault. fault ≡ Worn → IfTold (K.told keeper.old) (λ t. LacksNumbers sha256 t blocks.now)) }
    ensures room { OnOk result (IfTold (K.told keeper.old) (λ t. LacksNumbers sha256 t blocks.now → ⊥)) }
    ensures found_all { is_lost result ≡ false }
    ensures keeper { HasCause (K.faults keeper.old) (K.faults keeper.new) (keeper_failed result) }
    ensures link { HasCause (L.faults link.old) (L.faults link.new) (link_failed result) }
{
    let Some(params) = keeper.params()? else {
        return Err(FileFault::Worn);
    };
    let Some(places) = resolve(alloc, keeper, params.next_block, params.next_object, blocks)? else {
        return Err(FileFault::Worn);
    };
    let count = count_new(places.as_slice()) as u64;
    draw_objects(alloc, keeper, &params, count)?;
    store_objects(alloc, link, blocks, places.as_slice())?;
    Ok(Prepared {
        params: Params {
            next_object: params.next_object + count,
            ..params
        },
        places,
    })
}

/// Puts the bytes of new blocks that no row has into the store, and adds the changes to the batch by which places of a file name the
/// blocks. Objects for them are drawn first, in a batch of their own. A refused call leaves a batch that is to be dropped.
pub fn place_blocks<K: Keeper, L: Link>(
    alloc: Global,
    keeper: &mut K,
    link: &mut L,
    inode: u64,
    blocks: &[NewBlock],
    batch: &mut Batch,
) -> Result<(), FileFault>
    requires inode { IsId inode }
    requires numbers { All (λ b. b.blockno < 2 ^ 38) blocks.now }
    requires sizes { All (λ b. length b.stored ≤ 10485760) blocks.now }
    ensures prepared { Becomes ArePrepared (K.told keeper.old) (K.told keeper.new) }
    ensures drawn { IfTold (K.told keeper.old) (λ t. IfTold (K.told keeper.new) (λ later. AreFew (length blocks.now) t later)) }
    ensures others { IfTold (K.told keeper.old) (λ t. Becomes (KeepsOldObjects (places_in sha256 t blocks.now)) (L.told link.old) (L.told link.new)) }
    ensures worn { IfErr result (λ fault. fault ≡ Worn → IfTold (K.told keeper.old) (λ t. IsWornFor sha256 t batch.old blocks.now)) }
    ensures room { OnOk result (IfTold (K.told keeper.old) (λ t. IsWornFor sha256 t batch.old blocks.now → ⊥)) }
    ensures placed { OnOk result (IfTold (K.told keeper.new) (λ t. ArePlaceable t batch.old inode blocks.now
        → ArePlaced (tables_after batch.old t) (tables_after batch.new t) inode blocks.now)) }
    ensures forms { OnOk result (IfTold (K.told keeper.new) (λ t. ArePlaceable t batch.old inode blocks.now
        → (m : Contents) → HaveBytes m t.blocks → KnowsBlocks sha256 m blocks.now
        → HaveTheirForms sha256 (tables_after batch.new t) inode blocks.now × HaveBytes m (tables_after batch.new t).blocks)) }
    ensures held { OnOk result (IfTold (K.told keeper.new) (λ t. ArePlaceable t batch.old inode blocks.now
        → Becomes (λ o after. AreHeld sha256 (objects_in o) t.blocks → AreHeld sha256 (objects_in after) (tables_after batch.new t).blocks) (L.told link.old) (L.told link.new))) }
    ensures bytes_held { OnOk result (IfTold (K.told keeper.new) (λ t. ArePlaceable t batch.old inode blocks.now → (m : Contents) → KnowsBlocks sha256 m blocks.now
        → Becomes (λ o after. HaveHeld m (objects_in o) t.blocks → HaveHeld m (objects_in after) (tables_after batch.new t).blocks) (L.told link.old) (L.told link.new))) }
    ensures few { OnOk result (IfTold (K.told keeper.old) (λ t. IfTold (K.told keeper.new) (λ later. (tables_after batch.old later).params ≡ later.params
        → (tables_after batch.old later).inode_blocks ≡ later.inode_blocks → AreFew (length blocks.now) t (tables_after batch.new later)))) }
    ensures found_all { is_lost result ≡ false }
    ensures keeper { HasCause (K.faults keeper.old) (K.faults keeper.new) (keeper_failed result) }
    ensures link { HasCause (L.faults link.old) (L.faults link.new) (link_failed result) }
{
    placed_blocks_leave_valid_tables();
    let prepared = prepare_blocks(alloc, keeper, link, blocks)?;
    let places = prepared.places.as_slice();
    if !count_places(keeper, batch, &prepared.params, places)? {
        return Err(FileFault::Worn);
    }
    relink_places(keeper, batch, inode, blocks, places)?;
    Ok(())
}

//! Where the bytes of new blocks are found.
ghost use Rattle.std.specs.Prelude.{◌≡◌, ◌≤◌, ◌<◌, ◌+◌, ◌^◌, ◌++◌, ◌⊎◌, ◌==◌, [], ℕ, true, false, Some, None, All, length, count_by, IfOk, IfSome};
ghost use Rattle.sha2.specs.Sha256.{sha256};
ghost use Rattle.s3_base.specs.Faults.{HasCause};
ghost use Rattle.s3_rows.specs.Rows.{IsNext};
ghost use Rattle.s3_rows.specs.Told.{IfTold, has_failed};
ghost use Rattle.file_ops.specs.declared.place.Place.TheVariants.{New};
ghost use Rattle.file_ops.specs.Resolved.{IsWorn, is_new, known_row, new_with, next_after, place_for, resolved};

use crate::new_block::NewBlock;
use crate::place::Place;
use hash_index::{digest, find};
use s3_base::{ByteList, LIMIT, Sequence};
use s3_rows::{BlockRow, Digest, Keeper, KeeperFault};
use std::alloc::Global;

/// The row of the first new block with a digest.
fn new_with(digest: &Digest, places: &[Place]) -> Option<BlockRow>
    ensures { result ≡ new_with digest.now places.now }
{
    for place in places {
        if let Place::New(row) = place {
            if row.digest.0.as_slice().cmp(digest.0.as_slice()).is_eq() {
                return Some(*row);
            }
        }
    }
    None
}

/// The row that has a digest already: in the tables, or among the new blocks before.
fn known_row<K: Keeper>(
    keeper: &mut K,
    before: &[Place],
    digest: &Digest,
) -> Result<Option<BlockRow>, KeeperFault>
    ensures row { IfOk result (λ r. IfTold (K.told keeper.old) (λ t. r ≡ known_row t before.now digest.now)) }
    ensures same { K.told keeper.new ≡ K.told keeper.old }
    ensures cause { HasCause (K.faults keeper.old) (K.faults keeper.new) (has_failed result) }
{
    match find(keeper, digest)? {
        Some(row) => Ok(Some(row)),
        None => Ok(new_with(digest, before)),
    }
}

/// The place of a new block. None where it has no number.
fn new_place(digest: Digest, block: u64, object: u64, stored: &ByteList) -> Option<Place>
    requires block { IsNext block }
    requires object { IsNext object }
    requires some { (length stored.now == 0) ≡ false }
    requires size { length stored.now ≤ 10485760 }
    ensures place { IfSome result (λ x. x ≡ New (record { id = block; digest = digest; refcount = 1; size = length stored.now; object = object })) }
    ensures room { IfSome result (λ x. (block < 2 ^ 62) × (object < 2 ^ 62)) }
    ensures worn { result ≡ None → (block ≡ 2 ^ 62) ⊎ (object ≡ 2 ^ 62) }
{
    if block >= LIMIT || object >= LIMIT {
        return None;
    }
    Some(Place::New(BlockRow {
        id: block,
        digest,
        refcount: 1,
        size: stored.len() as u32,
        object,
    }))
}

/// The place of a block, after those of the blocks before it. None where a new block has no number.
fn place_for<K: Keeper>(
    keeper: &mut K,
    before: &[Place],
    block: u64,
    object: u64,
    stored: &ByteList,
) -> Result<Option<Place>, KeeperFault>
    requires block { IsNext block }
    requires object { IsNext object }
    requires size { length stored.now ≤ 10485760 }
    ensures place { IfOk result (λ place. IfTold (K.told keeper.old) (λ t. IfSome place (λ x. x ≡ place_for sha256 t before.now block object stored.now))) }
    ensures room { IfOk result (λ place. IfSome place (λ x. is_new x ≡ true → (block < 2 ^ 62) × (object < 2 ^ 62))) }
    ensures worn { IfOk result (λ place. place ≡ None → (block ≡ 2 ^ 62) ⊎ (object ≡ 2 ^ 62)) }
    ensures new { IfOk result (λ place. place ≡ None → IfTold (K.told keeper.old) (λ t. is_new (place_for sha256 t before.now block object stored.now) ≡ true)) }
    ensures same { K.told keeper.new ≡ K.told keeper.old }
    ensures cause { HasCause (K.faults keeper.old) (K.faults keeper.new) (has_failed result) }
{
    if stored.is_empty() {
        return Ok(Some(Place::Zeros));
    }
    let digest = digest(stored.as_slice());
    match known_row(keeper, before, &digest)? {
        Some(row) => Ok(Some(Place::Known(row))),
        None => Ok(new_place(digest, block, object, stored)),
    }
}

/// The next number after a place.
fn next_after(place: &Place, next: u64) -> u64
    requires { is_new place.now ≡ true → next < 2 ^ 62 }
    ensures { result ≡ next_after place.now next }
{
    match place {
        Place::New(_) => next + 1,
        _ => next,
    }
}

/// The places of blocks, the new ones with the numbers of blocks and objects from these on. None where there are not enough numbers.
pub(crate) fn resolve<K: Keeper>(
    alloc: Global,
    keeper: &mut K,
    next_block: u64,
    next_object: u64,
    blocks: &[NewBlock],
) -> Result<Option<Sequence<Place>>, KeeperFault>
    requires block { IsNext next_block }
    requires object { IsNext next_object }
    requires sizes { All (λ b. length b.stored ≤ 10485760) blocks.now }
    ensures places { IfOk result (λ found. IfTold (K.told keeper.old) (λ t. IfSome found (λ places. places ≡ resolved sha256 t [] next_block next_object blocks.now))) }
    ensures length { IfOk result (λ found. IfSome found (λ places. length places ≡ length blocks.now)) }
    ensures room { IfOk result (λ found. IfSome found (λ places. (next_block + count_by is_new places ≤ 2 ^ 62) × (next_object + count_by is_new places ≤ 2 ^ 62))) }
    ensures worn { IfOk result (λ found. found ≡ None → IfTold (K.told keeper.old) (λ t. IsWorn next_block next_object (count_by is_new (resolved sha256 t [] next_block next_object blocks.now)))) }
    ensures same { K.told keeper.new ≡ K.told keeper.old }
    ensures cause { HasCause (K.faults keeper.old) (K.faults keeper.new) (has_failed result) }
{
    let mut places = Sequence::new(alloc);
    let mut free_block = next_block;
    let mut free_object = next_object;
    for block in blocks {
        let Some(place) = place_for(
            keeper,
            places.as_slice(),
            free_block,
            free_object,
            &block.stored,
        )?
        else {
            return Ok(None);
        };
        free_block = next_after(&place, free_block);
        free_object = next_after(&place, free_object);
        places.push(place)?;
    }
    Ok(Some(places))
}

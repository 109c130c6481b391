//! The batches by which a file is written, and by which it gets another length.
ghost use Rattle.std.specs.Prelude.{◌≡◌, ℕ, ◌<◌, ◌≤◌, ◌^◌, ◌+◌, ◌*◌, ◌∷◌, [], All, false, length, max, nat_lt, if◌then◌else◌, IfOk, IfErr, OnOk};
ghost use Rattle.sha2.specs.Sha256.{sha256};
ghost use Rattle.s3_base.specs.Faults.{HasCause};
ghost use Rattle.s3_rows.specs.declared.change.Change.TheVariants as changes;
ghost use Rattle.s3_rows.specs.Rows.{Inode};
ghost use Rattle.s3_rows.specs.Batches.{tables_after};
ghost use Rattle.s3_rows.specs.Stores.{AreHeld};
ghost use Rattle.s3_rows.specs.Tables.{IsOrdered};
ghost use Rattle.s3_rows.specs.Told.{IfTold};
ghost use Rattle.s3_devices.specs.Keys.{objects_in};
ghost use Rattle.s3_devices.specs.Told.{Becomes};
ghost use Rattle.block_math.specs.Changes.{resized, written_at};
ghost use Rattle.block_math.specs.Ranges.{piece_count};
ghost use Rattle.core_model.specs.Changes.{blocks_of_resize, blocks_of_write, needed_by_write};
ghost use Rattle.core_model.specs.Safe.{HaveHeld};
ghost use Rattle.tree_rows.specs.Contents.{Contents};
ghost use Rattle.byte_steps.specs.Changed.{stored_length};
ghost use Rattle.file_ops.specs.declared.file_fault.FileFault.TheVariants.{Worn};
ghost use Rattle.file_ops.specs.FileBytes.{IfBothTold, stored_in};
ghost use Rattle.file_ops.specs.FileChanges.{AreFew, AreInFile, AreWithin, AreWorn, GetsBytes, HaveRoom, HoldsBytes, IsFileAt, IsFileStep, KeepsObjects, with_length};
ghost use Rattle.file_ops.specs.FileFaults.{IsLossAmong, is_lost, keeper_failed, link_failed};
ghost use Rattle.file_ops.specs.Placed.{ArePrepared, IsWornFor, KnowsBlocks};

use crate::{FileFault, NewBlock, place_blocks, resized_blocks, written_blocks};
use block_steps::kept_rows_keep_what_is_held;
use byte_steps::{files_take_other_lengths, lengths_leave_forms};
use ref_counts::drop_links;
use s3_devices::Link;
use s3_rows::{Batch, Change, InodeRow, Keeper};
use std::alloc::Global;

/// The row of a file that has another length from now on.
fn with_length(file: &InodeRow, size: u64, now: u64) -> InodeRow
    requires size { size ≤ 2 ^ 50 }
    requires time { now < 2 ^ 62 }
    ensures { result ≡ with_length size now file.now }
{
    InodeRow {
        size,
        mtime: now,
        ctime: now,
        ..*file
    }
}

/// The batch by which a file that does not get shorter has this length, and then its blocks.
fn place_within<K: Keeper, L: Link>(
    alloc: Global,
    keeper: &mut K,
    link: &mut L,
    file: &InodeRow,
    size: u64,
    now: u64,
    blocks: &[NewBlock],
) -> Result<Batch, FileFault>
    requires size { size ≤ 2 ^ 50 }
    requires time { now < 2 ^ 62 }
    requires numbers { All (λ b. b.blockno < 2 ^ 38) blocks.now }
    requires sizes { All (λ b. length b.stored ≤ 10485760) blocks.now }
    ensures prepared { Becomes ArePrepared (K.told keeper.old) (K.told keeper.new) }
    ensures placed { IfOk result (λ batch. IfTold (K.told keeper.new) (λ t. (block_size : ℕ) → IsFileAt t file.now block_size → file.now.size ≤ size
        → AreWithin size block_size blocks.now → AreInFile sha256 t (tables_after batch t) (with_length size now file.now) block_size blocks.now)) }
    ensures held { IfOk result (λ batch. IfTold (K.told keeper.new) (λ t. (block_size : ℕ) → IsFileAt t file.now block_size → file.now.size ≤ size
        → AreWithin size block_size blocks.now
        → Becomes (λ o after. AreHeld sha256 (objects_in o) t.blocks → AreHeld sha256 (objects_in after) (tables_after batch t).blocks) (L.told link.old) (L.told link.new))) }
    ensures bytes_held { IfOk result (λ batch. IfTold (K.told keeper.new) (λ t. (block_size : ℕ) → IsFileAt t file.now block_size → file.now.size ≤ size
        → AreWithin size block_size blocks.now → (m : Contents) → KnowsBlocks sha256 m blocks.now
        → Becomes (λ o after. HaveHeld m (objects_in o) t.blocks → HaveHeld m (objects_in after) (tables_after batch t).blocks) (L.told link.old) (L.told link.new))) }
    ensures few { IfOk result (λ batch. IfTold (K.told keeper.old) (λ t. IfTold (K.told keeper.new) (λ later. AreFew (length blocks.now) t (tables_after batch later)))) }
    ensures drawn { IfTold (K.told keeper.old) (λ t. IfTold (K.told keeper.new) (λ later. AreFew (length blocks.now) t later)) }
    ensures kept { KeepsObjects (K.told keeper.old) (L.told link.old) (L.told link.new) }
    ensures worn { IfErr result (λ fault. fault ≡ Worn → IfTold (K.told keeper.old) (λ t. IsWornFor sha256 t (changes.PutInode (with_length size now file.now) ∷ []) blocks.now)) }
    ensures room { OnOk result (IfTold (K.told keeper.old) (λ t. IsWornFor sha256 t (changes.PutInode (with_length size now file.now) ∷ []) blocks.now → ⊥)) }
    ensures found_all { is_lost result ≡ false }
    ensures keeper { HasCause (K.faults keeper.old) (K.faults keeper.new) (keeper_failed result) }
    ensures link { HasCause (L.faults link.old) (L.faults link.new) (link_failed result) }
{
    files_take_other_lengths();
    lengths_leave_forms();
    let mut batch = Batch::new(alloc);
    batch.push(Change::PutInode(with_length(file, size, now)))?;
    place_blocks(alloc, keeper, link, file.id, blocks, &mut batch)?;
    Ok(batch)
}

/// The number of the first block that lies past an end.
fn first_past(size: u64, block_size: u32) -> u64
    requires { 0 < block_size }
    ensures past { size ≤ result * block_size }
    ensures within { (n : ℕ) → n < result → n * block_size < size }
{
    size.div_ceil(u64::from(block_size))
}

/// The batch by which a file that does not get longer has its blocks, no places past the end, and then this length.
fn place_and_cut<K: Keeper, L: Link>(
    alloc: Global,
    keeper: &mut K,
    link: &mut L,
    file: &InodeRow,
    block_size: u32,
    size: u64,
    now: u64,
    blocks: &[NewBlock],
) -> Result<Batch, FileFault>
    requires block { 0 < block_size }
    requires size { size ≤ 2 ^ 50 }
    requires time { now < 2 ^ 62 }
    requires numbers { All (λ b. b.blockno < 2 ^ 38) blocks.now }
    requires sizes { All (λ b. length b.stored ≤ 10485760) blocks.now }
    ensures prepared { Becomes ArePrepared (K.told keeper.old) (K.told keeper.new) }
    ensures placed { IfOk result (λ batch. IfTold (K.told keeper.new) (λ t. IsFileAt t file.now block_size → size ≤ file.now.size
        → AreWithin size block_size blocks.now → AreInFile sha256 t (tables_after batch t) (with_length size now file.now) block_size blocks.now)) }
    ensures held { IfOk result (λ batch. IfTold (K.told keeper.new) (λ t. IsFileAt t file.now block_size → size ≤ file.now.size
        → AreWithin size block_size blocks.now
        → Becomes (λ o after. AreHeld sha256 (objects_in o) t.blocks → AreHeld sha256 (objects_in after) (tables_after batch t).blocks) (L.told link.old) (L.told link.new))) }
    ensures bytes_held { IfOk result (λ batch. IfTold (K.told keeper.new) (λ t. IsFileAt t file.now block_size → size ≤ file.now.size
        → AreWithin size block_size blocks.now → (m : Contents) → KnowsBlocks sha256 m blocks.now
        → Becomes (λ o after. HaveHeld m (objects_in o) t.blocks → HaveHeld m (objects_in after) (tables_after batch t).blocks) (L.told link.old) (L.told link.new))) }
    ensures few { IfOk result (λ batch. IfTold (K.told keeper.old) (λ t. IfTold (K.told keeper.new) (λ later. IsOrdered later → AreFew (length blocks.now) t (tables_after batch later)))) }
    ensures drawn { IfTold (K.told keeper.old) (λ t. IfTold (K.told keeper.new) (λ later. AreFew (length blocks.now) t later)) }
    ensures kept { KeepsObjects (K.told keeper.old) (L.told link.old) (L.told link.new) }
    ensures worn { IfErr result (λ fault. fault ≡ Worn → IfTold (K.told keeper.old) (λ t. IsWornFor sha256 t [] blocks.now)) }
    ensures room { OnOk result (IfTold (K.told keeper.old) (λ t. IsWornFor sha256 t [] blocks.now → ⊥)) }
    ensures found_all { is_lost result ≡ false }
    ensures keeper { HasCause (K.faults keeper.old) (K.faults keeper.new) (keeper_failed result) }
    ensures link { HasCause (L.faults link.old) (L.faults link.new) (link_failed result) }
{
    files_take_other_lengths();
    lengths_leave_forms();
    kept_rows_keep_what_is_held();
    let mut batch = Batch::new(alloc);
    place_blocks(alloc, keeper, link, file.id, blocks, &mut batch)?;
    drop_links(keeper, &mut batch, file.id, first_past(size, block_size))?;
    batch.push(Change::PutInode(with_length(file, size, now)))?;
    Ok(batch)
}

/// The batch by which `new`, at least one byte, is written into a file at `off`, at the time `now`. Its changed blocks are put into the
/// store before.
pub fn write_file<K: Keeper, L: Link>(
    alloc: Global,
    keeper: &mut K,
    link: &mut L,
    file: &InodeRow,
    block_size: u32,
    off: u64,
    new: &[u8],
    now: u64,
) -> Result<Batch, FileFault>
    requires least { 4096 ≤ block_size }
    requires greatest { block_size ≤ 10485760 }
    requires some { 0 < length new.now }
    requires range { off + length new.now ≤ 2 ^ 50 }
    requires short { length new.now < 2 ^ 32 }
    requires time { now < 2 ^ 62 }
    ensures prepared { Becomes ArePrepared (K.told keeper.old) (K.told keeper.new) }
    ensures step { IfOk result (λ batch. IfTold (K.told keeper.new) (λ t. IsFileAt t file.now block_size
        → IsFileStep t (tables_after batch t) (with_length (max file.now.size (off + length new.now)) now file.now))) }
    ensures held { IfOk result (λ batch. IfTold (K.told keeper.new) (λ t. IsFileAt t file.now block_size
        → Becomes (λ o after. AreHeld sha256 (objects_in o) t.blocks → AreHeld sha256 (objects_in after) (tables_after batch t).blocks) (L.told link.old) (L.told link.new))) }
    ensures changed { IfOk result (λ batch. IfBothTold (K.told keeper.old) (L.told link.old) (λ t o. IfTold (K.told keeper.new) (λ later. GetsBytes sha256 t o later (tables_after batch later)
        file.now block_size (written_at off new.now) (blocks_of_write block_size off (length new.now) file.now.size (stored_length t file.now.id))))) }
    ensures bytes_held { IfOk result (λ batch. IfBothTold (K.told keeper.old) (L.told link.old) (λ t o. IfTold (K.told keeper.new) (λ later. HoldsBytes sha256 t o later (tables_after batch later)
        (L.told link.new) file.now block_size (written_at off new.now) (blocks_of_write block_size off (length new.now) file.now.size (stored_length t file.now.id))))) }
    ensures few { IfOk result (λ batch. IfTold (K.told keeper.old) (λ t. IfTold (K.told keeper.new) (λ later. AreFew (piece_count off (length new.now) block_size + 1) t (tables_after batch later)))) }
    ensures drawn { IfTold (K.told keeper.old) (λ t. IfTold (K.told keeper.new) (λ later. AreFew (piece_count off (length new.now) block_size + 1) t later)) }
    ensures kept { KeepsObjects (K.told keeper.old) (L.told link.old) (L.told link.new) }
    ensures lost { IfErr result (IsLossAmong sha256 (K.told keeper.old) (L.told link.old) file.now.id
        (λ t. needed_by_write block_size off (length new.now) (blocks_of_write block_size off (length new.now) file.now.size (stored_in t file.now.id)))) }
    ensures worn { IfErr result (λ fault. fault ≡ Worn → IfTold (K.told keeper.old) (λ t. AreWorn sha256 t (L.told link.old) file.now block_size (written_at off new.now)
        (blocks_of_write block_size off (length new.now) file.now.size (stored_in t file.now.id))
        (changes.PutInode (with_length (max file.now.size (off + length new.now)) now file.now) ∷ []))) }
    ensures room { OnOk result (IfBothTold (K.told keeper.old) (L.told link.old) (λ t o. HaveRoom sha256 t o file.now block_size (written_at off new.now)
        (blocks_of_write block_size off (length new.now) file.now.size (stored_in t file.now.id))
        (changes.PutInode (with_length (max file.now.size (off + length new.now)) now file.now) ∷ []))) }
    ensures keeper { HasCause (K.faults keeper.old) (K.faults keeper.new) (keeper_failed result) }
    ensures link { HasCause (L.faults link.old) (L.faults link.new) (link_failed result) }
{
    let end = off + new.len() as u64;
    let blocks = written_blocks(
        alloc, keeper, link, file.id, file.size, block_size, off, new,
    )?;
    place_within(
        alloc,
        keeper,
        link,
        file,
        file.size.max(end),
        now,
        blocks.as_slice(),
    )
}

/// The batch by which a file has `len` bytes, at the time `now`: it is cut, or lengthened with zeros. The block that the new end lies
/// within is put into the store before.
pub fn resize_file<K: Keeper, L: Link>(
    alloc: Global,
    keeper: &mut K,
    link: &mut L,
    file: &InodeRow,
    block_size: u32,
    len: u64,
    now: u64,
) -> Result<Batch, FileFault>
    requires least { 4096 ≤ block_size }
    requires greatest { block_size ≤ 10485760 }
    requires size { len ≤ 2 ^ 50 }
    requires time { now < 2 ^ 62 }
    ensures prepared { Becomes ArePrepared (K.told keeper.old) (K.told keeper.new) }
    ensures step { IfOk result (λ batch. IfTold (K.told keeper.new) (λ t. IsFileAt t file.now block_size
        → IsFileStep t (tables_after batch t) (with_length len now file.now))) }
    ensures held { IfOk result (λ batch. IfTold (K.told keeper.new) (λ t. IsFileAt t file.now block_size
        → Becomes (λ o after. AreHeld sha256 (objects_in o) t.blocks → AreHeld sha256 (objects_in after) (tables_after batch t).blocks) (L.told link.old) (L.told link.new))) }
    ensures changed { IfOk result (λ batch. IfBothTold (K.told keeper.old) (L.told link.old) (λ t o. IfTold (K.told keeper.new) (λ later. GetsBytes sha256 t o later (tables_after batch later)
        file.now block_size (resized len) (blocks_of_resize block_size len file.now.size (stored_length t file.now.id))))) }
    ensures bytes_held { IfOk result (λ batch. IfBothTold (K.told keeper.old) (L.told link.old) (λ t o. IfTold (K.told keeper.new) (λ later. HoldsBytes sha256 t o later (tables_after batch later)
        (L.told link.new) file.now block_size (resized len) (blocks_of_resize block_size len file.now.size (stored_length t file.now.id))))) }
    ensures few { IfOk result (λ batch. IfTold (K.told keeper.old) (λ t. IfTold (K.told keeper.new) (λ later. IsOrdered later → AreFew 2 t (tables_after batch later)))) }
    ensures drawn { IfTold (K.told keeper.old) (λ t. IfTold (K.told keeper.new) (λ later. AreFew 2 t later)) }
    ensures kept { KeepsObjects (K.told keeper.old) (L.told link.old) (L.told link.new) }
    ensures lost { IfErr result (IsLossAmong sha256 (K.told keeper.old) (L.told link.old) file.now.id
        (λ t. blocks_of_resize block_size len file.now.size (stored_in t file.now.id))) }
    ensures worn { IfErr result (λ fault. fault ≡ Worn → IfTold (K.told keeper.old) (λ t. AreWorn sha256 t (L.told link.old) file.now block_size (resized len)
        (blocks_of_resize block_size len file.now.size (stored_in t file.now.id))
        (if nat_lt len file.now.size then [] else changes.PutInode (with_length len now file.now) ∷ []))) }
    ensures room { OnOk result (IfBothTold (K.told keeper.old) (L.told link.old) (λ t o. HaveRoom sha256 t o file.now block_size (resized len)
        (blocks_of_resize block_size len file.now.size (stored_in t file.now.id))
        (if nat_lt len file.now.size then [] else changes.PutInode (with_length len now file.now) ∷ []))) }
    ensures keeper { HasCause (K.faults keeper.old) (K.faults keeper.new) (keeper_failed result) }
    ensures link { HasCause (L.faults link.old) (L.faults link.new) (link_failed result) }
{
    let blocks = resized_blocks(alloc, keeper, link, file.id, file.size, block_size, len)?;
    let new = blocks.as_slice();
    if len < file.size {
        place_and_cut(alloc, keeper, link, file, block_size, len, now, new)
    } else {
        place_within(alloc, keeper, link, file, len, now, new)
    }
}

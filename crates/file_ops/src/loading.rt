//! One block of a file, as the object store has it.
ghost use Rattle.std.specs.Prelude.{◌≡◌, ℕ, Some, false, length, IfOk, IfErr};
ghost use Rattle.sha2.specs.Sha256.{sha256};
ghost use Rattle.s3_base.specs.Faults.{HasCause};
ghost use Rattle.block_math.specs.Blocks.{piece_of};
ghost use Rattle.s3_devices.specs.Keys.{objects_in};
ghost use Rattle.s3_rows.specs.Stores.{AreHeld};
ghost use Rattle.s3_rows.specs.Told.{IfTold, has_failed};
ghost use Rattle.tree_rows.specs.Contents.{Contents};
ghost use Rattle.tree_rows.specs.Spots.{form_at};
ghost use Rattle.core_model.specs.Bytes.{Shows, no_overlay, shown_at};
ghost use Rattle.core_model.specs.Safe.{HaveHeld};
ghost use Rattle.file_ops.specs.FileBytes.{IfBothTold, IfFile, IsOfForm, stored_in};
ghost use Rattle.file_ops.specs.FileFaults.{IsLossAt, block_named, is_worn, keeper_failed, link_failed};

use crate::{FileFault, fetch};
use s3_base::ByteList;
use s3_devices::Link;
use s3_rows::{BlockRow, Keeper, KeeperFault};
use std::alloc::Global;

/// The row of the block that lies at a place of a file; none where no row names one, or the one named has no row.
pub(crate) fn row_named<K: Keeper>(
    keeper: &mut K,
    inode: u64,
    blockno: u64,
) -> Result<Option<BlockRow>, KeeperFault>
    ensures row { IfOk result (λ r. IfTold (K.told keeper.old) (λ t. r ≡ block_named t inode blockno)) }
    ensures same { K.told keeper.new ≡ K.told keeper.old }
    ensures cause { HasCause (K.faults keeper.old) (K.faults keeper.new) (has_failed result) }
{
    match keeper.block_at(inode, blockno)? {
        Some(place) => keeper.block(place.block),
        None => Ok(None),
    }
}

/// The stored bytes of the block that lies at a place of a file; none where no row names one. Bytes that are lost are those of
/// the object of its row.
pub fn load<K: Keeper, L: Link>(
    alloc: Global,
    keeper: &mut K,
    link: &mut L,
    inode: u64,
    blockno: u64,
) -> Result<ByteList, FileFault>
    ensures shown { IfOk result (λ bytes. IfBothTold (K.told keeper.old) (L.told link.old) (λ t o. (m : Contents) → HaveHeld m (objects_in o) t.blocks → shown_at m t no_overlay inode blockno ≡ Some bytes)) }
    ensures file { IfOk result (λ bytes. (size block_size : ℕ) → IfFile (K.told keeper.old) (L.told link.old) inode size block_size (λ file. Shows (piece_of block_size file blockno) bytes)) }
    ensures digest { IfOk result (λ bytes. IfTold (K.told keeper.old) (λ t. IsOfForm sha256 (form_at t inode blockno) bytes)) }
    ensures size { IfOk result (λ bytes. IfBothTold (K.told keeper.old) (L.told link.old) (λ t o. AreHeld sha256 (objects_in o) t.blocks → length bytes ≡ stored_in t inode blockno)) }
    ensures lost { IfErr result (IsLossAt sha256 (K.told keeper.old) (L.told link.old) inode blockno) }
    ensures unworn { is_worn result ≡ false }
    ensures keeper_same { K.told keeper.new ≡ K.told keeper.old }
    ensures link_same { L.told link.new ≡ L.told link.old }
    ensures keeper_cause { HasCause (K.faults keeper.old) (K.faults keeper.new) (keeper_failed result) }
    ensures link_cause { HasCause (L.faults link.old) (L.faults link.new) (link_failed result) }
{
    let Some(row) = row_named(keeper, inode, blockno)? else {
        return Ok(ByteList::new(alloc));
    };
    Ok(fetch(alloc, link, row.object, &row.digest)?)
}

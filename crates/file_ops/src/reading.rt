//! The bytes of a range of a file.
ghost use Rattle.std.specs.Prelude.{◌≡◌, ℕ, ◌+◌, ◌-◌, ◌*◌, ◌^◌, ◌<◌, ◌≤◌, ◌++◌, length, min, take, drop, false, IfOk, IfErr, OnOk};
ghost use Rattle.sha2.specs.Sha256.{sha256};
ghost use Rattle.s3_base.specs.Faults.{HasCause};
ghost use Rattle.block_math.specs.Changes.{resized};
ghost use Rattle.plain_tree.specs.Files.{read_at};
ghost use Rattle.core_model.specs.Changes.{touched_blocks};
ghost use Rattle.file_ops.specs.FileBytes.{IfFile};
ghost use Rattle.file_ops.specs.FileFaults.{IsLossAmong, IsLossAt, is_worn, keeper_failed, link_failed};

use crate::{FileFault, load};
use block_math::{Piece, count, piece};
use s3_base::ByteList;
use s3_devices::Link;
use s3_rows::Keeper;
use std::alloc::{AllocError, Global};

/// Appends `len` bytes of a stored form from `at` on, with zeros in place of those past its end.
fn append_shown(bytes: &mut Vec<u8>, form: &[u8], at: usize, len: usize) -> Result<(), AllocError>
    requires { length bytes.old.items + len < 2 ^ 32 }
    ensures { OnOk result (bytes.new.items ≡ bytes.old.items ++ resized len (drop at form.now)) }
{
    let end = bytes.len() + len;
    let start = at.min(form.len());
    let shown = len.min(form.len() - start);
    bytes.extend_from_slice(&form[start..start + shown])?;
    bytes.resize(end, 0)
}

/// Appends the bytes of a file that are one piece of a range.
fn append_piece<K: Keeper, L: Link>(
    alloc: Global,
    keeper: &mut K,
    link: &mut L,
    inode: u64,
    piece: Piece,
    bytes: &mut Vec<u8>,
) -> Result<(), FileFault>
    requires { length bytes.old.items + piece.len < 2 ^ 32 }
    ensures len { OnOk result (length bytes.new.items ≡ length bytes.old.items + piece.len) }
    ensures bytes { OnOk result ((size block_size : ℕ) → piece.at + piece.len ≤ block_size → piece.blockno * block_size + piece.at + piece.len ≤ size
        → IfFile (K.told keeper.old) (L.told link.old) inode size block_size (λ file. bytes.new.items ≡ bytes.old.items ++ read_at (piece.blockno * block_size + piece.at) piece.len file)) }
    ensures unworn { is_worn result ≡ false }
    ensures lost { IfErr result (IsLossAt sha256 (K.told keeper.old) (L.told link.old) inode piece.blockno) }
    ensures keeper_same { K.told keeper.new ≡ K.told keeper.old }
    ensures link_same { L.told link.new ≡ L.told link.old }
    ensures keeper_cause { HasCause (K.faults keeper.old) (K.faults keeper.new) (keeper_failed result) }
    ensures link_cause { HasCause (L.faults link.old) (L.faults link.new) (link_failed result) }
{
    let form = load(alloc, keeper, link, inode, piece.blockno)?;
    append_shown(
        bytes,
        form.as_slice(),
        piece.at as usize,
        piece.len as usize,
    )?;
    Ok(())
}

/// The bytes of a range that ends within the file.
fn read_range<K: Keeper, L: Link>(
    alloc: Global,
    keeper: &mut K,
    link: &mut L,
    inode: u64,
    block_size: u32,
    off: u64,
    len: u64,
) -> Result<Vec<u8>, FileFault>
    requires block { 0 < block_size }
    requires range { off + len ≤ 2 ^ 50 }
    requires short { len < 2 ^ 32 }
    ensures len { IfOk result (λ v. length v.items ≡ len) }
    ensures bytes { IfOk result (λ v. (size : ℕ) → off + len ≤ size
        → IfFile (K.told keeper.old) (L.told link.old) inode size block_size (λ file. v.items ≡ read_at off len file)) }
    ensures unworn { is_worn result ≡ false }
    ensures lost { IfErr result (IsLossAmong sha256 (K.told keeper.old) (L.told link.old) inode (λ t. touched_blocks block_size off len)) }
    ensures keeper_same { K.told keeper.new ≡ K.told keeper.old }
    ensures link_same { L.told link.new ≡ L.told link.old }
    ensures keeper_cause { HasCause (K.faults keeper.old) (K.faults keeper.new) (keeper_failed result) }
    ensures link_cause { HasCause (L.faults link.old) (L.faults link.new) (link_failed result) }
{
    let mut bytes = Vec::with_capacity(alloc, len as usize)?;
    let pieces = count(off, len, block_size);
    for k in 0..pieces {
        let part = piece(off, len, block_size, k);
        append_piece(alloc, keeper, link, inode, part, &mut bytes)?;
    }
    Ok(bytes)
}

/// The bytes of a file of `size` bytes from `off` on, at most `len` of them and none past its end. Where no row names a block, and
/// past the end of its stored form, they are zeros. Bytes that are lost are those of a block that the range touches.
pub fn read<K: Keeper, L: Link>(
    alloc: Global,
    keeper: &mut K,
    link: &mut L,
    inode: u64,
    size: u64,
    block_size: u32,
    off: u64,
    len: u32,
) -> Result<ByteList, FileFault>
    requires block { 0 < block_size }
    requires size { size ≤ 2 ^ 50 }
    ensures len { IfOk result (λ bytes. length bytes ≡ min len (size - off)) }
    ensures bytes { IfOk result (λ bytes. IfFile (K.told keeper.old) (L.told link.old) inode size block_size (λ file. bytes ≡ read_at off len file)) }
    ensures unworn { is_worn result ≡ false }
    ensures lost { IfErr result (IsLossAmong sha256 (K.told keeper.old) (L.told link.old) inode (λ t. touched_blocks block_size off (min len (size - off)))) }
    ensures keeper_same { K.told keeper.new ≡ K.told keeper.old }
    ensures link_same { L.told link.new ≡ L.told link.old }
    ensures keeper_cause { HasCause (K.faults keeper.old) (K.faults keeper.new) (keeper_failed result) }
    ensures link_cause { HasCause (L.faults link.old) (L.faults link.new) (link_failed result) }
{
    let len = u64::from(len).min(size.saturating_sub(off));
    if len == 0 {
        return Ok(ByteList::new(alloc));
    }
    let bytes = read_range(alloc, keeper, link, inode, block_size, off, len)?;
    Ok(ByteList::from(bytes))
}

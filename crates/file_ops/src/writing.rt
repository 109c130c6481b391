//! The blocks of a file after a write or with another length.
ghost use Rattle.std.specs.Prelude.{◌≡◌, ℕ, ◌+◌, ◌-◌, ◌*◌, ◌/◌, ◌^◌, ◌<◌, ◌≤◌, ◌++◌, [], ◌∷◌, length, max, take, Contains, List, IfOk, IfErr, All, false};
ghost use Rattle.std.specs.Option.{ForSome};
ghost use Rattle.sha2.specs.Sha256.{sha256};
ghost use Rattle.s3_base.specs.Faults.{HasCause};
ghost use Rattle.block_math.specs.Blocks.{piece_of, trimmed};
ghost use Rattle.block_math.specs.Changes.{resized, written_at};
ghost use Rattle.block_math.specs.Ranges.{piece_count};
ghost use Rattle.core_model.specs.Changes.{blocks_of_resize, blocks_of_write, needed_by_write, rest_of, tail_before};
ghost use Rattle.s3_rows.specs.Tables.{Tables};
ghost use Rattle.s3_rows.specs.Told.{IfTold, has_failed};
ghost use Rattle.file_ops.specs.FileBytes.{IfFile, stored_in};
ghost use Rattle.file_ops.specs.FileFaults.{IsLossAmong, IsLossAt, is_worn, keeper_failed, link_failed};
ghost use Rattle.file_ops.specs.NewBlocks.{AreBlocksOf, AreShort, number_of_tail, numbers_of};

use crate::loading::row_named;
use crate::{FileFault, NewBlock, load};
use block_math::{count, piece, trimmed_len};
use s3_base::{ByteList, Sequence};
use s3_devices::Link;
use s3_rows::{Keeper, KeeperFault};
use std::alloc::{AllocError, Global};

/// The first `len` bytes, all where there are fewer.
fn front(bytes: &[u8], len: usize) -> &[u8]
    ensures { result.now ≡ take len bytes.now }
{
    &bytes[..len.min(bytes.len())]
}

/// A block in its stored form.
fn trimmed_block(alloc: Global, blockno: u64, bytes: &[u8]) -> Result<NewBlock, AllocError>
    ensures blockno { IfOk result (λ b. b.blockno ≡ blockno) }
    ensures stored { IfOk result (λ b. b.stored ≡ trimmed bytes.now) }
    ensures short { IfOk result (λ b. length b.stored ≤ length bytes.now) }
{
    let stored = ByteList::from_slice(alloc, front(bytes, trimmed_len(bytes)))?;
    Ok(NewBlock { blockno, stored })
}

/// The bytes with others from a place on. A gap is filled with zeros.
fn with_part(alloc: Global, bytes: &[u8], at: usize, part: &[u8]) -> Result<Vec<u8>, AllocError>
    requires { at + length part.now < 2 ^ 32 }
    ensures { IfOk result (λ v. v.items ≡ written_at at part.now bytes.now) }
{
    let mut written = Vec::from_slice(alloc, front(bytes, at))?;
    written.resize(at, 0)?;
    written.extend_from_slice(part)?;
    let end = (at + part.len()).min(bytes.len());
    written.extend_from_slice(&bytes[end..])?;
    Ok(written)
}

/// How many bytes of a file of `size` bytes lie in a block.
fn rest(size: u64, block_size: u32, blockno: u64) -> usize
    ensures { result ≡ rest_of block_size size blockno }
{
    let begin = blockno.saturating_mul(u64::from(block_size));
    size.saturating_sub(begin).min(u64::from(block_size)) as usize
}

/// A block of a file of which only the first `len` bytes stay.
fn cut_block<K: Keeper, L: Link>(
    alloc: Global,
    keeper: &mut K,
    link: &mut L,
    inode: u64,
    blockno: u64,
    len: usize,
) -> Result<NewBlock, FileFault>
    ensures blockno { IfOk result (λ b. b.blockno ≡ blockno) }
    ensures short { IfOk result (λ b. length b.stored ≤ len) }
    ensures stored { IfOk result (λ b. (size block_size : ℕ) → len ≤ rest_of block_size size blockno
        → IfFile (K.told keeper.old) (L.told link.old) inode size block_size (λ file. b.stored ≡ trimmed (take len (piece_of block_size file blockno)))) }
    ensures lost { IfErr result (IsLossAt sha256 (K.told keeper.old) (L.told link.old) inode blockno) }
    ensures unworn { is_worn result ≡ false }
    ensures keeper_same { K.told keeper.new ≡ K.told keeper.old }
    ensures link_same { L.told link.new ≡ L.told link.old }
    ensures keeper_cause { HasCause (K.faults keeper.old) (K.faults keeper.new) (keeper_failed result) }
    ensures link_cause { HasCause (L.faults link.old) (L.faults link.new) (link_failed result) }
{
    let form = load(alloc, keeper, link, inode, blockno)?;
    Ok(trimmed_block(alloc, blockno, front(form.as_slice(), len))?)
}

/// A block of a file of which the first `len` bytes stay, with others from a place on.
fn patched_block<K: Keeper, L: Link>(
    alloc: Global,
    keeper: &mut K,
    link: &mut L,
    inode: u64,
    blockno: u64,
    len: usize,
    at: usize,
    part: &[u8],
) -> Result<NewBlock, FileFault>
    requires { at + length part.now < 2 ^ 32 }
    ensures blockno { IfOk result (λ b. b.blockno ≡ blockno) }
    ensures short { IfOk result (λ b. length b.stored ≤ max len (at + length part.now)) }
    ensures stored { IfOk result (λ b. (size block_size : ℕ) → len ≤ rest_of block_size size blockno
        → IfFile (K.told keeper.old) (L.told link.old) inode size block_size (λ file. b.stored ≡ trimmed (written_at at part.now (take len (piece_of block_size file blockno))))) }
    ensures lost { IfErr result (IsLossAt sha256 (K.told keeper.old) (L.told link.old) inode blockno) }
    ensures unworn { is_worn result ≡ false }
    ensures keeper_same { K.told keeper.new ≡ K.told keeper.old }
    ensures link_same { L.told link.new ≡ L.told link.old }
    ensures keeper_cause { HasCause (K.faults keeper.old) (K.faults keeper.new) (keeper_failed result) }
    ensures link_cause { HasCause (L.faults link.old) (L.faults link.new) (link_failed result) }
{
    let form = load(alloc, keeper, link, inode, blockno)?;
    let bytes = with_part(alloc, front(form.as_slice(), len), at, part)?;
    Ok(trimmed_block(alloc, blockno, bytes.as_slice())?)
}

/// The number of the last block, where the file becomes longer, the block comes before `first`, and its stored form has bytes past
/// the end of the file.
fn tail<K: Keeper>(
    keeper: &mut K,
    inode: u64,
    size: u64,
    block_size: u32,
    longer: u64,
    first: u64,
) -> Result<Option<u64>, KeeperFault>
    requires { 0 < block_size }
    ensures tail { IfOk result (λ n. IfTold (K.told keeper.old) (λ t. number_of_tail n ≡ tail_before block_size size longer first (stored_in t inode))) }
    ensures before { IfOk result (λ n. ForSome n (λ n. n < first)) }
    ensures grows { IfOk result (λ n. ForSome n (λ n. size < longer)) }
    ensures same { K.told keeper.new ≡ K.told keeper.old }
    ensures cause { HasCause (K.faults keeper.old) (K.faults keeper.new) (has_failed result) }
{
    if size == 0 || longer <= size {
        return Ok(None);
    }
    let last = (size - 1) / block_size as u64;
    if last >= first {
        return Ok(None);
    }
    match row_named(keeper, inode, last)? {
        Some(row) if row.size as usize > rest(size, block_size, last) => Ok(Some(last)),
        _ => Ok(None),
    }
}

/// The tail as it is from now on, where there is one: without the bytes past the end of the file.
fn tail_blocks<K: Keeper, L: Link>(
    alloc: Global,
    keeper: &mut K,
    link: &mut L,
    inode: u64,
    size: u64,
    block_size: u32,
    longer: u64,
    first: u64,
) -> Result<Sequence<NewBlock>, FileFault>
    requires { 0 < block_size }
    ensures numbers { IfOk result (λ bs. IfTold (K.told keeper.old) (λ t. numbers_of bs ≡ tail_before block_size size longer first (stored_in t inode))) }
    ensures before { IfOk result (λ bs. All (λ b. b.blockno < first) bs) }
    ensures grows { IfOk result (λ bs. All (λ b. size < longer) bs) }
    ensures short { IfOk result (λ bs. AreShort block_size bs) }
    ensures stored { IfOk result (λ bs. IfFile (K.told keeper.old) (L.told link.old) inode size block_size (λ file. AreBlocksOf block_size file bs)) }
    ensures lost { IfErr result (IsLossAmong sha256 (K.told keeper.old) (L.told link.old) inode (λ t. tail_before block_size size longer first (stored_in t inode))) }
    ensures unworn { is_worn result ≡ false }
    ensures keeper_same { K.told keeper.new ≡ K.told keeper.old }
    ensures link_same { L.told link.new ≡ L.told link.old }
    ensures keeper_cause { HasCause (K.faults keeper.old) (K.faults keeper.new) (keeper_failed result) }
    ensures link_cause { HasCause (L.faults link.old) (L.faults link.new) (link_failed result) }
{
    let mut blocks = Sequence::new(alloc);
    let Some(blockno) = tail(keeper, inode, size, block_size, longer, first)? else {
        return Ok(blocks);
    };
    let len = rest(size, block_size, blockno);
    blocks.push(cut_block(alloc, keeper, link, inode, blockno, len)?)?;
    Ok(blocks)
}

/// The block that has the k-th piece of a write, as it is after the write. It is loaded only where the write has not all of it.
fn written_block<K: Keeper, L: Link>(
    alloc: Global,
    keeper: &mut K,
    link: &mut L,
    inode: u64,
    size: u64,
    block_size: u32,
    off: u64,
    new: &[u8],
    k: u64,
) -> Result<NewBlock, FileFault>
    requires block { 0 < block_size }
    requires range { off + length new.now ≤ 2 ^ 50 }
    requires short { length new.now < 2 ^ 32 }
    requires there { k < piece_count off (length new.now) block_size }
    ensures blockno { IfOk result (λ b. b.blockno ≡ off / block_size + k) }
    ensures short { IfOk result (λ b. length b.stored ≤ block_size) }
    ensures stored { IfOk result (λ b. IfFile (K.told keeper.old) (L.told link.old) inode size block_size (λ file. b.stored ≡ trimmed (piece_of block_size (written_at off new.now file) b.blockno))) }
    ensures lost { IfErr result (λ fault. (changed : Tables → List ℕ) → ((t : Tables) → Contains (changed t) (off / block_size + k))
        → IsLossAmong sha256 (K.told keeper.old) (L.told link.old) inode (λ t. needed_by_write block_size off (length new.now) (changed t)) fault) }
    ensures unworn { is_worn result ≡ false }
    ensures keeper_same { K.told keeper.new ≡ K.told keeper.old }
    ensures link_same { L.told link.new ≡ L.told link.old }
    ensures keeper_cause { HasCause (K.faults keeper.old) (K.faults keeper.new) (keeper_failed result) }
    ensures link_cause { HasCause (L.faults link.old) (L.faults link.new) (link_failed result) }
{
    let p = piece(off, new.len() as u64, block_size, k);
    let part = &new[p.from as usize..p.from as usize + p.len as usize];
    if p.len == block_size {
        return Ok(trimmed_block(alloc, p.blockno, part)?);
    }
    let len = rest(size, block_size, p.blockno);
    patched_block(
        alloc,
        keeper,
        link,
        inode,
        p.blockno,
        len,
        p.at as usize,
        part,
    )
}

/// The blocks of a file of `size` bytes that a write of `new` at `off` changes, as they are after it, rising. Only the ones that it
/// does not overwrite whole are loaded.
pub fn written_blocks<K: Keeper, L: Link>(
    alloc: Global,
    keeper: &mut K,
    link: &mut L,
    inode: u64,
    size: u64,
    block_size: u32,
    off: u64,
    new: &[u8],
) -> Result<Vec<NewBlock>, FileFault>
    requires block { 0 < block_size }
    requires range { off + length new.now ≤ 2 ^ 50 }
    requires short { length new.now < 2 ^ 32 }
    ensures numbers { IfOk result (λ v. IfTold (K.told keeper.old) (λ t. numbers_of v.items ≡ blocks_of_write block_size off (length new.now) size (stored_in t inode))) }
    ensures below { IfOk result (λ v. All (λ b. b.blockno * block_size < off + length new.now) v.items) }
    ensures short { IfOk result (λ v. AreShort block_size v.items) }
    ensures stored { IfOk result (λ v. IfFile (K.told keeper.old) (L.told link.old) inode size block_size (λ file. AreBlocksOf block_size (written_at off new.now file) v.items)) }
    ensures lost { IfErr result (IsLossAmong sha256 (K.told keeper.old) (L.told link.old) inode
        (λ t. needed_by_write block_size off (length new.now) (blocks_of_write block_size off (length new.now) size (stored_in t inode)))) }
    ensures unworn { is_worn result ≡ false }
    ensures keeper_same { K.told keeper.new ≡ K.told keeper.old }
    ensures link_same { L.told link.new ≡ L.told link.old }
    ensures keeper_cause { HasCause (K.faults keeper.old) (K.faults keeper.new) (keeper_failed result) }
    ensures link_cause { HasCause (L.faults link.old) (L.faults link.new) (link_failed result) }
{
    let len = new.len() as u64;
    let first = off / block_size as u64;
    let mut blocks = tail_blocks(
        alloc,
        keeper,
        link,
        inode,
        size,
        block_size,
        off + len,
        first,
    )?;
    let pieces = count(off, len, block_size);
    for k in 0..pieces {
        let block = written_block(alloc, keeper, link, inode, size, block_size, off, new, k)?;
        blocks.push(block)?;
    }
    Ok(blocks.into_vec())
}

/// The blocks of a file of `size` bytes that change where it has `longer` bytes from now on, as they are then, rising.
pub fn resized_blocks<K: Keeper, L: Link>(
    alloc: Global,
    keeper: &mut K,
    link: &mut L,
    inode: u64,
    size: u64,
    block_size: u32,
    longer: u64,
) -> Result<Vec<NewBlock>, FileFault>
    requires block { 0 < block_size }
    ensures numbers { IfOk result (λ v. IfTold (K.told keeper.old) (λ t. numbers_of v.items ≡ blocks_of_resize block_size longer size (stored_in t inode))) }
    ensures below { IfOk result (λ v. All (λ b. b.blockno * block_size < longer) v.items) }
    ensures short { IfOk result (λ v. AreShort block_size v.items) }
    ensures stored { IfOk result (λ v. IfFile (K.told keeper.old) (L.told link.old) inode size block_size (λ file. AreBlocksOf block_size (resized longer file) v.items)) }
    ensures lost { IfErr result (IsLossAmong sha256 (K.told keeper.old) (L.told link.old) inode (λ t. blocks_of_resize block_size longer size (stored_in t inode))) }
    ensures unworn { is_worn result ≡ false }
    ensures keeper_same { K.told keeper.new ≡ K.told keeper.old }
    ensures link_same { L.told link.new ≡ L.told link.old }
    ensures keeper_cause { HasCause (K.faults keeper.old) (K.faults keeper.new) (keeper_failed result) }
    ensures link_cause { HasCause (L.faults link.old) (L.faults link.new) (link_failed result) }
{
    let last = longer / block_size as u64;
    let within = longer % block_size as u64;
    let mut blocks = tail_blocks(alloc, keeper, link, inode, size, block_size, longer, last)?;
    if within == 0 {
        return Ok(blocks.into_vec());
    }
    let len = rest(size, block_size, last).min(within as usize);
    let block = cut_block(alloc, keeper, link, inode, last, len)?;
    blocks.push(block)?;
    Ok(blocks.into_vec())
}

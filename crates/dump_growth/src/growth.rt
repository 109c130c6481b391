//! Tables of many files with a block each.
ghost use Rattle.std.specs.Prelude.{◌≡◌, ◌<◌, ◌≤◌, ◌^◌, ◌++◌, ℕ, List, Some, IfOk, OnOk, All, length};
ghost use Rattle.s3_rows.specs.declared.change.Change.{Change};
ghost use Rattle.s3_rows.specs.Told.{Told, with_batch};
ghost use Rattle.dump_growth.specs.Growth.{file_inode, entry_changes, block_changes, IsFile, IsGrown, IsLetter};

use s3_base::{ByteList, Kind};
use s3_rows::{
    Batch, BlockRow, Change, ContentRow, Digest, InodeBlockRow, InodeRow, Keeper, KeeperFault,
    NameRow, ObjectRow,
};
use std::alloc::{AllocError, Global};

/// A number that is odd, by which the order of names and of digests is not that of their files.
const SCATTER: u64 = 0x9e37_79b9_7f4a_7c15;

/// The bytes of each block.
const SIZE: u32 = 4096;

/// The greatest number of files.
pub const MOST: u64 = 1 << 60;

/// The inode of a file with one block.
fn inode_row(id: u64) -> InodeRow
    requires positive { 0 < id }
    requires below { id < 2 ^ 62 }
    ensures { result ≡ file_inode id }
{
    InodeRow {
        id,
        kind: Kind::Regular,
        mode: 0o644,
        uid: 0,
        gid: 0,
        mtime: 0,
        ctime: 0,
        refcount: 1,
        size: SIZE as u64,
        locked: false,
    }
}

/// Sixteen letters from a to p, which scatter with the number.
fn scattered(alloc: Global, number: u64) -> Result<ByteList, AllocError>
    ensures length { IfOk result (λ b. length b ≡ 16) }
    ensures letters { IfOk result (λ b. All IsLetter b) }
{
    let mut bytes = ByteList::new(alloc);
    let mut rest = number.wrapping_mul(SCATTER);
    for _ in 0..16u8 {
        bytes.push(b'a' + (rest % 16) as u8)?;
        rest /= 16;
    }
    Ok(bytes)
}

/// A digest that scatters with the number, and is that of no other number.
fn digest_of(number: u64) -> Digest {
    let mut bytes = [0u8; 32];
    let scattered = number.wrapping_mul(SCATTER).to_be_bytes();
    bytes[..8].copy_from_slice(&scattered);
    Digest(bytes)
}

/// Puts a file's inode, its name and its entry in the root.
fn put_entry(batch: &mut Batch, file: u64, name: ByteList) -> Result<(), AllocError>
    requires file { file < 2 ^ 60 }
    requires length { length name ≡ 16 }
    requires letters { All IsLetter name }
    ensures { OnOk result (batch.new ≡ batch.old ++ entry_changes file name) }
{
    batch.push(Change::PutInode(inode_row(file + 3)))?;
    batch.push(Change::PutName(NameRow {
        id: file + 2,
        refcount: 1,
        name,
    }))?;
    batch.push(Change::PutContent(ContentRow {
        parent: 1,
        name_id: file + 2,
        inode: file + 3,
    }))
}

/// Puts a file's block: its place in the file, the block and the object.
fn put_block(batch: &mut Batch, file: u64, digest: Digest) -> Result<(), AllocError>
    requires { file < 2 ^ 60 }
    ensures { OnOk result (batch.new ≡ batch.old ++ block_changes file digest) }
{
    batch.push(Change::PutInodeBlock(InodeBlockRow {
        inode: file + 3,
        blockno: 0,
        block: file + 1,
    }))?;
    batch.push(Change::PutBlock(BlockRow {
        id: file + 1,
        digest,
        refcount: 1,
        size: SIZE,
        object: file + 1,
    }))?;
    batch.push(Change::PutObject(ObjectRow {
        id: file + 1,
        refcount: 1,
        size: Some(SIZE),
    }))
}

/// Commits the rows of a file.
fn add_file<K: Keeper>(alloc: Global, keeper: &mut K, file: u64) -> Result<(), KeeperFault>
    requires { file < 2 ^ 60 }
    ensures { OnOk result ((s : Told) → K.told keeper.old ≡ Some s
        → (batch : List Change) × (is : IsFile file batch) × (K.told keeper.new ≡ Some (with_batch batch s))) }
{
    let mut batch = Batch::new(alloc);
    put_entry(&mut batch, file, scattered(alloc, file)?)?;
    put_block(&mut batch, file, digest_of(file))?;
    keeper.commit(&batch)
}

/// Commits the rows of so many files, a batch each.
pub fn grow<K: Keeper>(alloc: Global, keeper: &mut K, files: u64) -> Result<(), KeeperFault>
    requires { files ≤ 2 ^ 60 }
    ensures { OnOk result ((s : Told) → K.told keeper.old ≡ Some s → (t : Told) × (told : K.told keeper.new ≡ Some t) × IsGrown files s t) }
{
    for file in 0..files {
        add_file(alloc, keeper, file)?;
    }
    Ok(())
}

//! Blocks, objects and the places that have them.
ghost use Rattle.std.specs.Prelude.{◌≡◌, ◌≢◌, ◌<◌, List, ℕ, Option, IfOk, length, map};
ghost use Rattle.sqlite_value.specs.Value.{owned};
ghost use Rattle.std.specs.Option.{ForSome};
ghost use Rattle.sqlite_value.specs.declared.value.Value.TheVariants.{Blob};
ghost use Rattle.sqlite_value.specs.Order.{column};
ghost use Rattle.s3_rows.specs.declared.digest.Digest.{Digest};
ghost use Rattle.s3_rows.specs.Rows.{InodeBlock, Block, Object, Slot, IsInodeBlock, IsBlock, IsObject, IsSlot, IsBlockSize};
ghost use Rattle.sqlite_rows.specs.Values.{IsInodeBlockRow, IsBlockRow, IsObjectRow, IsSlotRow, object_size};

use crate::faults::fault_of;
use crate::fields::{blockno_in, bytes_in, check_width, count_in, id_in, next_in, small_in};
use s3_rows::{BlockRow, Digest, InodeBlockRow, KeeperFault, ObjectRow, SlotRow};
use sqlite::Row;
use sqlite_value::value::ValueRef;

/// The longest stored form of a block, in bytes.
const MAX_BLOCK: u32 = 10_485_760;

/// The last slot of a cache disk.
const LAST_SLOT: u32 = 65_535;

pub fn inode_block_values(row: &InodeBlockRow) -> [ValueRef<'static>; 3]
    ensures { IsInodeBlockRow (map owned result) row.now }
{
    [
        ValueRef::Int(row.inode as i64),
        ValueRef::Int(row.blockno as i64),
        ValueRef::Int(row.block as i64),
    ]
}

pub fn inode_block_of(row: &Row) -> Result<InodeBlockRow, KeeperFault>
    ensures read { IfOk result (IsInodeBlockRow row.now) }
    ensures refused { result ≡ Err KeeperFault.Failed → (r : InodeBlock) → IsInodeBlock r → IsInodeBlockRow row.now r → ⊥ }
{
    check_width(row, 3)?;
    Ok(InodeBlockRow {
        inode: id_in(row, 0)?,
        blockno: blockno_in(row, 1)?,
        block: id_in(row, 2)?,
    })
}

pub fn block_values<'a>(row: &'a BlockRow) -> [ValueRef<'a>; 5]
    ensures { IsBlockRow (map owned result) row.now }
{
    [
        ValueRef::Int(row.id as i64),
        ValueRef::Blob(&row.digest.0),
        ValueRef::Int(row.refcount as i64),
        ValueRef::Int(row.size as i64),
        ValueRef::Int(row.object as i64),
    ]
}

// The 32 bytes of a digest.
fn digest_in(row: &Row, at: usize) -> Result<Digest, KeeperFault>
    ensures read { IfOk result (λ d. column row.now at ≡ Blob d.0) }
    ensures refused { result ≡ Err KeeperFault.Failed → (d : List ℕ) → length d ≡ 32 → at < length row.now → column row.now at ≢ Blob d }
{
    let bytes = bytes_in(row, at, 32)?;
    if bytes.len() != 32 {
        return Err(KeeperFault::Failed);
    }
    let mut digest = [0; 32];
    digest.copy_from_slice(bytes.as_slice());
    Ok(Digest(digest))
}

pub fn block_of(row: &Row) -> Result<BlockRow, KeeperFault>
    ensures read { IfOk result (IsBlockRow row.now) }
    ensures refused { result ≡ Err KeeperFault.Failed → (r : Block) → IsBlock r → length r.digest.0 ≡ 32 → IsBlockRow row.now r → ⊥ }
{
    check_width(row, 5)?;
    Ok(BlockRow {
        id: id_in(row, 0)?,
        digest: digest_in(row, 1)?,
        refcount: count_in(row, 2)?,
        size: small_in(row, 3, 1, MAX_BLOCK)?,
        object: id_in(row, 4)?,
    })
}

pub fn object_values(row: &ObjectRow) -> [ValueRef<'static>; 3]
    ensures { IsObjectRow (map owned result) row.now }
{
    let size = match row.size {
        Some(size) => size as i64,
        None => -1,
    };
    [
        ValueRef::Int(row.id as i64),
        ValueRef::Int(row.refcount as i64),
        ValueRef::Int(size),
    ]
}

// The size of an object, none for -1.
fn object_size_in(row: &Row, at: usize) -> Result<Option<u32>, KeeperFault>
    ensures read { IfOk result (λ s. column row.now at ≡ object_size s) }
    ensures range { IfOk result (λ s. ForSome s IsBlockSize) }
    ensures refused { result ≡ Err KeeperFault.Failed → (s : Option ℕ) → ForSome s IsBlockSize → at < length row.now → column row.now at ≢ object_size s }
{
    match row.get::<i64>(at) {
        Ok(-1) => Ok(None),
        Ok(_) => Ok(Some(small_in(row, at, 1, MAX_BLOCK)?)),
        Err(error) => Err(fault_of(error)),
    }
}

pub fn object_of(row: &Row) -> Result<ObjectRow, KeeperFault>
    ensures read { IfOk result (IsObjectRow row.now) }
    ensures refused { result ≡ Err KeeperFault.Failed → (r : Object) → IsObject r → IsObjectRow row.now r → ⊥ }
{
    check_width(row, 3)?;
    Ok(ObjectRow {
        id: id_in(row, 0)?,
        refcount: count_in(row, 1)?,
        size: object_size_in(row, 2)?,
    })
}

pub fn slot_values(row: &SlotRow) -> [ValueRef<'static>; 5]
    ensures { IsSlotRow (map owned result) row.now }
{
    [
        ValueRef::Int(row.slot as i64),
        ValueRef::Int(row.inode as i64),
        ValueRef::Int(row.blockno as i64),
        ValueRef::Int(row.version as i64),
        ValueRef::Int(row.len as i64),
    ]
}

pub fn slot_of(row: &Row) -> Result<SlotRow, KeeperFault>
    ensures read { IfOk result (IsSlotRow row.now) }
    ensures refused { result ≡ Err KeeperFault.Failed → (r : Slot) → IsSlot r → IsSlotRow row.now r → ⊥ }
{
    check_width(row, 5)?;
    Ok(SlotRow {
        slot: small_in(row, 0, 0, LAST_SLOT)?,
        inode: id_in(row, 1)?,
        blockno: blockno_in(row, 2)?,
        version: next_in(row, 3)?,
        len: small_in(row, 4, 0, MAX_BLOCK)?,
    })
}

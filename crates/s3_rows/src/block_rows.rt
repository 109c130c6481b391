use crate::Digest;
use std::marker::Model;

/// The block at `blockno` of a file, counted in blocks from its start.
#[derive(Clone, Copy, Debug, PartialEq, Eq)]
pub struct InodeBlockRow {
    pub inode: u64,
    pub blockno: u64,
    pub block: u64,
}

impl Model for InodeBlockRow {
    ghost use Rattle.s3_rows.specs.Rows.{InodeBlock, IsInodeBlock};

    ghost Value = { InodeBlock };

    ghost view = { λ r. record { inode = r.inode; blockno = r.blockno; block = r.block } };

    ghost invariant = { λ r. IsInodeBlock (record { inode = r.inode; blockno = r.blockno; block = r.block }) };

    ghost inverse = { λ r. record { inode = r.inode; blockno = r.blockno; block = r.block } };
}

/// A block. `digest` and `size` are the SHA-256 and the length in bytes of its stored form, `object` is the object that
/// has these bytes, and `refcount` is the number of places in files that have the block.
#[derive(Clone, Copy, Debug, PartialEq, Eq)]
pub struct BlockRow {
    pub id: u64,
    pub digest: Digest,
    pub refcount: u64,
    pub size: u32,
    pub object: u64,
}

impl Model for BlockRow {
    ghost use Rattle.s3_rows.specs.Rows.{Block, IsBlock};

    ghost Value = { Block };

    ghost view = { λ r. record { id = r.id; digest = r.digest; refcount = r.refcount; size = r.size; object = r.object } };

    ghost invariant = { λ r. IsBlock (record { id = r.id; digest = r.digest; refcount = r.refcount; size = r.size; object = r.object }) };

    ghost inverse = { λ r. record { id = r.id; digest = r.digest; refcount = r.refcount; size = r.size; object = r.object } };
}

/// An object of the store. `size` is its length in bytes, none while it is not uploaded, and `refcount` is the number of
/// blocks that it has.
#[derive(Clone, Copy, Debug, PartialEq, Eq)]
pub struct ObjectRow {
    pub id: u64,
    pub refcount: u64,
    pub size: Option<u32>,
}

impl Model for ObjectRow {
    ghost use Rattle.s3_rows.specs.Rows.{Object, IsObject};

    ghost Value = { Object };

    ghost view = { λ r. record { id = r.id; refcount = r.refcount; size = r.size } };

    ghost invariant = { λ r. IsObject (record { id = r.id; refcount = r.refcount; size = r.size }) };

    ghost inverse = { λ r. record { id = r.id; refcount = r.refcount; size = r.size } };
}

/// A slot of the cache disk, which holds `len` bytes of a version of a block that is not uploaded yet.
#[derive(Clone, Copy, Debug, PartialEq, Eq)]
pub struct SlotRow {
    pub slot: u32,
    pub inode: u64,
    pub blockno: u64,
    pub version: u64,
    pub len: u32,
}

impl Model for SlotRow {
    ghost use Rattle.s3_rows.specs.Rows.{Slot, IsSlot};

    ghost Value = { Slot };

    ghost view = { λ r. record { slot = r.slot; inode = r.inode; blockno = r.blockno; version = r.version; len = r.len } };

    ghost invariant = { λ r. IsSlot (record { slot = r.slot; inode = r.inode; blockno = r.blockno; version = r.version; len = r.len }) };

    ghost inverse = { λ r. record { slot = r.slot; inode = r.inode; blockno = r.blockno; version = r.version; len = r.len } };
}

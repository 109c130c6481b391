//! The key of each table's rows.
ghost use Rattle.std.specs.Prelude.{◌≡◌, IfOk};
ghost use Rattle.s3_rows.specs.Rows.{IsInode, IsName, IsContent, IsInodeBlock, IsBlock, IsObject, IsTarget, IsAttr, IsSlot};

use s3_rows::{
    AttrRow, BlockRow, ContentRow, InodeBlockRow, InodeRow, NameRow, ObjectRow, SlotRow, TargetRow,
};
use std::alloc::AllocError;

/// A row with a key.
pub(crate) trait Keyed: Drop {
    type Key: Ord + Copy + Drop;

    ghost key: { Self → Self.Key };

    // The fields keep their ranges.
    ghost fits: { Self → Type 0 };

    fn key(&self) -> Self::Key
        ensures key { result ≡ key self.now }
        ensures fits { fits self.now };

    fn copy(&self) -> Result<Self, AllocError>
        ensures { IfOk result (λ r. r ≡ self.now) };
}

impl Keyed for InodeRow {
    type Key = u64;

    ghost key = { λ r. r.id };

    ghost fits = { IsInode };

    fn key(&self) -> u64 {
        self.id
    }

    fn copy(&self) -> Result<Self, AllocError> {
        Ok(*self)
    }
}

impl Keyed for NameRow {
    type Key = u64;

    ghost key = { λ r. r.id };

    ghost fits = { IsName };

    fn key(&self) -> u64 {
        self.id
    }

    fn copy(&self) -> Result<Self, AllocError> {
        self.clone()
    }
}

impl Keyed for ContentRow {
    type Key = (u64, u64);

    ghost key = { λ r. (r.parent, r.name_id) };

    ghost fits = { IsContent };

    fn key(&self) -> (u64, u64) {
        (self.parent, self.name_id)
    }

    fn copy(&self) -> Result<Self, AllocError> {
        Ok(*self)
    }
}

impl Keyed for InodeBlockRow {
    type Key = (u64, u64);

    ghost key = { λ r. (r.inode, r.blockno) };

    ghost fits = { IsInodeBlock };

    fn key(&self) -> (u64, u64) {
        (self.inode, self.blockno)
    }

    fn copy(&self) -> Result<Self, AllocError> {
        Ok(*self)
    }
}

impl Keyed for BlockRow {
    type Key = u64;

    ghost key = { λ r. r.id };

    ghost fits = { IsBlock };

    fn key(&self) -> u64 {
        self.id
    }

    fn copy(&self) -> Result<Self, AllocError> {
        Ok(*self)
    }
}

impl Keyed for ObjectRow {
    type Key = u64;

    ghost key = { λ r. r.id };

    ghost fits = { IsObject };

    fn key(&self) -> u64 {
        self.id
    }

    fn copy(&self) -> Result<Self, AllocError> {
        Ok(*self)
    }
}

impl Keyed for TargetRow {
    type Key = u64;

    ghost key = { λ r. r.inode };

    ghost fits = { IsTarget };

    fn key(&self) -> u64 {
        self.inode
    }

    fn copy(&self) -> Result<Self, AllocError> {
        self.clone()
    }
}

impl Keyed for AttrRow {
    type Key = (u64, u64);

    ghost key = { λ r. (r.inode, r.name_id) };

    ghost fits = { IsAttr };

    fn key(&self) -> (u64, u64) {
        (self.inode, self.name_id)
    }

    fn copy(&self) -> Result<Self, AllocError> {
        self.clone()
    }
}

impl Keyed for SlotRow {
    type Key = u32;

    ghost key = { λ r. r.slot };

    ghost fits = { IsSlot };

    fn key(&self) -> u32 {
        self.slot
    }

    fn copy(&self) -> Result<Self, AllocError> {
        Ok(*self)
    }
}

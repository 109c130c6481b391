//! The rows of a file system that was just made.
ghost use Rattle.std.specs.Prelude.{◌≡◌, ◌<◌, ◌≤◌, ◌*◌, ◌^◌, IfOk};
ghost use Rattle.s3_rows.specs.Tables.{no_tables};
ghost use Rattle.s3_rows.specs.Batches.{tables_after};
ghost use Rattle.s3_rows.specs.Made.{made_tables, made_directory, made_parameters};

use crate::{Batch, Change, ContentRow, InodeRow, NameRow, Params, State};
use s3_base::{ByteList, Kind};
use std::alloc::{AllocError, Global};

/// A directory of the user and the group 0 that one entry names.
pub fn made_directory(id: u64, mode: u16, now: u64) -> InodeRow
    requires positive { 0 < id }
    requires below { id < 2 ^ 62 }
    requires mode { mode ≤ 4095 }
    requires time { now < 2 ^ 62 }
    ensures { result ≡ made_directory id mode now }
{
    InodeRow {
        id,
        kind: Kind::Directory,
        mode,
        uid: 0,
        gid: 0,
        mtime: now,
        ctime: now,
        refcount: 1,
        size: 0,
        locked: false,
    }
}

fn parameters(block_size: u32, slots: u32) -> Params
    requires least { 4096 ≤ block_size }
    requires greatest { block_size ≤ 10485760 }
    requires slots { slots ≤ 65536 }
    requires disk { slots * block_size ≤ 2 ^ 32 }
    ensures { result ≡ made_parameters block_size slots }
{
    Params {
        revision: 1,
        block_size,
        slots,
        state: State::Clean,
        next_inode: 3,
        next_name: 2,
        next_block: 1,
        next_object: 1,
        generation: 1,
        last_done: 1,
    }
}

/// The batch that makes a file system of empty tables: blocks of so many bytes, so many slots of the cache disk, at a time in
/// nanoseconds.
pub fn made_batch(alloc: Global, block_size: u32, slots: u32, now: u64) -> Result<Batch, AllocError>
    requires least { 4096 ≤ block_size }
    requires greatest { block_size ≤ 10485760 }
    requires slots { slots ≤ 65536 }
    requires disk { slots * block_size ≤ 2 ^ 32 }
    requires time { now < 2 ^ 62 }
    ensures { IfOk result (λ b. tables_after b no_tables ≡ made_tables block_size slots now) }
{
    let mut batch = Batch::new(alloc);
    batch.push(Change::PutInode(made_directory(1, 0o755, now)))?;
    batch.push(Change::PutInode(made_directory(2, 0o700, now)))?;
    batch.push(Change::PutName(NameRow {
        id: 1,
        refcount: 1,
        name: ByteList::from_slice(alloc, b"lost+found")?,
    }))?;
    batch.push(Change::PutContent(ContentRow {
        parent: 1,
        name_id: 1,
        inode: 2,
    }))?;
    batch.push(Change::SetParams(parameters(block_size, slots)))?;
    Ok(batch)
}

//! The fields of each table's rows, read and written in order.
ghost use Rattle.std.specs.Prelude.{◌≡◌, ◌++◌, OnOk};
ghost use Rattle.frame_fields.specs.Format.{Gives, ◌▸◌};
ghost use Rattle.frame_fields.specs.Fields.{u32_field, mode_field, node_kind_field, flag_field};
ghost use Rattle.frame_fields.specs.Unread.{rest_of};
ghost use Rattle.keeper_dump.specs.RowFields.{id_field, count_field, file_size_field, one_in_front, two_in_front, slot_in_front, inode_rows, name_rows, content_rows, inode_block_rows, block_rows, object_rows, target_rows, attr_rows, slot_rows};

use crate::table::TableRow;
use crate::{fields, put_fields};
use frame_fields::fields::{self as plain, Found, Unread};
use frame_fields::writers::{self, Put};
use s3_base::ByteList;
use s3_rows::{
    AttrRow, BlockRow, ContentRow, Digest, InodeBlockRow, InodeRow, NameRow, ObjectRow, RowKey,
    SlotRow, TargetRow,
};
use std::alloc::Global;

fn one_in_front(unread: Unread<'_>) -> Found<'_, RowKey>
    ensures { Gives (λ x. (x.0, rest_of x.1)) result (one_in_front (rest_of unread.entry)) }
{
    let (key, unread) = plain::u64_of(unread)?;
    Ok((RowKey::One(key), unread))
}

fn two_in_front(unread: Unread<'_>) -> Found<'_, RowKey>
    ensures { Gives (λ x. (x.0, rest_of x.1)) result (two_in_front (rest_of unread.entry)) }
{
    let (key, unread) = plain::u64_of(unread)?;
    let (next, unread) = plain::u64_of(unread)?;
    Ok((RowKey::Two(key, next), unread))
}

fn slot_in_front(unread: Unread<'_>) -> Found<'_, RowKey>
    ensures { Gives (λ x. (x.0, rest_of x.1)) result (slot_in_front (rest_of unread.entry)) }
{
    let (slot, unread) = plain::u32_of(unread)?;
    Ok((RowKey::One(slot as u64), unread))
}

/// The fields of an inode before its times.
fn put_inode_start(out: &mut ByteList, row: &InodeRow) -> Put
    ensures { OnOk result (out.new ≡ out.old ++ (id_field ▸ node_kind_field ▸ mode_field ▸ u32_field ▸ u32_field).spell (row.now.id, (row.now.kind, (row.now.mode, (row.now.uid, row.now.gid))))) }
{
    put_fields::put_id(out, row.id)?;
    writers::put_node_kind(out, row.kind)?;
    writers::put_mode(out, row.mode)?;
    writers::put_u32(out, row.uid)?;
    writers::put_u32(out, row.gid)
}

/// The fields of an inode from its times on.
fn put_inode_end(out: &mut ByteList, row: &InodeRow) -> Put
    ensures { OnOk result (out.new ≡ out.old ++ (count_field ▸ count_field ▸ count_field ▸ file_size_field ▸ flag_field).spell (row.now.mtime, (row.now.ctime, (row.now.refcount, (row.now.size, row.now.locked))))) }
{
    put_fields::put_count(out, row.mtime)?;
    put_fields::put_count(out, row.ctime)?;
    put_fields::put_count(out, row.refcount)?;
    put_fields::put_file_size(out, row.size)?;
    writers::put_flag(out, row.locked)
}

impl TableRow for InodeRow {
    ghost format = { inode_rows };

    fn key(&self) -> RowKey {
        RowKey::One(self.id)
    }

    fn front(unread: Unread<'_>) -> Found<'_, RowKey> {
        one_in_front(unread)
    }

    fn read(_alloc: Global, unread: Unread<'_>) -> Found<'_, Self> {
        let (id, unread) = fields::id_of(unread)?;
        let (kind, unread) = plain::node_kind_of(unread)?;
        let (mode, unread) = fields::mode_of(unread)?;
        let (uid, unread) = plain::u32_of(unread)?;
        let (gid, unread) = plain::u32_of(unread)?;
        let (mtime, unread) = fields::count_of(unread)?;
        let (ctime, unread) = fields::count_of(unread)?;
        let (refcount, unread) = fields::count_of(unread)?;
        let (size, unread) = fields::file_size_of(unread)?;
        let (locked, unread) = plain::flag_of(unread)?;
        let row = InodeRow {
            id,
            kind,
            mode,
            uid,
            gid,
            mtime,
            ctime,
            refcount,
            size,
            locked,
        };
        Ok((row, unread))
    }

    fn put(&self, out: &mut ByteList) -> Put {
        put_inode_start(out, self)?;
        put_inode_end(out, self)
    }
}

impl TableRow for NameRow {
    ghost format = { name_rows };

    fn key(&self) -> RowKey {
        RowKey::One(self.id)
    }

    fn front(unread: Unread<'_>) -> Found<'_, RowKey> {
        one_in_front(unread)
    }

    fn read(alloc: Global, unread: Unread<'_>) -> Found<'_, Self> {
        let (id, unread) = fields::id_of(unread)?;
        let (refcount, unread) = fields::count_of(unread)?;
        let (name, unread) = fields::text_of(alloc, 255, unread)?;
        let row = NameRow { id, refcount, name };
        Ok((row, unread))
    }

    fn put(&self, out: &mut ByteList) -> Put {
        put_fields::put_id(out, self.id)?;
        put_fields::put_count(out, self.refcount)?;
        put_fields::put_text(out, 255, &self.name)
    }
}

impl TableRow for ContentRow {
    ghost format = { content_rows };

    fn key(&self) -> RowKey {
        RowKey::Two(self.parent, self.name_id)
    }

    fn front(unread: Unread<'_>) -> Found<'_, RowKey> {
        two_in_front(unread)
    }

    fn read(_alloc: Global, unread: Unread<'_>) -> Found<'_, Self> {
        let (parent, unread) = fields::id_of(unread)?;
        let (name_id, unread) = fields::id_of(unread)?;
        let (inode, unread) = fields::id_of(unread)?;
        let row = ContentRow {
            parent,
            name_id,
            inode,
        };
        Ok((row, unread))
    }

    fn put(&self, out: &mut ByteList) -> Put {
        put_fields::put_id(out, self.parent)?;
        put_fields::put_id(out, self.name_id)?;
        put_fields::put_id(out, self.inode)
    }
}

impl TableRow for InodeBlockRow {
    ghost format = { inode_block_rows };

    fn key(&self) -> RowKey {
        RowKey::Two(self.inode, self.blockno)
    }

    fn front(unread: Unread<'_>) -> Found<'_, RowKey> {
        two_in_front(unread)
    }

    fn read(_alloc: Global, unread: Unread<'_>) -> Found<'_, Self> {
        let (inode, unread) = fields::id_of(unread)?;
        let (blockno, unread) = fields::blockno_of(unread)?;
        let (block, unread) = fields::id_of(unread)?;
        let row = InodeBlockRow {
            inode,
            blockno,
            block,
        };
        Ok((row, unread))
    }

    fn put(&self, out: &mut ByteList) -> Put {
        put_fields::put_id(out, self.inode)?;
        put_fields::put_blockno(out, self.blockno)?;
        put_fields::put_id(out, self.block)
    }
}

impl TableRow for BlockRow {
    ghost format = { block_rows };

    fn key(&self) -> RowKey {
        RowKey::One(self.id)
    }

    fn front(unread: Unread<'_>) -> Found<'_, RowKey> {
        one_in_front(unread)
    }

    fn read(_alloc: Global, unread: Unread<'_>) -> Found<'_, Self> {
        let (id, unread) = fields::id_of(unread)?;
        let (digest, unread) = plain::digest_of(unread)?;
        let (refcount, unread) = fields::count_of(unread)?;
        let (size, unread) = fields::block_size_of(unread)?;
        let (object, unread) = fields::id_of(unread)?;
        let row = BlockRow {
            id,
            digest: Digest(digest),
            refcount,
            size,
            object,
        };
        Ok((row, unread))
    }

    fn put(&self, out: &mut ByteList) -> Put {
        put_fields::put_id(out, self.id)?;
        writers::put_digest(out, &self.digest.0)?;
        put_fields::put_count(out, self.refcount)?;
        put_fields::put_block_size(out, self.size)?;
        put_fields::put_id(out, self.object)
    }
}

impl TableRow for ObjectRow {
    ghost format = { object_rows };

    fn key(&self) -> RowKey {
        RowKey::One(self.id)
    }

    fn front(unread: Unread<'_>) -> Found<'_, RowKey> {
        one_in_front(unread)
    }

    fn read(_alloc: Global, unread: Unread<'_>) -> Found<'_, Self> {
        let (id, unread) = fields::id_of(unread)?;
        let (refcount, unread) = fields::count_of(unread)?;
        let (size, unread) = fields::object_size_of(unread)?;
        let row = ObjectRow { id, refcount, size };
        Ok((row, unread))
    }

    fn put(&self, out: &mut ByteList) -> Put {
        put_fields::put_id(out, self.id)?;
        put_fields::put_count(out, self.refcount)?;
        put_fields::put_object_size(out, self.size)
    }
}

impl TableRow for TargetRow {
    ghost format = { target_rows };

    fn key(&self) -> RowKey {
        RowKey::One(self.inode)
    }

    fn front(unread: Unread<'_>) -> Found<'_, RowKey> {
        one_in_front(unread)
    }

    fn read(alloc: Global, unread: Unread<'_>) -> Found<'_, Self> {
        let (inode, unread) = fields::id_of(unread)?;
        let (target, unread) = fields::text_of(alloc, 4095, unread)?;
        let row = TargetRow { inode, target };
        Ok((row, unread))
    }

    fn put(&self, out: &mut ByteList) -> Put {
        put_fields::put_id(out, self.inode)?;
        put_fields::put_text(out, 4095, &self.target)
    }
}

impl TableRow for AttrRow {
    ghost format = { attr_rows };

    fn key(&self) -> RowKey {
        RowKey::Two(self.inode, self.name_id)
    }

    fn front(unread: Unread<'_>) -> Found<'_, RowKey> {
        two_in_front(unread)
    }

    fn read(alloc: Global, unread: Unread<'_>) -> Found<'_, Self> {
        let (inode, unread) = fields::id_of(unread)?;
        let (name_id, unread) = fields::id_of(unread)?;
        let (value, unread) = fields::value_of(alloc, unread)?;
        let row = AttrRow {
            inode,
            name_id,
            value,
        };
        Ok((row, unread))
    }

    fn put(&self, out: &mut ByteList) -> Put {
        put_fields::put_id(out, self.inode)?;
        put_fields::put_id(out, self.name_id)?;
        put_fields::put_value(out, &self.value)
    }
}

impl TableRow for SlotRow {
    ghost format = { slot_rows };

    fn key(&self) -> RowKey {
        RowKey::One(self.slot as u64)
    }

    fn front(unread: Unread<'_>) -> Found<'_, RowKey> {
        slot_in_front(unread)
    }

    fn read(_alloc: Global, unread: Unread<'_>) -> Found<'_, Self> {
        let (slot, unread) = fields::slot_number_of(unread)?;
        let (inode, unread) = fields::id_of(unread)?;
        let (blockno, unread) = fields::blockno_of(unread)?;
        let (version, unread) = fields::next_of(unread)?;
        let (len, unread) = fields::slot_length_of(unread)?;
        let row = SlotRow {
            slot,
            inode,
            blockno,
            version,
            len,
        };
        Ok((row, unread))
    }

    fn put(&self, out: &mut ByteList) -> Put {
        put_fields::put_slot_number(out, self.slot)?;
        put_fields::put_id(out, self.inode)?;
        put_fields::put_blockno(out, self.blockno)?;
        put_fields::put_next(out, self.version)?;
        put_fields::put_slot_length(out, self.len)
    }
}

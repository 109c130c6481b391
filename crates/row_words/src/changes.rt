//! Batches of changes, from words.

use crate::fields::Fields;
use case_words::{named, verb_of};
use s3_rows::{
    AttrRow, Batch, BlockRow, Change, ContentRow, InodeBlockRow, InodeRow, NameRow, ObjectRow,
    Params, SlotRow, TableName, TargetRow,
};
use std::alloc::{AllocError, Global};

/// The tables, by the word for one of their rows.
const TABLES: &[(&str, TableName)] = &[
    ("inode", TableName::Inodes),
    ("name", TableName::Names),
    ("content", TableName::Contents),
    ("inode_block", TableName::InodeBlocks),
    ("block", TableName::Blocks),
    ("object", TableName::Objects),
    ("target", TableName::Targets),
    ("attr", TableName::Attrs),
    ("slot", TableName::Slots),
];

fn inode_row(fields: &mut Fields) -> InodeRow {
    InodeRow {
        id: fields.id(0),
        kind: fields.kind(1),
        mode: fields.mode(2),
        uid: fields.middle(3),
        gid: fields.middle(4),
        mtime: fields.count(5),
        ctime: fields.count(6),
        refcount: fields.count(7),
        size: fields.file_size(8),
        locked: fields.word(9) == "locked",
    }
}

fn content_row(fields: &mut Fields) -> ContentRow {
    ContentRow {
        parent: fields.id(0),
        name_id: fields.id(1),
        inode: fields.id(2),
    }
}

fn inode_block_row(fields: &mut Fields) -> InodeBlockRow {
    InodeBlockRow {
        inode: fields.id(0),
        blockno: fields.block_number(1),
        block: fields.id(2),
    }
}

fn put_block(alloc: Global, fields: &mut Fields) -> Result<Option<Change>, AllocError> {
    let digest = fields.digest(alloc, 1)?;
    Ok(Some(Change::PutBlock(BlockRow {
        id: fields.id(0),
        digest,
        refcount: fields.count(2),
        size: fields.block_size(3),
        object: fields.id(4),
    })))
}

/// An object with its size.
fn object_row(fields: &mut Fields) -> ObjectRow {
    ObjectRow {
        id: fields.id(0),
        refcount: fields.count(1),
        size: Some(fields.block_size(2)),
    }
}

fn slot_row(fields: &mut Fields) -> SlotRow {
    SlotRow {
        slot: fields.up_to(0, 65_535),
        inode: fields.id(1),
        blockno: fields.block_number(2),
        version: fields.next_number(3),
        len: fields.up_to(4, 10_485_760),
    }
}

/// The parameters of a file system.
pub fn params_of(fields: &mut Fields) -> Option<Params> {
    let (block_size, slots) = (fields.up_to(1, 10_485_760), fields.up_to(2, 65_536));
    let (generation, last_done) = (fields.count(8), fields.count(9));
    if fields.number(0) != 1 || block_size < 4096 || last_done > generation {
        return None;
    }
    if slots as u64 * block_size as u64 > 1 << 32 {
        return None;
    }
    Some(Params {
        revision: 1,
        block_size,
        slots,
        state: fields.state(3),
        next_inode: fields.next_number(4),
        next_name: fields.next_number(5),
        next_block: fields.next_number(6),
        next_object: fields.next_number(7),
        generation,
        last_done,
    })
}

/// A name with its id and its count.
pub fn name_row(alloc: Global, fields: &mut Fields) -> Result<Option<NameRow>, AllocError> {
    let (id, refcount) = (fields.id(0), fields.count(1));
    match fields.text(alloc, 2, 255)? {
        Some(name) => Ok(Some(NameRow { id, refcount, name })),
        None => Ok(None),
    }
}

fn put_name(alloc: Global, fields: &mut Fields) -> Result<Option<Change>, AllocError> {
    match name_row(alloc, fields)? {
        Some(row) => Ok(Some(Change::PutName(row))),
        None => Ok(None),
    }
}

fn put_target(alloc: Global, fields: &mut Fields) -> Result<Option<Change>, AllocError> {
    let inode = fields.id(0);
    match fields.text(alloc, 1, 4095)? {
        Some(target) => Ok(Some(Change::PutTarget(TargetRow { inode, target }))),
        None => Ok(None),
    }
}

fn put_attr(alloc: Global, fields: &mut Fields) -> Result<Option<Change>, AllocError> {
    let (inode, name_id) = (fields.id(0), fields.id(1));
    match fields.value(alloc, 2)? {
        Some(value) => Ok(Some(Change::PutAttr(AttrRow {
            inode,
            name_id,
            value,
        }))),
        None => Ok(None),
    }
}

/// A row that is put.
fn put(alloc: Global, table: TableName, fields: &mut Fields) -> Result<Option<Change>, AllocError> {
    match table {
        TableName::Inodes => Ok(Some(Change::PutInode(inode_row(fields)))),
        TableName::Names => put_name(alloc, fields),
        TableName::Contents => Ok(Some(Change::PutContent(content_row(fields)))),
        TableName::InodeBlocks => Ok(Some(Change::PutInodeBlock(inode_block_row(fields)))),
        TableName::Blocks => put_block(alloc, fields),
        TableName::Objects => Ok(Some(Change::PutObject(object_row(fields)))),
        TableName::Targets => put_target(alloc, fields),
        TableName::Attrs => put_attr(alloc, fields),
        TableName::Slots => Ok(Some(Change::PutSlot(slot_row(fields)))),
    }
}

/// A row that is deleted by its key.
fn delete(table: TableName, fields: &mut Fields) -> Change {
    match table {
        TableName::Inodes => Change::DeleteInode(fields.number(0)),
        TableName::Names => Change::DeleteName(fields.number(0)),
        TableName::Contents => Change::DeleteContent(fields.number(0), fields.number(1)),
        TableName::InodeBlocks => Change::DeleteInodeBlock(fields.number(0), fields.number(1)),
        TableName::Blocks => Change::DeleteBlock(fields.number(0)),
        TableName::Objects => Change::DeleteObject(fields.number(0)),
        TableName::Targets => Change::DeleteTarget(fields.number(0)),
        TableName::Attrs => Change::DeleteAttr(fields.number(0), fields.number(1)),
        TableName::Slots => Change::DeleteSlot(fields.middle(0)),
    }
}

/// What `put` does to the row of the fields.
fn put_named(alloc: Global, name: &str, fields: &mut Fields) -> Result<Option<Change>, AllocError> {
    if name == "params" {
        return Ok(params_of(fields).map(Change::SetParams));
    }
    match named(TABLES, name) {
        Some(table) => put(alloc, table, fields),
        None => Ok(None),
    }
}

/// What `delete` does to the row of the fields.
fn delete_named(name: &str, fields: &mut Fields) -> Option<Change> {
    Some(delete(named(TABLES, name)?, fields))
}

/// What a verb does to the row that the words behind it name.
fn row_change(alloc: Global, verb: &str, row: &str) -> Result<Option<Change>, AllocError> {
    let (name, rest) = verb_of(row);
    let mut fields = Fields::of(alloc, rest)?;
    let change = match verb {
        "put" => put_named(alloc, name, &mut fields)?,
        "delete" => delete_named(name, &mut fields),
        _ => None,
    };
    if fields.is_bad() {
        Ok(None)
    } else {
        Ok(change)
    }
}

fn change_of(alloc: Global, text: &str) -> Result<Option<Change>, AllocError> {
    let (verb, row) = verb_of(text);
    row_change(alloc, verb, row)
}

/// The batch of the changes that a text has, with commas between; `nothing` is a batch without changes.
pub fn batch_of(alloc: Global, text: &str) -> Result<Option<Batch>, AllocError> {
    let mut batch = Batch::new(alloc);
    if text == "nothing" {
        return Ok(Some(batch));
    }
    for part in text.split(',') {
        match change_of(alloc, part)? {
            Some(change) => batch.push(change)?,
            None => return Ok(None),
        }
    }
    Ok(Some(batch))
}

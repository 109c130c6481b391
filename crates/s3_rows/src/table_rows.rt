//! The tables by name, and rows of any of them.
use crate::{
    AttrRow, BlockRow, ContentRow, InodeBlockRow, InodeRow, NameRow, ObjectRow, SlotRow, TargetRow,
};
use s3_base::Sequence;

/// The nine tables, in the order in which a dump has them.
#[derive(Clone, Copy, Debug, PartialEq, Eq)]
pub enum TableName {
    Inodes,
    Names,
    Contents,
    InodeBlocks,
    Blocks,
    Objects,
    Targets,
    Attrs,
    Slots,
}

/// A row of any table.
#[derive(Clone, Debug, Drop)]
pub enum Row {
    Inode(InodeRow),
    Name(NameRow),
    Content(ContentRow),
    InodeBlock(InodeBlockRow),
    Block(BlockRow),
    Object(ObjectRow),
    Target(TargetRow),
    Attr(AttrRow),
    Slot(SlotRow),
}

/// Where a page of a table begins: at the table's start, or past a key of one part or of two.
#[derive(Clone, Copy, Debug, PartialEq, Eq)]
pub enum RowKey {
    Start,
    One(u64),
    Two(u64, u64),
}

pub type RowList = Sequence<Row>;

//! Rows with the bytes of their names, places in files, and the lists that look-ups give.
use crate::{AttrRow, ContentRow, InodeBlockRow, SlotRow};
use s3_base::{ByteList, Sequence};

/// A place in a file: its inode, and the number of the block counted from the file's start.
#[derive(Clone, Copy, Debug, PartialEq, Eq, PartialOrd, Ord)]
pub struct Spot {
    pub inode: u64,
    pub blockno: u64,
}

/// An entry of a directory, and the bytes of its name.
#[derive(Clone, Debug, Drop)]
pub struct NamedEntry {
    pub row: ContentRow,
    pub name: ByteList,
}

/// An attribute of an inode, and the bytes of its name.
#[derive(Clone, Debug, Drop)]
pub struct NamedAttr {
    pub row: AttrRow,
    pub name: ByteList,
}

pub type SpotList = Sequence<Spot>;

pub type EntryList = Sequence<NamedEntry>;

pub type NamedAttrList = Sequence<NamedAttr>;

pub type InodeBlockList = Sequence<InodeBlockRow>;

pub type SlotList = Sequence<SlotRow>;

//! The rows of each table, as a keeper gives them.
ghost use Rattle.std.specs.Prelude.{◌≡◌};
ghost use Rattle.keeper_dump.specs.Kept.{Kept, kept_inodes, kept_names, kept_contents, kept_inode_blocks, kept_blocks, kept_objects, kept_targets, kept_attrs, kept_slots};

use crate::table::TableRow;
use s3_rows::{
    AttrRow, BlockRow, ContentRow, InodeBlockRow, InodeRow, NameRow, ObjectRow, Row, SlotRow,
    TableName, TargetRow,
};

/// A row of one of the tables, as a keeper gives it.
pub trait KeptRow: TableRow {
    /// Its table.
    ghost kept: { Kept Self };

    fn table() -> TableName
        ensures { result ≡ kept.table };

    /// The row, if it is of this table.
    fn from_row(row: Row) -> Option<Self>
        ensures { result ≡ kept.unwrap row };
}

impl KeptRow for InodeRow {
    ghost kept = { kept_inodes };

    fn table() -> TableName {
        TableName::Inodes
    }

    fn from_row(row: Row) -> Option<Self> {
        match row {
            Row::Inode(row) => Some(row),
            _ => None,
        }
    }
}

impl KeptRow for NameRow {
    ghost kept = { kept_names };

    fn table() -> TableName {
        TableName::Names
    }

    fn from_row(row: Row) -> Option<Self> {
        match row {
            Row::Name(row) => Some(row),
            _ => None,
        }
    }
}

impl KeptRow for ContentRow {
    ghost kept = { kept_contents };

    fn table() -> TableName {
        TableName::Contents
    }

    fn from_row(row: Row) -> Option<Self> {
        match row {
            Row::Content(row) => Some(row),
            _ => None,
        }
    }
}

impl KeptRow for InodeBlockRow {
    ghost kept = { kept_inode_blocks };

    fn table() -> TableName {
        TableName::InodeBlocks
    }

    fn from_row(row: Row) -> Option<Self> {
        match row {
            Row::InodeBlock(row) => Some(row),
            _ => None,
        }
    }
}

impl KeptRow for BlockRow {
    ghost kept = { kept_blocks };

    fn table() -> TableName {
        TableName::Blocks
    }

    fn from_row(row: Row) -> Option<Self> {
        match row {
            Row::Block(row) => Some(row),
            _ => None,
        }
    }
}

impl KeptRow for ObjectRow {
    ghost kept = { kept_objects };

    fn table() -> TableName {
        TableName::Objects
    }

    fn from_row(row: Row) -> Option<Self> {
        match row {
            Row::Object(row) => Some(row),
            _ => None,
        }
    }
}

impl KeptRow for TargetRow {
    ghost kept = { kept_targets };

    fn table() -> TableName {
        TableName::Targets
    }

    fn from_row(row: Row) -> Option<Self> {
        match row {
            Row::Target(row) => Some(row),
            _ => None,
        }
    }
}

impl KeptRow for AttrRow {
    ghost kept = { kept_attrs };

    fn table() -> TableName {
        TableName::Attrs
    }

    fn from_row(row: Row) -> Option<Self> {
        match row {
            Row::Attr(row) => Some(row),
            _ => None,
        }
    }
}

impl KeptRow for SlotRow {
    ghost kept = { kept_slots };

    fn table() -> TableName {
        TableName::Slots
    }

    fn from_row(row: Row) -> Option<Self> {
        match row {
            Row::Slot(row) => Some(row),
            _ => None,
        }
    }
}

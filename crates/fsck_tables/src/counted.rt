//! For which numbers rows are counted.
ghost use Rattle.std.specs.Prelude.{◌==◌, ◌&&◌, not};
ghost use Rattle.fsck_tables.specs.Tally.{tally_at};

use crate::tally::{Counted, Tally};
use s3_rows::{AttrRow, BlockRow, ContentRow, InodeBlockRow};

/// The inode of an entry.
#[derive(Clone, Copy)]
pub(crate) struct EntryInode;

impl Counted<ContentRow> for EntryInode {
    ghost counts = { λ s id r. r.inode == id };

    fn number(&self, row: &ContentRow) -> Option<u64> {
        Some(row.inode)
    }
}

/// The name of an entry.
#[derive(Clone, Copy)]
pub(crate) struct EntryName;

impl Counted<ContentRow> for EntryName {
    ghost counts = { λ s id r. r.name_id == id };

    fn number(&self, row: &ContentRow) -> Option<u64> {
        Some(row.name_id)
    }
}

/// The name of an attribute.
#[derive(Clone, Copy)]
pub(crate) struct AttrName;

impl Counted<AttrRow> for AttrName {
    ghost counts = { λ s id r. r.name_id == id };

    fn number(&self, row: &AttrRow) -> Option<u64> {
        Some(row.name_id)
    }
}

/// The block at a place of a file.
#[derive(Clone, Copy)]
pub(crate) struct PlacedBlock;

impl Counted<InodeBlockRow> for PlacedBlock {
    ghost counts = { λ s id r. r.block == id };

    fn number(&self, row: &InodeBlockRow) -> Option<u64> {
        Some(row.block)
    }
}

/// The object of a block that some place has.
#[derive(Clone, Copy)]
pub(crate) struct KeptObject<'a> {
    pub(crate) places: &'a Tally,
}

impl Counted<BlockRow> for KeptObject<'_> {
    ghost counts = { λ s id r. r.object == id && not (tally_at s.places.now r.id == 0) };

    fn number(&self, row: &BlockRow) -> Option<u64> {
        if self.places.of(row.id) == 0 {
            return None;
        }
        Some(row.object)
    }
}

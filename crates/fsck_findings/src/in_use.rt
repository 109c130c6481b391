//! The numbers that rows have or name, and the least numbers that are free.
ghost use Rattle.std.specs.Prelude.{◌≡◌, ℕ, ◌≤◌, ◌<◌, ◌^◌, map, max};
ghost use Rattle.fsck_findings.specs.Work.{above, inodes_in_use, names_in_use, blocks_in_use};

use s3_rows::{
    AttrRow, BlockRow, ContentRow, InodeBlockRow, InodeRow, NameRow, SlotRow, Tables, TargetRow,
};

/// A column of numbers of a table.
trait Column<R> {
    /// The number of a row.
    ghost number: { R → ℕ };

    fn number(row: &R) -> u64
        ensures number { result ≡ number row.now }
        ensures small { result < 2 ^ 62 };
}

struct InodeIds;

impl Column<InodeRow> for InodeIds {
    ghost number = { λ r. r.id };

    fn number(row: &InodeRow) -> u64 {
        row.id
    }
}

struct Parents;

impl Column<ContentRow> for Parents {
    ghost number = { λ r. r.parent };

    fn number(row: &ContentRow) -> u64 {
        row.parent
    }
}

struct Named;

impl Column<ContentRow> for Named {
    ghost number = { λ r. r.inode };

    fn number(row: &ContentRow) -> u64 {
        row.inode
    }
}

struct PlacedInodes;

impl Column<InodeBlockRow> for PlacedInodes {
    ghost number = { λ r. r.inode };

    fn number(row: &InodeBlockRow) -> u64 {
        row.inode
    }
}

struct TargetInodes;

impl Column<TargetRow> for TargetInodes {
    ghost number = { λ r. r.inode };

    fn number(row: &TargetRow) -> u64 {
        row.inode
    }
}

struct AttrInodes;

impl Column<AttrRow> for AttrInodes {
    ghost number = { λ r. r.inode };

    fn number(row: &AttrRow) -> u64 {
        row.inode
    }
}

struct SlotInodes;

impl Column<SlotRow> for SlotInodes {
    ghost number = { λ r. r.inode };

    fn number(row: &SlotRow) -> u64 {
        row.inode
    }
}

struct NameIds;

impl Column<NameRow> for NameIds {
    ghost number = { λ r. r.id };

    fn number(row: &NameRow) -> u64 {
        row.id
    }
}

struct EntryNames;

impl Column<ContentRow> for EntryNames {
    ghost number = { λ r. r.name_id };

    fn number(row: &ContentRow) -> u64 {
        row.name_id
    }
}

struct AttrNames;

impl Column<AttrRow> for AttrNames {
    ghost number = { λ r. r.name_id };

    fn number(row: &AttrRow) -> u64 {
        row.name_id
    }
}

struct BlockIds;

impl Column<BlockRow> for BlockIds {
    ghost number = { λ r. r.id };

    fn number(row: &BlockRow) -> u64 {
        row.id
    }
}

struct PlacedBlocks;

impl Column<InodeBlockRow> for PlacedBlocks {
    ghost number = { λ r. r.block };

    fn number(row: &InodeBlockRow) -> u64 {
        row.block
    }
}

/// The least number that is above all of a column, and not below another.
fn above_rows<R, C: Column<R>>(rows: &[R], least: u64) -> u64
    requires positive { 0 < least }
    requires small { least ≤ 2 ^ 62 }
    ensures above { result ≡ max least (above (map C.number rows.now)) }
    ensures positive { 0 < result }
    ensures small { result ≤ 2 ^ 62 }
{
    let mut free = least;
    for row in rows {
        free = free.max(C::number(row) + 1);
    }
    free
}

/// The least number above all those of inodes that rows have or name.
pub fn free_inode(tables: &Tables) -> u64
    ensures above { result ≡ above (inodes_in_use tables.now) }
    ensures small { result ≤ 2 ^ 62 }
{
    let free = above_rows::<InodeRow, InodeIds>(tables.inodes.as_slice(), 1);
    let free = above_rows::<ContentRow, Parents>(tables.contents.as_slice(), free);
    let free = above_rows::<ContentRow, Named>(tables.contents.as_slice(), free);
    let free = above_rows::<InodeBlockRow, PlacedInodes>(tables.inode_blocks.as_slice(), free);
    let free = above_rows::<TargetRow, TargetInodes>(tables.targets.as_slice(), free);
    let free = above_rows::<AttrRow, AttrInodes>(tables.attrs.as_slice(), free);
    above_rows::<SlotRow, SlotInodes>(tables.slots.as_slice(), free)
}

/// The least number above all those of names that rows have or name.
pub fn free_name(tables: &Tables) -> u64
    ensures above { result ≡ above (names_in_use tables.now) }
    ensures small { result ≤ 2 ^ 62 }
{
    let free = above_rows::<NameRow, NameIds>(tables.names.as_slice(), 1);
    let free = above_rows::<ContentRow, EntryNames>(tables.contents.as_slice(), free);
    above_rows::<AttrRow, AttrNames>(tables.attrs.as_slice(), free)
}

/// The least number above all those of blocks that rows have or name.
pub fn free_block(tables: &Tables) -> u64
    ensures above { result ≡ above (blocks_in_use tables.now) }
    ensures small { result ≤ 2 ^ 62 }
{
    let free = above_rows::<BlockRow, BlockIds>(tables.blocks.as_slice(), 1);
    above_rows::<InodeBlockRow, PlacedBlocks>(tables.inode_blocks.as_slice(), free)
}

//! Numbers that the pass may give.
ghost use Rattle.std.specs.Prelude.{◌≡◌, ℕ, ◌<◌, ◌^◌, List, map, max, IfSome};
ghost use Rattle.s3_rows.specs.Tables.{Tables};
ghost use Rattle.fsck_names.specs.Numbers as numbers;

use s3_base::LIMIT;
use s3_rows::{AttrRow, ContentRow, InodeBlockRow, InodeRow, NameRow, SlotRow, Tables, TargetRow};

/// The least numbers above all that are in use as the pass begins.
#[derive(Clone, Copy, Debug, PartialEq, Eq)]
pub struct Free {
    pub inode: u64,
    pub name: u64,
}

/// A number that rows have or name.
trait Column<R> {
    ghost number: { R → ℕ };

    fn number(row: &R) -> u64
        ensures value { result ≡ number row.now }
        ensures below { result < 2 ^ 62 };
}

struct InodeId;

impl Column<InodeRow> for InodeId {
    ghost number = { λ r. r.id };

    fn number(row: &InodeRow) -> u64 {
        row.id
    }
}

struct EntryParent;

impl Column<ContentRow> for EntryParent {
    ghost number = { λ r. r.parent };

    fn number(row: &ContentRow) -> u64 {
        row.parent
    }
}

struct EntryInode;

impl Column<ContentRow> for EntryInode {
    ghost number = { λ r. r.inode };

    fn number(row: &ContentRow) -> u64 {
        row.inode
    }
}

struct BlockInode;

impl Column<InodeBlockRow> for BlockInode {
    ghost number = { λ r. r.inode };

    fn number(row: &InodeBlockRow) -> u64 {
        row.inode
    }
}

struct TargetInode;

impl Column<TargetRow> for TargetInode {
    ghost number = { λ r. r.inode };

    fn number(row: &TargetRow) -> u64 {
        row.inode
    }
}

struct AttrInode;

impl Column<AttrRow> for AttrInode {
    ghost number = { λ r. r.inode };

    fn number(row: &AttrRow) -> u64 {
        row.inode
    }
}

struct SlotInode;

impl Column<SlotRow> for SlotInode {
    ghost number = { λ r. r.inode };

    fn number(row: &SlotRow) -> u64 {
        row.inode
    }
}

struct NameId;

impl Column<NameRow> for NameId {
    ghost number = { λ r. r.id };

    fn number(row: &NameRow) -> u64 {
        row.id
    }
}

struct EntryName;

impl Column<ContentRow> for EntryName {
    ghost number = { λ r. r.name_id };

    fn number(row: &ContentRow) -> u64 {
        row.name_id
    }
}

struct AttrName;

impl Column<AttrRow> for AttrName {
    ghost number = { λ r. r.name_id };

    fn number(row: &AttrRow) -> u64 {
        row.name_id
    }
}

/// The greatest of a number and those of a column.
fn greatest_of<R, C: Column<R>>(rows: &[R], least: u64) -> u64
    requires { least < 2 ^ 62 }
    ensures value { result ≡ max least (numbers.greatest (map C.number rows.now)) }
    ensures below { result < 2 ^ 62 }
{
    let mut found = least;
    for row in rows {
        found = found.max(C::number(row));
    }
    found
}

/// The greatest inode in use.
fn greatest_inode(tables: &Tables) -> u64
    ensures value { result ≡ numbers.greatest (numbers.inodes_in_use tables.now) }
    ensures below { result < 2 ^ 62 }
{
    let slots = greatest_of::<SlotRow, SlotInode>(tables.slots.as_slice(), 1);
    let attrs = greatest_of::<AttrRow, AttrInode>(tables.attrs.as_slice(), slots);
    let targets = greatest_of::<TargetRow, TargetInode>(tables.targets.as_slice(), attrs);
    let blocks = greatest_of::<InodeBlockRow, BlockInode>(tables.inode_blocks.as_slice(), targets);
    let entries = greatest_of::<ContentRow, EntryInode>(tables.contents.as_slice(), blocks);
    let parents = greatest_of::<ContentRow, EntryParent>(tables.contents.as_slice(), entries);
    greatest_of::<InodeRow, InodeId>(tables.inodes.as_slice(), parents)
}

/// The greatest name in use.
fn greatest_name(tables: &Tables) -> u64
    ensures value { result ≡ numbers.greatest (numbers.names_in_use tables.now) }
    ensures below { result < 2 ^ 62 }
{
    let attrs = greatest_of::<AttrRow, AttrName>(tables.attrs.as_slice(), 0);
    let names = greatest_of::<NameRow, NameId>(tables.names.as_slice(), attrs);
    greatest_of::<ContentRow, EntryName>(tables.contents.as_slice(), names)
}

/// The least numbers above all in use.
pub(crate) fn above_all_in_use(tables: &Tables) -> Free
    ensures { result ≡ numbers.above_all_in_use tables.now }
{
    Free {
        inode: greatest_inode(tables) + 1,
        name: greatest_name(tables) + 1,
    }
}

/// The number that the next inode gets, if one is left.
pub(crate) fn next_inode(free: Free, tables: &Tables) -> Option<u64>
    ensures { result ≡ numbers.next_inode free tables.now }
{
    let number = tables.params.next_inode.max(free.inode);
    if number < LIMIT { Some(number) } else { None }
}

/// The number that the next name gets, if one is left.
pub(crate) fn next_name(free: Free, tables: &Tables) -> Option<u64>
    ensures { result ≡ numbers.next_name free tables.now }
{
    let number = tables.params.next_name.max(free.name);
    if number < LIMIT { Some(number) } else { None }
}

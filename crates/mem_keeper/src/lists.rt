//! Lists of rows, and look-ups by other columns than the key.
ghost use Rattle.std.specs.Prelude.{◌≡◌, ℕ, ◌&&◌, ◌==◌, nat_lt, List, All, IsTrue, IfOk};
ghost use Rattle.std.specs.List.{list_all};
ghost use Rattle.std.specs.BTreeMap.Range.{range_contains};
ghost use Rattle.s3_rows.specs.Rows.{IsInodeBlock, IsContent};
ghost use Rattle.s3_rows.specs.Ranges.{HasRanges};
ghost use Rattle.s3_rows.specs.Selections.{attrs_listed, by_attr_name, by_entry_name, entries_listed, free_objects_listed, inode_blocks_listed, slot_of_spot, slots_listed};
ghost use Rattle.s3_rows.specs.Told.{by_number, has_short_name, is_page, is_run_of, is_run_of_slots};
ghost use Rattle.mem_keeper.specs.Filed.{AreStanding};
ghost use Rattle.mem_keeper.specs.Store.{IsMaps, tables_in};

use crate::filing::build;
use crate::filings::Filings;
use crate::named::page_of;
use crate::store::Maps;
use crate::table::{Sought, rows_passing, rows_within};
use row_lists::{blocks_of_inode, free_objects_of, slot_of, slots_of};
use s3_base::{ByteList, NumberList};
use s3_rows::{
    AttrRow, ContentRow, EntryList, InodeBlockList, NamedAttr, NamedAttrList, NamedEntry,
    ObjectRow, SlotList, SlotRow,
};
use std::alloc::{AllocError, Global};
use std::ops::Bound;

/// The first `max` blocks of a file, from the one at `from` on.
pub(crate) fn blocks_in(
    alloc: Global,
    maps: &Maps,
    inode: u64,
    from: u64,
    max: u32,
) -> Result<InodeBlockList, AllocError>
    requires maps { IsMaps maps.now }
    requires ranges { HasRanges (tables_in maps.now) }
    ensures rows { IfOk result (λ l. l ≡ inode_blocks_listed (tables_in maps.now) inode from max) }
    ensures page { IfOk result (λ l. IsTrue (is_run_of inode from max l)) }
{
    let rows = rows_within(
        alloc,
        &maps.inode_blocks,
        Bound::Included((inode, from)),
        Bound::Included((inode, u64::MAX)),
        max as usize,
    )?;
    blocks_of_inode(alloc, &rows, inode, from, max)
}

/// The first `max` slots from the one at `from` on.
pub(crate) fn slots_in(
    alloc: Global,
    maps: &Maps,
    from: u32,
    max: u32,
) -> Result<SlotList, AllocError>
    requires { IsMaps maps.now }
    ensures rows { IfOk result (λ l. l ≡ slots_listed (tables_in maps.now) from max) }
    ensures page { IfOk result (λ l. IsTrue (is_run_of_slots from max l)) }
{
    let rows = rows_within(
        alloc,
        &maps.slots,
        Bound::Included(from),
        Bound::Unbounded,
        max as usize,
    )?;
    slots_of(alloc, &rows, from, max)
}

// Slots that hold the block at a place.
#[derive(Drop)]
struct HoldsSpot(u64, u64);

impl Sought<SlotRow> for HoldsSpot {
    ghost passes = { λ s r. r.inode == s.0 && r.blockno == s.1 };

    fn passes(&self, row: &SlotRow) -> bool {
        row.inode == self.0 && row.blockno == self.1
    }
}

// Objects that no block has.
#[derive(Drop)]
struct IsFree;

impl Sought<ObjectRow> for IsFree {
    ghost passes = { λ s r. r.refcount == 0 };

    fn passes(&self, row: &ObjectRow) -> bool {
        row.refcount == 0
    }
}

/// The first `max` entries of a directory whose names come after `after`, in the order of their names. It files the entries
/// where their filing does not stand.
pub(crate) fn entries_in(
    filings: &mut Filings,
    alloc: Global,
    maps: &Maps,
    parent: u64,
    after: &ByteList,
    max: u32,
) -> Result<EntryList, AllocError>
    requires maps { IsMaps maps.now }
    requires ranges { HasRanges (tables_in maps.now) }
    requires filed { AreStanding filings.old (tables_in maps.now) }
    ensures rows { IfOk result (λ l. l ≡ entries_listed (tables_in maps.now) parent after.now max) }
    ensures page { IfOk result (λ l. IsTrue (is_page by_entry_name after.now max l && list_all (λ e. has_short_name e.name) l)) }
    ensures filed { AreStanding filings.new (tables_in maps.now) }
{
    build(&mut filings.entries, alloc, &maps.contents, &maps.names)?;
    page_of::<ContentRow, NamedEntry>(
        alloc,
        &filings.entries,
        &maps.contents,
        &maps.names,
        parent,
        after,
        max,
    )
}

/// The first `max` attributes of an inode whose names come after `after`, in the order of their names. It files the
/// attributes where their filing does not stand.
pub(crate) fn attrs_in(
    filings: &mut Filings,
    alloc: Global,
    maps: &Maps,
    inode: u64,
    after: &ByteList,
    max: u32,
) -> Result<NamedAttrList, AllocError>
    requires maps { IsMaps maps.now }
    requires ranges { HasRanges (tables_in maps.now) }
    requires filed { AreStanding filings.old (tables_in maps.now) }
    ensures rows { IfOk result (λ l. l ≡ attrs_listed (tables_in maps.now) inode after.now max) }
    ensures page { IfOk result (λ l. IsTrue (is_page by_attr_name after.now max l && list_all (λ a. has_short_name a.name) l)) }
    ensures filed { AreStanding filings.new (tables_in maps.now) }
{
    build(&mut filings.attrs, alloc, &maps.attrs, &maps.names)?;
    page_of::<AttrRow, NamedAttr>(
        alloc,
        &filings.attrs,
        &maps.attrs,
        &maps.names,
        inode,
        after,
        max,
    )
}

/// The least slot that holds the block at this place.
pub(crate) fn slot_in(
    alloc: Global,
    maps: &Maps,
    inode: u64,
    blockno: u64,
) -> Result<Option<SlotRow>, AllocError>
    requires { IsMaps maps.now }
    ensures { IfOk result (λ r. r ≡ slot_of_spot (tables_in maps.now) inode blockno) }
{
    let rows = rows_passing(
        alloc,
        &maps.slots,
        Bound::Unbounded,
        Bound::Unbounded,
        &HoldsSpot(inode, blockno),
    )?;
    Ok(slot_of(&rows, inode, blockno))
}

/// The first `max` ids past `after` of objects that no block has.
pub(crate) fn free_objects_in(
    alloc: Global,
    maps: &Maps,
    after: u64,
    max: u32,
) -> Result<NumberList, AllocError>
    requires { IsMaps maps.now }
    ensures rows { IfOk result (λ l. l ≡ free_objects_listed (tables_in maps.now) after max) }
    ensures page { IfOk result (λ l. IsTrue (is_page by_number after max l)) }
{
    let rows = rows_passing(
        alloc,
        &maps.objects,
        Bound::Excluded(after),
        Bound::Unbounded,
        &IsFree,
    )?;
    free_objects_of(alloc, &rows, after, max)
}

//! Pages of any table.
ghost use Rattle.std.specs.Prelude.{◌≡◌, ℕ, ◌<◌, ◌^◌, IsTrue, IfOk};
ghost use Rattle.std.specs.Ordering.{nat_cmp};
ghost use Rattle.std.specs.BTreeMap.Range.{range_contains};
ghost use Rattle.std.specs.declared.ops.Bound.TheVariants.{Unbounded};
ghost use Rattle.s3_rows.specs.Keyed.{pair_cmp};
ghost use Rattle.s3_rows.specs.Selections.{page_of, fits_key, is_number_past, is_pair_past};
ghost use Rattle.s3_rows.specs.Ranges.{HasRanges};
ghost use Rattle.s3_rows.specs.Told.{is_page_of};
ghost use Rattle.mem_keeper.specs.Store.{IsMaps, tables_in};

use crate::store::Maps;
use crate::table::rows_within;
use row_lists::{
    page_of_attrs, page_of_blocks, page_of_contents, page_of_inode_blocks, page_of_inodes,
    page_of_names, page_of_objects, page_of_slots, page_of_targets,
};
use s3_rows::{RowKey, RowList, TableName};
use std::alloc::{AllocError, Global};
use std::ops::Bound;

// Where the rows past a key of two numbers begin.
fn past_pair(after: &RowKey) -> Bound<(u64, u64)>
    requires { IsTrue (fits_key TableName.Contents after.now) }
    ensures { (k : ℕ × ℕ) → range_contains pair_cmp result Unbounded k ≡ is_pair_past after.now k }
{
    match after {
        RowKey::Two(first, second) => Bound::Excluded((*first, *second)),
        _ => Bound::Unbounded,
    }
}

// Where the rows past a key of one number begin.
fn past_number(after: &RowKey) -> Bound<u64>
    requires { IsTrue (fits_key TableName.Inodes after.now) }
    ensures { (k : ℕ) → range_contains nat_cmp result Unbounded k ≡ is_number_past after.now k }
{
    match after {
        RowKey::One(number) => Bound::Excluded(*number),
        _ => Bound::Unbounded,
    }
}

// Where the slots past a key begin.
fn past_slot(after: &RowKey) -> Bound<u32>
    requires { IsTrue (fits_key TableName.Slots after.now) }
    ensures { (k : ℕ) → k < 2 ^ 32 → range_contains nat_cmp result Unbounded k ≡ is_number_past after.now k }
{
    match after {
        RowKey::One(number) => Bound::Excluded((*number).min(u32::MAX as u64) as u32),
        _ => Bound::Unbounded,
    }
}

/// The first `max` rows of a table past a key.
pub(crate) fn page_in(
    alloc: Global,
    maps: &Maps,
    table: TableName,
    after: &RowKey,
    max: u32,
) -> Result<RowList, AllocError>
    requires maps { IsMaps maps.now }
    requires ranges { HasRanges (tables_in maps.now) }
    requires fits { IsTrue (fits_key table after.now) }
    ensures rows { IfOk result (λ l. l ≡ page_of (tables_in maps.now) table after.now max) }
    ensures page { IfOk result (λ l. IsTrue (is_page_of table after.now max l)) }
{
    match table {
        TableName::Inodes => inodes_in(alloc, maps, after, max),
        TableName::Names => names_in(alloc, maps, after, max),
        TableName::Contents => contents_in(alloc, maps, after, max),
        TableName::InodeBlocks => inode_blocks_in(alloc, maps, after, max),
        TableName::Blocks => blocks_in(alloc, maps, after, max),
        TableName::Objects => objects_in(alloc, maps, after, max),
        TableName::Targets => targets_in(alloc, maps, after, max),
        TableName::Attrs => attrs_in(alloc, maps, after, max),
        TableName::Slots => slots_in(alloc, maps, after, max),
    }
}

fn inodes_in(alloc: Global, maps: &Maps, after: &RowKey, max: u32) -> Result<RowList, AllocError>
    requires maps { IsMaps maps.now }
    requires fits { IsTrue (fits_key TableName.Inodes after.now) }
    ensures rows { IfOk result (λ l. l ≡ page_of (tables_in maps.now) TableName.Inodes after.now max) }
    ensures page { IfOk result (λ l. IsTrue (is_page_of TableName.Inodes after.now max l)) }
{
    let rows = rows_within(
        alloc,
        &maps.inodes,
        past_number(after),
        Bound::Unbounded,
        max as usize,
    )?;
    page_of_inodes(alloc, &rows, after, max)
}

fn names_in(alloc: Global, maps: &Maps, after: &RowKey, max: u32) -> Result<RowList, AllocError>
    requires maps { IsMaps maps.now }
    requires fits { IsTrue (fits_key TableName.Names after.now) }
    ensures rows { IfOk result (λ l. l ≡ page_of (tables_in maps.now) TableName.Names after.now max) }
    ensures page { IfOk result (λ l. IsTrue (is_page_of TableName.Names after.now max l)) }
{
    let rows = rows_within(
        alloc,
        &maps.names.map,
        past_number(after),
        Bound::Unbounded,
        max as usize,
    )?;
    page_of_names(alloc, &rows, after, max)
}

fn contents_in(alloc: Global, maps: &Maps, after: &RowKey, max: u32) -> Result<RowList, AllocError>
    requires maps { IsMaps maps.now }
    requires fits { IsTrue (fits_key TableName.Contents after.now) }
    ensures rows { IfOk result (λ l. l ≡ page_of (tables_in maps.now) TableName.Contents after.now max) }
    ensures page { IfOk result (λ l. IsTrue (is_page_of TableName.Contents after.now max l)) }
{
    let rows = rows_within(
        alloc,
        &maps.contents,
        past_pair(after),
        Bound::Unbounded,
        max as usize,
    )?;
    page_of_contents(alloc, &rows, after, max)
}

fn inode_blocks_in(
    alloc: Global,
    maps: &Maps,
    after: &RowKey,
    max: u32,
) -> Result<RowList, AllocError>
    requires maps { IsMaps maps.now }
    requires fits { IsTrue (fits_key TableName.InodeBlocks after.now) }
    ensures rows { IfOk result (λ l. l ≡ page_of (tables_in maps.now) TableName.InodeBlocks after.now max) }
    ensures page { IfOk result (λ l. IsTrue (is_page_of TableName.InodeBlocks after.now max l)) }
{
    let rows = rows_within(
        alloc,
        &maps.inode_blocks,
        past_pair(after),
        Bound::Unbounded,
        max as usize,
    )?;
    page_of_inode_blocks(alloc, &rows, after, max)
}

fn blocks_in(alloc: Global, maps: &Maps, after: &RowKey, max: u32) -> Result<RowList, AllocError>
    requires maps { IsMaps maps.now }
    requires fits { IsTrue (fits_key TableName.Blocks after.now) }
    ensures rows { IfOk result (λ l. l ≡ page_of (tables_in maps.now) TableName.Blocks after.now max) }
    ensures page { IfOk result (λ l. IsTrue (is_page_of TableName.Blocks after.now max l)) }
{
    let rows = rows_within(
        alloc,
        &maps.blocks,
        past_number(after),
        Bound::Unbounded,
        max as usize,
    )?;
    page_of_blocks(alloc, &rows, after, max)
}

fn objects_in(alloc: Global, maps: &Maps, after: &RowKey, max: u32) -> Result<RowList, AllocError>
    requires maps { IsMaps maps.now }
    requires fits { IsTrue (fits_key TableName.Objects after.now) }
    ensures rows { IfOk result (λ l. l ≡ page_of (tables_in maps.now) TableName.Objects after.now max) }
    ensures page { IfOk result (λ l. IsTrue (is_page_of TableName.Objects after.now max l)) }
{
    let rows = rows_within(
        alloc,
        &maps.objects,
        past_number(after),
        Bound::Unbounded,
        max as usize,
    )?;
    page_of_objects(alloc, &rows, after, max)
}

fn targets_in(alloc: Global, maps: &Maps, after: &RowKey, max: u32) -> Result<RowList, AllocError>
    requires maps { IsMaps maps.now }
    requires fits { IsTrue (fits_key TableName.Targets after.now) }
    ensures rows { IfOk result (λ l. l ≡ page_of (tables_in maps.now) TableName.Targets after.now max) }
    ensures page { IfOk result (λ l. IsTrue (is_page_of TableName.Targets after.now max l)) }
{
    let rows = rows_within(
        alloc,
        &maps.targets,
        past_number(after),
        Bound::Unbounded,
        max as usize,
    )?;
    page_of_targets(alloc, &rows, after, max)
}

fn attrs_in(alloc: Global, maps: &Maps, after: &RowKey, max: u32) -> Result<RowList, AllocError>
    requires maps { IsMaps maps.now }
    requires fits { IsTrue (fits_key TableName.Attrs after.now) }
    ensures rows { IfOk result (λ l. l ≡ page_of (tables_in maps.now) TableName.Attrs after.now max) }
    ensures page { IfOk result (λ l. IsTrue (is_page_of TableName.Attrs after.now max l)) }
{
    let rows = rows_within(
        alloc,
        &maps.attrs,
        past_pair(after),
        Bound::Unbounded,
        max as usize,
    )?;
    page_of_attrs(alloc, &rows, after, max)
}

fn slots_in(alloc: Global, maps: &Maps, after: &RowKey, max: u32) -> Result<RowList, AllocError>
    requires maps { IsMaps maps.now }
    requires ranges { HasRanges (tables_in maps.now) }
    requires fits { IsTrue (fits_key TableName.Slots after.now) }
    ensures rows { IfOk result (λ l. l ≡ page_of (tables_in maps.now) TableName.Slots after.now max) }
    ensures page { IfOk result (λ l. IsTrue (is_page_of TableName.Slots after.now max l)) }
{
    let rows = rows_within(
        alloc,
        &maps.slots,
        past_slot(after),
        Bound::Unbounded,
        max as usize,
    )?;
    page_of_slots(alloc, &rows, after, max)
}

//! The indexes of names and blocks, and how a batch keeps them.
ghost use Rattle.std.specs.Prelude.{◌≡◌, ℕ, List, IfSome, false, option_map, IsTrue, IfOk, OnOk, All};
ghost use Rattle.std.specs.Ordering.{nat_cmp};
ghost use Rattle.s3_rows.specs.Tables.{by_name, by_block};
ghost use Rattle.s3_rows.specs.Selections.{name_of_bytes, block_of_digest, holder_of};
ghost use Rattle.s3_rows.specs.Ranges.{HasRanges};
ghost use Rattle.mem_keeper.specs.Index.{Covers, IsListed};
ghost use Rattle.mem_keeper.specs.Indexes.{Stand, IsListedChange, StayListed};
ghost use Rattle.mem_keeper.specs.Store.{IsMaps, tables_in};
ghost use Rattle.mem_keeper.specs.Table.{rows_of, IsTable};

use crate::holders::{add_holder, list_holders, rows_naming, unlist_holders};
use crate::index::Index;
use crate::look_ups::{Indexed, block_of_digest_of, has_bytes, name_id_of};
use crate::store::{Gone, Maps};
use row_lists::holder_of_inode;
use s3_rows::{BlockRow, Change, ContentRow, Digest};
use std::alloc::{AllocError, Global};
use std::collections::BTreeMap;
use std::ops::Bound;

/// Indexes of the names by their bytes, of the blocks by their digests and of the entries by the inodes that they name. They may not stand yet.
#[derive(Debug, Drop)]
pub(crate) struct Indexes {
    pub names: Index,
    pub blocks: Index,
    pub holders: BTreeMap<(u64, (u64, u64)), ()>,
    pub stand: bool,
}

impl Indexes {
    /// Indexes that do not stand yet, which take no memory.
    pub(crate) fn new(alloc: Global) -> Self
        ensures { result.stand ≡ false }
    {
        Indexes {
            names: Index::new(alloc),
            blocks: Index::new(alloc),
            holders: BTreeMap::new(alloc),
            stand: false,
        }
    }
}

// Lists a row that is there.
fn list_held<R: Indexed>(
    index: &mut Index,
    alloc: Global,
    held: &Option<R>,
) -> Result<(), AllocError>
    ensures kept { (q : List ℕ) (n : ℕ) → IsListed index.old q n → IsListed index.new q n }
    ensures listed { OnOk result (IfSome held.now (λ r. IsListed index.new (R.bytes r) (R.key r))) }
{
    if let Some(row) = held {
        index.add(alloc, row.bytes(), row.key())?;
    }
    Ok(())
}

// Lists all rows of a table.
fn list_rows<R: Indexed>(
    index: &mut Index,
    alloc: Global,
    table: &BTreeMap<u64, Option<R>>,
) -> Result<(), AllocError>
    ensures { OnOk result (Covers (record { compare = nat_cmp; key = R.key }) R.bytes index.new (rows_of table.now.entries)) }
{
    let mut entries = table.range((Bound::<u64>::Unbounded, Bound::<u64>::Unbounded));
    while let Some((_, held)) = entries.next() {
        list_held(index, alloc, held)?;
    }
    Ok(())
}

/// Builds the indexes where they do not stand.
pub(crate) fn build(indexes: &mut Indexes, alloc: Global, maps: &Maps) -> Result<(), AllocError>
    requires maps { IsMaps maps.now }
    requires standing { IsTrue indexes.old.stand → Stand indexes.old (tables_in maps.now) }
    ensures ok { OnOk result (IsTrue indexes.new.stand) }
    ensures standing { IsTrue indexes.new.stand → Stand indexes.new (tables_in maps.now) }
{
    if indexes.stand {
        return Ok(());
    }
    list_rows(&mut indexes.names, alloc, &maps.names.map)?;
    list_rows(&mut indexes.blocks, alloc, &maps.blocks)?;
    list_holders(&mut indexes.holders, &maps.contents)?;
    indexes.stand = true;
    Ok(())
}

/// The least id of a name with these bytes. It builds the indexes where they do not stand.
pub(crate) fn name_id_in(
    indexes: &mut Indexes,
    alloc: Global,
    maps: &Maps,
    name: &[u8],
) -> Result<Option<u64>, AllocError>
    requires maps { IsMaps maps.now }
    requires standing { IsTrue indexes.old.stand → Stand indexes.old (tables_in maps.now) }
    ensures row { IfOk result (λ r. r ≡ option_map (λ n. n.id) (name_of_bytes (tables_in maps.now) name.now)) }
    ensures standing { IsTrue indexes.new.stand → Stand indexes.new (tables_in maps.now) }
{
    build(indexes, alloc, maps)?;
    Ok(name_id_of(&indexes.names, &maps.names, name))
}

/// The block of the least id with this digest. It builds the indexes where they do not stand.
pub(crate) fn block_of_digest_in(
    indexes: &mut Indexes,
    alloc: Global,
    maps: &Maps,
    digest: &Digest,
) -> Result<Option<BlockRow>, AllocError>
    requires maps { IsMaps maps.now }
    requires standing { IsTrue indexes.old.stand → Stand indexes.old (tables_in maps.now) }
    ensures row { IfOk result (λ r. r ≡ block_of_digest (tables_in maps.now) digest.now) }
    ensures standing { IsTrue indexes.new.stand → Stand indexes.new (tables_in maps.now) }
{
    build(indexes, alloc, maps)?;
    Ok(block_of_digest_of(&indexes.blocks, &maps.blocks, digest))
}

/// An entry that names the inode: the least by its parent and by the bytes of its name. It builds the indexes where they do
/// not stand.
pub(crate) fn holder_in(
    indexes: &mut Indexes,
    alloc: Global,
    maps: &Maps,
    inode: u64,
) -> Result<Option<ContentRow>, AllocError>
    requires maps { IsMaps maps.now }
    requires ranges { HasRanges (tables_in maps.now) }
    requires standing { IsTrue indexes.old.stand → Stand indexes.old (tables_in maps.now) }
    ensures row { IfOk result (λ r. r ≡ holder_of (tables_in maps.now) inode) }
    ensures standing { IsTrue indexes.new.stand → Stand indexes.new (tables_in maps.now) }
{
    build(indexes, alloc, maps)?;
    let rows = rows_naming(alloc, &indexes.holders, &maps.contents, inode)?;
    Ok(holder_of_inode(&rows, &maps.names, inode))
}

// Lists the row that a change puts.
fn list_change(indexes: &mut Indexes, alloc: Global, change: &Change) -> Result<(), AllocError>
    ensures ok { OnOk result (IsListedChange indexes.new change.now) }
    ensures kept { StayListed indexes.old indexes.new }
    ensures same { indexes.new.stand ≡ indexes.old.stand }
{
    match change {
        Change::PutName(row) => indexes.names.add(alloc, row.bytes(), row.id),
        Change::PutBlock(row) => indexes.blocks.add(alloc, row.bytes(), row.id),
        Change::PutContent(row) => add_holder(&mut indexes.holders, row),
        _ => Ok(()),
    }
}

/// Lists the rows that the changes put.
pub(crate) fn list_changes(
    indexes: &mut Indexes,
    alloc: Global,
    changes: &[Change],
) -> Result<(), AllocError>
    ensures ok { OnOk result (All (IsListedChange indexes.new) changes.now) }
    ensures kept { StayListed indexes.old indexes.new }
    ensures same { indexes.new.stand ≡ indexes.old.stand }
{
    for change in changes {
        list_change(indexes, alloc, change)?;
    }
    Ok(())
}

// Takes the id of a row that is gone from under its bytes, but not where a row of the id has these bytes now.
fn unlist<R: Indexed>(index: &mut Index, table: &BTreeMap<u64, Option<R>>, gone: &R)
    requires table { IsTable (record { compare = nat_cmp; key = R.key }) table.now.entries }
    requires covers { Covers (record { compare = nat_cmp; key = R.key }) R.bytes index.old (rows_of table.now.entries) }
    ensures { Covers (record { compare = nat_cmp; key = R.key }) R.bytes index.new (rows_of table.now.entries) }
{
    if !has_bytes(table, gone.key(), gone.bytes()) {
        index.remove(gone.bytes(), gone.key());
    }
}

fn unlist_all<R: Indexed>(index: &mut Index, table: &BTreeMap<u64, Option<R>>, gone: &[R])
    requires table { IsTable (record { compare = nat_cmp; key = R.key }) table.now.entries }
    requires covers { Covers (record { compare = nat_cmp; key = R.key }) R.bytes index.old (rows_of table.now.entries) }
    ensures { Covers (record { compare = nat_cmp; key = R.key }) R.bytes index.new (rows_of table.now.entries) }
{
    for row in gone {
        unlist(index, table, row);
    }
}

/// Takes out what is listed of rows that are gone.
pub(crate) fn tidy(indexes: &mut Indexes, maps: &Maps, gone: &Gone)
    requires maps { IsMaps maps.now }
    requires standing { Stand indexes.old (tables_in maps.now) }
    ensures standing { Stand indexes.new (tables_in maps.now) }
    ensures same { indexes.new.stand ≡ indexes.old.stand }
{
    unlist_all(&mut indexes.names, &maps.names.map, &gone.names);
    unlist_all(&mut indexes.blocks, &maps.blocks, &gone.blocks);
    unlist_holders(&mut indexes.holders, &maps.contents, &gone.contents);
}

//! Look-ups of rows by their bytes.
ghost use Rattle.std.specs.Prelude.{◌≡◌, ℕ, List, ◌≤◌, IsTrue, IfOk, Option, Some, None, option_map, find, min};
ghost use Rattle.std.specs.Ordering.{nat_cmp, is_eq};
ghost use Rattle.std.specs.Cmp.Lexicographic.{slice_cmp};
ghost use Rattle.s3_rows.specs.Keyed.{row_at};
ghost use Rattle.s3_rows.specs.Tables.{by_name, by_block};
ghost use Rattle.s3_rows.specs.Selections.{entry_at, inode_block_at, attr_at};
ghost use Rattle.mem_keeper.specs.Store.{IsMaps, tables_in};
ghost use Rattle.mem_keeper.specs.Table.{rows_of, IsTable};
ghost use Rattle.mem_keeper.specs.Indexes.{bytes_of_name, bytes_of_block};
ghost use Rattle.mem_keeper.specs.Index.{Covers, has_id, has_bytes, row_has_bytes, IsLeast};

use crate::index::Index;
use crate::keyed::Keyed;
use crate::store::{Maps, NameMap};
use crate::table::row_in;
use row_lists::NameTable;
use s3_rows::{AttrRow, BlockRow, ContentRow, Digest, InodeBlockRow, NameRow};
use std::alloc::AllocError;
use std::collections::BTreeMap;

/// A row that is looked up by bytes too.
pub(crate) trait Indexed: Keyed<Key = u64> {
    ghost bytes: { Self → List ℕ };

    fn bytes(&self) -> &[u8]
        ensures { result.now ≡ bytes self.now };
}

impl Indexed for NameRow {
    ghost bytes = { λ r. r.name };

    fn bytes(&self) -> &[u8] {
        self.name.as_slice()
    }
}

impl Indexed for BlockRow {
    ghost bytes = { λ r. r.digest.0 };

    fn bytes(&self) -> &[u8] {
        &self.digest.0
    }
}

/// Whether bytes are the same.
pub(crate) fn same_bytes(left: &[u8], right: &[u8]) -> bool
    ensures { result ≡ is_eq (slice_cmp nat_cmp left.now right.now) }
{
    left == right
}

/// Whether the row of the id has the bytes.
pub(crate) fn has_bytes<R: Indexed>(table: &BTreeMap<u64, Option<R>>, id: u64, bytes: &[u8]) -> bool
    requires { IsTable (record { compare = nat_cmp; key = R.key }) table.now.entries }
    ensures { result ≡ row_has_bytes (record { compare = nat_cmp; key = R.key }) R.bytes (rows_of table.now.entries) bytes.now id }
{
    match row_in(table, id) {
        Some(row) => same_bytes(row.bytes(), bytes),
        None => false,
    }
}

// The least of the ids whose row has the bytes.
fn least_id<R: Indexed>(table: &BTreeMap<u64, Option<R>>, ids: &[u64], bytes: &[u8]) -> Option<u64>
    requires { IsTable (record { compare = nat_cmp; key = R.key }) table.now.entries }
    ensures { IsLeast (row_has_bytes (record { compare = nat_cmp; key = R.key }) R.bytes (rows_of table.now.entries) bytes.now) ids.now result }
{
    let mut least = None;
    for id in ids {
        let id = *id;
        if has_bytes(table, id, bytes) {
            least = lesser(least, id);
        }
    }
    least
}

fn lesser(least: Option<u64>, id: u64) -> Option<u64>
    ensures { result ≡ Some (elim least [ None ↦ id | Some n ↦ min n id ]) }
{
    match least {
        Some(other) => Some(other.min(id)),
        None => Some(id),
    }
}

/// The row of the least id that has the bytes.
pub(crate) fn row_of_bytes<'a, R: Indexed>(
    index: &Index,
    table: &'a BTreeMap<u64, Option<R>>,
    bytes: &[u8],
) -> Option<&'a R>
    requires table { IsTable (record { compare = nat_cmp; key = R.key }) table.now.entries }
    requires covers { Covers (record { compare = nat_cmp; key = R.key }) R.bytes index.now (rows_of table.now.entries) }
    ensures { option_map (λ r. r.now) result ≡ find (has_bytes R.bytes bytes.now) (rows_of table.now.entries) }
{
    match least_id(table, index.ids(bytes), bytes) {
        Some(id) => row_in(table, id),
        None => None,
    }
}

/// A copy of the row of a key.
pub(crate) fn copy_of_row<R: Keyed>(
    table: &BTreeMap<R::Key, Option<R>>,
    key: R::Key,
) -> Result<Option<R>, AllocError>
    requires { IsTable (record { compare = R.Key.cmp; key = R.key }) table.now.entries }
    ensures { IfOk result (λ r. r ≡ row_at (record { compare = R.Key.cmp; key = R.key }) key (rows_of table.now.entries)) }
{
    match row_in(table, key) {
        Some(row) => Ok(Some(row.copy()?)),
        None => Ok(None),
    }
}

/// The entry of a directory with this name.
pub(crate) fn entry_in(
    maps: &Maps,
    parent: u64,
    name_id: u64,
) -> Result<Option<ContentRow>, AllocError>
    requires { IsMaps maps.now }
    ensures { IfOk result (λ r. r ≡ entry_at (tables_in maps.now) parent name_id) }
{
    copy_of_row(&maps.contents, (parent, name_id))
}

/// The block at a place of a file.
pub(crate) fn spot_in(
    maps: &Maps,
    inode: u64,
    blockno: u64,
) -> Result<Option<InodeBlockRow>, AllocError>
    requires { IsMaps maps.now }
    ensures { IfOk result (λ r. r ≡ inode_block_at (tables_in maps.now) inode blockno) }
{
    copy_of_row(&maps.inode_blocks, (inode, blockno))
}

/// The attribute of an inode with this name.
pub(crate) fn attr_in(maps: &Maps, inode: u64, name_id: u64) -> Result<Option<AttrRow>, AllocError>
    requires { IsMaps maps.now }
    ensures { IfOk result (λ r. r ≡ attr_at (tables_in maps.now) inode name_id) }
{
    copy_of_row(&maps.attrs, (inode, name_id))
}

impl NameTable for NameMap {
    ghost rows = { λ n. rows_of n.map.entries };

    ghost stands = { λ n. IsTable by_name n.map.entries };

    fn name_row(&self, id: u64) -> Option<&NameRow> {
        match row_in(&self.map, id) {
            Some(row) => {
                let _name = &row.name;
                Some(row)
            }
            None => None,
        }
    }
}

/// The least id of a name with these bytes.
pub(crate) fn name_id_of(index: &Index, names: &NameMap, name: &[u8]) -> Option<u64>
    requires table { IsTable by_name names.now.map.entries }
    requires covers { Covers by_name bytes_of_name index.now (rows_of names.now.map.entries) }
    ensures { result ≡ option_map (λ r. r.id) (find (has_bytes bytes_of_name name.now) (rows_of names.now.map.entries)) }
{
    row_of_bytes(index, &names.map, name).map(|row| row.id)
}

/// The block of the least id with this digest.
pub(crate) fn block_of_digest_of(
    index: &Index,
    blocks: &BTreeMap<u64, Option<BlockRow>>,
    digest: &Digest,
) -> Option<BlockRow>
    requires table { IsTable by_block blocks.now.entries }
    requires covers { Covers by_block bytes_of_block index.now (rows_of blocks.now.entries) }
    ensures { result ≡ find (has_bytes bytes_of_block digest.now.0) (rows_of blocks.now.entries) }
{
    row_of_bytes(index, blocks, &digest.0).copied()
}

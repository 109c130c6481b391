//! The rows of tables by their keys, each found by halves.
ghost use Rattle.std.specs.Prelude.{◌≡◌, Option};
ghost use Rattle.std.specs.Option.{option_copied};
ghost use Rattle.std.specs.Ordering.{is_eq};
ghost use Rattle.s3_rows.specs.Selections.{block_at, inode_at, name_at, bytes_cmp, bytes_of_name, target_at};
ghost use Rattle.s3_rows.specs.Validity.{finds_target, has_inode, is_directory};

use s3_base::Kind;
use s3_rows::{BlockRow, InodeRow, NameRow, Tables, TargetRow};

pub(crate) fn inode_row(tables: &Tables, id: u64) -> Option<&InodeRow>
    ensures { option_copied result ≡ inode_at tables.now id }
{
    let rows = tables.inodes.as_slice();
    match rows.binary_search_by_key(&id, |row| row.id) {
        Ok(place) => Some(&rows[place]),
        Err(_) => None,
    }
}

pub(crate) fn name_row(tables: &Tables, id: u64) -> Option<&NameRow>
    ensures { option_copied result ≡ name_at tables.now id }
{
    let rows = tables.names.as_slice();
    match rows.binary_search_by_key(&id, |row| row.id) {
        Ok(place) => Some(&rows[place]),
        Err(_) => None,
    }
}

pub(crate) fn block_row(tables: &Tables, id: u64) -> Option<&BlockRow>
    ensures { option_copied result ≡ block_at tables.now id }
{
    let rows = tables.blocks.as_slice();
    match rows.binary_search_by_key(&id, |row| row.id) {
        Ok(place) => Some(&rows[place]),
        Err(_) => None,
    }
}

/// The bytes of a name, none where it has no row.
pub(crate) fn bytes_of(tables: &Tables, name_id: u64) -> &[u8]
    ensures { result.now ≡ bytes_of_name tables.now name_id }
{
    match name_row(tables, name_id) {
        Some(row) => row.name.as_slice(),
        None => &[],
    }
}

/// Whether a name has these bytes. One without row has none.
pub(crate) fn has_bytes(tables: &Tables, name_id: u64, bytes: &[u8]) -> bool
    ensures { result ≡ is_eq (bytes_cmp (bytes_of_name tables.now name_id) bytes.now) }
{
    bytes_of(tables, name_id).cmp(bytes).is_eq()
}

pub(crate) fn is_directory(tables: &Tables, id: u64) -> bool
    ensures { result ≡ has_inode is_directory tables.now id }
{
    match inode_row(tables, id) {
        Some(row) => row.kind == Kind::Directory,
        None => false,
    }
}

fn target_row(tables: &Tables, inode: u64) -> Option<&TargetRow>
    ensures { option_copied result ≡ target_at tables.now inode }
{
    let rows = tables.targets.as_slice();
    match rows.binary_search_by_key(&inode, |row| row.inode) {
        Ok(place) => Some(&rows[place]),
        Err(_) => None,
    }
}

/// Whether the inode is no symbolic link, or has a target.
pub(crate) fn finds_target(tables: &Tables, row: &InodeRow) -> bool
    ensures { result ≡ finds_target tables.now row.now }
{
    row.kind != Kind::Link || target_row(tables, row.id).is_some()
}

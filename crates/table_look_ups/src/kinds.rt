//! What kind of inode has a number.
ghost use Rattle.std.specs.Prelude.{◌≡◌};
ghost use Rattle.s3_rows.specs.Validity.{has_inode, any_kind, is_directory, is_link, is_regular};

use crate::inode_of;
use s3_base::Kind;
use s3_rows::Tables;

/// Whether there is an inode of the number, of any kind.
pub fn has_inode_at(tables: &Tables, id: u64) -> bool
    ensures { result ≡ has_inode any_kind tables.now id }
{
    match inode_of(tables, id) {
        Some(_) => true,
        None => false,
    }
}

pub fn has_directory_at(tables: &Tables, id: u64) -> bool
    ensures { result ≡ has_inode is_directory tables.now id }
{
    match inode_of(tables, id) {
        Some(row) => matches!(row.kind, Kind::Directory),
        None => false,
    }
}

pub fn has_file_at(tables: &Tables, id: u64) -> bool
    ensures { result ≡ has_inode is_regular tables.now id }
{
    match inode_of(tables, id) {
        Some(row) => matches!(row.kind, Kind::Regular),
        None => false,
    }
}

pub fn has_link_at(tables: &Tables, id: u64) -> bool
    ensures { result ≡ has_inode is_link tables.now id }
{
    match inode_of(tables, id) {
        Some(row) => matches!(row.kind, Kind::Link),
        None => false,
    }
}

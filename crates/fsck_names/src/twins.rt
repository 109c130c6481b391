//! Tests of entries against the other entries of the same name, or of the same directory.
ghost use Rattle.std.specs.Prelude.{◌≡◌, ◌==◌, ◌&&◌, nat_lt};
ghost use Rattle.std.specs.List.{list_any};
ghost use Rattle.s3_rows.specs.Keyed.{is_past};
ghost use Rattle.s3_rows.specs.Selections.{by_parent_and_bytes, bytes_of_name};
ghost use Rattle.s3_rows.specs.Validity.{have_one_name};
ghost use Rattle.fsck_names.specs.Entries.{repeats_a_name, names_directory_again};

use crate::entry_tests::EntryTest;
use crate::look_ups::{bytes_of, has_bytes, is_directory};
use s3_rows::{ContentRow, Tables};
use std::alloc::{AllocError, Global};
use std::cmp::Ordering;

/// Whether an entry of the same directory has the same bytes and a lesser name id.
fn is_first_of_name(tables: &Tables, row: &ContentRow, other: &ContentRow) -> bool
    ensures { result ≡ (have_one_name tables.now row.now other.now && nat_lt row.now.name_id other.now.name_id) }
{
    row.parent == other.parent
        && has_bytes(tables, row.name_id, bytes_of(tables, other.name_id))
        && row.name_id < other.name_id
}

/// Whether an entry names the same inode, and is less by its parent and the bytes of its name.
fn is_lesser_of_inode(tables: &Tables, row: &ContentRow, other: &ContentRow) -> bool
    ensures { result ≡ (row.now.inode == other.now.inode && is_past (by_parent_and_bytes tables.now) (row.now.parent, bytes_of_name tables.now row.now.name_id) other.now) }
{
    if row.inode != other.inode {
        return false;
    }
    match row.parent.cmp(&other.parent) {
        Ordering::Less => true,
        Ordering::Greater => false,
        Ordering::Equal => bytes_of(tables, row.name_id)
            .cmp(bytes_of(tables, other.name_id))
            .is_lt(),
    }
}

/// Whether any entry does.
fn has_lesser_of_inode(tables: &Tables, row: &ContentRow) -> bool
    ensures { result ≡ list_any (λ s. s.inode == row.now.inode && is_past (by_parent_and_bytes tables.now) (s.parent, bytes_of_name tables.now s.name_id) row.now) tables.now.contents }
{
    let rows = tables.contents.as_slice();
    rows.iter()
        .any(|other| is_lesser_of_inode(tables, other, row))
}

/// Entries whose directory has another one of the same name.
#[derive(Debug, Drop)]
pub(crate) struct RepeatsName;

impl EntryTest for RepeatsName {
    ghost test = { repeats_a_name };

    ghost stands = { λ _ _. Unit {0} };

    fn of(_alloc: Global, _tables: &Tables) -> Result<Self, AllocError> {
        Ok(RepeatsName)
    }

    fn goes(&self, tables: &Tables, row: &ContentRow) -> Result<bool, AllocError> {
        let rows = tables.contents.as_slice();
        Ok(
            rows.iter()
                .any(|other| is_first_of_name(tables, other, row)),
        )
    }
}

/// Entries of a directory that has a lesser one.
#[derive(Debug, Drop)]
pub(crate) struct NamesDirectoryAgain;

impl EntryTest for NamesDirectoryAgain {
    ghost test = { names_directory_again };

    ghost stands = { λ _ _. Unit {0} };

    fn of(_alloc: Global, _tables: &Tables) -> Result<Self, AllocError> {
        Ok(NamesDirectoryAgain)
    }

    fn goes(&self, tables: &Tables, row: &ContentRow) -> Result<bool, AllocError> {
        Ok(is_directory(tables, row.inode) && has_lesser_of_inode(tables, row))
    }
}

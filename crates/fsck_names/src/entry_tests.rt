//! Tests of entries that do without an index.
ghost use Rattle.std.specs.Prelude.{◌≡◌, ◌==◌, ◌||◌, [], ◌∷◌, Bool, nat_eq, IfOk};
ghost use Rattle.std.specs.List.{list_any};
ghost use Rattle.std.specs.Cmp.Lexicographic.{pointwise};
ghost use Rattle.s3_base.specs.Names.{is_forbidden_name};
ghost use Rattle.s3_rows.specs.Rows.{Content};
ghost use Rattle.s3_rows.specs.Tables as tables;
ghost use Rattle.s3_rows.specs.Validity.{finds_of_entry};
ghost use Rattle.fsck_names.specs.Entries.{is_out_of_place, is_no_lost_and_found};

use crate::look_ups::{bytes_of, has_bytes, inode_row, is_directory, name_row};
use s3_rows::{ContentRow, Tables};
use std::alloc::{AllocError, Global};

/// A test of the entries of tables. What it has to know of all of them is gathered once.
pub(crate) trait EntryTest: Sized + Drop {
    /// The entry goes.
    ghost test: { tables.Tables → Content → Bool };

    /// It was gathered of these tables.
    ghost stands: { Self → tables.Tables → Type 0 };

    fn of(alloc: Global, tables: &Tables) -> Result<Self, AllocError>
        ensures { IfOk result (λ e. stands e tables.now) };

    fn goes(&self, tables: &Tables, row: &ContentRow) -> Result<bool, AllocError>
        requires { stands self.now tables.now }
        ensures { IfOk result (λ b. b ≡ test tables.now row.now) };
}

/// Entries whose directory, name or inode is not there, whose name is no legal one, or that name the root.
#[derive(Debug, Drop)]
pub(crate) struct OutOfPlace;

impl EntryTest for OutOfPlace {
    ghost test = { is_out_of_place };

    ghost stands = { λ _ _. Unit {0} };

    fn of(_alloc: Global, _tables: &Tables) -> Result<Self, AllocError> {
        Ok(OutOfPlace)
    }

    fn goes(&self, tables: &Tables, row: &ContentRow) -> Result<bool, AllocError> {
        if row.inode == 1 || !finds_rows(tables, row) {
            return Ok(true);
        }
        Ok(is_forbidden(bytes_of(tables, row.name_id)))
    }
}

/// The entry's directory, its name and its inode are there.
fn finds_rows(tables: &Tables, row: &ContentRow) -> bool
    ensures { result ≡ finds_of_entry tables.now row.now }
{
    if !is_directory(tables, row.parent) || name_row(tables, row.name_id).is_none() {
        return false;
    }
    inode_row(tables, row.inode).is_some()
}

/// A slash or a zero byte is in the name.
fn has_forbidden_byte(name: &[u8]) -> bool
    ensures { result ≡ list_any (λ b. b == 47 || b == 0) name.now }
{
    name.iter().any(|&b| b == b'/' || b == 0)
}

/// The name is `.` or `..`.
fn is_dots(name: &[u8]) -> bool
    ensures { result ≡ (pointwise nat_eq name.now (46 ∷ []) || pointwise nat_eq name.now (46 ∷ 46 ∷ [])) }
{
    name == b".".as_slice() || name == b"..".as_slice()
}

/// A name that no entry may have.
fn is_forbidden(name: &[u8]) -> bool
    ensures { result ≡ is_forbidden_name name.now }
{
    if name.is_empty() || has_forbidden_byte(name) {
        return true;
    }
    is_dots(name)
}

/// An entry `lost+found` of the root that names no directory.
#[derive(Debug, Drop)]
pub(crate) struct NoLostAndFound;

impl EntryTest for NoLostAndFound {
    ghost test = { is_no_lost_and_found };

    ghost stands = { λ _ _. Unit {0} };

    fn of(_alloc: Global, _tables: &Tables) -> Result<Self, AllocError> {
        Ok(NoLostAndFound)
    }

    fn goes(&self, tables: &Tables, row: &ContentRow) -> Result<bool, AllocError> {
        if row.parent != 1 || is_directory(tables, row.inode) {
            return Ok(false);
        }
        Ok(has_bytes(tables, row.name_id, b"lost+found".as_slice()))
    }
}

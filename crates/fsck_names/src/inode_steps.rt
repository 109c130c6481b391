//! What is done about directories, files and links that no entry names as it should.
ghost use Rattle.std.specs.Prelude.{◌≡◌, ◌==◌, OnOk};
ghost use Rattle.std.specs.List.{list_any};
ghost use Rattle.s3_rows.specs.Validity.{is_named};
ghost use Rattle.fsck_names.specs.Entries.{names_empty_link};
ghost use Rattle.fsck_names.specs.Pass as pass;
ghost use Rattle.fsck_names.specs.Steps.{Takes};

use crate::each::{InodeStep, InodeTest};
use crate::edits::delete_inode;
use crate::entry_tests::EntryTest;
use crate::look_ups::{finds_target, inode_row};
use crate::moves::move_inode;
use crate::numbers::Free;
use fsck_findings::{Finding, Numbered, PassFault, Repair};
use s3_base::Kind;
use s3_rows::{ContentRow, InodeRow, Tables};
use std::alloc::{AllocError, Global};

/// Whether some entry names the inode.
fn is_named(tables: &Tables, id: u64) -> bool
    ensures { result ≡ is_named tables.now id }
{
    let rows = tables.contents.as_slice();
    rows.iter().any(|row| row.inode == id)
}

/// The inode goes.
fn remove_inode(
    alloc: Global,
    tables: &mut Tables,
    repair: &mut Repair,
    row: &InodeRow,
) -> Result<(), AllocError>
    ensures { OnOk result (Takes (pass.remove_inode row.now tables.old) tables.old tables.new repair.old repair.new) }
{
    repair.find(alloc, &Finding::Removed(Numbered::Inode, row.id))?;
    delete_inode(alloc, tables, repair, row.id)
}

/// A directory that no entry names is moved.
pub(crate) struct LostDirectory;

impl InodeTest for LostDirectory {
    ghost test = { pass.is_lost_directory };

    fn passes(tables: &Tables, row: &InodeRow) -> bool {
        row.id != 1 && !is_named(tables, row.id) && row.kind == Kind::Directory
    }
}

impl InodeStep for LostDirectory {
    ghost step = { pass.move_directory };

    fn take(
        alloc: Global,
        free: Free,
        tables: &mut Tables,
        repair: &mut Repair,
        row: &InodeRow,
    ) -> Result<(), PassFault> {
        move_inode(alloc, free, tables, repair, row.id)
    }
}

/// A file or a link that no entry names goes where its count is 0, and else is moved.
pub(crate) struct LostFile;

impl InodeTest for LostFile {
    ghost test = { pass.is_lost_file };

    fn passes(tables: &Tables, row: &InodeRow) -> bool {
        row.kind != Kind::Directory && !is_named(tables, row.id) && finds_target(tables, row)
    }
}

impl InodeStep for LostFile {
    ghost step = { pass.put_away };

    fn take(
        alloc: Global,
        free: Free,
        tables: &mut Tables,
        repair: &mut Repair,
        row: &InodeRow,
    ) -> Result<(), PassFault> {
        if row.refcount == 0 {
            remove_inode(alloc, tables, repair, row)?;
            return Ok(());
        }
        move_inode(alloc, free, tables, repair, row.id)
    }
}

/// A link without target goes.
pub(crate) struct EmptyLink;

impl InodeTest for EmptyLink {
    ghost test = { pass.is_empty_link };

    fn passes(tables: &Tables, row: &InodeRow) -> bool {
        !finds_target(tables, row)
    }
}

impl InodeStep for EmptyLink {
    ghost step = { λ _. pass.remove_inode };

    fn take(
        alloc: Global,
        _free: Free,
        tables: &mut Tables,
        repair: &mut Repair,
        row: &InodeRow,
    ) -> Result<(), PassFault> {
        remove_inode(alloc, tables, repair, row)?;
        Ok(())
    }
}

/// Entries that name a link without target.
#[derive(Debug, Drop)]
pub(crate) struct NamesEmptyLink;

impl EntryTest for NamesEmptyLink {
    ghost test = { names_empty_link };

    ghost stands = { λ _ _. Unit {0} };

    fn of(_alloc: Global, _tables: &Tables) -> Result<Self, AllocError> {
        Ok(NamesEmptyLink)
    }

    fn goes(&self, tables: &Tables, row: &ContentRow) -> Result<bool, AllocError> {
        match inode_row(tables, row.inode) {
            Some(named) => Ok(!finds_target(tables, named)),
            None => Ok(false),
        }
    }
}

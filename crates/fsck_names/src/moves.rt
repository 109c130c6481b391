//! Inodes that get an entry in `lost+found`.
ghost use Rattle.std.specs.Prelude.{◌≡◌, IsTrue, ◌<◌, ◌+◌, ◌^◌, ◌==◌, ◌&&◌, [], ◌∷◌, Some, option_map, IfOk, IfSome, OnOk};
ghost use Rattle.std.specs.String.{string_bytes};
ghost use Rattle.std.specs.Ordering.{is_eq};
ghost use Rattle.s3_rows.specs.Rows.{IsId, IsText, Parameters};
ghost use Rattle.s3_rows.specs.declared.change.Change.TheVariants as changes;
ghost use Rattle.s3_rows.specs.Selections.{bytes_cmp, bytes_of_name, name_of_bytes};
ghost use Rattle.s3_rows.specs.Counts.{listed_inode_count};
ghost use Rattle.s3_rows.specs.Validity.{counts_inode, is_lost_and_found};
ghost use Rattle.fsck_names.specs.Entries as entries;
ghost use Rattle.fsck_names.specs.Made.{changing};
ghost use Rattle.fsck_names.specs.Steps.{Gives, Takes};

use crate::edits::{put_entry, put_inode, put_name, set_params};
use crate::look_ups::{has_bytes, inode_row, is_directory};
use crate::numbers::{Free, next_name};
use fsck_findings::{Finding, PassFault, Repair};
use s3_base::ByteList;
use s3_rows::{ContentRow, InodeRow, NameRow, Params, Tables};
use std::alloc::{AllocError, Global};

/// The name of a moved inode as a text: the first one, and from 1 on the one of each number.
fn moved_text(alloc: Global, inode: u64, number: u64) -> Result<String, AllocError>
    ensures { IfOk result (λ s. string_bytes s ≡ entries.moved_name inode number) }
{
    if number == 0 {
        format!(in alloc; "inode-{inode}")
    } else {
        format!(in alloc; "inode-{inode}-{number}")
    }
}

/// The name of a moved inode.
fn moved_name(alloc: Global, inode: u64, number: u64) -> Result<ByteList, AllocError>
    ensures name { IfOk result (λ name. name ≡ entries.moved_name inode number) }
    ensures text { IfOk result (IsText 255) }
{
    Ok(ByteList::from(moved_text(alloc, inode, number)?.into_bytes()))
}

/// Whether an entry is of this directory and of this name.
fn is_of_name(tables: &Tables, row: &ContentRow, parent: u64, name: &[u8]) -> bool
    ensures { result ≡ (row.now.parent == parent && is_eq (bytes_cmp (bytes_of_name tables.now row.now.name_id) name.now)) }
{
    row.parent == parent && has_bytes(tables, row.name_id, name)
}

/// Whether the directory has an entry of this name.
fn is_taken(tables: &Tables, parent: u64, name: &[u8]) -> bool
    ensures { result ≡ entries.is_taken tables.now parent name.now }
{
    let rows = tables.contents.as_slice();
    rows.iter().any(|row| is_of_name(tables, row, parent, name))
}

/// The first name of a moved inode that the directory has not. Of one more than there are entries, one is free.
pub(crate) fn free_name(
    alloc: Global,
    tables: &Tables,
    parent: u64,
    inode: u64,
) -> Result<ByteList, AllocError>
    ensures name { IfOk result (λ name. name ≡ entries.free_name tables.now parent inode) }
    ensures text { IfOk result (IsText 255) }
{
    let mut number = 0;
    let mut more = tables.contents.len();
    let mut name = moved_name(alloc, inode, 0)?;
    while more > 0 {
        if !is_taken(tables, parent, name.as_slice()) {
            return Ok(name);
        }
        more -= 1;
        number += 1;
        name = moved_name(alloc, inode, number)?;
    }
    Ok(name)
}

/// The id of a name with these bytes.
fn name_id_of(tables: &Tables, name: &[u8]) -> Option<u64>
    ensures id { result ≡ option_map (λ n. n.id) (name_of_bytes tables.now name.now) }
    ensures range { IfSome result IsId }
{
    for row in tables.names.as_slice() {
        if row.name.as_slice().cmp(name).is_eq() {
            return Some(row.id);
        }
    }
    None
}

/// An entry of this name. A name that has no row yet gets one.
pub(crate) fn enter(
    alloc: Global,
    free: Free,
    tables: &mut Tables,
    repair: &mut Repair,
    parent: u64,
    name: ByteList,
    inode: u64,
) -> Result<(), PassFault>
    requires free { 0 < free.name }
    requires parent { IsId parent }
    requires name { IsText 255 name }
    requires inode { IsId inode }
    ensures { Gives result (entries.enter free parent name inode tables.old) tables.old tables.new repair.old repair.new }
{
    if let Some(name_id) = name_id_of(tables, name.as_slice()) {
        let row = ContentRow {
            parent,
            name_id,
            inode,
        };
        put_entry(alloc, tables, repair, row)?;
        return Ok(());
    }
    let Some(name_id) = next_name(free, tables) else {
        return Err(PassFault::Worn);
    };
    enter_new(
        alloc,
        tables,
        repair,
        name_id,
        name,
        ContentRow {
            parent,
            name_id,
            inode,
        },
    )?;
    Ok(())
}

/// A name, the number after its own, and an entry.
fn enter_new(
    alloc: Global,
    tables: &mut Tables,
    repair: &mut Repair,
    id: u64,
    name: ByteList,
    entry: ContentRow,
) -> Result<(), AllocError>
    requires id { IsId id }
    requires name { IsText 255 name }
    ensures { OnOk result ((p : Parameters) → tables.old.params ≡ Some p
        → Takes (Some (changing (changes.PutName (record { id = id; refcount = 1; name = name }) ∷ changes.SetParams (record p { next_name = id + 1 }) ∷ changes.PutContent entry ∷ [])))
        tables.old tables.new repair.old repair.new) }
{
    put_name(
        alloc,
        tables,
        repair,
        NameRow {
            id,
            refcount: 1,
            name,
        },
    )?;
    let params = Params {
        next_name: id + 1,
        ..tables.params
    };
    set_params(tables, repair, params)?;
    put_entry(alloc, tables, repair, entry)
}

/// The directory `lost+found`.
pub(crate) fn lost_and_found_of(tables: &Tables) -> Option<u64>
    ensures inode { result ≡ entries.lost_and_found_of tables.now }
    ensures range { IfSome result IsId }
{
    for row in tables.contents.as_slice() {
        if is_lost_and_found(tables, row) {
            return Some(row.inode);
        }
    }
    None
}

/// Whether this is the entry `lost+found` of the root, and names a directory.
pub(crate) fn is_lost_and_found(tables: &Tables, row: &ContentRow) -> bool
    ensures { result ≡ is_lost_and_found tables.now row.now }
{
    is_of_name(tables, row, 1, b"lost+found".as_slice()) && is_directory(tables, row.inode)
}

/// How many entries name the inode. The root counts 1.
fn listed_count(tables: &Tables, id: u64) -> u64
    ensures value { result ≡ listed_inode_count tables.now id }
    ensures below { result + 1 < 2 ^ 62 }
{
    if id == 1 {
        return 1;
    }
    let rows = tables.contents.as_slice();
    rows.iter().filter(|row| row.inode == id).count() as u64
}

/// Whether the count of an inode is the listed one.
pub(crate) fn is_counted(tables: &Tables, row: &InodeRow) -> bool
    ensures counts { result ≡ counts_inode tables.now row.now }
    ensures grows { IsTrue result → row.now.refcount + 1 < 2 ^ 62 }
{
    row.refcount == listed_count(tables, row.id)
}

/// A count that is the listed one grows with a new entry.
fn count_entry(
    alloc: Global,
    tables: &mut Tables,
    repair: &mut Repair,
    inode: u64,
) -> Result<(), AllocError>
    ensures { OnOk result (Takes (entries.count_entry inode tables.old) tables.old tables.new repair.old repair.new) }
{
    let Some(row) = inode_row(tables, inode).copied() else {
        return Ok(());
    };
    if !is_counted(tables, &row) {
        return Ok(());
    }
    let refcount = row.refcount + 1;
    put_inode(alloc, tables, repair, InodeRow { refcount, ..row })
}

/// The inode gets an entry in `lost+found`.
pub(crate) fn move_inode(
    alloc: Global,
    free: Free,
    tables: &mut Tables,
    repair: &mut Repair,
    inode: u64,
) -> Result<(), PassFault>
    requires free { 0 < free.name }
    requires inode { IsId inode }
    ensures { Gives result (entries.move free inode tables.old) tables.old tables.new repair.old repair.new }
{
    let Some(parent) = lost_and_found_of(tables) else {
        return Err(PassFault::Worn);
    };
    let name = free_name(alloc, tables, parent, inode)?;
    repair.find(alloc, &Finding::Moved(inode))?;
    count_entry(alloc, tables, repair, inode)?;
    enter(alloc, free, tables, repair, parent, name, inode)
}

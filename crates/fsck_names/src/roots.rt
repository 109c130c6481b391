//! The root and `lost+found`, which are made where they are not there.
ghost use Rattle.std.specs.Prelude.{◌≡◌, ◌<◌, ◌≤◌, ◌+◌, [], ◌∷◌, Some, OnOk};
ghost use Rattle.std.specs.List.{list_any};
ghost use Rattle.s3_rows.specs.declared.change.Change.TheVariants as changes;
ghost use Rattle.s3_rows.specs.Rows.{IsId, Parameters};
ghost use Rattle.s3_rows.specs.Made as made;
ghost use Rattle.s3_rows.specs.Validity.{is_lost_and_found};
ghost use Rattle.fsck_names.specs.Pass as pass;
ghost use Rattle.fsck_names.specs.Steps.{Gives, Takes};

use crate::edits::{put_inode, set_params};
use crate::look_ups::is_directory;
use crate::moves::{enter, is_lost_and_found};
use crate::numbers::{Free, next_inode};
use fsck_findings::{Finding, PassFault, Repair};
use s3_base::{ByteList, Kind};
use s3_rows::{InodeRow, Params, Tables};
use std::alloc::{AllocError, Global};

/// A directory of one entry and of time 0.
fn made_directory(id: u64, mode: u16) -> InodeRow
    requires id { IsId id }
    requires mode { mode ≤ 4095 }
    ensures { result ≡ made.made_directory id mode 0 }
{
    InodeRow {
        id,
        kind: Kind::Directory,
        mode,
        uid: 0,
        gid: 0,
        mtime: 0,
        ctime: 0,
        refcount: 1,
        size: 0,
        locked: false,
    }
}

/// The root is a directory, or is made anew.
pub(crate) fn make_root(
    alloc: Global,
    tables: &mut Tables,
    repair: &mut Repair,
) -> Result<(), AllocError>
    ensures { OnOk result (Takes (pass.make_root tables.old) tables.old tables.new repair.old repair.new) }
{
    if is_directory(tables, 1) {
        return Ok(());
    }
    repair.find(alloc, &Finding::RootMade)?;
    put_inode(alloc, tables, repair, made_directory(1, 0o755))
}

/// A directory with the next number.
fn make_directory(
    alloc: Global,
    tables: &mut Tables,
    repair: &mut Repair,
    id: u64,
) -> Result<(), AllocError>
    requires { IsId id }
    ensures { OnOk result (Takes (pass.make_directory id tables.old) tables.old tables.new repair.old repair.new) }
{
    put_inode(alloc, tables, repair, made_directory(id, 0o700))?;
    let params = Params {
        next_inode: id + 1,
        ..tables.params
    };
    set_params(tables, repair, params)
}

/// Whether the root has `lost+found`.
fn has_lost_and_found(tables: &Tables) -> bool
    ensures { result ≡ list_any (is_lost_and_found tables.now) tables.now.contents }
{
    let rows = tables.contents.as_slice();
    rows.iter().any(|row| is_lost_and_found(tables, row))
}

/// The root has `lost+found`, or gets it.
pub(crate) fn make_lost_and_found(
    alloc: Global,
    free: Free,
    tables: &mut Tables,
    repair: &mut Repair,
) -> Result<(), PassFault>
    requires inode { 0 < free.inode }
    requires name { 0 < free.name }
    ensures { Gives result (pass.make_lost_and_found free tables.old) tables.old tables.new repair.old repair.new }
{
    if has_lost_and_found(tables) {
        return Ok(());
    }
    let Some(id) = next_inode(free, tables) else {
        return Err(PassFault::Worn);
    };
    let name = ByteList::from_slice(alloc, b"lost+found")?;
    repair.find(alloc, &Finding::LostAndFoundMade)?;
    make_directory(alloc, tables, repair, id)?;
    enter(alloc, free, tables, repair, 1, name, id)
}

//! The checks on nodes, from their rows, and on what is left of numbers.
ghost use Rattle.std.specs.Prelude.{◌≡◌, ◌+◌, ◌<◌, ◌≤◌, ◌^◌, Some, IfOk, is_some, option_map};
ghost use Rattle.s3_base.specs.Errors.{eexist, enoent, enospc};
ghost use Rattle.plain_tree.specs.Checks.{fails_with, entry_check, attribute_check};
ghost use Rattle.op_checks.specs.Checks.{Checks};
ghost use Rattle.op_checks.specs.Rows.{row_check, directory_row_check, file_row_check, link_row_check, no_directory_row_check, lock_row_check, named_row_check, open_row_check, ids_row_check};

use crate::values::ROOT;
use s3_base::{Errno, Kind, LIMIT};
use s3_rows::{AttrRow, InodeRow, Params};

/// The row: ENOENT where there is none.
pub fn check_node(found: Option<InodeRow>) -> Result<InodeRow, Errno>
    ensures check { Checks result (row_check found) }
    ensures row { IfOk result (λ r. found ≡ Some r) }
{
    found.ok_or(Errno::ENOENT)
}

/// ENOTDIR where it is no directory.
pub fn check_directory(row: &InodeRow) -> Result<(), Errno>
    ensures { Checks result (directory_row_check (Some row.now)) }
{
    match row.kind {
        Kind::Directory => Ok(()),
        Kind::Regular | Kind::Link => Err(Errno::ENOTDIR),
    }
}

/// EISDIR or EINVAL where it is no regular file.
pub fn check_file(row: &InodeRow) -> Result<(), Errno>
    ensures { Checks result (file_row_check (Some row.now)) }
{
    match row.kind {
        Kind::Directory => Err(Errno::EISDIR),
        Kind::Link => Err(Errno::EINVAL),
        Kind::Regular => Ok(()),
    }
}

/// EINVAL where it is no symbolic link.
pub fn check_link(row: &InodeRow) -> Result<(), Errno>
    ensures { Checks result (link_row_check (Some row.now)) }
{
    match row.kind {
        Kind::Link => Ok(()),
        Kind::Directory | Kind::Regular => Err(Errno::EINVAL),
    }
}

/// This error where it is a directory.
pub fn check_no_directory(row: &InodeRow, errno: Errno) -> Result<(), Errno>
    ensures { Checks result (no_directory_row_check errno.0 (Some row.now)) }
{
    match row.kind {
        Kind::Directory => Err(errno),
        Kind::Regular | Kind::Link => Ok(()),
    }
}

/// EPERM where it is locked.
pub fn check_unlocked(row: &InodeRow) -> Result<(), Errno>
    ensures { Checks result (lock_row_check (Some row.now)) }
{
    if row.locked {
        return Err(Errno::EPERM);
    }
    Ok(())
}

/// ENOENT where no entry names it.
pub fn check_named(row: &InodeRow) -> Result<(), Errno>
    ensures { Checks result (named_row_check (Some row.now)) }
{
    if row.id == ROOT || row.refcount == 0 {
        return Err(Errno::ENOENT);
    }
    Ok(())
}

/// The row of the inode of an open handle: EBADF where there is none, or it is no regular file.
pub fn check_open(found: Option<InodeRow>) -> Result<InodeRow, Errno>
    ensures check { Checks result (open_row_check found) }
    ensures row { IfOk result (λ r. found ≡ Some r) }
{
    let row = found.ok_or(Errno::EBADF)?;
    match row.kind {
        Kind::Regular => Ok(row),
        Kind::Directory | Kind::Link => Err(Errno::EBADF),
    }
}

/// EEXIST where the directory has an entry of the name.
pub fn check_free(taken: bool) -> Result<(), Errno>
    ensures { Checks result (fails_with eexist taken) }
{
    if taken {
        return Err(Errno::EEXIST);
    }
    Ok(())
}

/// The inode that an entry names: ENOENT where there is no such entry.
pub fn check_entry(found: Option<u64>) -> Result<u64, Errno>
    ensures check { Checks result (entry_check found) }
    ensures inode { IfOk result (λ inode. found ≡ Some inode) }
{
    found.ok_or(Errno::ENOENT)
}

/// The row of an attribute: ENODATA where there is no such attribute.
pub fn check_attribute(found: Option<AttrRow>) -> Result<AttrRow, Errno>
    ensures check { Checks result (attribute_check (option_map (λ a. a.value) found)) }
    ensures row { IfOk result (λ a. found ≡ Some a) }
{
    found.ok_or(Errno::ENODATA)
}

/// ENOSPC where there are not so many inode numbers left.
pub fn check_ids(params: &Params, count: u64) -> Result<(), Errno>
    ensures check { Checks result (ids_row_check params.now count) }
    ensures left { IfOk result (λ _. params.now.next_inode + count ≤ 2 ^ 62) }
{
    let next = params.next_inode;
    if count > LIMIT || next > LIMIT - count {
        return Err(Errno::ENOSPC);
    }
    Ok(())
}

/// ENOSPC where no handle number is left.
pub fn check_hand(full: bool) -> Result<(), Errno>
    ensures { Checks result (fails_with enospc full) }
{
    if full {
        return Err(Errno::ENOSPC);
    }
    Ok(())
}

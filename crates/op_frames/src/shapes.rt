//! The fields of operations: of a shape that several operations share, or of one operation.
ghost use Rattle.std.specs.Prelude.{◌≡◌};
ghost use Rattle.op_frames.specs.declared.operation.Op.TheVariants.{Mkdir, Create, Rename, Symlink, Read, Write, Setxattr};
ghost use Rattle.frame_fields.specs.Format.{Gives, made};
ghost use Rattle.op_frames.specs.Operations.{lookup_fields, utimes_fields, create_fields, rename_fields, link_fields, symlink_fields, read_fields, write_fields, readdir_fields, setxattr_fields};
ghost use Rattle.frame_fields.specs.Unread.{rest_of};

use crate::Op;
use crate::flags::set_flag_of;
use frame_fields::fields::{self, Found, Unread};
use s3_base::ByteList;
use std::alloc::Global;

/// An inode and a name.
pub fn inode_and_name(alloc: Global, unread: Unread<'_>) -> Found<'_, (u64, ByteList)>
    ensures { Gives (λ x. (x.0, rest_of x.1)) result (lookup_fields.read (rest_of unread.entry)) }
{
    let (inode, unread) = fields::u64_of(unread)?;
    let (name, unread) = fields::name_of(alloc, unread)?;
    Ok(((inode, name), unread))
}

/// An inode and a number.
pub fn inode_and_number(unread: Unread<'_>) -> Found<'_, (u64, u64)>
    ensures { Gives (λ x. (x.0, rest_of x.1)) result (utimes_fields.read (rest_of unread.entry)) }
{
    let (inode, unread) = fields::u64_of(unread)?;
    let (number, unread) = fields::u64_of(unread)?;
    Ok(((inode, number), unread))
}

/// An inode, and the parent and the name that it gets.
pub fn inode_and_entry(alloc: Global, unread: Unread<'_>) -> Found<'_, (u64, u64, ByteList)>
    ensures { Gives (λ x. ((x.0.0, (x.0.1, x.0.2)), rest_of x.1)) result (link_fields.read (rest_of unread.entry)) }
{
    let (inode, unread) = fields::u64_of(unread)?;
    let (parent, unread) = fields::u64_of(unread)?;
    let (name, unread) = fields::name_of(alloc, unread)?;
    Ok(((inode, parent, name), unread))
}

/// An inode, the name after which a page begins, and the most items of the page.
pub fn inode_and_page(alloc: Global, unread: Unread<'_>) -> Found<'_, (u64, ByteList, u16)>
    ensures { Gives (λ x. ((x.0.0, (x.0.1, x.0.2)), rest_of x.1)) result (readdir_fields.read (rest_of unread.entry)) }
{
    let (inode, unread) = fields::u64_of(unread)?;
    let (after, unread) = fields::name_of(alloc, unread)?;
    let (max, unread) = fields::u16_of(unread)?;
    Ok(((inode, after, max), unread))
}

/// An entry and its owner: a parent, a name, a mode, a user and a group.
fn entry_and_owner(alloc: Global, unread: Unread<'_>) -> Found<'_, (u64, ByteList, u16, u32, u32)>
    ensures { Gives (λ x. ((x.0.0, (x.0.1, (x.0.2, (x.0.3, x.0.4)))), rest_of x.1)) result (create_fields.read (rest_of unread.entry)) }
{
    let (parent, unread) = fields::u64_of(unread)?;
    let (name, unread) = fields::name_of(alloc, unread)?;
    let (mode, unread) = fields::u16_of(unread)?;
    let (uid, unread) = fields::u32_of(unread)?;
    let (gid, unread) = fields::u32_of(unread)?;
    Ok(((parent, name, mode, uid, gid), unread))
}

pub fn mkdir_of(alloc: Global, unread: Unread<'_>) -> Found<'_, Op>
    ensures { Gives (λ x. (x.0, rest_of x.1)) result (made (λ x. Mkdir x.0 x.1.0 x.1.1.0 x.1.1.1.0 x.1.1.1.1) (create_fields.read (rest_of unread.entry))) }
{
    let ((parent, name, mode, uid, gid), unread) = entry_and_owner(alloc, unread)?;
    let op = Op::Mkdir {
        parent,
        name,
        mode,
        uid,
        gid,
    };
    Ok((op, unread))
}

pub fn create_of(alloc: Global, unread: Unread<'_>) -> Found<'_, Op>
    ensures { Gives (λ x. (x.0, rest_of x.1)) result (made (λ x. Create x.0 x.1.0 x.1.1.0 x.1.1.1.0 x.1.1.1.1) (create_fields.read (rest_of unread.entry))) }
{
    let ((parent, name, mode, uid, gid), unread) = entry_and_owner(alloc, unread)?;
    let op = Op::Create {
        parent,
        name,
        mode,
        uid,
        gid,
    };
    Ok((op, unread))
}

pub fn rename_of(alloc: Global, unread: Unread<'_>) -> Found<'_, Op>
    ensures { Gives (λ x. (x.0, rest_of x.1)) result (made (λ x. Rename x.0 x.1.0 x.1.1.0 x.1.1.1) (rename_fields.read (rest_of unread.entry))) }
{
    let (parent, unread) = fields::u64_of(unread)?;
    let (name, unread) = fields::name_of(alloc, unread)?;
    let (new_parent, unread) = fields::u64_of(unread)?;
    let (new_name, unread) = fields::name_of(alloc, unread)?;
    let op = Op::Rename {
        parent,
        name,
        new_parent,
        new_name,
    };
    Ok((op, unread))
}

pub fn symlink_of(alloc: Global, unread: Unread<'_>) -> Found<'_, Op>
    ensures { Gives (λ x. (x.0, rest_of x.1)) result (made (λ x. Symlink x.0 x.1.0 x.1.1.0 x.1.1.1.0 x.1.1.1.1) (symlink_fields.read (rest_of unread.entry))) }
{
    let (parent, unread) = fields::u64_of(unread)?;
    let (name, unread) = fields::name_of(alloc, unread)?;
    let (target, unread) = fields::name_of(alloc, unread)?;
    let (uid, unread) = fields::u32_of(unread)?;
    let (gid, unread) = fields::u32_of(unread)?;
    let op = Op::Symlink {
        parent,
        name,
        target,
        uid,
        gid,
    };
    Ok((op, unread))
}

pub fn read_of(unread: Unread<'_>) -> Found<'_, Op>
    ensures { Gives (λ x. (x.0, rest_of x.1)) result (made (λ x. Read x.0 x.1.0 x.1.1) (read_fields.read (rest_of unread.entry))) }
{
    let (handle, unread) = fields::u64_of(unread)?;
    let (offset, unread) = fields::u64_of(unread)?;
    let (length, unread) = fields::u32_of(unread)?;
    let op = Op::Read {
        handle,
        offset,
        length,
    };
    Ok((op, unread))
}

pub fn write_of(alloc: Global, unread: Unread<'_>) -> Found<'_, Op>
    ensures { Gives (λ x. (x.0, rest_of x.1)) result (made (λ x. Write x.0 x.1.0 x.1.1) (write_fields.read (rest_of unread.entry))) }
{
    let (handle, unread) = fields::u64_of(unread)?;
    let (offset, unread) = fields::u64_of(unread)?;
    let (bytes, unread) = fields::data_of(alloc, unread)?;
    let op = Op::Write {
        handle,
        offset,
        bytes,
    };
    Ok((op, unread))
}

pub fn setxattr_of(alloc: Global, unread: Unread<'_>) -> Found<'_, Op>
    ensures { Gives (λ x. (x.0, rest_of x.1)) result (made (λ x. Setxattr x.0 x.1.0 x.1.1.0 x.1.1.1) (setxattr_fields.read (rest_of unread.entry))) }
{
    let (inode, unread) = fields::u64_of(unread)?;
    let (name, unread) = fields::name_of(alloc, unread)?;
    let (flag, unread) = set_flag_of(unread)?;
    let (value, unread) = fields::data_of(alloc, unread)?;
    let op = Op::Setxattr {
        inode,
        name,
        flag,
        value,
    };
    Ok((op, unread))
}

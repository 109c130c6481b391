//! Writes an operation: its code, and the fields behind it.
ghost use Rattle.std.specs.Prelude.{◌≡◌, ◌++◌, IsTrue, OnOk};
ghost use Rattle.op_frames.specs.Operations.{op_spelling, is_op};

use crate::{Op, put_fields};
use frame_fields::writers::{Put, put_u16, put_u32, put_u64};
use s3_base::ByteList;

pub fn put_op(out: &mut ByteList, op: &Op) -> Put
    requires { IsTrue (is_op op.now) }
    ensures { OnOk result (out.new ≡ out.old ++ op_spelling op.now) }
{
    match op {
        Op::Lookup { parent, name } => put_fields::put_inode_and_name(out, 1, *parent, name),
        Op::Getattr { inode } => put_fields::put_inode(out, 2, *inode),
        Op::Chmod { inode, mode } => {
            out.push(3)?;
            put_u64(out, *inode)?;
            put_u16(out, *mode)
        }
        Op::Chown { inode, uid, gid } => {
            out.push(4)?;
            put_u64(out, *inode)?;
            put_u32(out, *uid)?;
            put_u32(out, *gid)
        }
        Op::Utimes { inode, mtime } => put_fields::put_inode_and_number(out, 5, *inode, *mtime),
        Op::Truncate { inode, size } => put_fields::put_inode_and_number(out, 6, *inode, *size),
        Op::Mkdir {
            parent,
            name,
            mode,
            uid,
            gid,
        } => put_fields::put_entry_and_owner(out, 7, *parent, name, *mode, *uid, *gid),
        Op::Create {
            parent,
            name,
            mode,
            uid,
            gid,
        } => put_fields::put_entry_and_owner(out, 8, *parent, name, *mode, *uid, *gid),
        Op::Unlink { parent, name } => put_fields::put_inode_and_name(out, 9, *parent, name),
        Op::Rmdir { parent, name } => put_fields::put_inode_and_name(out, 10, *parent, name),
        Op::Rename {
            parent,
            name,
            new_parent,
            new_name,
        } => put_fields::put_rename(out, *parent, name, *new_parent, new_name),
        Op::Link {
            inode,
            parent,
            name,
        } => put_fields::put_inode_and_entry(out, 12, *inode, *parent, name),
        Op::Symlink {
            parent,
            name,
            target,
            uid,
            gid,
        } => put_fields::put_symlink(out, *parent, name, target, *uid, *gid),
        Op::Readlink { inode } => put_fields::put_inode(out, 14, *inode),
        Op::Open { inode } => put_fields::put_inode(out, 15, *inode),
        Op::Release { handle } => put_fields::put_inode(out, 16, *handle),
        Op::Read {
            handle,
            offset,
            length,
        } => put_fields::put_read(out, *handle, *offset, *length),
        Op::Write {
            handle,
            offset,
            bytes,
        } => put_fields::put_write(out, *handle, *offset, bytes),
        Op::Fsync { handle } => put_fields::put_inode(out, 19, *handle),
        Op::Readdir { inode, after, max } => put_fields::put_inode_and_page(
            out, 20, *inode, after, *max,
        ),
        Op::Statfs => out.push(21),
        Op::Setxattr {
            inode,
            name,
            flag,
            value,
        } => put_fields::put_setxattr(out, *inode, name, *flag, value),
        Op::Getxattr { inode, name } => put_fields::put_inode_and_name(out, 23, *inode, name),
        Op::Listxattr { inode, after, max } => put_fields::put_inode_and_page(
            out, 24, *inode, after, *max,
        ),
        Op::Removexattr { inode, name } => put_fields::put_inode_and_name(out, 25, *inode, name),
        Op::CopyTree {
            source,
            parent,
            name,
        } => put_fields::put_inode_and_entry(out, 26, *source, *parent, name),
        Op::LockTree { inode } => put_fields::put_inode(out, 27, *inode),
        Op::RemoveTree { parent, name } => put_fields::put_inode_and_name(out, 28, *parent, name),
        Op::FlushCache => out.push(29),
        Op::UploadMeta => out.push(30),
        Op::CacheSize { entries } => {
            out.push(31)?;
            put_u32(out, *entries)
        }
        Op::Leave => out.push(32),
        Op::Unmount => out.push(33),
    }
}

//! The operation behind each code.
ghost use Rattle.std.specs.Prelude.{◌≡◌};
ghost use Rattle.frame_fields.specs.Format.{Gives};
ghost use Rattle.op_frames.specs.Operations.{op_to_8, op_to_16, op_to_24, op_to_33, op_behind, op_field};
ghost use Rattle.frame_fields.specs.Unread.{rest_of};

use crate::flags::operation_of;
use crate::{Op, shapes};
use frame_fields::fields::{self, Found, Unread};
use std::alloc::Global;

/// The fields behind a code from 1 to 8.
#[tactic(auto, unfolding(crate::specs::Operations::op_to_8))]
fn op_up_to_8(alloc: Global, code: u8, unread: Unread<'_>) -> Found<'_, Op>
    ensures { Gives (λ x. (x.0, rest_of x.1)) result (op_to_8 code (rest_of unread.entry)) }
{
    match code {
        1 => {
            let ((parent, name), unread) = shapes::inode_and_name(alloc, unread)?;
            Ok((Op::Lookup { parent, name }, unread))
        }
        2 => {
            let (inode, unread) = fields::u64_of(unread)?;
            Ok((Op::Getattr { inode }, unread))
        }
        3 => {
            let (inode, unread) = fields::u64_of(unread)?;
            let (mode, unread) = fields::u16_of(unread)?;
            Ok((Op::Chmod { inode, mode }, unread))
        }
        4 => {
            let (inode, unread) = fields::u64_of(unread)?;
            let (uid, unread) = fields::u32_of(unread)?;
            let (gid, unread) = fields::u32_of(unread)?;
            Ok((Op::Chown { inode, uid, gid }, unread))
        }
        5 => {
            let ((inode, mtime), unread) = shapes::inode_and_number(unread)?;
            Ok((Op::Utimes { inode, mtime }, unread))
        }
        6 => {
            let ((inode, size), unread) = shapes::inode_and_number(unread)?;
            Ok((Op::Truncate { inode, size }, unread))
        }
        7 => shapes::mkdir_of(alloc, unread),
        _ => shapes::create_of(alloc, unread),
    }
}

/// From 9 to 16.
#[tactic(auto, unfolding(crate::specs::Operations::op_to_16))]
fn op_up_to_16(alloc: Global, code: u8, unread: Unread<'_>) -> Found<'_, Op>
    ensures { Gives (λ x. (x.0, rest_of x.1)) result (op_to_16 code (rest_of unread.entry)) }
{
    match code {
        9 => {
            let ((parent, name), unread) = shapes::inode_and_name(alloc, unread)?;
            Ok((Op::Unlink { parent, name }, unread))
        }
        10 => {
            let ((parent, name), unread) = shapes::inode_and_name(alloc, unread)?;
            Ok((Op::Rmdir { parent, name }, unread))
        }
        11 => shapes::rename_of(alloc, unread),
        12 => {
            let ((inode, parent, name), unread) = shapes::inode_and_entry(alloc, unread)?;
            let op = Op::Link {
                inode,
                parent,
                name,
            };
            Ok((op, unread))
        }
        13 => shapes::symlink_of(alloc, unread),
        14 => {
            let (inode, unread) = fields::u64_of(unread)?;
            Ok((Op::Readlink { inode }, unread))
        }
        15 => {
            let (inode, unread) = fields::u64_of(unread)?;
            Ok((Op::Open { inode }, unread))
        }
        _ => {
            let (handle, unread) = fields::u64_of(unread)?;
            Ok((Op::Release { handle }, unread))
        }
    }
}

/// From 17 to 24.
#[tactic(auto, unfolding(crate::specs::Operations::op_to_24))]
fn op_up_to_24(alloc: Global, code: u8, unread: Unread<'_>) -> Found<'_, Op>
    ensures { Gives (λ x. (x.0, rest_of x.1)) result (op_to_24 code (rest_of unread.entry)) }
{
    match code {
        17 => shapes::read_of(unread),
        18 => shapes::write_of(alloc, unread),
        19 => {
            let (handle, unread) = fields::u64_of(unread)?;
            Ok((Op::Fsync { handle }, unread))
        }
        20 => {
            let ((inode, after, max), unread) = shapes::inode_and_page(alloc, unread)?;
            Ok((Op::Readdir { inode, after, max }, unread))
        }
        21 => Ok((Op::Statfs, unread)),
        22 => shapes::setxattr_of(alloc, unread),
        23 => {
            let ((inode, name), unread) = shapes::inode_and_name(alloc, unread)?;
            Ok((Op::Getxattr { inode, name }, unread))
        }
        _ => {
            let ((inode, after, max), unread) = shapes::inode_and_page(alloc, unread)?;
            Ok((Op::Listxattr { inode, after, max }, unread))
        }
    }
}

/// From 25 to 33.
#[tactic(auto, unfolding(crate::specs::Operations::op_to_33))]
fn op_up_to_33(alloc: Global, code: u8, unread: Unread<'_>) -> Found<'_, Op>
    ensures { Gives (λ x. (x.0, rest_of x.1)) result (op_to_33 code (rest_of unread.entry)) }
{
    match code {
        25 => {
            let ((inode, name), unread) = shapes::inode_and_name(alloc, unread)?;
            Ok((Op::Removexattr { inode, name }, unread))
        }
        26 => {
            let ((source, parent, name), unread) = shapes::inode_and_entry(alloc, unread)?;
            let op = Op::CopyTree {
                source,
                parent,
                name,
            };
            Ok((op, unread))
        }
        27 => {
            let (inode, unread) = fields::u64_of(unread)?;
            Ok((Op::LockTree { inode }, unread))
        }
        28 => {
            let ((parent, name), unread) = shapes::inode_and_name(alloc, unread)?;
            Ok((Op::RemoveTree { parent, name }, unread))
        }
        29 => Ok((Op::FlushCache, unread)),
        30 => Ok((Op::UploadMeta, unread)),
        31 => {
            let (entries, unread) = fields::u32_of(unread)?;
            Ok((Op::CacheSize { entries }, unread))
        }
        32 => Ok((Op::Leave, unread)),
        _ => Ok((Op::Unmount, unread)),
    }
}

/// The fields behind the code of an operation.
#[tactic(auto, unfolding(crate::specs::Operations::op_behind))]
fn op_behind_code(alloc: Global, code: u8, unread: Unread<'_>) -> Found<'_, Op>
    ensures { Gives (λ x. (x.0, rest_of x.1)) result (op_behind code (rest_of unread.entry)) }
{
    match code {
        0..=8 => op_up_to_8(alloc, code, unread),
        9..=16 => op_up_to_16(alloc, code, unread),
        17..=24 => op_up_to_24(alloc, code, unread),
        _ => op_up_to_33(alloc, code, unread),
    }
}

/// An operation: its code, and the fields behind it.
#[tactic(auto, unfolding(crate::specs::Operations::op_field))]
pub fn op_of(alloc: Global, unread: Unread<'_>) -> Found<'_, Op>
    ensures { Gives (λ x. (x.0, rest_of x.1)) result (op_field.read (rest_of unread.entry)) }
{
    let (code, unread) = operation_of(unread)?;
    op_behind_code(alloc, code, unread)
}

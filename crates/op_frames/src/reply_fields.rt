//! The fields of replies that are more than a plain field.
ghost use Rattle.std.specs.Prelude.{◌≡◌};
ghost use Rattle.frame_fields.specs.Format.{Gives, items_of};
ghost use Rattle.frame_fields.specs.Fields.{short_name_field};
ghost use Rattle.frame_fields.specs.Unread.{rest_of};
ghost use Rattle.op_frames.specs.Replies.{attr_field, entry_field, entries_field, names_field, cause_field};

use crate::{Attr, Cause, DirEntry, DirEntryList, FrameFault, NameList};
use frame_fields::fields::{self, Found, Unread};
use std::alloc::Global;

pub fn attr_of(unread: Unread<'_>) -> Found<'_, Attr>
    ensures { Gives (λ x. (x.0, rest_of x.1)) result (attr_field.read (rest_of unread.entry)) }
{
    let (inode, unread) = fields::u64_of(unread)?;
    let (kind, unread) = fields::node_kind_of(unread)?;
    let (mode, unread) = fields::mode_of(unread)?;
    let (uid, unread) = fields::u32_of(unread)?;
    let (gid, unread) = fields::u32_of(unread)?;
    let (links, unread) = fields::u64_of(unread)?;
    let (size, unread) = fields::u64_of(unread)?;
    let (mtime, unread) = fields::u64_of(unread)?;
    let (ctime, unread) = fields::u64_of(unread)?;
    let (locked, unread) = fields::flag_of(unread)?;
    let attr = Attr {
        inode,
        kind,
        mode,
        uid,
        gid,
        links,
        size,
        mtime,
        ctime,
        locked,
    };
    Ok((attr, unread))
}

#[tactic(auto, unfolding(crate::specs::Replies::cause_field))]
pub fn cause_of(unread: Unread<'_>) -> Found<'_, Cause>
    ensures { Gives (λ x. (x.0, rest_of x.1)) result (cause_field.read (rest_of unread.entry)) }
{
    let (code, after) = fields::byte_of(unread)?;
    match code {
        1 => Ok((Cause::Link, after)),
        2 => Ok((Cause::Keeper, after)),
        3 => Ok((Cause::Disk, after)),
        4 => Ok((Cause::Memory, after)),
        _ => Err(FrameFault::Bad(unread.place)),
    }
}

fn entry_of(alloc: Global, unread: Unread<'_>) -> Found<'_, DirEntry>
    ensures { Gives (λ x. (x.0, rest_of x.1)) result (entry_field.read (rest_of unread.entry)) }
{
    let (inode, unread) = fields::u64_of(unread)?;
    let (kind, unread) = fields::node_kind_of(unread)?;
    let (name, unread) = fields::short_name_of(alloc, unread)?;
    Ok((DirEntry { inode, kind, name }, unread))
}

/// So many entries in a row.
fn entries_in_row(alloc: Global, count: u16, unread: Unread<'_>) -> Found<'_, DirEntryList>
    ensures { Gives (λ x. (x.0, rest_of x.1)) result (items_of entry_field count (rest_of unread.entry)) }
{
    let mut entries = DirEntryList::new(alloc);
    let mut rest = unread;
    for _taken in 0..count {
        let (entry, after) = entry_of(alloc, rest)?;
        entries.push(entry)?;
        rest = after;
    }
    Ok((entries, rest))
}

pub fn entries_of(alloc: Global, unread: Unread<'_>) -> Found<'_, DirEntryList>
    ensures { Gives (λ x. (x.0, rest_of x.1)) result (entries_field.read (rest_of unread.entry)) }
{
    let (count, unread) = fields::item_count_of(unread)?;
    entries_in_row(alloc, count, unread)
}

/// So many names in a row.
fn names_in_row(alloc: Global, count: u16, unread: Unread<'_>) -> Found<'_, NameList>
    ensures { Gives (λ x. (x.0, rest_of x.1)) result (items_of short_name_field count (rest_of unread.entry)) }
{
    let mut names = NameList::new(alloc);
    let mut rest = unread;
    for _taken in 0..count {
        let (name, after) = fields::short_name_of(alloc, rest)?;
        names.push(name)?;
        rest = after;
    }
    Ok((names, rest))
}

pub fn names_of(alloc: Global, unread: Unread<'_>) -> Found<'_, NameList>
    ensures { Gives (λ x. (x.0, rest_of x.1)) result (names_field.read (rest_of unread.entry)) }
{
    let (count, unread) = fields::item_count_of(unread)?;
    names_in_row(alloc, count, unread)
}

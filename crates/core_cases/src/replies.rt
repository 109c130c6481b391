//! Replies in words.

use case_words::{add_numbers, kind_word, numbers_behind};
use op_frames::{Attr, Cause, DirEntry, Reply};
use s3_base::ByteList;
use std::alloc::{AllocError, Global};

/// The inode, its kind, its mode in octal, the user, the group, how many links and bytes it has, and its two times.
fn attr_text(alloc: Global, attr: &Attr) -> Result<String, AllocError> {
    let (inode, kind, mode) = (attr.inode, kind_word(attr.kind), attr.mode);
    let numbers = [
        attr.uid as u64,
        attr.gid as u64,
        attr.links,
        attr.size,
        attr.mtime,
        attr.ctime,
    ];
    let mut text = format!(in alloc; "attr {inode} {kind} {mode:o}")?;
    add_numbers(&mut text, &numbers)?;
    if attr.locked {
        text.push_str(" locked")?;
    }
    Ok(text)
}

fn opened_text(alloc: Global, handle: u64, attr: &Attr) -> Result<String, AllocError> {
    let mut text = numbers_behind(alloc, "opened", &[handle])?;
    text.push(' ')?;
    text.push_str(attr_text(alloc, attr)?.as_str())?;
    Ok(text)
}

fn bytes_text(alloc: Global, bytes: &[u8]) -> Result<String, AllocError> {
    if bytes.is_empty() {
        return String::from_str(alloc, "no bytes");
    }
    let mut text = String::from_str(alloc, "bytes ")?;
    text.push_str(hex::encode(alloc, bytes)?.as_str())?;
    Ok(text)
}

/// The inode, kind and name of an entry.
fn entry_text(alloc: Global, entry: &DirEntry) -> Result<String, AllocError> {
    let (inode, kind) = (entry.inode, kind_word(entry.kind));
    let mut text = format!(in alloc; " {inode} {kind} ")?;
    text.push_str(hex::encode(alloc, entry.name.as_slice())?.as_str())?;
    Ok(text)
}

fn entries_text(alloc: Global, entries: &[DirEntry]) -> Result<String, AllocError> {
    if entries.is_empty() {
        return String::from_str(alloc, "no entries");
    }
    let mut text = String::from_str(alloc, "entries")?;
    for entry in entries {
        text.push_str(entry_text(alloc, entry)?.as_str())?;
    }
    Ok(text)
}

fn names_text(alloc: Global, names: &[ByteList]) -> Result<String, AllocError> {
    if names.is_empty() {
        return String::from_str(alloc, "no names");
    }
    let mut text = String::from_str(alloc, "names")?;
    for name in names {
        text.push(' ')?;
        text.push_str(hex::encode(alloc, name.as_slice())?.as_str())?;
    }
    Ok(text)
}

fn fault_word(cause: Cause) -> &'static str {
    match cause {
        Cause::Link => "fault link",
        Cause::Keeper => "fault keeper",
        Cause::Disk => "fault disk",
        Cause::Memory => "fault memory",
    }
}

/// The object, the digest that is kept, and the one that was found, if any.
fn lost_text(
    alloc: Global,
    object: u64,
    kept: &[u8; 32],
    got: &Option<[u8; 32]>,
) -> Result<String, AllocError> {
    let mut text = numbers_behind(alloc, "lost", &[object])?;
    text.push(' ')?;
    text.push_str(hex::encode(alloc, kept.as_slice())?.as_str())?;
    match got {
        Some(digest) => {
            text.push(' ')?;
            text.push_str(hex::encode(alloc, digest.as_slice())?.as_str())?;
        }
        None => text.push_str(" nothing")?,
    }
    Ok(text)
}

/// A reply in words.
pub fn reply_text(alloc: Global, reply: &Reply) -> Result<String, AllocError> {
    match reply {
        Reply::Done => String::from_str(alloc, "done"),
        Reply::Attr(attr) => attr_text(alloc, attr),
        Reply::Opened { handle, attr } => opened_text(alloc, *handle, attr),
        Reply::Bytes(bytes) => bytes_text(alloc, bytes.as_slice()),
        Reply::Count(count) => numbers_behind(alloc, "count", &[*count as u64]),
        Reply::Stat {
            block_size,
            inodes,
            entries,
            bytes,
        } => numbers_behind(
            alloc,
            "stat",
            &[*block_size as u64, *inodes, *entries, *bytes],
        ),
        Reply::Errno(errno) => numbers_behind(alloc, "errno", &[errno.0 as u64]),
        Reply::Fault(cause) => String::from_str(alloc, fault_word(*cause)),
        Reply::Entries(entries) => entries_text(alloc, entries.as_slice()),
        Reply::Names(names) => names_text(alloc, names.as_slice()),
        Reply::Lost { object, kept, got } => lost_text(alloc, *object, kept, got),
    }
}

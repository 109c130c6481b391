//! Replies within the field rules. A number behind a reference is known to fit its type once it is read, and so these
//! functions read each of them. They do nothing else.
ghost use Rattle.std.specs.Prelude.{◌≤◌, length, IsTrue};
ghost use Rattle.std.specs.List.{list_all};
ghost use Rattle.op_frames.specs.Answers.{is_short_name, has_short_name};
ghost use Rattle.op_frames.specs.Replies.{attr_field, entry_field, entries_field, errno_field, is_reply};
ghost use Rattle.op_frames.specs.Rules.{has_mode, has_fit_fields};

use crate::{Attr, DirEntry, DirEntryList, Reply};
use s3_base::Errno;

fn attr_is_within_rules(attr: &Attr)
    requires { IsTrue (has_mode attr.now) }
    ensures { IsTrue (attr_field.allows attr.now) }
{
    let _inode = attr.inode;
    let _uid = attr.uid;
    let _gid = attr.gid;
    let _links = attr.links;
    let _size = attr.size;
    let _mtime = attr.mtime;
    let _ctime = attr.ctime;
}

fn errno_is_within_rules(errno: &Errno)
    ensures { IsTrue (errno_field.allows errno.now) }
{
    let _number = errno.0;
}

fn entry_is_within_rules(entry: &DirEntry)
    requires { IsTrue (has_short_name entry.now) }
    ensures { IsTrue (entry_field.allows entry.now) }
{
    let _inode = entry.inode;
}

fn entries_are_within_rules(entries: &DirEntryList)
    requires few { length entries.now ≤ 256 }
    requires short { IsTrue (list_all has_short_name entries.now) }
    ensures { IsTrue (entries_field.allows entries.now) }
{
    for entry in entries.as_slice() {
        entry_is_within_rules(entry);
    }
}

/// A reply is within the field rules where its modes are, and its data short, as all else is by the types of its fields.
pub fn reply_is_within_rules(reply: &Reply)
    requires { IsTrue (has_fit_fields reply.now) }
    ensures { IsTrue (is_reply reply.now) }
{
    match reply {
        Reply::Attr(attr) => attr_is_within_rules(attr),
        Reply::Opened { handle, attr } => {
            let _handle = *handle;
            attr_is_within_rules(attr);
        }
        Reply::Count(count) => {
            let _count = *count;
        }
        Reply::Entries(entries) => entries_are_within_rules(entries),
        Reply::Stat {
            block_size,
            inodes,
            entries,
            bytes,
        } => {
            let _block_size = *block_size;
            let _inodes = *inodes;
            let _entries = *entries;
            let _bytes = *bytes;
        }
        Reply::Errno(errno) => errno_is_within_rules(errno),
        Reply::Lost { object, .. } => {
            let _object = *object;
        }
        Reply::Done => {}
        Reply::Bytes(_) => {}
        Reply::Names(_) => {}
        Reply::Fault(_) => {}
    }
}

//! Frames of operations, of replies and of a replay's answers.
ghost use Rattle.std.specs.Prelude.{◌≡◌, ◌++◌, ◌≤◌, ◌∷◌, length, IsTrue, IfOk, OnOk};
ghost use Rattle.std.specs.List.{list_all};
ghost use Rattle.op_frames.specs.declared.reply.Reply.TheVariants as replies;
ghost use Rattle.frame_fields.specs.Frames.{frame_of};
ghost use Rattle.op_frames.specs.Operations.{op_field, is_op};
ghost use Rattle.op_frames.specs.Replies.{attr_field, entry_field, entries_field, names_field, cause_field, reply_spelling};
ghost use Rattle.op_frames.specs.Answers.{is_short_name, has_short_name, has_short_data, reply_frame, answer_frame, bad_input_frame};

use crate::put_op::put_op;
use crate::{Attr, Cause, DirEntry, DirEntryList, NameList, Op, Reply};
use frame_fields::framing::frame_around;
use frame_fields::writers::{self, Put, put_u64};
use s3_base::ByteList;
use std::alloc::{AllocError, Global};

/// The tag of a replay's answer that holds a reply.
const REPLY: u8 = 1;

/// The tag of the answer at which the input is refused.
const BAD_INPUT: u8 = 27;

fn put_attr(out: &mut ByteList, attr: &Attr) -> Put
    ensures { OnOk result (out.new ≡ out.old ++ attr_field.spell attr.now) }
{
    put_u64(out, attr.inode)?;
    writers::put_node_kind(out, attr.kind)?;
    writers::put_mode(out, attr.mode)?;
    writers::put_u32(out, attr.uid)?;
    writers::put_u32(out, attr.gid)?;
    put_u64(out, attr.links)?;
    put_u64(out, attr.size)?;
    put_u64(out, attr.mtime)?;
    put_u64(out, attr.ctime)?;
    writers::put_flag(out, attr.locked)
}

fn put_names(out: &mut ByteList, names: &NameList) -> Put
    requires few { length names.now ≤ 256 }
    requires short { IsTrue (list_all is_short_name names.now) }
    ensures { OnOk result (out.new ≡ out.old ++ names_field.spell names.now) }
{
    writers::put_item_count(out, names.len() as u16)?;
    for name in names.as_slice() {
        writers::put_short_name(out, name)?;
    }
    Ok(())
}

fn put_entry(out: &mut ByteList, entry: &DirEntry) -> Put
    requires { length entry.now.name ≤ 255 }
    ensures { OnOk result (out.new ≡ out.old ++ entry_field.spell entry.now) }
{
    put_u64(out, entry.inode)?;
    writers::put_node_kind(out, entry.kind)?;
    writers::put_short_name(out, &entry.name)
}

fn put_entries(out: &mut ByteList, entries: &DirEntryList) -> Put
    requires few { length entries.now ≤ 256 }
    requires short { IsTrue (list_all has_short_name entries.now) }
    ensures { OnOk result (out.new ≡ out.old ++ entries_field.spell entries.now) }
{
    writers::put_item_count(out, entries.len() as u16)?;
    for entry in entries.as_slice() {
        put_entry(out, entry)?;
    }
    Ok(())
}

fn put_stat(out: &mut ByteList, block_size: u32, inodes: u64, entries: u64, bytes: u64) -> Put
    ensures { OnOk result (out.new ≡ out.old ++ reply_spelling (replies.Stat block_size inodes entries bytes)) }
{
    out.push(8)?;
    writers::put_u32(out, block_size)?;
    put_u64(out, inodes)?;
    put_u64(out, entries)?;
    put_u64(out, bytes)
}

#[tactic(auto, unfolding(crate::specs::Replies::cause_field))]
fn put_cause(out: &mut ByteList, cause: Cause) -> Put
    ensures { OnOk result (out.new ≡ out.old ++ cause_field.spell cause) }
{
    let code = match cause {
        Cause::Link => 1,
        Cause::Keeper => 2,
        Cause::Disk => 3,
        Cause::Memory => 4,
    };
    out.push(code)
}

fn put_lost(out: &mut ByteList, object: u64, kept: &[u8; 32], got: &Option<[u8; 32]>) -> Put
    ensures { OnOk result (out.new ≡ out.old ++ reply_spelling (replies.Lost object kept.now got.now)) }
{
    out.push(11)?;
    put_u64(out, object)?;
    writers::put_digest(out, kept)?;
    writers::put_digest_or_none(out, got)
}

fn put_reply(out: &mut ByteList, reply: &Reply) -> Put
    requires { IsTrue (has_short_data reply.now) }
    ensures { OnOk result (out.new ≡ out.old ++ reply_spelling reply.now) }
{
    match reply {
        Reply::Done => out.push(1),
        Reply::Attr(attr) => {
            out.push(2)?;
            put_attr(out, attr)
        }
        Reply::Opened { handle, attr } => {
            out.push(3)?;
            put_u64(out, *handle)?;
            put_attr(out, attr)
        }
        Reply::Bytes(bytes) => {
            out.push(4)?;
            writers::put_data(out, bytes)
        }
        Reply::Count(count) => {
            out.push(5)?;
            writers::put_u32(out, *count)
        }
        Reply::Entries(entries) => {
            out.push(6)?;
            put_entries(out, entries)
        }
        Reply::Names(names) => {
            out.push(7)?;
            put_names(out, names)
        }
        Reply::Stat {
            block_size,
            inodes,
            entries,
            bytes,
        } => put_stat(out, *block_size, *inodes, *entries, *bytes),
        Reply::Errno(errno) => {
            out.push(9)?;
            writers::put_u16(out, errno.0)
        }
        Reply::Fault(cause) => {
            out.push(10)?;
            put_cause(out, *cause)
        }
        Reply::Lost { object, kept, got } => put_lost(out, *object, kept, got),
    }
}

/// The frame of an operation, as a caller of a server sends it.
#[tactic(auto, unfolding(crate::specs::Operations::op_field))]
pub fn encode_op(alloc: Global, op: &Op) -> Result<ByteList, AllocError>
    requires { IsTrue (is_op op.now) }
    ensures { IfOk result (λ b. b ≡ frame_of op_field op.now) }
{
    let mut body = ByteList::new(alloc);
    put_op(&mut body, op)?;
    frame_around(alloc, &body)
}

/// The bare frame of a reply, as a server writes it.
#[tactic(auto, unfolding(crate::specs::Replies::reply_field))]
pub fn encode_reply(alloc: Global, reply: &Reply) -> Result<ByteList, AllocError>
    requires { IsTrue (has_short_data reply.now) }
    ensures { IfOk result (λ b. b ≡ reply_frame reply.now) }
{
    let mut body = ByteList::new(alloc);
    put_reply(&mut body, reply)?;
    frame_around(alloc, &body)
}

/// The answer frame of a reply, as a replay writes it.
pub fn encode_answer(alloc: Global, reply: &Reply) -> Result<ByteList, AllocError>
    requires { IsTrue (has_short_data reply.now) }
    ensures { IfOk result (λ b. b ≡ answer_frame reply.now) }
{
    let mut body = ByteList::new(alloc);
    body.push(REPLY)?;
    put_reply(&mut body, reply)?;
    frame_around(alloc, &body)
}

/// The last answer frame of a replay whose input is refused at a place.
pub fn encode_bad_input(alloc: Global, place: u64) -> Result<ByteList, AllocError>
    ensures { IfOk result (λ b. b ≡ bad_input_frame place) }
{
    let mut body = ByteList::new(alloc);
    body.push(BAD_INPUT)?;
    put_u64(&mut body, place)?;
    frame_around(alloc, &body)
}

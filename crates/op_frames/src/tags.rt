//! The reply behind each tag.
ghost use Rattle.std.specs.Prelude.{◌≡◌};
ghost use Rattle.frame_fields.specs.Format.{Gives, made};
ghost use Rattle.frame_fields.specs.Unread.{rest_of};
ghost use Rattle.op_frames.specs.declared.reply.Reply.TheVariants as replies;
ghost use Rattle.op_frames.specs.Replies.{opened_fields, stat_fields, lost_fields, reply_to_5, reply_to_11, reply_behind, reply_field};

use crate::Reply;
use crate::reply_fields::{attr_of, cause_of, entries_of, names_of};
use frame_fields::fields::{self, Found, Unread};
use s3_base::Errno;
use std::alloc::Global;

fn opened_of(unread: Unread<'_>) -> Found<'_, Reply>
    ensures { Gives (λ x. (x.0, rest_of x.1)) result (made (λ x. replies.Opened x.0 x.1) (opened_fields.read (rest_of unread.entry))) }
{
    let (handle, unread) = fields::u64_of(unread)?;
    let (attr, unread) = attr_of(unread)?;
    Ok((Reply::Opened { handle, attr }, unread))
}

fn stat_of(unread: Unread<'_>) -> Found<'_, Reply>
    ensures { Gives (λ x. (x.0, rest_of x.1)) result (made (λ x. replies.Stat x.0 x.1.0 x.1.1.0 x.1.1.1) (stat_fields.read (rest_of unread.entry))) }
{
    let (block_size, unread) = fields::u32_of(unread)?;
    let (inodes, unread) = fields::u64_of(unread)?;
    let (entries, unread) = fields::u64_of(unread)?;
    let (bytes, unread) = fields::u64_of(unread)?;
    let reply = Reply::Stat {
        block_size,
        inodes,
        entries,
        bytes,
    };
    Ok((reply, unread))
}

fn lost_of(unread: Unread<'_>) -> Found<'_, Reply>
    ensures { Gives (λ x. (x.0, rest_of x.1)) result (made (λ x. replies.Lost x.0 x.1.0 x.1.1) (lost_fields.read (rest_of unread.entry))) }
{
    let (object, unread) = fields::u64_of(unread)?;
    let (kept, unread) = fields::digest_of(unread)?;
    let (got, unread) = fields::digest_or_none_of(unread)?;
    Ok((Reply::Lost { object, kept, got }, unread))
}

/// The fields behind a tag from 1 to 5.
#[tactic(auto, unfolding(crate::specs::Replies::reply_to_5))]
fn reply_up_to_5(alloc: Global, tag: u8, unread: Unread<'_>) -> Found<'_, Reply>
    ensures { Gives (λ x. (x.0, rest_of x.1)) result (reply_to_5 tag (rest_of unread.entry)) }
{
    match tag {
        1 => Ok((Reply::Done, unread)),
        2 => {
            let (attr, unread) = attr_of(unread)?;
            Ok((Reply::Attr(attr), unread))
        }
        3 => opened_of(unread),
        4 => {
            let (bytes, unread) = fields::data_of(alloc, unread)?;
            Ok((Reply::Bytes(bytes), unread))
        }
        _ => {
            let (count, unread) = fields::u32_of(unread)?;
            Ok((Reply::Count(count), unread))
        }
    }
}

/// From 6 to 11.
#[tactic(auto, unfolding(crate::specs::Replies::reply_to_11))]
fn reply_up_to_11(alloc: Global, tag: u8, unread: Unread<'_>) -> Found<'_, Reply>
    ensures { Gives (λ x. (x.0, rest_of x.1)) result (reply_to_11 tag (rest_of unread.entry)) }
{
    match tag {
        6 => {
            let (entries, unread) = entries_of(alloc, unread)?;
            Ok((Reply::Entries(entries), unread))
        }
        7 => {
            let (names, unread) = names_of(alloc, unread)?;
            Ok((Reply::Names(names), unread))
        }
        8 => stat_of(unread),
        9 => {
            let (number, unread) = fields::u16_of(unread)?;
            Ok((Reply::Errno(Errno(number)), unread))
        }
        10 => {
            let (cause, unread) = cause_of(unread)?;
            Ok((Reply::Fault(cause), unread))
        }
        _ => lost_of(unread),
    }
}

#[tactic(auto, unfolding(crate::specs::Replies::reply_behind))]
fn reply_behind_tag(alloc: Global, tag: u8, unread: Unread<'_>) -> Found<'_, Reply>
    ensures { Gives (λ x. (x.0, rest_of x.1)) result (reply_behind tag (rest_of unread.entry)) }
{
    match tag {
        0..=5 => reply_up_to_5(alloc, tag, unread),
        _ => reply_up_to_11(alloc, tag, unread),
    }
}

/// A reply: its tag, and the fields behind it.
#[tactic(auto, unfolding(crate::specs::Replies::reply_field, crate::specs::Replies::reply_tag_field))]
pub fn reply_of(alloc: Global, unread: Unread<'_>) -> Found<'_, Reply>
    ensures { Gives (λ x. (x.0, rest_of x.1)) result (reply_field.read (rest_of unread.entry)) }
{
    let (tag, unread) = fields::u8_between(1, 11, unread)?;
    reply_behind_tag(alloc, tag, unread)
}

//! The frame around fields: its length in front, and its end.
ghost use Rattle.std.specs.Prelude.{◌≡◌, ◌<◌, ◌^◌, length, IfOk};
ghost use Rattle.frame_fields.specs.Format.{Gives};
ghost use Rattle.frame_fields.specs.Frames.{body_at, end_at, framed};
ghost use Rattle.frame_fields.specs.Unread.{rest_of};

use crate::FrameFault;
use crate::fields::{self, Unread};
use crate::writers::put_u32;
use s3_base::ByteList;
use std::alloc::{AllocError, Global};

/// The fields of the frame in front, behind its length.
#[tactic(auto, unfolding(crate::specs::Frames::length_field))]
pub fn body_of(bytes: &[u8]) -> Result<Unread<'_>, FrameFault>
    ensures { Gives rest_of result (body_at bytes.now) }
{
    let (length, unread) = fields::length_of(Unread {
        place: 0,
        end: 4,
        bytes,
    })?;
    Ok(Unread {
        place: 4,
        end: 4 + length as u64,
        bytes: unread.bytes,
    })
}

/// The frame's length, if its fields fill it.
pub fn end_of(unread: Unread<'_>) -> Result<usize, FrameFault>
    ensures { Gives (λ n. n) result (end_at (rest_of unread.entry)) }
{
    if unread.place < unread.end {
        return Err(FrameFault::Bad(unread.place));
    }
    Ok(unread.place as usize)
}

/// The frame around a body.
#[tactic(auto, unfolding(crate::specs::Fields::u32_field))]
pub fn frame_around(alloc: Global, body: &ByteList) -> Result<ByteList, AllocError>
    requires { length body.now < 2 ^ 32 }
    ensures { IfOk result (λ b. b ≡ framed body.now) }
{
    let mut out = ByteList::new(alloc);
    put_u32(&mut out, body.len() as u32)?;
    out.extend_from_slice(body.as_slice())?;
    Ok(out)
}

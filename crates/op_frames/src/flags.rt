//! Bytes that stand for something: the flag of a Setxattr, the code of an operation, the kind of a step.
ghost use Rattle.std.specs.Prelude.{◌≡◌};
ghost use Rattle.frame_fields.specs.Format.{Gives};
ghost use Rattle.frame_fields.specs.Unread.{rest_of};
ghost use Rattle.op_frames.specs.Operations.{set_flag_field, operation_field, kind_field};

use crate::{FrameFault, SetFlag};
use frame_fields::fields::{self, Found, Unread};

#[tactic(auto, unfolding(crate::specs::Operations::set_flag_field))]
pub fn set_flag_of(unread: Unread<'_>) -> Found<'_, SetFlag>
    ensures { Gives (λ x. (x.0, rest_of x.1)) result (set_flag_field.read (rest_of unread.entry)) }
{
    let (code, after) = fields::byte_of(unread)?;
    match code {
        0 => Ok((SetFlag::Any, after)),
        1 => Ok((SetFlag::New, after)),
        2 => Ok((SetFlag::Old, after)),
        _ => Err(FrameFault::Bad(unread.place)),
    }
}

#[tactic(auto, unfolding(crate::specs::Operations::operation_field))]
pub fn operation_of(unread: Unread<'_>) -> Found<'_, u8>
    ensures { Gives (λ x. (x.0, rest_of x.1)) result (operation_field.read (rest_of unread.entry)) }
{
    fields::u8_between(1, 33, unread)
}

#[tactic(auto, unfolding(crate::specs::Operations::kind_field))]
pub fn kind_of(unread: Unread<'_>) -> Found<'_, u8>
    ensures { Gives (λ x. (x.0, rest_of x.1)) result (kind_field.read (rest_of unread.entry)) }
{
    let (kind, after) = fields::byte_of(unread)?;
    match kind {
        1 | 18 => Ok((kind, after)),
        _ => Err(FrameFault::Bad(unread.place)),
    }
}

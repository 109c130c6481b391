//! Frames of operations, of calls and of replies, read from the front of some bytes.
ghost use Rattle.std.specs.Prelude.{◌≡◌, ◌+◌, ◌++◌, ◌≤◌, List, ℕ, length, take, IsTrue, IfOk, Ok};
ghost use Rattle.op_frames.specs.declared.operation.Op.{Op};
ghost use Rattle.op_frames.specs.declared.operation.Step.{Step};
ghost use Rattle.op_frames.specs.declared.reply.Reply.{Reply};
ghost use Rattle.op_frames.specs.declared.operation.Step.TheVariants.{Call};
ghost use Rattle.frame_fields.specs.Format.{Gives, made};
ghost use Rattle.op_frames.specs.Operations.{call_fields, op_field, step_behind, step_field, is_op, is_step};
ghost use Rattle.frame_fields.specs.Frames.{body_at, end_at, frame_of, read_frame, EndsInside, StandsInFront};
ghost use Rattle.op_frames.specs.Replay.{Replays};
ghost use Rattle.op_frames.specs.Replies.{reply_field, is_reply};
ghost use Rattle.frame_fields.specs.Unread.{rest_of};

use crate::codes::op_of;
use crate::flags::kind_of;
use crate::tags::reply_of;
use crate::{FrameFault, Op, Reply, Step};
use frame_fields::fields::{self, Found, Unread};
use frame_fields::framing::{body_of, end_of};
use std::alloc::Global;

fn call_of(alloc: Global, unread: Unread<'_>) -> Found<'_, Step>
    ensures { Gives (λ x. (x.0, rest_of x.1)) result (made (λ x. Call x.0 x.1.0 x.1.1) (call_fields.read (rest_of unread.entry))) }
{
    let (pass, unread) = fields::pass_of(unread)?;
    let (now, unread) = fields::time_of(unread)?;
    let (op, unread) = op_of(alloc, unread)?;
    Ok((Step::Call { pass, now, op }, unread))
}

/// The fields behind the kind of a step.
#[tactic(auto, unfolding(crate::specs::Operations::step_behind))]
fn step_behind_kind(alloc: Global, kind: u8, unread: Unread<'_>) -> Found<'_, Step>
    ensures { Gives (λ x. (x.0, rest_of x.1)) result (step_behind kind (rest_of unread.entry)) }
{
    match kind {
        18 => Ok((Step::End, unread)),
        _ => call_of(alloc, unread),
    }
}

#[tactic(auto, unfolding(crate::specs::Operations::step_field))]
fn step_of(alloc: Global, unread: Unread<'_>) -> Found<'_, Step>
    ensures { Gives (λ x. (x.0, rest_of x.1)) result (step_field.read (rest_of unread.entry)) }
{
    let (kind, unread) = kind_of(unread)?;
    step_behind_kind(alloc, kind, unread)
}

#[tactic(auto, unfolding(frame_fields::specs::Frames::read_frame))]
fn op_frame_of(alloc: Global, bytes: &[u8]) -> Result<(Op, usize), FrameFault>
    ensures { Gives (λ x. x) result (read_frame op_field bytes.now) }
{
    let body = body_of(bytes)?;
    let (op, rest) = op_of(alloc, body)?;
    let length = end_of(rest)?;
    Ok((op, length))
}

#[tactic(auto, unfolding(frame_fields::specs::Frames::read_frame))]
fn step_frame_of(alloc: Global, bytes: &[u8]) -> Result<(Step, usize), FrameFault>
    ensures { Gives (λ x. x) result (read_frame step_field bytes.now) }
{
    let body = body_of(bytes)?;
    let (step, rest) = step_of(alloc, body)?;
    let length = end_of(rest)?;
    Ok((step, length))
}

#[tactic(auto, unfolding(frame_fields::specs::Frames::read_frame))]
fn reply_frame_of(alloc: Global, bytes: &[u8]) -> Result<(Reply, usize), FrameFault>
    ensures { Gives (λ x. x) result (read_frame reply_field bytes.now) }
{
    let body = body_of(bytes)?;
    let (reply, rest) = reply_of(alloc, body)?;
    let length = end_of(rest)?;
    Ok((reply, length))
}

/// The operation whose frame, as a caller of a server sends it, stands in front, and the frame's length in bytes.
/// Bytes may follow it.
pub fn decode_op(alloc: Global, bytes: &[u8]) -> Result<(Op, usize), FrameFault>
    // What is read stands there, each byte of it, and is within the field rules.
    ensures found { IfOk result (λ x. StandsInFront op_field bytes.now x.0 x.1) }
    // What stands there is read, unless memory runs out.
    ensures only { (op : Op) (rest : List ℕ) → IsTrue (is_op op) → bytes.now ≡ frame_of op_field op ++ rest
        → Gives (λ x. x) result (Ok (op, length (frame_of op_field op))) }
    // Which fault it is: `Short` and `Bad` by the rule of fields, read from the left.
    ensures exact { Gives (λ x. x) result (read_frame op_field bytes.now) }
    // Bytes are missing only where they end before the frame does, and a fault lies in the longest frame.
    ensures short { result ≡ Err FrameFault.Short → EndsInside bytes.now }
    ensures near { (place : ℕ) → result ≡ Err (FrameFault.Bad place) → place ≤ 4 + 262144 }
{
    op_frame_of(alloc, bytes)
}

/// The step whose frame stands in front, and the frame's length in bytes. Bytes may follow it. Each other kind of
/// event is outside its rule.
pub fn decode_call(alloc: Global, bytes: &[u8]) -> Result<(Step, usize), FrameFault>
    // What is read stands there, each byte of it, and is within the field rules.
    ensures found { IfOk result (λ x. StandsInFront step_field bytes.now x.0 x.1) }
    // What stands there is read, unless memory runs out.
    ensures only { (step : Step) (rest : List ℕ) → IsTrue (is_step step) → bytes.now ≡ frame_of step_field step ++ rest
        → Gives (λ x. x) result (Ok (step, length (frame_of step_field step))) }
    // Which fault it is: `Short` and `Bad` by the rule of fields, read from the left.
    ensures exact { Gives (λ x. x) result (read_frame step_field bytes.now) }
    // Bytes are missing only where they end before the frame does, and a fault lies in the longest frame.
    ensures short { result ≡ Err FrameFault.Short → EndsInside bytes.now }
    ensures near { (place : ℕ) → result ≡ Err (FrameFault.Bad place) → place ≤ 4 + 262144 }
    // What a replay is whose input goes on with these bytes and then with others.
    ensures replay { (place : ℕ) (rest : List ℕ) → Replays result place bytes.now rest }
{
    step_frame_of(alloc, bytes)
}

/// The reply whose frame, as a server writes it, stands in front, and the frame's length in bytes. Bytes may follow it.
pub fn decode_reply(alloc: Global, bytes: &[u8]) -> Result<(Reply, usize), FrameFault>
    // What is read stands there, each byte of it, and is within the field rules.
    ensures found { IfOk result (λ x. StandsInFront reply_field bytes.now x.0 x.1) }
    // What stands there is read, unless memory runs out.
    ensures only { (reply : Reply) (rest : List ℕ) → IsTrue (is_reply reply) → bytes.now ≡ frame_of reply_field reply ++ rest
        → Gives (λ x. x) result (Ok (reply, length (frame_of reply_field reply))) }
    // Which fault it is: `Short` and `Bad` by the rule of fields, read from the left.
    ensures exact { Gives (λ x. x) result (read_frame reply_field bytes.now) }
    // Bytes are missing only where they end before the frame does, and a fault lies in the longest frame.
    ensures short { result ≡ Err FrameFault.Short → EndsInside bytes.now }
    ensures near { (place : ℕ) → result ≡ Err (FrameFault.Bad place) → place ≤ 4 + 262144 }
{
    reply_frame_of(alloc, bytes)
}

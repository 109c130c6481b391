//! The steps of a replay, read from a source.
ghost use Rattle.std.specs.Prelude.{◌≡◌, ◌+◌, ◌-◌, ◌<◌, ◌≤◌, ◌^◌, ℕ, length, Some, IfOk, IsErrOf};
ghost use Rattle.s3_base.specs.Faults.{HasRisen};
ghost use Rattle.s3_base.specs.Stream.{Stream};
ghost use Rattle.offline_tool.specs.Reading.{next_after, IsNext, IsOnward};

use crate::frames;
use op_frames::{FrameFault, Op, Step, decode_call};
use s3_base::Source;
use std::alloc::Global;

/// The most bytes of an input: the byte at this place is outside every rule.
const INPUT_LIMIT: u64 = 1 << 40;

/// What comes next in the input.
#[derive(Debug, Drop)]
pub enum Next {
    /// A call, and the place behind its frame.
    Call {
        pass: u64,
        now: u64,
        op: Op,
        behind: u64,
    },
    /// The end.
    End,
    /// The input is refused at this place.
    Refused(u64),
}

/// Why a replay stops before its input ends.
#[derive(Clone, Copy, Debug, PartialEq, Eq)]
pub enum Stop {
    /// The source or the sink has failed.
    Fault,
    /// There is no memory.
    Memory,
}

/// What a step is, whose frame ends before the place `behind`.
fn next_of(step: Step, behind: u64) -> Next
    ensures { result ≡ next_after step behind }
{
    match step {
        Step::Call { pass, now, op } => Next::Call {
            pass,
            now,
            op,
            behind,
        },
        Step::End => Next::End,
    }
}

/// The next step of an input whose next frame begins at `place`. `buffer` holds the longest frame, and keeps nothing.
pub fn next_step<S: Source>(
    alloc: Global,
    source: &mut S,
    buffer: &mut [u8],
    place: u64,
) -> Result<Next, Stop>
    requires buffer { length buffer.old ≡ 4 + 262144 }
    requires place { place ≤ 2 ^ 40 }
    ensures onward { IfOk result (IsOnward place) }
    ensures next { IfOk result (λ next. (s : Stream) → S.told source.old ≡ Some s
        → (t : Stream) × (S.told source.new ≡ Some t) × IsNext next place s t) }
    ensures later { S.faults source.old ≤ S.faults source.new }
    ensures fault { IsErrOf result Stop.Fault → HasRisen (S.faults source.old) (S.faults source.new) }
{
    let Ok(n) = frames::take_frame(source, buffer, INPUT_LIMIT - place) else {
        return Err(Stop::Fault);
    };
    match decode_call(alloc, &buffer[..n]) {
        Ok((step, length)) => Ok(next_of(step, place + length as u64)),
        Err(FrameFault::Bad(at)) => Ok(Next::Refused(place + at)),
        Err(FrameFault::Short) => Ok(Next::Refused(place + n as u64)),
        Err(FrameFault::Memory) => Err(Stop::Memory),
    }
}

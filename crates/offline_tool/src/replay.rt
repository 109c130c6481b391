//! A replay: calls are read one at a time, and each is answered before the next is read.
ghost use Rattle.std.specs.Prelude.{◌≡◌, ◌⊎◌, ◌+◌, ◌-◌, ◌<◌, ◌≤◌, ◌^◌, ◌++◌, ℕ, List, length, Some, IsTrue, OnOk, OnErr, IsErrOf};
ghost use Rattle.s3_base.specs.Faults.{HasRisen};
ghost use Rattle.s3_base.specs.Stream.{Stream, Appends, AppendsFront};
ghost use Rattle.op_frames.specs.Answers.{has_short_data, answer_frame, bad_input_frame};
ghost use Rattle.op_frames.specs.Replay.{replay_of};
ghost use Rattle.offline_tool.specs.Input.{replay_left};
ghost use Rattle.offline_tool.specs.Output.{EndsWith, HasVerdict};
ghost use Rattle.offline_tool.specs.Limits.{AreWithin};
ghost use Rattle.offline_tool.specs.Turns.{stopped_turn, IsStatus, IsTurn, HasFault, IsMidway, KeepsVerdict, KeepsOutput};

use crate::frames::MAX_FRAME;
use crate::reader::{self, Next, Stop};
use crate::served::{self, Served};
use crate::words::Limits;
use core_model::{
    contents_of_blocks_know_them, longer_runs_have_more_blocks, trees_on_the_way_occur,
};
use op_frames::{Reply, encode_answer, encode_bad_input};
use s3_base::{Sink, Source};
use std::alloc::Global;

/// The statuses of a replay.
const DONE: u8 = 0;

const FAULT: u8 = 1;

const NO_MEMORY: u8 = 3;

const BAD_INPUT: u8 = 4;

/// What one turn comes to: the place of the next frame, or the status with which the replay ends.
#[derive(Clone, Copy, Debug, PartialEq, Eq)]
pub enum Turn {
    On(u64),
    End(u8),
}

fn stopped(stop: Stop) -> Turn
    ensures { result ≡ stopped_turn stop }
{
    match stop {
        Stop::Fault => Turn::End(FAULT),
        Stop::Memory => Turn::End(NO_MEMORY),
    }
}

/// Writes the answer frame of a reply.
fn put_answer<T: Sink>(alloc: Global, sink: &mut T, reply: &Reply) -> Result<(), Stop>
    requires { IsTrue (has_short_data reply.now) }
    ensures ok { OnOk result (Appends (answer_frame reply.now) (T.written sink.old) (T.written sink.new)) }
    ensures err { OnErr result (AppendsFront (answer_frame reply.now) (T.written sink.old) (T.written sink.new)) }
    ensures later { T.faults sink.old ≤ T.faults sink.new }
    ensures fault { IsErrOf result Stop.Fault → HasRisen (T.faults sink.old) (T.faults sink.new) }
{
    let Ok(frame) = encode_answer(alloc, reply) else {
        return Err(Stop::Memory);
    };
    match sink.put(frame.as_slice()) {
        Ok(()) => Ok(()),
        Err(_) => Err(Stop::Fault),
    }
}

/// Writes the last answer frame, of an input that is refused at a place.
fn put_bad_input<T: Sink>(alloc: Global, sink: &mut T, place: u64) -> Result<(), Stop>
    ensures ok { OnOk result (Appends (bad_input_frame place) (T.written sink.old) (T.written sink.new)) }
    ensures err { OnErr result (AppendsFront (bad_input_frame place) (T.written sink.old) (T.written sink.new)) }
    ensures later { T.faults sink.old ≤ T.faults sink.new }
    ensures fault { IsErrOf result Stop.Fault → HasRisen (T.faults sink.old) (T.faults sink.new) }
{
    let Ok(frame) = encode_bad_input(alloc, place) else {
        return Err(Stop::Memory);
    };
    match sink.put(frame.as_slice()) {
        Ok(()) => Ok(()),
        Err(_) => Err(Stop::Fault),
    }
}

/// Reads the frame at `place`, and answers it.
fn take_turn<S: Source, T: Sink>(
    alloc: Global,
    served: &mut Served,
    source: &mut S,
    sink: &mut T,
    buffer: &mut [u8],
    place: u64,
) -> Turn
    requires buffer { length buffer.old ≡ 4 + 262144 }
    requires place { place ≤ 2 ^ 40 }
    ensures turn { IsTurn place result }
    ensures source_later { S.faults source.old ≤ S.faults source.new }
    ensures sink_later { T.faults sink.old ≤ T.faults sink.new }
    ensures fault { HasFault result (HasRisen (S.faults source.old) (S.faults source.new) ⊎ HasRisen (T.faults sink.old) (T.faults sink.new)) }
    ensures verdict { (s : Stream) → S.told source.old ≡ Some s
        → KeepsVerdict result (replay_left place s).verdict (S.told source.new) }
    ensures output { (s : Stream) (block_size : ℕ) (input before out : List ℕ) → S.told source.old ≡ Some s
        → T.written sink.old ≡ Some (before ++ out) → IsMidway block_size input served.old place (replay_left place s) out
        → KeepsOutput result block_size input served.new before (S.told source.new) (T.written sink.new) }
{
    longer_runs_have_more_blocks();
    trees_on_the_way_occur();
    contents_of_blocks_know_them();
    match reader::next_step(alloc, source, buffer, place) {
        Ok(
            Next::Call {
                pass,
                now,
                op,
                behind,
            },
        ) => {
            let reply = served::answer(served, pass, &op, now);
            match put_answer(alloc, sink, &reply) {
                Ok(()) => Turn::On(behind),
                Err(stop) => stopped(stop),
            }
        }
        Ok(Next::End) => Turn::End(DONE),
        Ok(Next::Refused(at)) => match put_bad_input(alloc, sink, at) {
            Ok(()) => Turn::End(BAD_INPUT),
            Err(stop) => stopped(stop),
        },
        Err(stop) => stopped(stop),
    }
}

/// Answers the calls of an input, from a file system that is made with these limits.
pub fn replay<S: Source, T: Sink>(
    alloc: Global,
    limits: &Limits,
    source: &mut S,
    sink: &mut T,
) -> u8
    requires { AreWithin limits.now }
    ensures status { IsStatus result }
    ensures fault { result ≡ 1 → HasRisen (S.faults source.old) (S.faults source.new) ⊎ HasRisen (T.faults sink.old) (T.faults sink.new) }
    ensures verdict { (s : Stream) → S.told source.old ≡ Some s → HasVerdict result (replay_of s.left).verdict }
    ensures output { (s : Stream) (before : List ℕ) → S.told source.old ≡ Some s → T.written sink.old ≡ Some before
        → (out : List ℕ) × (T.written sink.new ≡ Some (before ++ out)) × EndsWith limits.now.block_size s.left result out }
{
    let Ok(mut served) = served::open_made(alloc, limits.block_size, limits.slots) else {
        return NO_MEMORY;
    };
    let Ok(mut buffer) = vec![in alloc; 0u8; MAX_FRAME] else {
        return NO_MEMORY;
    };
    let mut place = 0;
    loop {
        match take_turn(alloc, &mut served, source, sink, &mut buffer, place) {
            Turn::On(behind) => place = behind,
            Turn::End(status) => return status,
        }
    }
}

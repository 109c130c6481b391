//! Frames and what they say. Each line of standard input is a case: its name, what is read (`op`, `call` or `reply`, or
//! `refused` for an input refused at a place), and bytes in hexadecimal, or the place, with bars between. For each case one
//! line is printed: the value, its length and the bytes that spell it again, or the fault with its place.
#![tactic(auto)]

ghost use Rattle.std.specs.Prelude.{IsTrue};
ghost use Rattle.op_frames.specs.Answers.{has_short_data};

use op_frames::{
    FrameFault, Reply, decode_call, decode_op, decode_reply, encode_answer, encode_bad_input,
    encode_op, encode_reply, replies_fit,
};
use std::alloc::Global;
use std::io;

fn fault_text(alloc: Global, fault: FrameFault) -> io::Result<String> {
    match fault {
        FrameFault::Short => Ok(format!(in alloc; "short")?),
        FrameFault::Bad(place) => Ok(format!(in alloc; "bad at {place}")?),
        FrameFault::Memory => Ok(format!(in alloc; "no memory")?),
    }
}

#[tactic(auto, unfolding(op_frames::specs::Operations::op_field))]
fn op_text(alloc: Global, bytes: &[u8]) -> io::Result<String> {
    match decode_op(alloc, bytes) {
        Ok((op, length)) => {
            let frame = encode_op(alloc, &op)?;
            let again = hex::encode(alloc, frame.as_slice())?;
            Ok(format!(in alloc; "{op:?}, {length} bytes, again {again}")?)
        }
        Err(fault) => fault_text(alloc, fault),
    }
}

fn call_text(alloc: Global, bytes: &[u8]) -> io::Result<String> {
    match decode_call(alloc, bytes) {
        Ok((step, length)) => Ok(format!(in alloc; "{step:?}, {length} bytes")?),
        Err(fault) => fault_text(alloc, fault),
    }
}

/// The reply with its length, and the bytes of its frame and of its answer frame.
fn spelled(alloc: Global, reply: &Reply, length: usize) -> io::Result<String>
    requires { IsTrue (has_short_data reply.now) }
{
    let frame = encode_reply(alloc, reply)?;
    let again = hex::encode(alloc, frame.as_slice())?;
    let answer = encode_answer(alloc, reply)?;
    let answered = hex::encode(alloc, answer.as_slice())?;
    Ok(format!(in alloc; "{reply:?}, {length} bytes, again {again}, answered {answered}")?)
}

#[tactic(auto, unfolding(op_frames::specs::Replies::reply_field))]
fn reply_text(alloc: Global, bytes: &[u8]) -> io::Result<String> {
    replies_fit();
    match decode_reply(alloc, bytes) {
        Ok((reply, length)) => spelled(alloc, &reply, length),
        Err(fault) => fault_text(alloc, fault),
    }
}

fn refused_text(alloc: Global, place: u64) -> io::Result<String> {
    let frame = encode_bad_input(alloc, place)?;
    Ok(hex::encode(alloc, frame.as_slice())?)
}

/// What is printed behind the name of a case.
fn answer(alloc: Global, kind: &str, text: &str) -> io::Result<String> {
    if kind == "refused" {
        return match text.parse::<u64>() {
            Ok(place) => refused_text(alloc, place),
            Err(_) => Ok(format!(in alloc; "no place")?),
        };
    }
    let Ok(bytes) = hex::decode(alloc, text) else {
        return Ok(format!(in alloc; "no hexadecimal text")?);
    };
    match kind {
        "op" => op_text(alloc, &bytes),
        "call" => call_text(alloc, &bytes),
        "reply" => reply_text(alloc, &bytes),
        _ => Ok(format!(in alloc; "no kind of case")?),
    }
}

/// The line that is printed for a case.
fn line_of(alloc: Global, line: &str) -> io::Result<String> {
    let Some((name, rest)) = line.split_once('|') else {
        return Ok(format!(in alloc; "no case")?);
    };
    let Some((kind, text)) = rest.split_once('|') else {
        return Ok(format!(in alloc; "no case")?);
    };
    let said = answer(alloc, kind, text)?;
    Ok(format!(in alloc; "{name}: {said}")?)
}

fn main(rt: HostRuntime) -> io::Result<()> {
    for line in rt.lines(rt.alloc()) {
        let text = line_of(rt.alloc(), line?.as_str())?;
        println!(rt; "{text}")?;
    }
    Ok(())
}

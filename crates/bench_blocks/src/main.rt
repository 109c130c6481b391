//! A program that only hashes, for timing beside the core: it takes a number, makes so many pieces of 131,072 bytes, all different,
//! hashes each by itself, and prints the digest of their digests.
#![tactic(auto)]

mod hashing;

use hashing::hash_pieces;
use std::env;
use std::process::ExitCode;
use std::rt::Runtime;

/// The status of words that are no number.
const BAD_WORDS: u8 = 2;

/// The status of want of memory.
const NO_MEMORY: u8 = 3;

/// How many bytes of a piece are the same in all of them: all but the eight of its number.
const REST: usize = 131_072 - 8;

/// The number that the one word of the command line gives.
fn count_of(rt: &(impl Runtime + AllocGlobal)) -> Option<u64> {
    let mut args = env::args(rt).ok()?.skip(1);
    let word = args.next()?;
    if args.next().is_some() {
        return None;
    }
    word.as_str().parse::<u64>().ok()
}

fn status_of(rt: &(impl Runtime + AllocGlobal)) -> u8 {
    let Some(count) = count_of(rt) else {
        return BAD_WORDS;
    };
    let alloc = rt.alloc();
    let mut rest = Vec::new(alloc);
    if rest.resize(REST, b'a').is_err() {
        return NO_MEMORY;
    }
    let digest = hash_pieces(rest.as_slice(), count);
    let Ok(text) = hex::encode(alloc, digest.as_slice()) else {
        return NO_MEMORY;
    };
    match println!(rt; "{text}") {
        Ok(()) => 0,
        Err(_) => 1,
    }
}

fn main(rt: HostRuntime) -> ExitCode {
    ExitCode::from(status_of(&rt))
}

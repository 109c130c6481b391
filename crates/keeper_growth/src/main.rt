//! A program that makes tables grow, for timing: it takes a number, commits so many batches of one row each to a keeper in
//! memory, looks each row up, and prints how many rows it found.
#![tactic(auto)]

ghost use Rattle.std.specs.Prelude.{◌≤◌, ◌^◌};
ghost use Rattle.std.specs.Option.{ForSome};

mod growth;

use growth::{MOST, grow};
use mem_keeper::MemKeeper;
use std::env;
use std::process::ExitCode;
use std::rt::Runtime;

/// The status of words that are no number of at most `MOST`.
const BAD_WORDS: u8 = 2;

/// The status of want of memory.
const NO_MEMORY: u8 = 3;

/// The number that the one word of the command line gives.
fn rows_of(rt: &(impl Runtime + AllocGlobal)) -> Option<u64>
    ensures { ForSome result (λ rows. rows ≤ 2 ^ 61) }
{
    let mut args = env::args(rt).ok()?.skip(1);
    let word = args.next()?;
    if args.next().is_some() {
        return None;
    }
    let rows = word.as_str().parse::<u64>().ok()?;
    if rows > MOST { None } else { Some(rows) }
}

fn status_of(rt: &(impl Runtime + AllocGlobal)) -> u8 {
    let Some(rows) = rows_of(rt) else {
        return BAD_WORDS;
    };
    let alloc = rt.alloc();
    let mut keeper = MemKeeper::new(alloc);
    let Ok(found) = grow(alloc, &mut keeper, rows) else {
        return NO_MEMORY;
    };
    match println!(rt; "{found}") {
        Ok(()) => 0,
        Err(_) => 1,
    }
}

fn main(rt: HostRuntime) -> ExitCode {
    ExitCode::from(status_of(&rt))
}

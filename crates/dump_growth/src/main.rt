//! A program that dumps and restores tables, for timing: it takes a number, makes tables of so many files with a block each, and
//! prints how many rows they have and how many bytes their dump. How long each step took goes to standard error, in nanoseconds.
#![tactic(auto)]

ghost use Rattle.std.specs.Prelude.{◌≤◌, ◌^◌};
ghost use Rattle.std.specs.Option.{ForSome};

mod growth;
mod measures;

use growth::MOST;
use measures::{Measured, Stop, measure};
use s3_base::StdClock;
use std::alloc::Global;
use std::process::ExitCode;
use std::rt::{self, Runtime};
use std::{env, io};

/// The status of words that are no number of at most `MOST`.
const BAD_WORDS: u8 = 2;

/// The status of want of memory.
const NO_MEMORY: u8 = 3;

/// The status of tables that are not restored as they were dumped.
const REFUSED: u8 = 4;

/// The number that the one word of the command line gives.
fn files_of(rt: &(impl Runtime + AllocGlobal)) -> Option<u64>
    ensures { ForSome result (λ files. files ≤ 2 ^ 60) }
{
    let mut args = env::args(rt).ok()?.skip(1);
    let word = args.next()?;
    if args.next().is_some() {
        return None;
    }
    let files = word.as_str().parse::<u64>().ok()?;
    if files > MOST { None } else { Some(files) }
}

/// Prints what was measured: the rows and the bytes, and on standard error the times.
fn print(rt: &(impl Runtime + AllocGlobal), measured: &Measured) -> io::Result<()> {
    let (rows, bytes) = (measured.rows, measured.bytes);
    println!(rt; "{rows} rows, {bytes} bytes")?;
    let (commits, pages) = (measured.commits, measured.pages);
    eprintln!(rt; "commits {commits}")?;
    eprintln!(rt; "pages {pages}")?;
    let (dump, read, restore) = (measured.dump, measured.read, measured.restore);
    eprintln!(rt; "dump {dump}")?;
    eprintln!(rt; "read {read}")?;
    eprintln!(rt; "restore {restore}")
}

fn status_of(rt: &(impl Runtime + AllocGlobal + rt::Clock)) -> u8 {
    let Some(files) = files_of(rt) else {
        return BAD_WORDS;
    };
    let mut clock = StdClock::new(rt);
    match measure(rt.alloc(), &mut clock, files) {
        Ok(measured) => match print(rt, &measured) {
            Ok(()) => 0,
            Err(_) => 1,
        },
        Err(Stop::Memory) => NO_MEMORY,
        Err(Stop::Refused) => REFUSED,
    }
}

fn main(rt: HostRuntime) -> ExitCode {
    ExitCode::from(status_of(&rt))
}

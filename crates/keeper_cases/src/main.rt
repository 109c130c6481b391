//! Worked cases of a keeper in memory. Each line of standard input is a case: its name, the numbers of the calls that fail, and
//! the steps, with bars between. For each case one line is printed: its name, and what comes of each step.
#![tactic(auto)]

mod given;
mod look_ups;
mod printing;
mod steps;

use crate::steps::step;
use case_words::{Case, add_outcome, case_of, line_for, numbers_of};
use mem_keeper::MemKeeper;
use s3_base::NumberList;
use std::alloc::{AllocError, Global};
use std::io;

/// Takes steps, and adds what comes of each to the line that is printed.
fn take_steps(
    alloc: Global,
    keeper: &mut MemKeeper,
    steps: &str,
    printed: &mut String,
) -> Result<(), AllocError> {
    for text in steps.split(';') {
        add_outcome(printed, step(alloc, keeper, text)?.as_str())?;
    }
    Ok(())
}

/// The same over an empty keeper, of which the listed calls fail. It goes at the one end of this function: a proof goes through all
/// its parts at each end.
fn begin(
    alloc: Global,
    fails: NumberList,
    steps: &str,
    printed: &mut String,
) -> Result<(), AllocError> {
    let mut keeper = MemKeeper::with_fails(alloc, fails);
    take_steps(alloc, &mut keeper, steps, printed)
}

/// The line that is printed for a case.
fn answered(alloc: Global, case: &Case<'_>) -> Result<String, AllocError> {
    let fails = numbers_of(alloc, case.fails)?;
    let mut printed = line_for(alloc, case)?;
    begin(alloc, fails, case.steps, &mut printed)?;
    Ok(printed)
}

/// The line that is printed for a line.
fn answer(alloc: Global, line: &str) -> Result<String, AllocError> {
    match case_of(line) {
        Some(case) => answered(alloc, &case),
        None => String::from_str(alloc, "no case"),
    }
}

fn main(rt: HostRuntime) -> io::Result<()> {
    for line in rt.lines(rt.alloc()) {
        let text = answer(rt.alloc(), line?.as_str())?;
        println!(rt; "{text}")?;
    }
    Ok(())
}

//! Worked cases of checks over a keeper and an object store in memory. Each line of standard input is a case: its name, the
//! numbers of the calls of the keeper and of the link that fail, with a slash between, and the steps, with bars between. For each case
//! one line is printed: its name, and what comes of each step.
#![tactic(auto)]

mod steps;
mod words;

use crate::steps::step;
use case_words::{Case, add_outcome, case_of, line_for, numbers_of};
use mem_keeper::MemKeeper;
use mem_link::MemLink;
use s3_base::NumberList;
use std::alloc::{AllocError, Global};
use std::io;

/// Takes steps, and adds what comes of each to the line that is printed.
fn take_steps(
    alloc: Global,
    keeper: &mut MemKeeper,
    link: &mut MemLink,
    steps: &str,
    printed: &mut String,
) -> Result<(), AllocError> {
    for text in steps.split(';') {
        add_outcome(printed, step(alloc, keeper, link, text)?.as_str())?;
    }
    Ok(())
}

/// The same over an empty keeper and an empty store, of which the listed calls fail.
fn begin(
    alloc: Global,
    keeper_fails: NumberList,
    link_fails: NumberList,
    steps: &str,
    printed: &mut String,
) -> Result<(), AllocError> {
    let mut keeper = MemKeeper::with_fails(alloc, keeper_fails);
    let mut link = MemLink::with_fails(alloc, link_fails);
    take_steps(alloc, &mut keeper, &mut link, steps, printed)
}

/// The line that is printed for a case.
fn answered(alloc: Global, case: &Case<'_>) -> Result<String, AllocError> {
    let mut printed = line_for(alloc, case)?;
    let (keeper_text, link_text) = match case.fails.split_once('/') {
        Some(parts) => parts,
        None => (case.fails, ""),
    };
    let keeper_fails = numbers_of(alloc, keeper_text)?;
    let link_fails = numbers_of(alloc, link_text)?;
    begin(alloc, keeper_fails, link_fails, case.steps, &mut printed)?;
    Ok(printed)
}

/// The line that is printed for a line.
fn answer(alloc: Global, line: &str) -> Result<String, AllocError> {
    match case_of(line) {
        Some(case) => answered(alloc, &case),
        None => String::from_str(alloc, "no case"),
    }
}

fn main(rt: HostRuntime) -> io::Result<()> {
    for line in rt.lines(rt.alloc()) {
        let text = answer(rt.alloc(), line?.as_str())?;
        println!(rt; "{text}")?;
    }
    Ok(())
}

//! Lines of cases.

use std::alloc::{AllocError, Global};

/// A case: its name, the numbers of the calls that fail, and its steps.
#[derive(Clone, Copy, Debug)]
pub struct Case<'a> {
    pub name: &'a str,
    pub fails: &'a str,
    pub steps: &'a str,
}

/// The case that a line has, with bars between its parts.
pub fn case_of(line: &str) -> Option<Case<'_>> {
    let (name, rest) = line.split_once('|')?;
    let (fails, steps) = rest.split_once('|')?;
    Some(Case { name, fails, steps })
}

/// The line that is printed for a case, as it begins.
pub fn line_for(alloc: Global, case: &Case<'_>) -> Result<String, AllocError> {
    let mut printed = String::from_str(alloc, case.name)?;
    printed.push(':')?;
    Ok(printed)
}

/// Adds what came of a step to the line that is printed for a case.
pub fn add_outcome(printed: &mut String, outcome: &str) -> Result<(), AllocError> {
    printed.push(' ')?;
    printed.push_str(outcome)?;
    printed.push(';')
}

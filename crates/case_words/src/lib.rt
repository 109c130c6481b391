//! What the programs that answer cases share: lines of cases, words, and numbers in words.
#![tactic(auto)]

mod cases;
mod printing;
mod words;

pub use cases::{Case, add_outcome, case_of, line_for};
pub use printing::{add_numbers, kind_word, numbers_behind};
pub use words::{Words, bytes_of, named, numbers_of, verb_of};

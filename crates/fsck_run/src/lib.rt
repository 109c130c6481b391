//! A check of a file system: it mends tables and store, and says what it found.
#![tactic(auto)]

mod doomed_keys;
mod fault;
mod laws;
mod listing;
mod pass_steps;
mod passes;
mod run;
mod stage;
mod stages;
mod start;

pub use fault::FsckFault;
pub use laws::{checks_end_clean, steps_make_the_check};
pub use run::check;
pub use stages::{Check, Stepped};

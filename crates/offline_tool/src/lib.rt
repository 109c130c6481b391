//! The commands that need no server: now `replay` alone.
#![tactic(auto)]

mod command;
mod frames;
mod reader;
mod replay;
mod served;
mod words;

pub use command::run;

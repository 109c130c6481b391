//! An object store in memory.
#![tactic(auto)]

mod link;
mod memory;
mod objects;
#[cfg(test)]
mod tests;

pub use memory::MemLink;

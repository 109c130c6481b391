//! A cache disk in memory.
#![tactic(auto)]

mod bytes;
mod disk;
mod memory;
#[cfg(test)]
mod tests;

pub use memory::MemDisk;

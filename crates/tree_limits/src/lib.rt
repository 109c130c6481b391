//! When a count is at its end, in words of the tree.
#![tactic(auto)]

mod blocks;
mod copies;
mod names;

pub use blocks::worn_blocks_are_full;
pub use copies::worn_copies_are_full;
pub use names::worn_names_are_full;

//! The rows of the metadata tables as rows of an SQLite file, and back.
#![tactic(auto)]

mod blocks;
mod faults;
mod fields;
mod inodes;
mod names;
mod params;
#[cfg(test)]
mod tests;

pub use blocks::{
    block_of, block_values, inode_block_of, inode_block_values, object_of, object_values, slot_of,
    slot_values,
};
pub use faults::fault_of;
pub use fields::{bytes_in, number_in, text_in};
pub use inodes::{inode_of, inode_values};
pub use names::{
    attr_of, attr_values, content_of, content_values, name_of, name_values, target_of,
    target_values,
};
pub use params::{params_of, params_values};

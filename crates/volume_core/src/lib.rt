//! The core of the file system: names, attributes, lengths and places of files are rows behind a keeper, their bytes lie as blocks
//! behind a link, and open handles in memory.
#![tactic(auto)]

mod data;
mod laws;
mod opening;
mod operations;
mod refusal;
mod row_core;
mod rows;
mod stats;

pub use inode_ops::RowStats;
pub use laws::made_tables_are_ready;
pub use row_core::{OpenFault, RowCore};

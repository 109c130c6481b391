//! Rows of tables by their keys, found by halving.
#![tactic(auto)]

mod kinds;
mod search;
mod tables;

pub use kinds::{has_directory_at, has_file_at, has_inode_at, has_link_at};
pub use search::{Row, row_of};
pub use tables::{block_of, inode_of, name_of, object_of, target_of};

//! Plans of the operations on one inode, on handles and on the whole file system.
#![tactic(auto)]

mod answers;
mod attributes;
mod counting;
mod handles_of;
mod laws;
mod plans;
mod reading;
mod row_stats;
mod statfs;
mod symlink;
mod xattrs;

pub use laws::names_count_their_uses;
pub use plans::plan;
pub use row_stats::{RowStats, stats};

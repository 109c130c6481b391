//! Plans of the operations on entries of directories.
#![tactic(auto)]

mod create;
mod emptiness;
pub mod entries;
mod link;
mod lookup;
mod mkdir;
mod moved_entry;
mod moves;
pub mod new_entry;
pub mod old_entry;
pub mod old_link;
pub mod places;
mod plans;
mod readdir;
mod rename;
mod rmdir;
mod unlink;
pub mod upward;

pub use plans::plan;

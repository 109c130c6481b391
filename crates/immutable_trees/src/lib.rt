//! Trees that are made immutable, and removed.
#![tactic(auto)]

mod laws;
mod lock;
mod plans;
mod removal;
mod taken;
mod uproot;
mod walk;

pub use laws::{locked_trees_are_steps, removed_trees_are_steps};
pub use lock::lock_batch;
pub use plans::plan;
pub use removal::remove_batch;

//! What a check found and did, a line each, and what a pass of a check gives.
#![tactic(auto)]

mod finding;
mod in_use;
mod laws;
mod line;
mod looking;
mod repair;

pub use finding::{Finding, Numbered};
pub use in_use::{free_block, free_inode, free_name};
pub use laws::findings_worked_by_hand;
pub use looking::{Look, look_at_all};
pub use repair::{Findings, PassFault, Repair};

//! An object store in memory whose calls never fail.
#![tactic(auto)]

mod link;
mod steady;

pub use steady::SteadyLink;

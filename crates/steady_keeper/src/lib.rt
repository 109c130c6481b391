//! A store of the metadata tables in memory whose calls never fail.
#![tactic(auto)]

mod keeper;
mod steady;

pub use steady::SteadyKeeper;

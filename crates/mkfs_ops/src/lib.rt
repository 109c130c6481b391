//! A file system is made: its first generation is stored, and then its tables are committed.
#![tactic(auto)]

mod existing;
mod fault;
mod first_tables;
mod laws;
mod making;
mod settings;

pub use fault::MakeFault;
pub use laws::{first_dumps_are_short, made_stores_have_one_generation};
pub use making::make;
pub use settings::Settings;

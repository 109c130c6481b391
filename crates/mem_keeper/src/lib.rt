//! A store of the metadata tables in memory.
#![tactic(auto)]

mod calls;
mod commit;
mod filing;
mod filings;
mod holders;
mod index;
mod indexes;
mod keeper;
mod keyed;
mod lists;
mod look_ups;
mod memory;
mod named;
mod pages;
mod store;
mod table;

pub use memory::MemKeeper;

//! Generations of the metadata in the object store: stored, listed, taken away and restored.
#![tactic(auto)]

mod changed_rows;
mod generations;
mod laws;
mod numbers;
mod replacing;
mod restore_fault;
mod restoring;
mod stored;
mod survey;

pub use generations::{newest, rotate};
pub use laws::{keys_read_by_hand, numbers_have_one_key, rotations_take_old_generations};
pub use numbers::{generation_of, object_of};
pub use restore_fault::RestoreFault;
pub use restoring::{replace_tables, restore};
pub use stored::{Dump, DumpReceipt, store_generation, take_dump};

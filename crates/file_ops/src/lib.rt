//! The bytes of files, in the object store and in rows: what reads and writes one object, what loads, reads and changes the blocks of
//! a file, and what puts new blocks and lets places name them.
#![tactic(auto)]

mod changing;
mod file_fault;
mod laws;
mod load_fault;
mod loading;
mod new_block;
mod objects;
mod place;
mod placing;
mod reading;
mod resolving;
mod stored;
#[cfg(test)]
mod tests;
mod writing;

pub use changing::{resize_file, write_file};
pub use file_fault::FileFault;
pub use laws::files_of_valid_tables;
pub use load_fault::LoadFault;
pub use loading::load;
pub use new_block::NewBlock;
pub use placing::place_blocks;
pub use reading::read;
pub use stored::{fetch, store};
pub use writing::{resized_blocks, written_blocks};

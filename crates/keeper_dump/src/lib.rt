//! The dump of the metadata tables: a list of bytes that tables are stored as, and read from again.
#![tactic(auto)]

mod fault;
mod fields;
mod keeper_tables;
mod kept_rows;
mod laws;
mod pages;
mod put_fields;
mod reading;
mod rows;
mod table;
mod writing;

pub use fault::DumpFault;
pub use keeper_tables::{read_rows_beside, read_tables};
pub use laws::{dumps_read_back, made_dumps_are_short};
pub use reading::read_dump;
pub use writing::dump;

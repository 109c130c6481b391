//! What steps of rows make of the bytes of files.
#![tactic(auto)]

mod files;
mod lengths;
mod names;
mod prepared;
mod shared;
mod stats;

pub use files::changed_files_have_their_bytes;
pub use lengths::{
    changes_of_places_are_of_blocks, files_take_other_lengths, lengths_leave_forms,
    orders_do_not_matter,
};
pub use names::operations_on_names_keep_bytes;
pub use prepared::prepared_tables_keep_bytes;
pub use shared::shared_blocks_keep_bytes;
pub use stats::{
    blocks_of_exact_tables_have_rows, counts_of_exact_tables, places_of_files_are_counted,
    same_bytes_make_as_many_blocks,
};

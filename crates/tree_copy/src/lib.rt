//! Copies of trees.
#![tactic(auto)]

mod bytes;
mod entries;
mod files;
mod fits;
mod laws;
mod name_fits;
mod names;
mod places;
mod plans;
mod progress;
mod rows;
mod source;
mod walk;

pub use bytes::{
    copied_trees_keep_bytes, copied_trees_keep_waiting_bytes, copied_trees_make_no_blocks,
};
pub use entries::{CopySpot, copy_visit};
pub use fits::{places_fit_by_the_tree, places_fit_by_their_counts};
pub use laws::{
    batches_of_copies_grow_at_their_ends, copied_names_leave_valid_tables, copied_trees_are_steps,
    copies_use_legal_names, copy_walks_come_to_all, directories_and_single_links_are_seen_first,
    partial_copies_come_to_be_whole, walks_go_on_node_by_node,
};
pub use name_fits::names_fit_by_their_counts;
pub use names::copy_attrs;
pub use places::copy_places;
pub use plans::copy_batch;
pub use rows::{copy_entry, copy_node};
pub use source::copy_source;

//! What a core is to its tree: the blocks that occur along its calls, the bytes that rows and contents have, which blocks a call
//! changes, and what the object store holds.
#![tactic(auto)]

mod bytes;
mod changes;
mod forms;
mod occurring;
mod safe;
mod worked;

pub use bytes::{
    exact_spots_agree, shown_pieces_may_be_resized, spots_that_show_the_same_agree_alike,
    tables_have_the_bytes_of_their_tree,
};
pub use changes::other_blocks_are_left;
pub use forms::{forms_are_links_and_blocks, forms_follow_links, unnamed_blocks_leave_forms};
pub use occurring::{
    contents_of_blocks_know_them, longer_runs_have_more_blocks, trees_on_the_way_occur,
};
pub use safe::{held_blocks_rest_on_their_objects, prepared_tables_stay_valid};
pub use worked::blocks_worked_by_hand;

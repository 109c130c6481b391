//! Laws of the plain tree: what shows that its definitions are right. Each is the contract of a function without a body.
#![tactic(auto)]

mod changes;
mod copies;
mod directories;
mod entries;
mod files;
mod growing;
mod limits;
mod locks;
mod names;
mod numbers;
mod removals;
mod renames;
mod replies;
mod well_formed;

pub use changes::changes_stay_in_one_node;
pub use copies::{copies_are_copies, copy_is_a_copy, sides_stay_apart};
pub use directories::{
    directories_lie_below_their_parents, directories_stay_one_tree, orphans_stay_open_files,
};
pub use entries::{entries_name_nodes, names_stay_legal, renamed_to_itself_is_as_before};
pub use files::{truncated_is_cut, unwritten_files_keep_their_bytes, written_is_read};
pub use growing::names_of_inodes_grow_by_one;
pub use limits::limits_stay;
pub use locks::{
    locked_entries_stay, locked_nodes_refuse, locked_nodes_stay, locked_trees_stay,
    locked_trees_stay_along_runs,
};
pub use names::names_stay_in_order;
pub use numbers::nodes_stay_in_order;
pub use removals::{reached_removal_removes_what_it_names, removal_removes_what_it_names};
pub use renames::{
    reached_renames_move_one_entry, renamed_moves_one_entry, renamed_stays_one_tree,
};
pub use replies::replies_have_modes;
pub use well_formed::{made_trees_are_well_formed, well_formed_trees_stay_well_formed};

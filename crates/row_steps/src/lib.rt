//! What each change of rows makes of the counts that tables owe, and of the tree that they represent. Each law is the
//! contract of a function without a body.
#![tactic(auto)]

mod debts;
mod entries;
mod renames;
mod steps;
mod trees;

pub use debts::{
    attributes_are_uses, drawn_numbers_are_free, dropped_inodes_owe_no_link,
    entries_are_links_and_uses, lowered_names_owe_no_use, new_inodes_owe_a_link,
    other_rows_owe_what_they_count, raised_names_owe_a_use,
    tables_that_owe_nothing_have_the_premises, targets_owe_nothing, valid_tables_owe_nothing,
};
pub use entries::{
    attributes_that_go_owe_nothing, entries_that_come_are_owed_links, entries_that_go_owe_a_link,
    inodes_that_go_owe_nothing, unlinked_inodes_count_one_link_less,
};
pub use renames::renames_are_steps;
pub use steps::{
    left_files_are_steps, links_are_steps, new_directories_are_steps, new_files_are_steps,
    new_rows_are_found, old_directories_are_steps, old_files_are_steps, old_links_are_steps,
    removed_attributes_are_steps, set_attributes_are_steps, symlinks_are_steps,
    tables_after_operations_are_valid,
};
pub use trees::{
    attributes_are_attributes, entries_are_entries, holders_are_parents, name_rows_leave_the_tree,
    rows_are_nodes, rows_of_no_node_leave_the_tree,
};

//! The tree that tables stand for, and laws of it. Each law is the contract of a function without a body.
#![tactic(auto)]

mod made;
mod valid;
mod well_formed;

pub use made::{made_tables_are_the_made_tree, tables_represent_their_tree};
pub use valid::{stored_counts_are_link_counts, valid_tables_have_one_tree};
pub use well_formed::{
    named_tables_open_as_a_well_formed_tree, unique_names_are_apart_in_directories,
    valid_from_a_well_formed_tree, valid_tables_have_a_well_formed_tree,
    valid_tables_have_the_premises,
};

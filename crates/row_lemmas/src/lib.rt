//! Laws of batches of changes, and lemmas on lists of rows by key, which all crates above share.
#![tactic(auto)]

mod laws;

pub use laws::{
    absent_deletes_change_nothing, batches_join, batches_keep_order, changes_may_be_repeated,
    commits_are_folded,
};

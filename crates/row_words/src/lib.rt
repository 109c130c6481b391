//! Rows and batches of changes from words, for programs that answer cases.
#![tactic(auto)]

mod changes;
mod fields;

pub use changes::{batch_of, name_row, params_of};
pub use fields::Fields;

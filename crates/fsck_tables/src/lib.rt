//! The passes of a check on rows and on counts.
#![tactic(auto)]

mod blocks;
mod count_pass;
mod counted;
mod counting;
mod laws;
mod numbers;
mod row_pass;
mod sizes;
mod strays;
mod tally;

pub use count_pass::counts;
pub use laws::{
    blocks_are_sound, counts_are_listed, numbers_are_raised, sizes_are_right, strays_go,
    whole_rows_stay,
};
pub use row_pass::rows;

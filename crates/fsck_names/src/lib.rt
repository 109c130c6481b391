//! The passes of a check on names and on losses: entries, loops of directories, the root and `lost+found`, and places of files.
#![tactic(auto)]

mod drops;
mod each;
mod edits;
mod entry_tests;
mod inode_steps;
mod laws;
mod look_ups;
mod loss_pass;
mod lost_places;
mod moves;
mod names;
mod numbers;
mod parents;
mod roots;
mod twins;

pub use laws::{
    batches_worked_by_hand, drops_worked_by_hand, losses_worked_by_hand, roots_worked_by_hand,
    worn_passes,
};
pub use loss_pass::losses;
pub use names::pass;

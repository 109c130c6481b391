//! Reference counts that change together with the rows that name others: each call reads a row as the keeper would hold it
//! after the batch so far, and adds changes to the batch. Beside them stands what the plans of operations share: open handles,
//! the attributes of a row, and the plan itself.
#![tactic(auto)]

mod attr;
mod handles;
mod links;
mod lowered;
mod names;
mod pending;
mod places;
mod plan;
mod removal;

pub use attr::attr_of;
pub use handles::{Handle, Handles};
pub use links::{count_block, relink};
pub use lowered::name_down;
pub use names::name_up;
pub use pending::pending_inode;
pub use places::{drop_gone_links, drop_links};
pub use plan::{Plan, answer};
pub use removal::drop_file;

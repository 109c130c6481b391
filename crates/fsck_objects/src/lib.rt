//! The passes of a check on objects and on the store.
#![tactic(auto)]

mod laws;
mod listed;
mod missing_pass;
mod next_object;
mod store_pass;

pub use laws::{
    missing_objects_go, next_object_is_raised, whole_stores_stay, worked_stores_are_cleared,
};
pub use missing_pass::missing;
pub use next_object::raise_next_object;
pub use store_pass::{StoreRepair, store};

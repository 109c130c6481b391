//! The plain file tree: what every reply of the file system is compared with. The definitions stand in `specs/`.
#![tactic(auto)]

pub mod laws;
pub mod more_rows;
pub mod rows;

//! The devices of a machine: an object store that is a folder, and a cache disk that is a file. They tell no content: what files hold
//! is trusted.
#![tactic(auto)]

mod dir_link;
mod file_disk;
mod keys;
mod listing;
mod refused;
#[cfg(test)]
mod tests;

pub use dir_link::DirLink;
pub use file_disk::FileDisk;

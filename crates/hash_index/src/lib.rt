//! Blocks by their digests: the digest of bytes, and the block that has a digest.
#![tactic(auto)]

mod index;
#[cfg(test)]
mod tests;

pub use index::{digest, find};

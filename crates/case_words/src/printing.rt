//! Numbers and kinds in words.

use s3_base::Kind;
use std::alloc::{AllocError, Global};
use std::fmt::Write;

/// The word for a kind of inode.
pub fn kind_word(kind: Kind) -> &'static str {
    match kind {
        Kind::Directory => "directory",
        Kind::Regular => "file",
        Kind::Link => "link",
    }
}

/// Adds numbers, each behind a space.
pub fn add_numbers(text: &mut String, numbers: &[u64]) -> Result<(), AllocError> {
    for number in numbers {
        write!(text, " {number}")?;
    }
    Ok(())
}

/// Numbers behind a word.
pub fn numbers_behind(alloc: Global, word: &str, numbers: &[u64]) -> Result<String, AllocError> {
    let mut text = String::from_str(alloc, word)?;
    add_numbers(&mut text, numbers)?;
    Ok(text)
}

//! Keys of the object store, as a list of them gives them.
use s3_base::{ByteList, Sequence};

/// A key, and how many bytes it holds.
#[derive(Debug, Drop)]
pub struct KeyItem {
    pub key: ByteList,
    pub len: u64,
}

pub type KeyList = Sequence<KeyItem>;

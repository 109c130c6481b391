//! Steps over the store alone.

use crate::words::link_word;
use case_words::{bytes_of, verb_of};
use mem_link::MemLink;
use metadata_backup::{newest, rotate};
use s3_base::ByteList;
use s3_devices::{KeyList, Link};
use std::alloc::{AllocError, Global};
use std::fmt::Write;

/// How many keys are listed at most.
const MOST: u32 = 256;

/// Keys, each with the number of bytes that it holds.
fn keys_text(alloc: Global, keys: &KeyList) -> Result<String, AllocError> {
    let count = keys.len();
    let mut text = format!(in alloc; "{count}")?;
    for item in keys.as_slice() {
        let key = String::from_utf8_lossy(alloc, item.key.as_slice())?;
        let len = item.len;
        write!(text, ", {key} {len}")?;
    }
    Ok(text)
}

/// Says which keys there are.
pub fn say_keys(alloc: Global, link: &mut MemLink) -> Result<String, AllocError> {
    match link.list(&ByteList::new(alloc), MOST) {
        Ok(keys) => keys_text(alloc, &keys),
        Err(fault) => String::from_str(alloc, link_word(fault)),
    }
}

/// Holds bytes under a key, which is no call of the link.
pub fn hold(alloc: Global, link: &mut MemLink, text: &str) -> Result<&'static str, AllocError> {
    let (key, bytes) = verb_of(text);
    let (Some(key), Some(bytes)) = (bytes_of(alloc, key)?, bytes_of(alloc, bytes)?) else {
        return Ok("no bytes");
    };
    if key.len() > 1024 {
        return Ok("no key");
    }
    link.hold(ByteList::from(key), ByteList::from(bytes))?;
    Ok("held")
}

/// Says which generation is the newest.
pub fn say_newest(alloc: Global, link: &mut MemLink) -> Result<String, AllocError> {
    match newest(alloc, link) {
        Ok(Some(number)) => format!(in alloc; "{number}"),
        Ok(None) => String::from_str(alloc, "none"),
        Err(fault) => String::from_str(alloc, link_word(fault)),
    }
}

/// Takes old generations away, and says how many.
pub fn say_rotated(
    alloc: Global,
    link: &mut MemLink,
    last_done: u64,
    keep: u64,
) -> Result<String, AllocError> {
    match rotate(alloc, link, last_done, keep) {
        Ok(count) => format!(in alloc; "{count} gone"),
        Err(fault) => String::from_str(alloc, link_word(fault)),
    }
}

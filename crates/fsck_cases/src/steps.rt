//! The steps of a case.

use crate::words::{fsck_text, keeper_word, link_word};
use case_words::{bytes_of, verb_of};
use fsck_findings::Findings;
use fsck_run::check;
use keeper_dump::{read_dump, read_tables};
use mem_keeper::MemKeeper;
use mem_link::MemLink;
use metadata_backup::replace_tables;
use s3_base::ByteList;
use s3_devices::{KeyList, Link};
use s3_rows::{State, Tables};
use std::alloc::{AllocError, Global};
use std::fmt::Write;

/// How many keys are listed at most.
const MOST: u32 = 256;

/// Puts tables in place of those of the keeper.
fn put_tables(alloc: Global, keeper: &mut MemKeeper, tables: Tables) -> &'static str {
    let params = tables.params;
    match replace_tables(alloc, keeper, tables, params) {
        Ok(()) => "put",
        Err(fault) => keeper_word(fault),
    }
}

/// Puts the tables of a dump, which is in hexadecimal, in place of those of the keeper.
fn put_dump(alloc: Global, keeper: &mut MemKeeper, text: &str) -> Result<&'static str, AllocError> {
    let Some(bytes) = bytes_of(alloc, text)? else {
        return Ok("no bytes");
    };
    match read_dump(alloc, bytes.as_slice()) {
        Ok(tables) => Ok(put_tables(alloc, keeper, tables)),
        Err(_) => Ok("no dump"),
    }
}

/// Holds bytes under a key, which is no call of the link.
fn hold(alloc: Global, link: &mut MemLink, text: &str) -> Result<&'static str, AllocError> {
    let (key, bytes) = verb_of(text);
    let (Some(key), Some(bytes)) = (bytes_of(alloc, key)?, bytes_of(alloc, bytes)?) else {
        return Ok("no bytes");
    };
    if key.len() > 1024 {
        return Ok("no key");
    }
    link.hold(ByteList::from(key), ByteList::from(bytes))?;
    Ok("held")
}

/// The lines of a check with commas between.
fn findings_text(alloc: Global, findings: &Findings) -> Result<String, AllocError> {
    let count = findings.len();
    if count == 0 {
        return String::from_str(alloc, "clean");
    }
    let mut text = format!(in alloc; "findings {count}")?;
    for line in findings.as_slice() {
        let line = String::from_utf8_lossy(alloc, line.as_slice())?;
        write!(text, ", {line}")?;
    }
    Ok(text)
}

/// Checks the file system, and says what was found.
fn say_checked(
    alloc: Global,
    keeper: &mut MemKeeper,
    link: &mut MemLink,
) -> Result<String, AllocError> {
    match check(alloc, keeper, link) {
        Ok(findings) => findings_text(alloc, &findings),
        Err(fault) => fsck_text(alloc, fault),
    }
}

/// Keys, each with the number of bytes that it holds.
fn keys_text(alloc: Global, keys: &KeyList) -> Result<String, AllocError> {
    let count = keys.len();
    let mut text = format!(in alloc; "{count}")?;
    for item in keys.as_slice() {
        let key = String::from_utf8_lossy(alloc, item.key.as_slice())?;
        let len = item.len;
        write!(text, ", {key} {len}")?;
    }
    Ok(text)
}

/// Says which keys there are.
fn say_keys(alloc: Global, link: &mut MemLink) -> Result<String, AllocError> {
    match link.list(&ByteList::new(alloc), MOST) {
        Ok(keys) => keys_text(alloc, &keys),
        Err(fault) => String::from_str(alloc, link_word(fault)),
    }
}

/// The number of a state.
fn state_number(state: State) -> u32 {
    match state {
        State::Clean => 0,
        State::Mounted => 1,
        State::Restored => 2,
    }
}

/// The state, the numbers that come next, and how many rows the first six tables have.
fn tables_text(alloc: Global, tables: &Tables) -> Result<String, AllocError> {
    let params = tables.params;
    let state = state_number(params.state);
    let (inode, name) = (params.next_inode, params.next_name);
    let (block, object) = (params.next_block, params.next_object);
    let mut text = format!(in alloc; "state {state} next {inode} {name} {block} {object} rows")?;
    write!(text, " {}", tables.inodes.len())?;
    write!(text, " {}", tables.names.len())?;
    write!(text, " {}", tables.contents.len())?;
    write!(text, " {}", tables.inode_blocks.len())?;
    write!(text, " {}", tables.blocks.len())?;
    write!(text, " {}", tables.objects.len())?;
    Ok(text)
}

/// Says what the tables are.
fn say_tables(alloc: Global, keeper: &mut MemKeeper) -> Result<String, AllocError> {
    match read_tables(alloc, keeper) {
        Ok(Some(tables)) => tables_text(alloc, &tables),
        Ok(None) => String::from_str(alloc, "none"),
        Err(fault) => String::from_str(alloc, keeper_word(fault)),
    }
}

/// Takes a step, and says what comes of it.
pub fn step(
    alloc: Global,
    keeper: &mut MemKeeper,
    link: &mut MemLink,
    text: &str,
) -> Result<String, AllocError> {
    let (verb, rest) = verb_of(text);
    match verb {
        "tables" => String::from_str(alloc, put_dump(alloc, keeper, rest)?),
        "hold" => String::from_str(alloc, hold(alloc, link, rest)?),
        "check" => say_checked(alloc, keeper, link),
        "keys" => say_keys(alloc, link),
        "say" => say_tables(alloc, keeper),
        _ => String::from_str(alloc, "no step"),
    }
}

//! The steps of a case.

use crate::settings::settings_of;
use crate::stores::{hold, say_keys, say_newest, say_rotated};
use crate::tables::{change, changed_word, say_dump, say_params};
use crate::words::{keeper_word, link_word, make_word, restore_text};
use case_words::{numbers_of, verb_of};
use keeper_dump::read_tables;
use mem_keeper::MemKeeper;
use mem_link::MemLink;
use metadata_backup::{restore, store_generation, take_dump};
use mkfs_ops::make;
use s3_rows::Tables;
use std::alloc::{AllocError, Global};

/// The number at a place, and 0 where there is none.
fn number_at(numbers: &[u64], place: usize) -> u64 {
    match numbers.get(place) {
        Some(number) => *number,
        None => 0,
    }
}

/// Makes a file system.
fn say_made(
    alloc: Global,
    keeper: &mut MemKeeper,
    link: &mut MemLink,
    numbers: &[u64],
) -> &'static str {
    let Some(settings) = settings_of(numbers) else {
        return "no settings";
    };
    match make(alloc, keeper, link, &settings) {
        Ok(()) => "made",
        Err(fault) => make_word(fault),
    }
}

/// Restores a generation.
fn say_restored(
    alloc: Global,
    keeper: &mut MemKeeper,
    link: &mut MemLink,
    generation: u64,
) -> Result<String, AllocError> {
    match restore(alloc, keeper, link, generation) {
        Ok(()) => String::from_str(alloc, "restored"),
        Err(fault) => restore_text(alloc, fault),
    }
}

/// Stores the dump of tables, and says its generation; of a dump that comes back also its bytes.
fn store(alloc: Global, link: &mut MemLink, tables: &Tables) -> Result<String, AllocError> {
    let dump = take_dump(alloc, tables)?;
    match store_generation(alloc, link, dump) {
        Ok(receipt) => {
            let generation = receipt.generation;
            format!(in alloc; "stored {generation}")
        }
        Err((dump, fault)) => {
            let (word, generation, bytes) = (link_word(fault), dump.generation, dump.bytes.len());
            format!(in alloc; "{word}, back {generation} of {bytes}")
        }
    }
}

/// Stores the tables.
fn say_stored(
    alloc: Global,
    keeper: &mut MemKeeper,
    link: &mut MemLink,
) -> Result<String, AllocError> {
    match read_tables(alloc, keeper) {
        Ok(Some(tables)) => store(alloc, link, &tables),
        Ok(None) => String::from_str(alloc, "none"),
        Err(fault) => String::from_str(alloc, keeper_word(fault)),
    }
}

/// Takes a step over tables or store alone.
fn small_step(
    alloc: Global,
    keeper: &mut MemKeeper,
    link: &mut MemLink,
    verb: &str,
    numbers: &[u64],
) -> Result<String, AllocError> {
    let first = number_at(numbers, 0);
    match verb {
        "begin" => String::from_str(alloc, changed_word(change(alloc, keeper, Some(first)))),
        "mount" => String::from_str(alloc, changed_word(change(alloc, keeper, None))),
        "params" => say_params(alloc, keeper),
        "dump" => say_dump(alloc, keeper),
        "keys" => say_keys(alloc, link),
        "newest" => say_newest(alloc, link),
        "rotate" => say_rotated(alloc, link, first, number_at(numbers, 1)),
        _ => String::from_str(alloc, "no step"),
    }
}

/// Takes a step, and says what comes of it.
pub fn step(
    alloc: Global,
    keeper: &mut MemKeeper,
    link: &mut MemLink,
    text: &str,
) -> Result<String, AllocError> {
    let (verb, rest) = verb_of(text);
    let numbers = numbers_of(alloc, rest)?;
    match verb {
        "make" => String::from_str(alloc, say_made(alloc, keeper, link, numbers.as_slice())),
        "restore" => say_restored(alloc, keeper, link, number_at(numbers.as_slice(), 0)),
        "store" => say_stored(alloc, keeper, link),
        "hold" => String::from_str(alloc, hold(alloc, link, rest)?),
        _ => small_step(alloc, keeper, link, verb, numbers.as_slice()),
    }
}

//! The steps of a case.

use crate::given::keeper_of;
use crate::look_ups::look_up;
use crate::printing::fault_word;
use case_words::verb_of;
use mem_keeper::MemKeeper;
use row_words::batch_of;
use s3_rows::{Batch, Keeper};
use std::alloc::{AllocError, Global};

fn committed(keeper: &mut MemKeeper, batch: &Batch) -> &'static str {
    match keeper.commit(batch) {
        Ok(()) => "committed",
        Err(fault) => fault_word(fault),
    }
}

/// Commits the changes in a text.
fn commit(alloc: Global, keeper: &mut MemKeeper, text: &str) -> Result<&'static str, AllocError> {
    match batch_of(alloc, text)? {
        Some(batch) => Ok(committed(keeper, &batch)),
        None => Ok("no batch"),
    }
}

/// Puts another keeper in place.
fn give(alloc: Global, keeper: &mut MemKeeper, text: &str) -> Result<&'static str, AllocError> {
    match keeper_of(alloc, text)? {
        Some(given) => {
            *keeper = given;
            Ok("given")
        }
        None => Ok("no tables"),
    }
}

/// Takes a step, and says what comes of it.
pub fn step(alloc: Global, keeper: &mut MemKeeper, text: &str) -> Result<String, AllocError> {
    let (verb, rest) = verb_of(text);
    match verb {
        "commit" => String::from_str(alloc, commit(alloc, keeper, rest)?),
        "given" => String::from_str(alloc, give(alloc, keeper, rest)?),
        _ => look_up(alloc, keeper, text),
    }
}

//! Steps over the tables alone.

use crate::words::keeper_word;
use case_words::add_numbers;
use keeper_dump::{dump, read_tables};
use mem_keeper::MemKeeper;
use s3_base::LIMIT;
use s3_rows::{Batch, Change, Keeper, KeeperFault, Params, State, Tables};
use std::alloc::{AllocError, Global};
use std::fmt::Write;

fn state_word(state: State) -> &'static str {
    match state {
        State::Clean => "clean",
        State::Mounted => "mounted",
        State::Restored => "restored",
    }
}

/// The parameters in words.
fn params_text(alloc: Global, params: &Params) -> Result<String, AllocError> {
    let (block_size, slots, state) = (params.block_size, params.slots, state_word(params.state));
    let mut text = format!(in alloc; "{block_size} {slots} {state}")?;
    let numbers = [
        params.next_inode,
        params.next_name,
        params.next_block,
        params.next_object,
        params.generation,
        params.last_done,
    ];
    add_numbers(&mut text, &numbers)?;
    Ok(text)
}

/// Says which parameters there are.
pub fn say_params(alloc: Global, keeper: &mut MemKeeper) -> Result<String, AllocError> {
    match keeper.params() {
        Ok(Some(params)) => params_text(alloc, &params),
        Ok(None) => String::from_str(alloc, "none"),
        Err(fault) => String::from_str(alloc, keeper_word(fault)),
    }
}

/// The dump of the tables in hexadecimal.
fn dump_text(alloc: Global, tables: &Tables) -> Result<String, AllocError> {
    let bytes = dump(alloc, tables)?;
    hex::encode(alloc, bytes.as_slice())
}

/// Says what the dump of the tables is.
pub fn say_dump(alloc: Global, keeper: &mut MemKeeper) -> Result<String, AllocError> {
    match read_tables(alloc, keeper) {
        Ok(Some(tables)) => dump_text(alloc, &tables),
        Ok(None) => String::from_str(alloc, "none"),
        Err(fault) => String::from_str(alloc, keeper_word(fault)),
    }
}

/// The parameters with another generation, where they may have it.
fn with_generation(params: &Params, generation: u64) -> Option<Params> {
    let last_done = params.last_done;
    if generation < last_done || generation >= LIMIT {
        return None;
    }
    Some(Params {
        revision: params.revision,
        block_size: params.block_size,
        slots: params.slots,
        state: params.state,
        next_inode: params.next_inode,
        next_name: params.next_name,
        next_block: params.next_block,
        next_object: params.next_object,
        generation,
        last_done,
    })
}

/// The parameters of tables that are served.
fn mounted(params: &Params) -> Params {
    Params {
        revision: params.revision,
        block_size: params.block_size,
        slots: params.slots,
        state: State::Mounted,
        next_inode: params.next_inode,
        next_name: params.next_name,
        next_block: params.next_block,
        next_object: params.next_object,
        generation: params.generation,
        last_done: params.last_done,
    }
}

/// Commits parameters.
fn set(alloc: Global, keeper: &mut MemKeeper, params: Params) -> Result<(), KeeperFault> {
    let mut batch = Batch::new(alloc);
    batch.push(Change::SetParams(params))?;
    keeper.commit(&batch)
}

/// The parameters that a step puts in place of these.
fn changed(params: &Params, generation: Option<u64>) -> Option<Params> {
    match generation {
        Some(generation) => with_generation(params, generation),
        None => Some(mounted(params)),
    }
}

/// Begins a generation, or without one mounts the tables. It says whether there were parameters to change.
pub fn change(
    alloc: Global,
    keeper: &mut MemKeeper,
    generation: Option<u64>,
) -> Result<bool, KeeperFault> {
    let Some(params) = keeper.params()? else {
        return Ok(false);
    };
    let Some(params) = changed(&params, generation) else {
        return Ok(false);
    };
    set(alloc, keeper, params)?;
    Ok(true)
}

/// Says whether parameters were changed.
pub fn changed_word(outcome: Result<bool, KeeperFault>) -> &'static str {
    match outcome {
        Ok(true) => "set",
        Ok(false) => "not set",
        Err(fault) => keeper_word(fault),
    }
}

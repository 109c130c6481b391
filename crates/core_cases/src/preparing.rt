//! Steps before a core is opened: what is changed in the keeper, and what is counted there.
ghost use Rattle.s3_rows.specs.Rows.{IsText};

use case_words::{bytes_of, named, verb_of};
use mem_keeper::MemKeeper;
use op_checks::check_attribute_name;
use ref_counts::name_up;
use row_words::batch_of;
use s3_base::ByteList;
use s3_rows::{Batch, Change, Keeper, KeeperFault, Params, State, made_batch};
use std::alloc::{AllocError, Global};

/// The size of a block in bytes, the slots of the cache disk, and the time of the making.
const BLOCK_SIZE: u32 = 4096;

const SLOTS: u32 = 8;

const MADE_AT: u64 = 0;

const STATES: &[(&str, State)] = &[
    ("clean", State::Clean),
    ("mounted", State::Mounted),
    ("restored", State::Restored),
];

fn commit(keeper: &mut MemKeeper, batch: &Batch) -> &'static str {
    match keeper.commit(batch) {
        Ok(()) => "committed",
        Err(_) => "not committed",
    }
}

/// Commits that the file system is in a state.
fn put_state(
    alloc: Global,
    keeper: &mut MemKeeper,
    word: &str,
) -> Result<&'static str, AllocError> {
    let Some(state) = named(STATES, word) else {
        return Ok("no state");
    };
    let Ok(Some(params)) = keeper.params() else {
        return Ok("no parameters");
    };
    let mut batch = Batch::new(alloc);
    batch.push(Change::SetParams(Params { state, ..params }))?;
    Ok(commit(keeper, &batch))
}

/// One more use of a name. Nothing is said of it here, so that proofs of what prints it have nothing to go through.
fn used(
    keeper: &mut MemKeeper,
    batch: &mut Batch,
    name: &ByteList,
) -> Result<Option<u64>, KeeperFault>
    requires { IsText 255 name.now }
{
    name_up(keeper, batch, name)
}

/// The id of one more use of a name in an empty batch, and how many changes say so.
fn use_name(alloc: Global, keeper: &mut MemKeeper, word: &str) -> Result<String, AllocError> {
    let Some(bytes) = bytes_of(alloc, word)? else {
        return String::from_str(alloc, "no name");
    };
    let name = ByteList::from(bytes);
    if check_attribute_name(&name).is_err() {
        return String::from_str(alloc, "no name");
    }
    let mut batch = Batch::new(alloc);
    match used(keeper, &mut batch, &name) {
        Ok(Some(id)) => {
            let changes = batch.as_slice().len();
            format!(in alloc; "name {id} changes {changes}")
        }
        Ok(None) => String::from_str(alloc, "worn"),
        Err(_) => String::from_str(alloc, "fault"),
    }
}

/// Commits the tables of a new file system.
fn make(alloc: Global, keeper: &mut MemKeeper) -> Result<&'static str, AllocError> {
    let batch = made_batch(alloc, BLOCK_SIZE, SLOTS, MADE_AT)?;
    Ok(commit(keeper, &batch))
}

/// Commits the changes in a text, whatever they make of the tables.
fn commit_rows(
    alloc: Global,
    keeper: &mut MemKeeper,
    text: &str,
) -> Result<&'static str, AllocError> {
    match batch_of(alloc, text)? {
        Some(batch) => Ok(commit(keeper, &batch)),
        None => Ok("no batch"),
    }
}

/// What comes of a step: `make`, `commit` with its changes, `state` with its word, or `use` with a name.
pub fn prepare(alloc: Global, keeper: &mut MemKeeper, text: &str) -> Result<String, AllocError> {
    let (verb, word) = verb_of(text);
    match verb {
        "make" => String::from_str(alloc, make(alloc, keeper)?),
        "commit" => String::from_str(alloc, commit_rows(alloc, keeper, word)?),
        "state" => String::from_str(alloc, put_state(alloc, keeper, word)?),
        "use" => use_name(alloc, keeper, word),
        _ => String::from_str(alloc, "not mounted"),
    }
}

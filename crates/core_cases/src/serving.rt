//! The steps of a case.
ghost use Rattle.std.specs.Prelude.{◌<◌, ◌^◌, IsTrue};
ghost use Rattle.op_frames.specs.Operations.{is_op};

use crate::calls::frame_of;
use crate::preparing::prepare;
use crate::replies::reply_text;
use case_words::{bytes_of, numbers_behind, verb_of};
use mem_keeper::MemKeeper;
use mem_link::MemLink;
use op_frames::{Op, Reply, Step, decode_call};
use s3_base::ByteList;
use s3_rows::KeeperFault;
use std::alloc::{AllocError, Global};
use std::mem;
use volume_core::{OpenFault, RowCore, RowStats};

/// The keeper of a case, until a core is opened over it.
#[derive(Drop)]
pub enum Served {
    Shut(MemKeeper),
    Open(RowCore<MemKeeper>),
}

fn fault_words(fault: OpenFault) -> &'static str {
    match fault {
        OpenFault::NoFileSystem => "no file system",
        OpenFault::Unclean => "unclean",
        OpenFault::Keeper => "fault keeper",
        OpenFault::Memory => "fault memory",
    }
}

/// Opens a core. A keeper on which none is opened is handed back.
fn mount(alloc: Global, keeper: MemKeeper) -> (Served, &'static str) {
    match RowCore::open(alloc, keeper) {
        Ok(core) => (Served::Open(core), "mounted"),
        Err((keeper, fault)) => (Served::Shut(keeper), fault_words(fault)),
    }
}

/// The reply of the core. Nothing is said of it here, so that proofs of what prints it have nothing to go through.
fn answered(
    core: &mut RowCore<MemKeeper>,
    link: &mut MemLink,
    pass: u64,
    op: &Op,
    now: u64,
) -> Reply
    requires op { IsTrue (is_op op.now) }
    requires now { now < 2 ^ 62 }
{
    core.answer(pass, op, now, link)
}

/// The reply to a call in words.
fn call(
    alloc: Global,
    core: &mut RowCore<MemKeeper>,
    link: &mut MemLink,
    text: &str,
) -> Result<String, AllocError> {
    let frame = frame_of(alloc, text)?;
    match decode_call(alloc, &frame) {
        Ok((Step::Call { pass, now, op }, _)) => {
            reply_text(alloc, &answered(core, link, pass, &op, now))
        }
        _ => String::from_str(alloc, "no call"),
    }
}

/// The numbers of the core's tables. Nothing is said of them here, so that proofs of what prints them have nothing to go through.
fn counted(core: &mut RowCore<MemKeeper>) -> Result<RowStats, KeeperFault> {
    core.stats()
}

/// The numbers of the tables in words: inodes, entries, links to blocks, blocks, objects, and those that no block has.
fn stats_text(alloc: Global, core: &mut RowCore<MemKeeper>) -> Result<String, AllocError> {
    match counted(core) {
        Ok(stats) => numbers_behind(
            alloc,
            "stats",
            &[
                stats.inodes,
                stats.entries,
                stats.links,
                stats.blocks,
                stats.objects,
                stats.free,
            ],
        ),
        Err(_) => String::from_str(alloc, "fault"),
    }
}

/// The longest key that a step may name, in bytes.
const LONGEST_KEY: usize = 64;

/// Puts other bytes under a key of the store, behind the core's back.
fn hold(alloc: Global, link: &mut MemLink, words: &str) -> Result<&'static str, AllocError> {
    let (key, word) = verb_of(words);
    if key.len() > LONGEST_KEY {
        return Ok("no key");
    }
    let Some(bytes) = bytes_of(alloc, word)? else {
        return Ok("no bytes");
    };
    link.hold(
        ByteList::from_slice(alloc, key.as_bytes())?,
        ByteList::from(bytes),
    )?;
    Ok("held")
}

/// Takes a step, and says what comes of it.
pub fn step(
    alloc: Global,
    served: &mut Served,
    link: &mut MemLink,
    text: &str,
) -> Result<String, AllocError> {
    if let ("hold", words) = verb_of(text) {
        return String::from_str(alloc, hold(alloc, link, words)?);
    }
    match served {
        Served::Open(core) => match text.trim_ascii() {
            "stats" => stats_text(alloc, core),
            _ => call(alloc, core, link, text),
        },
        Served::Shut(keeper) => {
            if text.trim_ascii() != "mount" {
                return prepare(alloc, keeper, text);
            }
            let (next, outcome) = mount(alloc, mem::replace(keeper, MemKeeper::new(alloc)));
            *served = next;
            String::from_str(alloc, outcome)
        }
    }
}

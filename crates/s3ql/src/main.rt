//! `s3ql`: the program over the process's own streams.
#![tactic(auto)]

use offline_tool::run;
use s3_base::{ByteList, StdSink, StdSource, WordList};
use std::env;
use std::io::{self, BufReader};
use std::process::ExitCode;
use std::rt::Runtime;

/// The status of words that are of no command.
const BAD_WORDS: u8 = 2;

/// The status of want of memory.
const NO_MEMORY: u8 = 3;

/// One line for each command.
const USAGE: &str = "usage: s3ql replay B CACHE SLOTS\n";

/// The words behind the program's name, or the status where there are none to be had: one is no UTF-8, or there is no
/// memory.
fn words_of(rt: &(impl Runtime + AllocGlobal)) -> Result<WordList, u8> {
    let alloc = rt.alloc();
    let args = match env::args(rt) {
        Ok(args) => args,
        Err(error) if error.kind() == io::ErrorKind::OutOfMemory => return Err(NO_MEMORY),
        Err(_) => return Err(BAD_WORDS),
    };
    let mut words = WordList::new(alloc);
    for arg in args.skip(1) {
        let Ok(word) = ByteList::from_slice(alloc, arg.as_bytes()) else {
            return Err(NO_MEMORY);
        };
        if words.push(word).is_err() {
            return Err(NO_MEMORY);
        }
    }
    Ok(words)
}

/// Runs the words over standard input and output.
fn status_of(rt: &(impl Runtime + AllocGlobal)) -> u8 {
    let alloc = rt.alloc();
    let words = match words_of(rt) {
        Ok(words) => words,
        Err(status) => return status,
    };
    let Ok(reader) = BufReader::new(alloc, rt.reader()) else {
        return NO_MEMORY;
    };
    let mut source = StdSource::new(reader);
    let mut sink = StdSink::new(io::writer(rt));
    run(alloc, &words, &mut source, &mut sink)
}

fn main(rt: HostRuntime) -> ExitCode {
    let status = status_of(&rt);
    if status == BAD_WORDS {
        let _ = rt.eprint(USAGE);
    }
    ExitCode::from(status)
}

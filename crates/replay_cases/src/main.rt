//! Replays of worked inputs. Each line of standard input is a case: the words of a command, what fails, and the input in
//! hexadecimal, with bars between. For each case one line is printed: the status, and what was written in hexadecimal.
#![tactic(auto)]

ghost use Rattle.std.specs.Prelude.{None};

use offline_tool::run;
use s3_base::{ByteList, Failed, MemSink, MemSource, NumberList, Source, WordList};
use std::alloc::{AllocError, Global};
use std::io;

/// A source that gives one byte at a time.
#[derive(Debug, Drop)]
struct Dripping {
    inner: MemSource,
}

impl Source for Dripping {
    ghost told = { λ _. None };

    ghost faults = { λ s. s.inner.faults };

    fn next(&mut self, buf: &mut [u8]) -> Result<usize, Failed> {
        self.inner.next(&mut buf[..1])
    }
}

/// What is out of the ordinary in a case.
#[derive(Clone, Copy, Debug, PartialEq, Eq)]
enum Trouble {
    /// The call of the source with this number fails.
    Source(u64),
    /// The call of the sink with this number fails.
    Sink(u64),
    /// The source gives one byte at a time.
    Drips,
    Nothing,
}

fn trouble_of(text: &str) -> Trouble {
    match text.split_once(' ') {
        Some(("source", number)) => number.parse().map_or(Trouble::Nothing, Trouble::Source),
        Some(("sink", number)) => number.parse().map_or(Trouble::Nothing, Trouble::Sink),
        _ if text == "drips" => Trouble::Drips,
        _ => Trouble::Nothing,
    }
}

fn words_of(alloc: Global, text: &str) -> Result<WordList, AllocError> {
    let mut words = WordList::new(alloc);
    for word in text.split_whitespace() {
        words.push(ByteList::from_slice(alloc, word.as_bytes())?)?;
    }
    Ok(words)
}

/// The numbers of the calls that fail, which are one or none.
fn failing(alloc: Global, number: Option<u64>) -> Result<NumberList, AllocError> {
    let mut numbers = NumberList::new(alloc);
    if let Some(number) = number {
        numbers.push(number)?;
    }
    Ok(numbers)
}

/// The status of a case, and the sink that it has written to.
fn replayed(
    alloc: Global,
    words: &WordList,
    trouble: Trouble,
    input: &[u8],
) -> Result<(u8, MemSink), AllocError> {
    let source_fails = match trouble {
        Trouble::Source(number) => Some(number),
        _ => None,
    };
    let sink_fails = match trouble {
        Trouble::Sink(number) => Some(number),
        _ => None,
    };
    let mut source = MemSource::new(
        ByteList::from_slice(alloc, input)?,
        failing(alloc, source_fails)?,
    );
    let mut sink = MemSink::new(alloc, failing(alloc, sink_fails)?);
    let status = if trouble == Trouble::Drips {
        let mut source = Dripping { inner: source };
        run(alloc, words, &mut source, &mut sink)
    } else {
        run(alloc, words, &mut source, &mut sink)
    };
    Ok((status, sink))
}

/// The line that is printed for a case.
fn answer(alloc: Global, line: &str) -> io::Result<String> {
    let Some((words, rest)) = line.split_once('|') else {
        return Ok(format!(in alloc; "no case")?);
    };
    let Some((trouble, text)) = rest.split_once('|') else {
        return Ok(format!(in alloc; "no case")?);
    };
    let Ok(input) = hex::decode(alloc, text) else {
        return Ok(format!(in alloc; "no hexadecimal text")?);
    };
    let words = words_of(alloc, words)?;
    let (status, sink) = replayed(alloc, &words, trouble_of(trouble), &input)?;
    let written = hex::encode(alloc, sink.bytes())?;
    Ok(format!(in alloc; "{status} {written}")?)
}

fn main(rt: HostRuntime) -> io::Result<()> {
    for line in rt.lines(rt.alloc()) {
        let text = answer(rt.alloc(), line?.as_str())?;
        println!(rt; "{text}")?;
    }
    Ok(())
}

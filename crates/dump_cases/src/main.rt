//! Dumps and what they say. Each line of standard input is a case: its name and bytes in hexadecimal, with a bar between. For each
//! case one line is printed: the bytes of the dump of the tables that were read, or the fault with its place. With `cuts|` before the
//! bytes it is what each shorter front of them says, and with `flips|` what they say with each byte in turn changed in all its bits.
#![tactic(auto)]

use keeper_dump::{DumpFault, dump, read_dump};
use std::alloc::Global;
use std::io;

fn fault_text(alloc: Global, fault: DumpFault) -> io::Result<String> {
    match fault {
        DumpFault::Short => Ok(format!(in alloc; "short")?),
        DumpFault::Bad(place) => Ok(format!(in alloc; "bad at {place}")?),
        DumpFault::OutOfOrder(place) => Ok(format!(in alloc; "out of order at {place}")?),
        DumpFault::Memory => Ok(format!(in alloc; "no memory")?),
    }
}

/// What bytes say, without the bytes of a dump that is read as itself.
fn verdict(alloc: Global, bytes: &[u8]) -> io::Result<String> {
    match read_dump(alloc, bytes) {
        Ok(tables) => {
            let again = dump(alloc, &tables)?;
            let same = again.as_slice() == bytes;
            let word = if same { "read" } else { "read otherwise" };
            Ok(String::from_str(alloc, word)?)
        }
        Err(fault) => fault_text(alloc, fault),
    }
}

/// Adds what some bytes say, behind a comma where others are before it.
fn add_verdict(alloc: Global, printed: &mut String, bytes: &[u8]) -> io::Result<()> {
    let said = verdict(alloc, bytes)?;
    if !printed.is_empty() {
        printed.push_str(", ")?;
    }
    printed.push_str(said.as_str())?;
    Ok(())
}

/// What each front of the bytes says, from none of them on.
fn cuts(alloc: Global, bytes: &[u8]) -> io::Result<String> {
    let mut printed = String::new(alloc);
    for length in 0..bytes.len() {
        add_verdict(alloc, &mut printed, &bytes[..length])?;
    }
    Ok(printed)
}

/// What the bytes say where one of them is changed, from the first on.
fn flips(alloc: Global, bytes: &mut [u8]) -> io::Result<String> {
    let mut printed = String::new(alloc);
    for place in 0..bytes.len() {
        bytes[place] ^= 255;
        add_verdict(alloc, &mut printed, bytes)?;
        bytes[place] ^= 255;
    }
    Ok(printed)
}

/// What many changes of some bytes say.
fn table(alloc: Global, form: &str, text: &str) -> io::Result<String> {
    let Ok(mut bytes) = hex::decode(alloc, text) else {
        return Ok(format!(in alloc; "no hexadecimal text")?);
    };
    match form {
        "cuts" => cuts(alloc, &bytes),
        "flips" => flips(alloc, &mut bytes),
        _ => Ok(format!(in alloc; "no table")?),
    }
}

/// What is printed behind the name of a case of one dump.
fn single(alloc: Global, text: &str) -> io::Result<String> {
    let Ok(bytes) = hex::decode(alloc, text) else {
        return Ok(format!(in alloc; "no hexadecimal text")?);
    };
    match read_dump(alloc, &bytes) {
        Ok(tables) => {
            let again = dump(alloc, &tables)?;
            Ok(hex::encode(alloc, again.as_slice())?)
        }
        Err(fault) => fault_text(alloc, fault),
    }
}

/// What is printed behind the name of a case.
fn answer(alloc: Global, text: &str) -> io::Result<String> {
    match text.split_once('|') {
        Some((form, bytes)) => table(alloc, form, bytes),
        None => single(alloc, text),
    }
}

/// The line that is printed for a case.
fn line_of(alloc: Global, line: &str) -> io::Result<String> {
    let Some((name, text)) = line.split_once('|') else {
        return Ok(format!(in alloc; "no case")?);
    };
    let said = answer(alloc, text)?;
    Ok(format!(in alloc; "{name}: {said}")?)
}

fn main(rt: HostRuntime) -> io::Result<()> {
    for line in rt.lines(rt.alloc()) {
        let text = line_of(rt.alloc(), line?.as_str())?;
        println!(rt; "{text}")?;
    }
    Ok(())
}

//! The lines of findings.
ghost use Rattle.std.specs.Prelude.{◌≡◌, ◌++◌, codes, IfOk, OnOk};
ghost use Rattle.std.specs.Fmt.{decimal};
ghost use Rattle.std.specs.String.{string_bytes};
ghost use Rattle.fsck_findings.specs.Line as lines;

use crate::{Finding, Numbered};
use s3_base::ByteList;
use std::alloc::{AllocError, Global};

/// Appends a number in decimal.
fn add_number(line: &mut ByteList, alloc: Global, number: u64) -> Result<(), AllocError>
    ensures { OnOk result (line.new ≡ line.old ++ decimal number) }
{
    let text = format!(in alloc; "{number}")?;
    line.extend_from_slice(text.as_bytes())
}

/// A number between two texts.
fn numbered(alloc: Global, start: &str, number: u64, end: &str) -> Result<ByteList, AllocError>
    ensures { IfOk result (λ line. line ≡ start.now ++ decimal number ++ end.now) }
{
    let mut line = ByteList::from_slice(alloc, start.as_bytes())?;
    add_number(&mut line, alloc, number)?;
    line.extend_from_slice(end.as_bytes())?;
    Ok(line)
}

/// Two numbers with texts before them, between them and behind them.
fn paired(
    alloc: Global,
    start: &str,
    first: u64,
    between: &str,
    second: u64,
    end: &str,
) -> Result<ByteList, AllocError>
    ensures { IfOk result (λ line. line ≡ start.now ++ decimal first ++ between.now ++ decimal second ++ end.now) }
{
    let mut line = numbered(alloc, start, first, between)?;
    add_number(&mut line, alloc, second)?;
    line.extend_from_slice(end.as_bytes())?;
    Ok(line)
}

/// The word of a table.
fn word(table: Numbered) -> &'static str
    ensures { result.now ≡ lines.word table }
{
    match table {
        Numbered::Inode => "inode",
        Numbered::Name => "name",
        Numbered::Block => "block",
        Numbered::Object => "object",
    }
}

/// The line of a row that went.
fn removed_line(alloc: Global, table: Numbered, id: u64) -> Result<ByteList, AllocError>
    ensures { IfOk result (λ line. line ≡ lines.removed_line table id) }
{
    let mut line = ByteList::from_slice(alloc, word(table).as_bytes())?;
    line.extend_from_slice(b" ")?;
    add_number(&mut line, alloc, id)?;
    line.extend_from_slice(b" removed")?;
    Ok(line)
}

/// Appends the old number and the new one.
fn add_change(line: &mut ByteList, alloc: Global, was: u64, now: u64) -> Result<(), AllocError>
    ensures { OnOk result (line.new ≡ line.old ++ lines.change_text was now) }
{
    let text = paired(alloc, "", was, " is ", now, "")?;
    line.extend_from_slice(text.as_slice())
}

/// The line of a size that is set.
fn size_line(alloc: Global, inode: u64, was: u64, now: u64) -> Result<ByteList, AllocError>
    ensures { IfOk result (λ line. line ≡ lines.size_line inode was now) }
{
    let mut line = numbered(alloc, "inode ", inode, " size ")?;
    add_change(&mut line, alloc, was, now)?;
    Ok(line)
}

/// The line of a next number that is set.
fn next_line(alloc: Global, table: Numbered, was: u64, now: u64) -> Result<ByteList, AllocError>
    ensures { IfOk result (λ line. line ≡ lines.next_line table was now) }
{
    let mut line = ByteList::from_slice(alloc, b"next ")?;
    line.extend_from_slice(word(table).as_bytes())?;
    line.extend_from_slice(b" ")?;
    add_change(&mut line, alloc, was, now)?;
    Ok(line)
}

/// The line of a count that is set.
fn count_line(
    alloc: Global,
    table: Numbered,
    id: u64,
    was: u64,
    now: u64,
) -> Result<ByteList, AllocError>
    ensures { IfOk result (λ line. line ≡ lines.count_line table id was now) }
{
    let mut line = ByteList::from_slice(alloc, word(table).as_bytes())?;
    line.extend_from_slice(b" ")?;
    add_number(&mut line, alloc, id)?;
    line.extend_from_slice(b" count ")?;
    add_change(&mut line, alloc, was, now)?;
    Ok(line)
}

/// The line of a slot whose bytes are a block now.
fn stored_line(alloc: Global, slot: u32, inode: u64, blockno: u64) -> Result<ByteList, AllocError>
    ensures { IfOk result (λ line. line ≡ lines.stored_line slot inode blockno) }
{
    let mut line = paired(alloc, "slot ", slot as u64, " inode ", inode, " block ")?;
    add_number(&mut line, alloc, blockno)?;
    line.extend_from_slice(b" stored")?;
    Ok(line)
}

/// A name in hexadecimal, and a dash where there is none.
fn name_text(alloc: Global, name: &Option<ByteList>) -> Result<String, AllocError>
    ensures { IfOk result (λ s. string_bytes s ≡ lines.name_text name.now) }
{
    match name {
        Some(name) => hex::encode(alloc, name.as_slice()),
        None => String::from_str(alloc, "-"),
    }
}

/// The line of an entry that went.
fn entry_line(alloc: Global, parent: u64, name: &Option<ByteList>) -> Result<ByteList, AllocError>
    ensures { IfOk result (λ line. line ≡ lines.entry_line parent name.now) }
{
    let name = name_text(alloc, name)?;
    let mut line = numbered(alloc, "entry ", parent, " ")?;
    line.extend_from_slice(name.as_bytes())?;
    line.extend_from_slice(b" dropped")?;
    Ok(line)
}

/// The line of a key that went.
fn key_line(alloc: Global, key: &ByteList) -> Result<ByteList, AllocError>
    ensures { IfOk result (λ line. line ≡ lines.key_line key.now) }
{
    let mut line = ByteList::from_slice(alloc, b"key ")?;
    line.extend_from_slice(key.as_slice())?;
    line.extend_from_slice(b" removed")?;
    Ok(line)
}

impl Finding {
    /// The line that says it, without the byte at its end.
    pub fn line(&self, alloc: Global) -> Result<ByteList, AllocError>
        ensures { IfOk result (λ line. line ≡ lines.line_of self.now) }
    {
        match self {
            Finding::EntryDropped { parent, name } => entry_line(alloc, *parent, name),
            Finding::RootMade => ByteList::from_slice(alloc, b"root made"),
            Finding::LostAndFoundMade => ByteList::from_slice(alloc, b"lost+found made"),
            Finding::Moved(inode) => numbered(alloc, "inode ", *inode, " moved"),
            Finding::Removed(table, id) => removed_line(alloc, *table, *id),
            Finding::TargetDropped(inode) => numbered(alloc, "target ", *inode, " dropped"),
            Finding::AttributeDropped { inode, name_id } => {
                paired(alloc, "attribute ", *inode, " ", *name_id, " dropped")
            }
            Finding::Size { inode, was, now } => size_line(alloc, *inode, *was, *now),
            Finding::LinkDropped { inode, blockno } => {
                paired(alloc, "link ", *inode, " ", *blockno, " dropped")
            }
            Finding::Next { table, was, now } => next_line(alloc, *table, *was, *now),
            Finding::ObjectMissing(id) => numbered(alloc, "object ", *id, " missing"),
            Finding::SlotDropped(slot) => numbered(alloc, "slot ", *slot as u64, " dropped"),
            Finding::SlotStored {
                slot,
                inode,
                blockno,
            } => stored_line(alloc, *slot, *inode, *blockno),
            Finding::BlockLost { inode, blockno } => {
                paired(alloc, "inode ", *inode, " block ", *blockno, " lost")
            }
            Finding::Count {
                table,
                id,
                was,
                now,
            } => count_line(alloc, *table, *id, *was, *now),
            Finding::KeyRemoved(key) => key_line(alloc, key),
        }
    }
}

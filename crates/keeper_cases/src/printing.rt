//! Rows in words, in the order of their fields, with names, targets and values in hexadecimal.

use case_words::{add_numbers, kind_word, numbers_behind};
use s3_base::Sequence;
use s3_rows::{
    AttrRow, BlockRow, ContentRow, InodeBlockRow, InodeRow, KeeperFault, NameRow, NamedAttr,
    NamedEntry, ObjectRow, Params, Row, SlotRow, State, TargetRow,
};
use std::alloc::{AllocError, Global};
use std::fmt::Write;

/// What is printed of a row.
pub trait Shown {
    fn text(&self, alloc: Global) -> Result<String, AllocError>;
}

/// Bytes in hexadecimal, and `-` where there are none.
fn digits(alloc: Global, bytes: &[u8]) -> Result<String, AllocError> {
    if bytes.is_empty() {
        return String::from_str(alloc, "-");
    }
    hex::encode(alloc, bytes)
}

/// Numbers and bytes behind a word.
fn bytes_behind(
    alloc: Global,
    word: &str,
    numbers: &[u64],
    bytes: &[u8],
) -> Result<String, AllocError> {
    let digits = digits(alloc, bytes)?;
    let mut text = numbers_behind(alloc, word, numbers)?;
    text.push(' ')?;
    text.push_str(digits.as_str())?;
    Ok(text)
}

fn state_word(state: State) -> &'static str {
    match state {
        State::Clean => "clean",
        State::Mounted => "mounted",
        State::Restored => "restored",
    }
}

impl Shown for u64 {
    fn text(&self, alloc: Global) -> Result<String, AllocError> {
        format!(in alloc; "{self}")
    }
}

impl Shown for Params {
    fn text(&self, alloc: Global) -> Result<String, AllocError> {
        let nexts = [
            self.next_inode,
            self.next_name,
            self.next_block,
            self.next_object,
            self.generation,
            self.last_done,
        ];
        let sizes = [
            self.revision as u64,
            self.block_size as u64,
            self.slots as u64,
        ];
        let mut text = numbers_behind(alloc, "params", &sizes)?;
        text.push(' ')?;
        text.push_str(state_word(self.state))?;
        add_numbers(&mut text, &nexts)?;
        Ok(text)
    }
}

impl Shown for InodeRow {
    fn text(&self, alloc: Global) -> Result<String, AllocError> {
        let (kind, mode) = (kind_word(self.kind), self.mode);
        let numbers = [
            self.uid as u64,
            self.gid as u64,
            self.mtime,
            self.ctime,
            self.refcount,
            self.size,
        ];
        let mut text = numbers_behind(alloc, "inode", &[self.id])?;
        write!(text, " {kind} {mode:o}")?;
        add_numbers(&mut text, &numbers)?;
        text.push_str(if self.locked { " locked" } else { "" })?;
        Ok(text)
    }
}

impl Shown for NameRow {
    fn text(&self, alloc: Global) -> Result<String, AllocError> {
        let numbers = [self.id, self.refcount];
        bytes_behind(alloc, "name", &numbers, self.name.as_slice())
    }
}

impl Shown for ContentRow {
    fn text(&self, alloc: Global) -> Result<String, AllocError> {
        numbers_behind(alloc, "content", &[self.parent, self.name_id, self.inode])
    }
}

impl Shown for InodeBlockRow {
    fn text(&self, alloc: Global) -> Result<String, AllocError> {
        numbers_behind(
            alloc,
            "inode_block",
            &[self.inode, self.blockno, self.block],
        )
    }
}

impl Shown for BlockRow {
    fn text(&self, alloc: Global) -> Result<String, AllocError> {
        let numbers = [self.refcount, self.size as u64, self.object];
        let mut text = bytes_behind(alloc, "block", &[self.id], &self.digest.0)?;
        add_numbers(&mut text, &numbers)?;
        Ok(text)
    }
}

impl Shown for ObjectRow {
    fn text(&self, alloc: Global) -> Result<String, AllocError> {
        let mut text = numbers_behind(alloc, "object", &[self.id, self.refcount])?;
        match self.size {
            Some(size) => add_numbers(&mut text, &[size as u64])?,
            None => text.push_str(" without size")?,
        }
        Ok(text)
    }
}

impl Shown for TargetRow {
    fn text(&self, alloc: Global) -> Result<String, AllocError> {
        bytes_behind(alloc, "target", &[self.inode], self.target.as_slice())
    }
}

impl Shown for AttrRow {
    fn text(&self, alloc: Global) -> Result<String, AllocError> {
        let numbers = [self.inode, self.name_id];
        bytes_behind(alloc, "attr", &numbers, self.value.as_slice())
    }
}

impl Shown for SlotRow {
    fn text(&self, alloc: Global) -> Result<String, AllocError> {
        let numbers = [
            self.slot as u64,
            self.inode,
            self.blockno,
            self.version,
            self.len as u64,
        ];
        numbers_behind(alloc, "slot", &numbers)
    }
}

impl Shown for Row {
    fn text(&self, alloc: Global) -> Result<String, AllocError> {
        match self {
            Row::Inode(row) => row.text(alloc),
            Row::Name(row) => row.text(alloc),
            Row::Content(row) => row.text(alloc),
            Row::InodeBlock(row) => row.text(alloc),
            Row::Block(row) => row.text(alloc),
            Row::Object(row) => row.text(alloc),
            Row::Target(row) => row.text(alloc),
            Row::Attr(row) => row.text(alloc),
            Row::Slot(row) => row.text(alloc),
        }
    }
}

/// A row behind its name.
fn named_text<T: Shown>(alloc: Global, name: &[u8], row: &T) -> Result<String, AllocError> {
    let mut text = digits(alloc, name)?;
    text.push(' ')?;
    text.push_str(row.text(alloc)?.as_str())?;
    Ok(text)
}

impl Shown for NamedEntry {
    fn text(&self, alloc: Global) -> Result<String, AllocError> {
        named_text(alloc, self.name.as_slice(), &self.row)
    }
}

impl Shown for NamedAttr {
    fn text(&self, alloc: Global) -> Result<String, AllocError> {
        named_text(alloc, self.name.as_slice(), &self.row)
    }
}

pub fn fault_word(fault: KeeperFault) -> &'static str {
    match fault {
        KeeperFault::Failed => "failed",
        KeeperFault::Memory => "no memory",
    }
}

/// What a look-up of one item answers.
pub fn found_text<T: Shown + Drop>(
    alloc: Global,
    found: Result<Option<T>, KeeperFault>,
) -> Result<String, AllocError> {
    match found {
        Ok(Some(item)) => item.text(alloc),
        Ok(None) => String::from_str(alloc, "none"),
        Err(fault) => String::from_str(alloc, fault_word(fault)),
    }
}

/// How many items there are, and each of them.
fn items_text<T: Shown>(alloc: Global, items: &[T]) -> Result<String, AllocError> {
    let number = items.len() as u64;
    let mut text = number.text(alloc)?;
    for item in items {
        text.push_str(", ")?;
        text.push_str(item.text(alloc)?.as_str())?;
    }
    Ok(text)
}

/// What a look-up of several items answers.
pub fn list_text<T: Shown + Drop>(
    alloc: Global,
    found: Result<Sequence<T>, KeeperFault>,
) -> Result<String, AllocError> {
    match found {
        Ok(items) => items_text(alloc, items.as_slice()),
        Err(fault) => String::from_str(alloc, fault_word(fault)),
    }
}

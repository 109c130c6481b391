//! What words stand for.

use s3_base::NumberList;
use std::alloc::{AllocError, Global};

/// The words of a text, by their places from 0.
#[derive(Debug, Drop)]
pub struct Words {
    list: Vec<String>,
}

impl Words {
    /// The words that a text has, with spaces between.
    pub fn of(alloc: Global, text: &str) -> Result<Words, AllocError> {
        let mut list = Vec::new(alloc);
        for word in text.split_whitespace() {
            list.push(String::from_str(alloc, word)?)?;
        }
        Ok(Words { list })
    }

    /// The word at a place, which is empty where there is none.
    pub fn at(&self, place: usize) -> &str {
        match self.list.get(place) {
            Some(word) => word.as_str(),
            None => "",
        }
    }
}

/// The word in front of a text, and what stands behind it.
pub fn verb_of(text: &str) -> (&str, &str) {
    let text = text.trim_ascii();
    match text.split_once(' ') {
        Some(parts) => parts,
        None => (text, ""),
    }
}

/// What a word stands for in a table.
pub fn named<T: Copy>(table: &[(&str, T)], word: &str) -> Option<T> {
    for (name, value) in table {
        if *name == word {
            return Some(*value);
        }
    }
    None
}

/// More bytes than any name or data that a case has.
const MOST: usize = 1 << 18;

/// The numbers among the words.
pub fn numbers_of(alloc: Global, text: &str) -> Result<NumberList, AllocError> {
    let mut numbers = NumberList::new(alloc);
    for word in text.split_whitespace() {
        if let Ok(number) = word.parse() {
            numbers.push(number)?;
        }
    }
    Ok(numbers)
}

fn repeated(alloc: Global, unit: &[u8], times: usize) -> Result<Option<Vec<u8>>, AllocError> {
    let mut bytes = Vec::new(alloc);
    for _ in 0..times {
        if bytes.len() > MOST {
            return Ok(None);
        }
        bytes.extend_from_slice(unit)?;
    }
    Ok(Some(bytes))
}

/// The bytes that a word stands for: `hex:6869` for those of the digits, `y*3` for three of them, and else its own.
pub fn bytes_of(alloc: Global, word: &str) -> Result<Option<Vec<u8>>, AllocError> {
    if let Some(("hex", digits)) = word.split_once(':') {
        return Ok(hex::decode(alloc, digits).ok());
    }
    match word.split_once('*') {
        Some((unit, times)) => match times.parse() {
            Ok(times) => repeated(alloc, unit.as_bytes(), times),
            Err(_) => Ok(None),
        },
        None => repeated(alloc, word.as_bytes(), 1),
    }
}

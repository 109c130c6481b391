//! Fields of rows and of look-ups, from words.
ghost use Rattle.std.specs.Prelude.{◌<◌, ◌≤◌, ◌^◌, IfSome, IfOk, length};
ghost use Rattle.s3_rows.specs.Rows.{IsId, IsNext, IsText, IsBlockSize};

use case_words::{Words, bytes_of, named};
use hash_index::digest;
use s3_base::{ByteList, Kind};
use s3_rows::{Digest, State};
use std::alloc::{AllocError, Global};

const KINDS: &[(&str, Kind)] = &[
    ("directory", Kind::Directory),
    ("file", Kind::Regular),
    ("link", Kind::Link),
];

const STATES: &[(&str, State)] = &[
    ("clean", State::Clean),
    ("mounted", State::Mounted),
    ("restored", State::Restored),
];

/// The greatest id, count and time.
const MOST: u64 = (1 << 62) - 1;

/// The words of a row, a key or a look-up, which are read as fields by their places from 0. Once one is none or is outside the
/// field's rule, `is_bad` says so, and what was read means nothing.
#[derive(Debug, Drop)]
pub struct Fields {
    words: Words,
    bad: bool,
}

impl Fields {
    pub fn of(alloc: Global, text: &str) -> Result<Fields, AllocError> {
        Ok(Fields {
            words: Words::of(alloc, text)?,
            bad: false,
        })
    }

    pub fn is_bad(&self) -> bool {
        self.bad
    }

    pub fn word(&self, place: usize) -> &str {
        self.words.at(place)
    }

    /// A number from a least to a greatest one.
    fn within(&mut self, place: usize, least: u64, most: u64) -> u64
        requires { least ≤ most }
        ensures least { least ≤ result }
        ensures most { result ≤ most }
    {
        match self.words.at(place).parse::<u64>() {
            Ok(number) if least <= number && number <= most => number,
            _ => {
                self.bad = true;
                least
            }
        }
    }

    pub fn number(&mut self, place: usize) -> u64 {
        self.within(place, 0, u64::MAX)
    }

    /// A number of four bytes, up to a greatest one.
    pub fn up_to(&mut self, place: usize, most: u32) -> u32
        ensures { result ≤ most }
    {
        self.within(place, 0, most as u64) as u32
    }

    pub fn middle(&mut self, place: usize) -> u32 {
        self.up_to(place, u32::MAX)
    }

    /// How many items a list may have.
    pub fn most(&mut self, place: usize) -> u32
        ensures { 0 < result }
    {
        self.within(place, 1, u32::MAX as u64) as u32
    }

    pub fn id(&mut self, place: usize) -> u64
        ensures { IsId result }
    {
        self.within(place, 1, MOST)
    }

    pub fn next_number(&mut self, place: usize) -> u64
        ensures { IsNext result }
    {
        self.within(place, 1, MOST + 1)
    }

    /// A count or a time.
    pub fn count(&mut self, place: usize) -> u64
        ensures { result < 2 ^ 62 }
    {
        self.within(place, 0, MOST)
    }

    /// The size of a file in bytes.
    pub fn file_size(&mut self, place: usize) -> u64
        ensures { result ≤ 2 ^ 50 }
    {
        self.within(place, 0, 1 << 50)
    }

    /// The number of a block in its file.
    pub fn block_number(&mut self, place: usize) -> u64
        ensures { result < 2 ^ 38 }
    {
        self.within(place, 0, (1 << 38) - 1)
    }

    /// The size of a block's stored form in bytes.
    pub fn block_size(&mut self, place: usize) -> u32
        ensures { IsBlockSize result }
    {
        self.within(place, 1, 10_485_760) as u32
    }

    /// The bits of a mode, in octal.
    pub fn mode(&mut self, place: usize) -> u16
        ensures { result ≤ 4095 }
    {
        match u16::from_str_radix(self.words.at(place), 8) {
            Ok(mode) if mode <= 4095 => mode,
            _ => {
                self.bad = true;
                0
            }
        }
    }

    /// What a word stands for in a table, and else the value beside it.
    fn named<T: Copy>(&mut self, place: usize, table: &[(&str, T)], other: T) -> T {
        match named(table, self.words.at(place)) {
            Some(value) => value,
            None => {
                self.bad = true;
                other
            }
        }
    }

    pub fn kind(&mut self, place: usize) -> Kind {
        self.named(place, KINDS, Kind::Regular)
    }

    pub fn state(&mut self, place: usize) -> State {
        self.named(place, STATES, State::Clean)
    }

    /// A digest whose first byte is given, and whose others are 0.
    fn small_digest(&mut self, place: usize) -> Digest {
        let mut bytes = [0; 32];
        bytes[0] = self.within(place, 0, 255) as u8;
        Digest(bytes)
    }

    /// That digest, or the one of the bytes behind `of:`.
    pub fn digest(&mut self, alloc: Global, place: usize) -> Result<Digest, AllocError> {
        let found = match self.words.at(place).split_once(':') {
            Some(("of", word)) => bytes_of(alloc, word)?,
            _ => None,
        };
        match found {
            Some(bytes) => Ok(digest(bytes.as_slice())),
            None => Ok(self.small_digest(place)),
        }
    }

    /// Any bytes: of a name after which a list begins.
    pub fn bytes(&self, alloc: Global, place: usize) -> Result<Option<ByteList>, AllocError> {
        let word = self.words.at(place);
        if word.is_empty() {
            return Ok(None);
        }
        match bytes_of(alloc, word)? {
            Some(bytes) => Ok(Some(ByteList::from(bytes))),
            None => Ok(None),
        }
    }

    /// A text of between one and `most` bytes, none of them 0.
    pub fn text(
        &self,
        alloc: Global,
        place: usize,
        most: usize,
    ) -> Result<Option<ByteList>, AllocError>
        ensures { IfOk result (λ found. IfSome found (IsText most)) }
    {
        let Some(bytes) = self.bytes(alloc, place)? else {
            return Ok(None);
        };
        if bytes.is_empty() || bytes.len() > most || bytes.as_slice().contains(&0) {
            return Ok(None);
        }
        Ok(Some(bytes))
    }

    /// The value of an attribute.
    pub fn value(&self, alloc: Global, place: usize) -> Result<Option<ByteList>, AllocError>
        ensures { IfOk result (λ found. IfSome found (λ b. length b ≤ 65536)) }
    {
        let Some(bytes) = self.bytes(alloc, place)? else {
            return Ok(None);
        };
        if bytes.len() > 65_536 {
            return Ok(None);
        }
        Ok(Some(bytes))
    }
}

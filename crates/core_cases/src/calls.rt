//! The frame of a call, from its words.

use case_words::{Words, bytes_of, named};
use std::alloc::{AllocError, Global};

/// A field of an operation, and how its word is read.
#[derive(Clone, Copy)]
enum Field {
    /// A number of eight bytes.
    Long,
    /// A number of four bytes.
    Middle,
    /// A number of two bytes.
    Short,
    /// A number of one byte.
    Byte,
    /// A number of two bytes, in octal.
    Mode,
    /// Bytes behind their length of two bytes.
    Name,
    /// Bytes behind their length of four bytes.
    Data,
}

/// The code of an operation, and its fields.
type Shape = (u8, &'static [Field]);

const INODE: &[Field] = &[Field::Long];

const PLACE_AND_NUMBER: &[Field] = &[Field::Long, Field::Long];

const INODE_AND_NAME: &[Field] = &[Field::Long, Field::Name];

const PAGE: &[Field] = &[Field::Long, Field::Name, Field::Short];

const ENTRY: &[Field] = &[
    Field::Long,
    Field::Name,
    Field::Mode,
    Field::Middle,
    Field::Middle,
];

/// The shapes of operations, by the words that name them.
const SHAPES: &[(&str, Shape)] = &[
    ("lookup", (1, INODE_AND_NAME)),
    ("getattr", (2, INODE)),
    ("chmod", (3, &[Field::Long, Field::Mode])),
    ("chown", (4, &[Field::Long, Field::Middle, Field::Middle])),
    ("utimes", (5, PLACE_AND_NUMBER)),
    ("truncate", (6, PLACE_AND_NUMBER)),
    ("mkdir", (7, ENTRY)),
    ("create", (8, ENTRY)),
    ("unlink", (9, INODE_AND_NAME)),
    ("rmdir", (10, INODE_AND_NAME)),
    (
        "rename",
        (11, &[Field::Long, Field::Name, Field::Long, Field::Name]),
    ),
    ("link", (12, &[Field::Long, Field::Long, Field::Name])),
    (
        "symlink",
        (
            13,
            &[
                Field::Long,
                Field::Name,
                Field::Name,
                Field::Middle,
                Field::Middle,
            ],
        ),
    ),
    ("readlink", (14, INODE)),
    ("open", (15, INODE)),
    ("release", (16, INODE)),
    ("read", (17, &[Field::Long, Field::Long, Field::Middle])),
    ("write", (18, &[Field::Long, Field::Long, Field::Data])),
    ("fsync", (19, INODE)),
    ("readdir", (20, PAGE)),
    ("statfs", (21, &[])),
    (
        "setxattr",
        (22, &[Field::Long, Field::Name, Field::Byte, Field::Data]),
    ),
    ("getxattr", (23, INODE_AND_NAME)),
    ("listxattr", (24, PAGE)),
    ("removexattr", (25, INODE_AND_NAME)),
    ("copytree", (26, &[Field::Long, Field::Long, Field::Name])),
    ("locktree", (27, INODE)),
    ("removetree", (28, INODE_AND_NAME)),
    ("flushcache", (29, &[])),
    ("leave", (32, &[])),
];

fn put_long(frame: &mut Vec<u8>, word: &str) -> Result<(), AllocError> {
    match word.parse::<u64>() {
        Ok(number) => frame.extend_from_slice(&number.to_be_bytes()),
        Err(_) => Ok(()),
    }
}

fn put_middle(frame: &mut Vec<u8>, word: &str) -> Result<(), AllocError> {
    match word.parse::<u32>() {
        Ok(number) => frame.extend_from_slice(&number.to_be_bytes()),
        Err(_) => Ok(()),
    }
}

fn put_short(frame: &mut Vec<u8>, word: &str) -> Result<(), AllocError> {
    match word.parse::<u16>() {
        Ok(number) => frame.extend_from_slice(&number.to_be_bytes()),
        Err(_) => Ok(()),
    }
}

fn put_byte(frame: &mut Vec<u8>, word: &str) -> Result<(), AllocError> {
    match word.parse::<u8>() {
        Ok(number) => {
            frame.push(number)?;
            Ok(())
        }
        Err(_) => Ok(()),
    }
}

fn put_mode(frame: &mut Vec<u8>, word: &str) -> Result<(), AllocError> {
    match u16::from_str_radix(word, 8) {
        Ok(number) => frame.extend_from_slice(&number.to_be_bytes()),
        Err(_) => Ok(()),
    }
}

fn put_name(alloc: Global, frame: &mut Vec<u8>, word: &str) -> Result<(), AllocError> {
    if let Some(bytes) = bytes_of(alloc, word)? {
        if let Ok(length) = u16::try_from(bytes.len()) {
            frame.extend_from_slice(&length.to_be_bytes())?;
            frame.extend_from_slice(&bytes)?;
        }
    }
    Ok(())
}

/// Adds bytes behind their length of four bytes. Too many of them add nothing.
fn put_counted(frame: &mut Vec<u8>, bytes: &[u8]) -> Result<(), AllocError> {
    match u32::try_from(bytes.len()) {
        Ok(length) => {
            frame.extend_from_slice(&length.to_be_bytes())?;
            frame.extend_from_slice(bytes)
        }
        Err(_) => Ok(()),
    }
}

fn put_data(alloc: Global, frame: &mut Vec<u8>, word: &str) -> Result<(), AllocError> {
    if let Some(bytes) = bytes_of(alloc, word)? {
        put_counted(frame, &bytes)?;
    }
    Ok(())
}

/// Adds what a word says of a field. A word that says nothing adds nothing, and then no frame is made.
fn put_field(
    alloc: Global,
    frame: &mut Vec<u8>,
    field: Field,
    word: &str,
) -> Result<(), AllocError> {
    if word.is_empty() {
        return Ok(());
    }
    match field {
        Field::Long => put_long(frame, word),
        Field::Middle => put_middle(frame, word),
        Field::Short => put_short(frame, word),
        Field::Byte => put_byte(frame, word),
        Field::Mode => put_mode(frame, word),
        Field::Name => put_name(alloc, frame, word),
        Field::Data => put_data(alloc, frame, word),
    }
}

/// The kind of a frame that has a call.
const CALL: u8 = 1;

/// What stands behind the length of the frame of a call: a pass, a time, and the words of an operation.
fn body_of(alloc: Global, text: &str) -> Result<Vec<u8>, AllocError> {
    let words = Words::of(alloc, text)?;
    let mut body = Vec::new(alloc);
    let Some((code, fields)) = named(SHAPES, words.at(2)) else {
        return Ok(body);
    };
    body.push(CALL)?;
    put_long(&mut body, words.at(0))?;
    put_long(&mut body, words.at(1))?;
    body.push(code)?;
    for (place, field) in fields.iter().enumerate() {
        put_field(alloc, &mut body, *field, words.at(place + 3))?;
    }
    Ok(body)
}

/// The frame of a call. Words that are no call make bytes that are no frame.
pub fn frame_of(alloc: Global, text: &str) -> Result<Vec<u8>, AllocError> {
    let body = body_of(alloc, text)?;
    let mut frame = Vec::new(alloc);
    put_counted(&mut frame, &body)?;
    Ok(frame)
}

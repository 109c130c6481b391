//! The files that keys have.

use crate::refused::Refused;
use s3_base::ByteList;
use std::alloc::Global;

/// The folder in the store's folder in which files are written, before they get the names of their keys. It is no file, so no key has
/// its name.
pub(crate) const WRITING: &str = ".writing";

/// The most bytes of a file's name.
const LONGEST_NAME: usize = 255;

/// The path behind a folder.
pub(crate) fn path_in(alloc: Global, folder: &str, name: &str) -> Result<String, Refused> {
    let mut path = String::from_str(alloc, folder)?;
    path.push('/')?;
    path.push_str(name)?;
    Ok(path)
}

/// The text of bytes that name a file or a folder.
pub(crate) fn text_of(bytes: &[u8]) -> Result<&str, Refused> {
    match str::from_utf8(bytes) {
        Ok(text) => Ok(text),
        Err(_) => Err(Refused::System),
    }
}

fn can_be_a_name(name: &str) -> bool {
    let bytes = name.as_bytes();
    !bytes.is_empty()
        && bytes.len() <= LONGEST_NAME
        && !bytes.contains(&b'/')
        && !bytes.contains(&0)
        && name != "."
        && name != ".."
        && name != WRITING
}

/// The name of the file of a key. A key that no file can have is refused.
pub(crate) fn file_name(key: &ByteList) -> Result<&str, Refused> {
    let name = text_of(key.as_slice())?;
    if can_be_a_name(name) {
        Ok(name)
    } else {
        Err(Refused::System)
    }
}

//! The files of a folder, as a list of keys gives them page by page.
ghost use Rattle.std.specs.Prelude.{◌≡◌, ◌<◌, ◌≤◌, length, IfOk, IsTrue, OnOk};
ghost use Rattle.s3_devices.specs.LinkAnswers.{IsKeyPage};
ghost use Rattle.local_devices.specs.Pages.{ComesNext};

use crate::refused::Refused;
use s3_base::ByteList;
use s3_devices::{KeyItem, KeyList};
use std::alloc::{AllocError, Global};
use std::collections::BTreeMap;
use std::fs::DirEntry;
use std::io::ErrorKind;
use std::ops::Bound;
use std::rt::Files;
use std::{fs, io};

/// The most bytes of a key.
const KEY_LIMIT: usize = 1024;

/// The keys of a folder, each with the number of bytes that its file has.
#[derive(Drop)]
pub(crate) struct Listing {
    keys: BTreeMap<ByteList, u64>,
}

/// A regular file, by its name and the number of its bytes.
fn file_of<R: Files + AllocGlobal + Clone + Drop>(
    alloc: Global,
    entry: &DirEntry<R, Global>,
) -> Result<Option<KeyItem>, Refused> {
    let metadata = match entry.metadata() {
        Ok(metadata) => metadata,
        // it went after its name was read
        Err(error) if error.kind() == ErrorKind::NotFound => return Ok(None),
        Err(error) => return Err(Refused::from(error)),
    };
    if !metadata.is_file() {
        return Ok(None);
    }
    Ok(Some(KeyItem {
        key: ByteList::from_slice(alloc, entry.file_name().as_bytes())?,
        len: metadata.len(),
    }))
}

/// What an entry of a folder is. A name that is no text is no key.
fn item_of<R: Files + AllocGlobal + Clone + Drop>(
    alloc: Global,
    entry: io::Result<DirEntry<R, Global>>,
) -> Result<Option<KeyItem>, Refused> {
    match entry {
        Ok(entry) => file_of(alloc, &entry),
        Err(error) if error.kind() == ErrorKind::InvalidFilename => Ok(None),
        Err(error) => Err(Refused::from(error)),
    }
}

impl Listing {
    /// The files of a folder.
    pub(crate) fn read<R: Files + AllocGlobal + Clone + Drop>(
        rt: &R,
        folder: &str,
    ) -> Result<Listing, Refused> {
        let alloc = rt.alloc();
        let mut keys = BTreeMap::new(alloc);
        for entry in fs::read_dir(rt, folder)? {
            if let Some(item) = item_of(alloc, entry)? {
                put(&mut keys, item)?;
            }
        }
        Ok(Listing { keys })
    }

    /// Says that a key holds so many bytes.
    pub(crate) fn put(&mut self, key: &ByteList, len: u64) -> Result<(), AllocError> {
        put(
            &mut self.keys,
            KeyItem {
                key: key.clone()?,
                len,
            },
        )
    }

    /// Says that a key is absent.
    pub(crate) fn delete(&mut self, key: &ByteList) {
        let _ = self.keys.remove(key);
    }

    /// The first `max` keys past one.
    pub(crate) fn page(
        &self,
        alloc: Global,
        after: &ByteList,
        max: u32,
    ) -> Result<KeyList, AllocError>
        ensures page { IfOk result (λ l. IsKeyPage after.now max l) }
    {
        let mut page = KeyList::new(alloc);
        for (key, len) in self.keys.range((Bound::Excluded(after), Bound::Unbounded)) {
            if page.len() >= max as usize {
                return Ok(page);
            }
            add(&mut page, after, key, *len, max)?;
        }
        Ok(page)
    }
}

fn put(keys: &mut BTreeMap<ByteList, u64>, item: KeyItem) -> Result<(), AllocError> {
    match keys.insert(item.key, item.len) {
        Ok(_) => Ok(()),
        Err(_) => Err(AllocError),
    }
}

/// The key comes past one, and past the last of the page.
fn comes_next(page: &KeyList, after: &ByteList, key: &ByteList) -> bool
    ensures { IsTrue result → ComesNext after.now page.now key.now }
{
    match page.as_slice().last() {
        Some(last) => *after < *key && last.key < *key,
        None => *after < *key,
    }
}

/// Adds a key to a page, where it comes next.
fn add(
    page: &mut KeyList,
    after: &ByteList,
    key: &ByteList,
    len: u64,
    max: u32,
) -> Result<(), AllocError>
    requires page { IsKeyPage after.now max page.old }
    requires room { length page.old < max }
    ensures page { OnOk result (IsKeyPage after.now max page.new) }
{
    if key.len() > KEY_LIMIT || !comes_next(page, after, key) {
        return Ok(());
    }
    page.push(KeyItem {
        key: key.clone()?,
        len,
    })
}

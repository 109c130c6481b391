//! The object store in a folder.
ghost use Rattle.std.specs.Prelude.{◌≡◌, ◌<◌, ◌≤◌, None, Ok, length, IfOk};
ghost use Rattle.s3_base.specs.Faults.{HasCause};
ghost use Rattle.s3_devices.specs.LinkAnswers.{has_failed, key_limit, IsKeyPage};

use crate::keys::{WRITING, file_name, path_in, text_of};
use crate::listing::Listing;
use crate::refused::Refused;
use s3_base::ByteList;
use s3_devices::{KeyList, Link, LinkFault};
use std::alloc::AllocError;
use std::fs::OpenFile;
use std::io::{ErrorKind, Write};
use std::rt::Files;
use std::{fs, io};

/// A folder with one file for each key. A file is written in the folder `.writing` within it, synced, and then gets its name, so that a
/// key holds all of its bytes or none of them. It tells nothing.
#[derive(Drop)]
pub struct DirLink<R: Files + AllocGlobal + Clone + Drop> {
    rt: R,
    folder: String,
    listing: Option<Listing>,
    pub(crate) faults: u64,
}

/// A folder that is there, or is made with all above it.
fn make_folder<R: Files>(rt: &R, path: &str) -> Result<(), Refused> {
    fs::create_dir_all(rt, path)?;
    Ok(())
}

/// Syncs a folder, so that the names of its files outlast a crash.
fn sync_folder<R: Files>(rt: &R, path: &str) -> Result<(), Refused> {
    let folder = fs::open(rt, path)?;
    folder.sync_all()?;
    Ok(())
}

/// Writes a file and syncs it.
fn write_file<R: Files>(rt: &R, path: &str, bytes: &[u8]) -> Result<(), Refused> {
    let mut file = fs::create(rt, path)?;
    file.write_all(bytes)?;
    file.sync_all()?;
    Ok(())
}

fn is_absent(error: &io::Error) -> bool {
    error.kind() == ErrorKind::NotFound
}

/// The bytes of a file, none where it is absent.
fn read_file<R: Files + AllocGlobal>(rt: &R, path: &str) -> Result<Option<ByteList>, Refused> {
    match fs::read(rt, path) {
        Ok(bytes) => Ok(Some(ByteList::from(bytes))),
        Err(error) if is_absent(&error) => Ok(None),
        Err(error) => Err(Refused::from(error)),
    }
}

/// Takes a file away, if it is there.
fn remove_file<R: Files>(rt: &R, path: &str) -> Result<(), Refused> {
    match fs::remove_file(rt, path) {
        Ok(()) => Ok(()),
        Err(error) if is_absent(&error) => Ok(()),
        Err(error) => Err(Refused::from(error)),
    }
}

impl<R: Files + AllocGlobal + Clone + Drop> DirLink<R> {
    /// The store in a folder, which is made where it is absent.
    pub fn open(rt: R, path: &ByteList) -> Result<Self, LinkFault>
        ensures faults { IfOk result (λ l. l.faults ≡ 0) }
    {
        Ok(DirLink::begin(rt, path)?)
    }

    fn begin(rt: R, path: &ByteList) -> Result<Self, Refused>
        ensures faults { IfOk result (λ l. l.faults ≡ 0) }
    {
        let alloc = rt.alloc();
        let folder = String::from_str(alloc, text_of(path.as_slice())?)?;
        make_folder(&rt, path_in(alloc, folder.as_str(), WRITING)?.as_str())?;
        Ok(DirLink {
            rt,
            folder,
            listing: None,
            faults: 0,
        })
    }

    fn path_of(&self, name: &str) -> Result<String, Refused> {
        path_in(self.rt.alloc(), self.folder.as_str(), name)
    }

    fn store(&self, key: &ByteList, bytes: &ByteList) -> Result<(), Refused> {
        let name = file_name(key)?;
        let path = self.path_of(name)?;
        let written = path_in(self.rt.alloc(), self.path_of(WRITING)?.as_str(), name)?;
        write_file(&self.rt, written.as_str(), bytes.as_slice())?;
        fs::rename(&self.rt, written.as_str(), path.as_str())?;
        sync_folder(&self.rt, self.folder.as_str())
    }

    fn bytes_of(&self, key: &ByteList) -> Result<Option<ByteList>, Refused> {
        let path = self.path_of(file_name(key)?)?;
        read_file(&self.rt, path.as_str())
    }

    fn remove(&self, key: &ByteList) -> Result<(), Refused> {
        let path = self.path_of(file_name(key)?)?;
        remove_file(&self.rt, path.as_str())?;
        sync_folder(&self.rt, self.folder.as_str())
    }

    /// The first keys past one. The folder is read where a list begins; its pages come from what was read, and from what was put and
    /// deleted since.
    fn keys_past(&mut self, after: &ByteList, max: u32) -> Result<KeyList, Refused>
        ensures page { IfOk result (λ l. IsKeyPage after.now max l) }
        ensures faults { self.new.faults ≡ self.old.faults }
    {
        let kept = if after.is_empty() {
            None
        } else {
            self.listing.take()
        };
        let listing = match kept {
            Some(listing) => listing,
            None => Listing::read(&self.rt, self.folder.as_str())?,
        };
        let page = listing.page(self.rt.alloc(), after, max)?;
        if page.len() >= max as usize {
            self.listing = Some(listing);
        }
        Ok(page)
    }

    /// Notes what a key holds now, so that the next page knows it.
    fn note_put(&mut self, key: &ByteList, len: u64) -> Result<(), AllocError>
        ensures faults { self.new.faults ≡ self.old.faults }
    {
        match &mut self.listing {
            Some(listing) => listing.put(key, len),
            None => Ok(()),
        }
    }

    fn note_delete(&mut self, key: &ByteList)
        ensures faults { self.new.faults ≡ self.old.faults }
    {
        if let Some(listing) = &mut self.listing {
            listing.delete(key);
        }
    }

    /// Forgets what was read of the folder.
    fn forget(&mut self)
        ensures faults { self.new.faults ≡ self.old.faults }
    {
        self.listing = None;
    }

    /// Counts a refusal of the system.
    fn counted<T>(&mut self, answer: Result<T, Refused>) -> Result<T, LinkFault>
        ensures value { IfOk result (λ value. answer ≡ Ok value) }
        ensures cause { HasCause self.old.faults self.new.faults (has_failed result) }
    {
        match answer {
            Ok(value) => Ok(value),
            Err(Refused::Memory) => Err(LinkFault::Memory),
            Err(Refused::System) => {
                self.faults = self.faults.saturating_add(1);
                Err(LinkFault::Failed)
            }
        }
    }
}

/// A call is refused as `Failed` where the system refuses it or no file can have the key.
impl<R: Files + AllocGlobal + Clone + Drop> Link for DirLink<R> {
    ghost told = { λ _. None };

    ghost faults = { λ l. l.faults };

    fn put(&mut self, key: &ByteList, bytes: &ByteList) -> Result<(), LinkFault> {
        let stored = self.store(key, bytes);
        if stored.is_err() || self.note_put(key, bytes.len() as u64).is_err() {
            self.forget();
        }
        self.counted(stored)
    }

    fn get(&mut self, key: &ByteList) -> Result<Option<ByteList>, LinkFault> {
        let found = self.bytes_of(key);
        self.counted(found)
    }

    fn delete(&mut self, key: &ByteList) -> Result<(), LinkFault> {
        let removed = self.remove(key);
        match removed {
            Ok(()) => self.note_delete(key),
            Err(_) => self.forget(),
        }
        self.counted(removed)
    }

    fn list(&mut self, after: &ByteList, max: u32) -> Result<KeyList, LinkFault> {
        let page = self.keys_past(after, max);
        self.counted(page)
    }
}

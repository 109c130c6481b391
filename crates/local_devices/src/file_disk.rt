//! The cache disk in a file.
ghost use Rattle.std.specs.Prelude.{◌≡◌, None, Ok, IfOk};
ghost use Rattle.s3_base.specs.Faults.{HasCause};
ghost use Rattle.s3_devices.specs.DiskAnswers.{has_failed};

use crate::keys::text_of;
use crate::refused::Refused;
use s3_base::ByteList;
use s3_devices::{Disk, DiskFault};
use std::fs::{OpenFile, OpenOptions};
use std::io::{Read, Seek, SeekFrom, Write};
use std::rt::Files;

/// A file, whose bytes are those of the disk. It tells nothing.
#[derive(Drop)]
pub struct FileDisk<R: Files> {
    file: R::File,
    pub(crate) faults: u64,
}

fn open_file<R: Files>(rt: &R, path: &ByteList) -> Result<R::File, Refused> {
    let path = text_of(path.as_slice())?;
    let file = OpenOptions::new()
        .read(true)
        .write(true)
        .create(true)
        .open(rt, path)?;
    Ok(file)
}

/// How many bytes were read into a buffer, as many as there are.
fn read_up_to<F: Read>(file: &mut F, buf: &mut [u8]) -> Result<usize, Refused> {
    let mut filled = 0usize;
    for _ in 0..u64::MAX {
        if filled >= buf.len() {
            break;
        }
        let count = file.read(&mut buf[filled..])?;
        if count == 0 {
            break;
        }
        filled += count;
    }
    Ok(filled)
}

/// Fills a buffer from a place on, with zeros past the end.
fn read_from<F: Read + Seek>(file: &mut F, at: u64, buf: &mut [u8]) -> Result<(), Refused> {
    file.seek(SeekFrom::Start(at))?;
    let filled = read_up_to(file, buf)?;
    if filled < buf.len() {
        buf[filled..].fill(0);
    }
    Ok(())
}

fn write_from<F: Write + Seek>(file: &mut F, at: u64, bytes: &[u8]) -> Result<(), Refused> {
    file.seek(SeekFrom::Start(at))?;
    file.write_all(bytes)?;
    Ok(())
}

fn sync_file<F: OpenFile>(file: &F) -> Result<(), Refused> {
    file.sync_all()?;
    Ok(())
}

fn length_of<F: OpenFile>(file: &F) -> Result<u64, Refused> {
    Ok(file.metadata()?.len())
}

impl<R: Files> FileDisk<R> {
    /// The disk in a file, which is made where it is absent.
    pub fn open(rt: &R, path: &ByteList) -> Result<Self, DiskFault>
        ensures faults { IfOk result (λ d. d.faults ≡ 0) }
    {
        let file = open_file(rt, path)?;
        Ok(FileDisk { file, faults: 0 })
    }

    /// Counts a refusal of the system.
    fn counted<T>(&mut self, answer: Result<T, Refused>) -> Result<T, DiskFault>
        ensures value { IfOk result (λ value. answer ≡ Ok value) }
        ensures cause { HasCause self.old.faults self.new.faults (has_failed result) }
    {
        match answer {
            Ok(value) => Ok(value),
            Err(Refused::Memory) => Err(DiskFault::Memory),
            Err(Refused::System) => {
                self.faults = self.faults.saturating_add(1);
                Err(DiskFault::Failed)
            }
        }
    }
}

/// A call is refused as `Failed` where the system refuses it.
impl<R: Files> Disk for FileDisk<R> {
    ghost told = { λ _. None };

    ghost faults = { λ d. d.faults };

    fn read_at(&mut self, at: u64, buf: &mut [u8]) -> Result<(), DiskFault> {
        let read = read_from(&mut self.file, at, buf);
        self.counted(read)
    }

    fn write_at(&mut self, at: u64, bytes: &[u8]) -> Result<(), DiskFault> {
        let written = write_from(&mut self.file, at, bytes);
        self.counted(written)
    }

    fn sync(&mut self) -> Result<(), DiskFault> {
        let synced = sync_file(&self.file);
        self.counted(synced)
    }

    fn len(&mut self) -> Result<u64, DiskFault> {
        let length = length_of(&self.file);
        self.counted(length)
    }
}

//! The data objects of a store by their numbers, gathered from its keys, and those that blocks have.
ghost use Rattle.std.specs.Prelude.{◌≡◌, ℕ, ◌==◌, ◌||◌, false, None, Some, OnOk, IfOk, if◌then◌else◌};
ghost use Rattle.s3_rows.specs.Validity.{is_number};
ghost use Rattle.fsck_objects.specs.Listed.{is_in, is_key_of, length_in, listed_length, or_else};
ghost use Rattle.fsck_objects.specs.Missing.{is_of_block};

use metadata_backup::object_of;
use s3_devices::KeyItem;
use s3_rows::BlockRow;
use std::alloc::{AllocError, Global};
use std::collections::BTreeMap;

/// How many bytes the key of each data object holds.
#[derive(Drop)]
pub(crate) struct Listed {
    lengths: BTreeMap<u64, u64>,
}

impl Listed {
    /// Nothing is noted.
    fn new(alloc: Global) -> Self
        ensures { (q : ℕ) → length_in result q ≡ None }
    {
        Listed {
            lengths: BTreeMap::new(alloc),
        }
    }

    /// How many bytes the key of the object holds, if it is listed.
    pub(crate) fn length_of(&self, id: u64) -> Option<u64>
        ensures { result ≡ length_in self.now id }
    {
        self.lengths.get(&id).copied()
    }

    /// Notes a length, if none is noted yet.
    fn note(&mut self, id: u64, len: u64) -> Result<(), AllocError>
        ensures { OnOk result ((q : ℕ) → length_in self.new q ≡ or_else (length_in self.old q) (if q == id then Some len else None)) }
    {
        if self.lengths.contains_key(&id) {
            return Ok(());
        }
        self.lengths.insert(id, len)?;
        Ok(())
    }

    /// Notes what a key holds.
    fn add(&mut self, item: &KeyItem) -> Result<(), AllocError>
        ensures { OnOk result ((q : ℕ) → length_in self.new q ≡ or_else (length_in self.old q) (if is_key_of q item.now then Some item.now.len else None)) }
    {
        match object_of(item.key.as_slice()) {
            Some(id) => self.note(id, item.len),
            None => Ok(()),
        }
    }
}

/// The lengths of all keys of data objects.
pub(crate) fn listed_in(alloc: Global, keys: &[KeyItem]) -> Result<Listed, AllocError>
    ensures { IfOk result (λ l. (q : ℕ) → length_in l q ≡ listed_length keys.now q) }
{
    let mut listed = Listed::new(alloc);
    for item in keys {
        listed.add(item)?;
    }
    Ok(listed)
}

/// The objects that blocks have.
#[derive(Drop)]
pub(crate) struct Named {
    objects: BTreeMap<u64, ()>,
}

impl Named {
    /// No object is noted.
    fn new(alloc: Global) -> Self
        ensures { (q : ℕ) → is_in result q ≡ false }
    {
        Named {
            objects: BTreeMap::new(alloc),
        }
    }

    pub(crate) fn contains(&self, id: u64) -> bool
        ensures { result ≡ is_in self.now id }
    {
        self.objects.contains_key(&id)
    }

    fn add(&mut self, id: u64) -> Result<(), AllocError>
        ensures { OnOk result ((q : ℕ) → is_in self.new q ≡ (is_in self.old q || id == q)) }
    {
        self.objects.insert(id, ())?;
        Ok(())
    }
}

/// The objects of all blocks.
pub(crate) fn named_by(alloc: Global, blocks: &[BlockRow]) -> Result<Named, AllocError>
    ensures { IfOk result (λ n. (q : ℕ) → is_in n q ≡ is_of_block blocks.now q) }
{
    let mut named = Named::new(alloc);
    for row in blocks {
        named.add(row.object)?;
    }
    Ok(named)
}

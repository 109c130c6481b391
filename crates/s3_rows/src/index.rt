//! Where a batch has the last change of each row, and the last row that is put with given bytes.
ghost use Rattle.std.specs.Prelude.{◌≡◌, false, ℕ, List, [], ◌∷◌, ◌++◌, length, Option, OnOk, OnErr, IsSome};
ghost use Rattle.std.specs.Ordering.{is_eq};
ghost use Rattle.s3_rows.specs.declared.change.Change.{Change};
ghost use Rattle.s3_rows.specs.declared.row_id.RowId.{RowId};
ghost use Rattle.s3_rows.specs.Latest.{last_named, last_hashed};
ghost use Rattle.s3_rows.specs.Index.{Indexes, Lists, HasSameBytes, place_in, row_cmp, last_place};

use crate::{Change, Digest, RowId};
use std::alloc::{AllocError, Global};
use std::collections::BTreeMap;

/// The place of the last change of each row, and the ids of names by their bytes and of blocks by their digests.
#[derive(Debug, Drop)]
pub(crate) struct Index {
    places: BTreeMap<RowId, usize>,
    names: BTreeMap<Vec<u8>, u64>,
    digests: BTreeMap<Digest, u64>,
}

impl Index {
    /// The index of no changes, which takes no memory.
    pub(crate) fn new(alloc: Global) -> Self
        ensures { Indexes result [] }
    {
        Index {
            places: BTreeMap::new(alloc),
            names: BTreeMap::new(alloc),
            digests: BTreeMap::new(alloc),
        }
    }

    /// The place of the last change of a row.
    pub(crate) fn place(&self, id: RowId) -> Option<usize>
        ensures { (changes : List Change) → Indexes self.now changes → result ≡ last_place id changes }
    {
        self.places.get(&id).copied()
    }

    /// The id of the last name that is put with these bytes.
    pub(crate) fn name(&self, name: &[u8]) -> Option<u64>
        ensures { (changes : List Change) → Indexes self.now changes → result ≡ last_named name.now changes }
    {
        self.names.get(name).copied()
    }

    /// The id of the last block that is put with this digest.
    pub(crate) fn digest(&self, digest: &Digest) -> Option<u64>
        ensures { (changes : List Change) → Indexes self.now changes → result ≡ last_hashed digest.now changes }
    {
        self.digests.get(digest).copied()
    }

    /// Lists one more change, which has this place. A refused call leaves the index as it was.
    pub(crate) fn add(
        &mut self,
        alloc: Global,
        change: &Change,
        place: usize,
    ) -> Result<(), AllocError>
        ensures ok { OnOk result ((changes : List Change) → length changes ≡ place → Indexes self.old changes → Indexes self.new (changes ++ change.now ∷ [])) }
        ensures err { OnErr result ((changes : List Change) → Indexes self.old changes → Indexes self.new changes) }
    {
        let id = change.row_id();
        let before = self.places.insert(id, place)?;
        if self.add_bytes(alloc, change).is_err() {
            self.put_back(id, before);
            return Err(AllocError);
        }
        Ok(())
    }

    // Lists the id of a name or a block that is put under its bytes.
    fn add_bytes(&mut self, alloc: Global, change: &Change) -> Result<(), AllocError>
        ensures places { self.new.places ≡ self.old.places }
        ensures ok { OnOk result (Lists change.now self.old self.new) }
        ensures err { OnErr result (HasSameBytes self.old self.new) }
    {
        match change {
            Change::PutName(row) => {
                let name = Vec::from_slice(alloc, row.name.as_slice())?;
                self.names.insert(name, row.id)?;
            }
            Change::PutBlock(row) => {
                self.digests.insert(row.digest, row.id)?;
            }
            _ => {}
        }
        Ok(())
    }

    // Gives a row that is listed the place again that it had before, if any.
    fn put_back(&mut self, id: RowId, before: Option<usize>)
        requires { IsSome (place_in self.old id) }
        ensures bytes { HasSameBytes self.old self.new }
        ensures here { place_in self.new id ≡ before }
        ensures others { (q : RowId) → is_eq (row_cmp id q) ≡ false → place_in self.new q ≡ place_in self.old q }
    {
        match before {
            Some(place) => {
                let _ = self.places.insert(id, place);
            }
            None => {
                let _ = self.places.remove(&id);
            }
        }
    }
}

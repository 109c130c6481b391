//! Batches of changes.
ghost use Rattle.std.specs.Prelude.{◌≡◌, ◌++◌, [], ◌∷◌, OnOk, OnErr};
ghost use Rattle.std.specs.Option.{option_copied};
ghost use Rattle.s3_rows.specs.Latest.{last_change, last_named, last_hashed};

use crate::index::Index;
use crate::{Change, Digest, RowId};
use std::alloc::{AllocError, Global};
use std::marker::Model;

/// Changes that are committed together, in order. The last change of a row is found without reading the others.
#[derive(Debug, Drop)]
pub struct Batch {
    changes: Vec<Change>,
    index: Index,
}

impl Model for Batch {
    ghost use Rattle.std.specs.Prelude.{List};
    ghost use Rattle.s3_rows.specs.declared.change.Change.{Change};
    ghost use Rattle.s3_rows.specs.Index.{Indexes};

    ghost Value = { List Change };

    ghost view = { λ b. b.changes.items };

    ghost invariant = { λ b. Indexes b.index b.changes.items };
}

impl Batch {
    /// No changes, which takes no memory.
    pub fn new(alloc: Global) -> Self
        ensures { result ≡ [] }
    {
        Batch {
            changes: Vec::new(alloc),
            index: Index::new(alloc),
        }
    }

    /// Adds a change at the end.
    pub fn push(&mut self, change: Change) -> Result<(), AllocError>
        ensures ok { OnOk result (self.new ≡ self.old ++ change ∷ []) }
        ensures err { OnErr result (self.new ≡ self.old) }
    {
        self.changes.reserve(1)?;
        let alloc = *self.changes.allocator();
        self.index.add(alloc, &change, self.changes.len())?;
        self.changes.push_reserved(change);
        Ok(())
    }

    pub fn as_slice(&self) -> &[Change]
        ensures { result.now ≡ self.now }
    {
        self.changes.as_slice()
    }

    /// The changes, to be moved out.
    pub fn into_vec(self) -> Vec<Change>
        ensures { result.items ≡ self }
    {
        self.changes
    }

    /// The last change of a row, if any is about it.
    pub fn last(&self, id: RowId) -> Option<&Change>
        ensures { option_copied result ≡ last_change id self.now }
    {
        let place = self.index.place(id)?;
        self.as_slice().get(place)
    }

    /// The id of the last name that is put with these bytes.
    pub fn last_named(&self, name: &[u8]) -> Option<u64>
        ensures { result ≡ last_named name.now self.now }
    {
        self.index.name(name)
    }

    /// The id of the last block that is put with this digest.
    pub fn last_hashed(&self, digest: &Digest) -> Option<u64>
        ensures { result ≡ last_hashed digest.now self.now }
    {
        self.index.digest(digest)
    }
}

impl Clone for Batch {
    ghost is_clone = { λ b c. c ≡ b };

    fn clone(&self) -> Result<Self, AllocError> {
        let mut copy = Batch::new(*self.changes.allocator());
        for change in self.as_slice() {
            copy.push(change.clone()?)?;
        }
        Ok(copy)
    }
}

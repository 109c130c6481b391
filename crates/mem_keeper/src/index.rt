//! Which rows have which bytes.
ghost use Rattle.std.specs.Prelude.{◌≡◌, ℕ, List, OnOk, ◌≢◌, ◌==◌, position, IsTrue};
ghost use Rattle.mem_keeper.specs.Index.{IsListed, has_id};

use std::alloc::{AllocError, Global};
use std::collections::HashMap;

/// Ids by bytes. An id may be listed under bytes that its row no longer has.
#[derive(Debug, Drop)]
pub(crate) struct Index {
    ids: HashMap<Vec<u8>, Vec<u64>>,
}

impl Index {
    /// No ids, which takes no memory.
    pub(crate) fn new(alloc: Global) -> Self {
        Index {
            ids: HashMap::new(alloc),
        }
    }

    /// All ids that are listed under the bytes.
    pub(crate) fn ids(&self, bytes: &[u8]) -> &[u64]
        ensures { (id : ℕ) → IsListed self.now bytes.now id → IsTrue (has_id id result.now) }
    {
        match self.ids.get(bytes) {
            Some(ids) => ids.as_slice(),
            None => &[],
        }
    }

    /// Lists the id under the bytes.
    pub(crate) fn add(&mut self, alloc: Global, bytes: &[u8], id: u64) -> Result<(), AllocError>
        ensures kept { (q : List ℕ) (n : ℕ) → IsListed self.old q n → IsListed self.new q n }
        ensures added { OnOk result (IsListed self.new bytes.now id) }
    {
        if self.ids.contains_key(bytes) {
            self.add_more(bytes, id)
        } else {
            self.add_new(alloc, bytes, id)
        }
    }

    fn add_more(&mut self, bytes: &[u8], id: u64) -> Result<(), AllocError>
        ensures kept { (q : List ℕ) (n : ℕ) → IsListed self.old q n → IsListed self.new q n }
        ensures added { OnOk result (IsListed self.new bytes.now id) }
    {
        match self.ids.get_mut(bytes) {
            Some(ids) => add_to(ids, id),
            None => Err(AllocError),
        }
    }

    fn add_new(&mut self, alloc: Global, bytes: &[u8], id: u64) -> Result<(), AllocError>
        requires { (n : ℕ) → IsListed self.old bytes.now n → ⊥ }
        ensures kept { (q : List ℕ) (n : ℕ) → IsListed self.old q n → IsListed self.new q n }
        ensures added { OnOk result (IsListed self.new bytes.now id) }
    {
        let mut ids = Vec::new(alloc);
        ids.push(id)?;
        let key = Vec::from_slice(alloc, bytes)?;
        self.ids.insert(key, ids)?;
        Ok(())
    }

    /// Takes the id from under the bytes.
    pub(crate) fn remove(&mut self, bytes: &[u8], id: u64)
        ensures { (q : List ℕ) (n : ℕ) → (q ≡ bytes.now → n ≢ id) → IsListed self.old q n → IsListed self.new q n }
    {
        if self.remove_id(bytes, id) {
            let _ = self.ids.remove(bytes);
        }
    }

    // Whether nothing is left under the bytes.
    fn remove_id(&mut self, bytes: &[u8], id: u64) -> bool
        ensures kept { (q : List ℕ) (n : ℕ) → (q ≡ bytes.now → n ≢ id) → IsListed self.old q n → IsListed self.new q n }
        ensures empty { IsTrue result → (n : ℕ) → IsListed self.new bytes.now n → ⊥ }
    {
        match self.ids.get_mut(bytes) {
            Some(ids) => {
                remove_from(ids, id);
                ids.is_empty()
            }
            None => false,
        }
    }
}

fn add_to(ids: &mut Vec<u64>, id: u64) -> Result<(), AllocError>
    ensures kept { (n : ℕ) → IsTrue (has_id n ids.old.items) → IsTrue (has_id n ids.new.items) }
    ensures added { OnOk result (IsTrue (has_id id ids.new.items)) }
{
    if !ids.contains(&id) {
        ids.push(id)?;
    }
    Ok(())
}

fn place_of(ids: &[u64], id: u64) -> Option<usize>
    ensures { result ≡ position (λ x. x == id) ids.now }
{
    ids.iter().position(|x| *x == id)
}

fn remove_from(ids: &mut Vec<u64>, id: u64)
    ensures { (n : ℕ) → n ≢ id → IsTrue (has_id n ids.old.items) → IsTrue (has_id n ids.new.items) }
{
    if let Some(at) = place_of(ids, id) {
        let _ = ids.remove(at);
    }
}

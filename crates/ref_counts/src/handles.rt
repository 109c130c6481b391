//! Open handles.
ghost use Rattle.std.specs.Prelude.{◌≡◌, ◌==◌, ◌&&◌, ◌<◌, ◌^◌, ◌++◌, ℕ, [], ◌∷◌, nat_le, not, if◌then◌else◌, IsTrue, IfOk, OnOk, OnErr};
ghost use Rattle.plain_tree.specs.Tree as tree;
ghost use Rattle.plain_tree.specs.Below.{is_among};
ghost use Rattle.s3_rows.specs.Validity.{differ};
ghost use Rattle.ref_counts.specs.Handles.{OpenHandles, AllBelow, no_handles, inode_open, opened, closed, closed_all, is_held, is_held_alone};

use s3_base::{LIMIT, NumberList};
use std::alloc::{AllocError, Global};
use std::collections::BTreeMap;
use std::marker::Model;

/// An open file: the inode, and the pass that opened it.
#[derive(Clone, Copy, Debug, PartialEq, Eq)]
pub struct Handle {
    pub inode: u64,
    pub pass: u64,
}

impl Model for Handle {
    ghost use Rattle.plain_tree.specs.Tree as tree;

    ghost Value = { tree.Handle };

    ghost view = { λ h. record { inode = h.inode; pass = h.pass } };

    ghost inverse = { λ h. record { inode = h.inode; pass = h.pass } };
}

/// The open handles by their numbers, and the number that comes next.
#[derive(Debug, Drop)]
pub struct Handles {
    next: u64,
    entries: BTreeMap<u64, Handle>,
}

impl Model for Handles {
    ghost use Rattle.ref_counts.specs.Handles.{OpenHandles, AllBelow};

    ghost Value = { OpenHandles };

    ghost view = { λ h. record { next = h.next; handles = h.entries.entries } };

    ghost invariant = { λ h. AllBelow h.next h.entries.entries };
}

impl Handles {
    /// No handles; the first will have the number 1.
    pub fn new(alloc: Global) -> Self
        ensures { result ≡ no_handles }
    {
        Handles {
            next: 1,
            entries: BTreeMap::new(alloc),
        }
    }

    /// The inode of an open handle of the pass.
    pub fn inode_of(&self, pass: u64, number: u64) -> Option<u64>
        ensures { result ≡ inode_open self.now pass number }
    {
        let handle = self.entries.get(&number)?;
        if handle.pass == pass {
            Some(handle.inode)
        } else {
            None
        }
    }

    /// A handle is open on the inode.
    pub fn is_held(&self, inode: u64) -> bool
        ensures { result ≡ is_held self.now inode }
    {
        self.entries.iter().any(|(_, handle)| handle.inode == inode)
    }

    /// A handle is open on the inode beside the one of this number.
    pub fn is_held_beside(&self, number: u64, inode: u64) -> bool
        ensures { result ≡ is_held (closed number self.now) inode }
    {
        self.entries.iter().any(|(other, handle)| *other != number && handle.inode == inode)
    }

    /// A handle of another pass is open on the inode.
    fn is_held_by_others(&self, pass: u64, inode: u64) -> bool
        ensures { result ≡ is_held (closed_all pass self.now) inode }
    {
        self.entries
            .iter()
            .any(|(_, handle)| handle.pass != pass && handle.inode == inode)
    }

    /// Adds the inode of a handle, where the pass has it open, no other pass has, and it is not listed yet.
    fn list_held_alone(
        &self,
        inodes: &mut NumberList,
        pass: u64,
        handle: &Handle,
    ) -> Result<(), AllocError>
        ensures { OnOk result (inodes.new ≡ (if handle.now.pass == pass && not (is_among inodes.old handle.now.inode) && not (is_held (closed_all pass self.now) handle.now.inode)
            then inodes.old ++ handle.now.inode ∷ [] else inodes.old)) }
    {
        if handle.pass == pass
            && !inodes.as_slice().contains(&handle.inode)
            && !self.is_held_by_others(pass, handle.inode)
        {
            inodes.push(handle.inode)?;
        }
        Ok(())
    }

    /// The inodes that handles of the pass have open, and no other handle has: each once.
    pub fn held_alone(&self, alloc: Global, pass: u64) -> Result<NumberList, AllocError>
        ensures once { IfOk result (λ xs. IsTrue (differ (λ a b. b == a) xs)) }
        ensures alone { IfOk result (λ xs. (x : ℕ) → is_among xs x ≡ is_held_alone pass self.now x) }
    {
        let mut inodes = NumberList::new(alloc);
        for handle in self.entries.values() {
            self.list_held_alone(&mut inodes, pass, handle)?;
        }
        Ok(inodes)
    }

    /// The number that the next handle gets.
    pub fn next(&self) -> u64
        ensures { result ≡ self.now.next }
    {
        self.next
    }

    /// No number is left.
    pub fn is_full(&self) -> bool
        ensures { result ≡ nat_le (2 ^ 62) self.now.next }
    {
        self.next >= LIMIT
    }

    /// Opens a handle under the next number.
    pub fn open(&mut self, handle: Handle) -> Result<(), AllocError>
        requires { self.old.next < 2 ^ 62 }
        ensures ok { OnOk result (self.new ≡ opened handle self.old) }
        ensures err { OnErr result (self.new ≡ self.old) }
        // Each number in use was below the next one.
        ensures below { AllBelow self.old.next self.old.handles }
    {
        self.entries.insert(self.next, handle)?;
        self.next += 1;
        Ok(())
    }

    /// Undoes the last `open`.
    pub fn take_back(&mut self)
        ensures { (h : OpenHandles) (handle : tree.Handle) → self.old ≡ opened handle h → AllBelow h.next h.handles → self.new ≡ h }
    {
        self.next = self.next.saturating_sub(1);
        self.entries.remove(&self.next);
    }

    /// Closes a handle, if it is open.
    pub fn close(&mut self, number: u64)
        ensures { self.new ≡ closed number self.old }
    {
        self.entries.remove(&number);
    }

    /// Closes all handles of a pass.
    pub fn close_all(&mut self, pass: u64)
        ensures { self.new ≡ closed_all pass self.old }
    {
        self.entries.retain(|_, handle| handle.pass != pass);
    }
}

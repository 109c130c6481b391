//! Which entry names an inode first, and the loops that directories make.
ghost use Rattle.std.specs.Prelude.{◌≡◌, ℕ, ◌==◌, ◌&&◌, nat_le, length, find, option_map, IfOk};
ghost use Rattle.std.specs.List.{list_all, list_any};
ghost use Rattle.std.specs.BTreeMap.{get};
ghost use Rattle.std.specs.Ordering.{nat_cmp};
ghost use Rattle.s3_rows.specs.Validity.{parent_of};
ghost use Rattle.fsck_names.specs.Entries.{above, closes_loop};

use crate::entry_tests::EntryTest;
use s3_rows::{ContentRow, Tables};
use std::alloc::{AllocError, Global};
use std::collections::BTreeMap;

/// The directory of the first entry that names each inode.
fn parents_of(alloc: Global, contents: &[ContentRow]) -> Result<BTreeMap<u64, u64>, AllocError>
    ensures { IfOk result (λ m. (id : ℕ) → get nat_cmp m id ≡ option_map (λ r. r.parent) (find (λ r. r.inode == id) contents.now)) }
{
    let mut parents = BTreeMap::new(alloc);
    let mut left = contents.len();
    while left > 0 {
        left -= 1;
        let row = contents[left];
        parents.insert(row.inode, row.parent)?;
    }
    Ok(parents)
}

/// Whether an inode is the least directory of a loop. The walk upwards takes at most one step for each inode.
fn is_least_of_loop(parents: &BTreeMap<u64, u64>, tables: &Tables, inode: u64) -> bool
    requires { (id : ℕ) → get nat_cmp parents.now id ≡ parent_of tables.now id }
    ensures { let directories = above (length tables.now.inodes) tables.now inode in result ≡ (list_any (λ d. d == inode) directories && list_all (nat_le inode) directories) }
{
    let mut at = inode;
    let mut met = false;
    let mut left = tables.inodes.len();
    while left > 0 {
        left -= 1;
        let Some(parent) = parents.get(&at) else {
            return met;
        };
        at = *parent;
        if at < inode {
            return false;
        }
        met = met || at == inode;
    }
    met
}

/// Entries that name the least directory of a loop.
#[derive(Debug, Drop)]
pub(crate) struct ClosesLoop {
    parents: BTreeMap<u64, u64>,
}

impl EntryTest for ClosesLoop {
    ghost test = { closes_loop };

    ghost stands = { λ e t. (id : ℕ) → get nat_cmp e.parents id ≡ parent_of t id };

    fn of(alloc: Global, tables: &Tables) -> Result<Self, AllocError> {
        Ok(ClosesLoop {
            parents: parents_of(alloc, tables.contents.as_slice())?,
        })
    }

    fn goes(&self, tables: &Tables, row: &ContentRow) -> Result<bool, AllocError> {
        Ok(is_least_of_loop(&self.parents, tables, row.inode))
    }
}

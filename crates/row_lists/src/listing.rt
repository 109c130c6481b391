//! Lists of rows and look-ups by other columns, over slices of rows in the order of their keys.
ghost use Rattle.std.specs.Prelude.{◌≡◌, ◌&&◌, ◌==◌, nat_lt, nat_le, filter, map, take, IsTrue, IfOk};
ghost use Rattle.std.specs.Ordering.{is_lt};
ghost use Rattle.s3_rows.specs.Keyed.{pair_cmp, rises};
ghost use Rattle.s3_rows.specs.Tables.{Tables, by_object, by_slot, by_spot};
ghost use Rattle.s3_rows.specs.Selections.{free_objects_listed, inode_blocks_listed, slot_of_spot, slots_listed};
ghost use Rattle.s3_rows.specs.Told.{by_number, is_page, is_run_of, is_run_of_slots};

mod holder;
mod names;
mod pages;

pub use holder::holder_of_inode;
pub use names::NameTable;
pub use pages::{
    page_of_attrs, page_of_blocks, page_of_contents, page_of_inode_blocks, page_of_inodes,
    page_of_names, page_of_objects, page_of_slots, page_of_targets,
};
use s3_base::{NumberList, Sequence};
use s3_rows::{InodeBlockList, InodeBlockRow, ObjectRow, SlotList, SlotRow};
use std::alloc::{AllocError, Global};

/// The slot that holds the block at this place.
pub fn slot_of(slots: &[SlotRow], inode: u64, blockno: u64) -> Option<SlotRow>
    ensures { (t : Tables) → t.slots ≡ slots.now → result ≡ slot_of_spot t inode blockno }
{
    for row in slots {
        if row.inode == inode && row.blockno == blockno {
            return Some(*row);
        }
    }
    None
}

/// The first `max` slots from the one at `from` on.
pub fn slots_of(
    alloc: Global,
    slots: &[SlotRow],
    from: u32,
    max: u32,
) -> Result<SlotList, AllocError>
    requires { IsTrue (rises by_slot slots.now) }
    ensures rows { IfOk result (λ l. (t : Tables) → t.slots ≡ slots.now → l ≡ slots_listed t from max) }
    ensures page { IfOk result (λ l. IsTrue (is_run_of_slots from max l)) }
{
    let start = slots.partition_point(
        |row: &SlotRow| -> bool
            ensures { result ≡ nat_lt row.now.slot from }
        { row.slot < from },
    );
    first_rows(alloc, &slots[start..], max)
}

/// The first `max` ids past `after` of objects that no block has.
pub fn free_objects_of(
    alloc: Global,
    objects: &[ObjectRow],
    after: u64,
    max: u32,
) -> Result<NumberList, AllocError>
    requires { IsTrue (rises by_object objects.now) }
    ensures rows { IfOk result (λ l. (t : Tables) → t.objects ≡ objects.now → l ≡ free_objects_listed t after max) }
    ensures page { IfOk result (λ l. IsTrue (is_page by_number after max l)) }
{
    let ids = free_ids(alloc, objects, after, max)?;
    NumberList::from_slice(alloc, ids.as_slice())
}

fn free_ids(
    alloc: Global,
    objects: &[ObjectRow],
    after: u64,
    max: u32,
) -> Result<Vec<u64>, AllocError>
    ensures { IfOk result (λ v. v.items ≡ take max (filter (nat_lt after) (map (λ r. r.id) (filter (λ r. r.refcount == 0) objects.now)))) }
{
    objects
        .iter()
        .filter(|row| row.refcount == 0)
        .map(|row| row.id)
        .filter(|id| after < *id)
        .take(max as usize)
        .collect(alloc)
}

/// The first `max` blocks of a file, from the one at `from` on.
pub fn blocks_of_inode(
    alloc: Global,
    inode_blocks: &[InodeBlockRow],
    inode: u64,
    from: u64,
    max: u32,
) -> Result<InodeBlockList, AllocError>
    requires { IsTrue (rises by_spot inode_blocks.now) }
    ensures rows { IfOk result (λ l. (t : Tables) → t.inode_blocks ≡ inode_blocks.now → l ≡ inode_blocks_listed t inode from max) }
    ensures page { IfOk result (λ l. IsTrue (is_run_of inode from max l)) }
{
    let start = inode_blocks.partition_point(
        |row: &InodeBlockRow| -> bool
            ensures { result ≡ is_lt (pair_cmp (row.now.inode, row.now.blockno) (inode, from)) }
        { (row.inode, row.blockno) < (inode, from) },
    );
    let rest = &inode_blocks[start..];
    let count = rest.partition_point(
        |row: &InodeBlockRow| -> bool
            ensures { result ≡ (row.now.inode == inode) }
        { row.inode == inode },
    );
    first_rows(alloc, &rest[..count], max)
}

/// The first `max` of the rows.
fn first_rows<T: Copy + Drop>(
    alloc: Global,
    rows: &[T],
    max: u32,
) -> Result<Sequence<T>, AllocError>
    ensures { IfOk result (λ l. l ≡ take max rows.now) }
{
    let count = rows.len().min(max as usize);
    Ok(Sequence::from(Vec::from_slice(alloc, &rows[..count])?))
}

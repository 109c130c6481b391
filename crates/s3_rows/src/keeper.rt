//! What every store of tables is.
ghost use Rattle.std.specs.Prelude.{◌≡◌, ◌<◌, ℕ, Option, option_map, length, IsTrue, IfOk, OnOk, OnErr, ◌&&◌};
ghost use Rattle.std.specs.List.{list_all};
ghost use Rattle.s3_base.specs.Faults.{HasCause};
ghost use Rattle.s3_rows.specs.Selections.{inode_at, name_at, entry_at, inode_block_at, block_at, object_at, target_at, attr_at, name_of_bytes, block_of_digest, slot_of_spot, holder_of, entries_listed, attrs_listed, inode_blocks_listed, free_objects_listed, slots_listed, page_of, fits_key, by_entry_name, by_attr_name};
ghost use Rattle.s3_rows.specs.Ranges.{HasRanges};
ghost use Rattle.s3_rows.specs.Told.{Told, with_batch, IfTold, has_failed, is_page, is_run_of, is_run_of_slots, is_page_of, by_number, has_short_name};

use crate::{
    AttrRow, Batch, BlockRow, ContentRow, Digest, EntryList, InodeBlockList, InodeBlockRow,
    InodeRow, NameRow, NamedAttrList, ObjectRow, Params, RowKey, RowList, SlotList, SlotRow,
    TableName, TargetRow,
};
use s3_base::{ByteList, NumberList};
use std::alloc::AllocError;

/// Why a keeper gave no answer.
#[derive(Clone, Copy, Debug, PartialEq, Eq)]
pub enum KeeperFault {
    /// The device that it stands on failed.
    Failed,
    /// There was no memory for the answer or for the change.
    Memory,
}

impl From<AllocError> for KeeperFault {
    ghost use Rattle.std.specs.Prelude.{◌≡◌};
    ghost use Rattle.s3_rows.specs.declared.keeper.KeeperFault.TheVariants.{Memory};

    ghost from_gives = { λ _ fault. fault ≡ Memory };

    fn from(_refused: AllocError) -> Self {
        KeeperFault::Memory
    }
}

/// A store of tables. It may tell its tables and how many batches were committed; where it does not, the clauses on rows say
/// nothing, and a list still rises strictly and has at most `max` rows, so that a loop over pages ends. A call that is
/// refused leaves the tables as they were.
pub trait Keeper {
    /// The tables, and how many batches were committed so far, where the keeper tells them.
    ghost told: { Self → Option Told };

    /// How often the device below has failed.
    ghost faults: { Self → ℕ };

    /// Makes the changes of a batch, in order, all of them or none.
    fn commit(&mut self, batch: &Batch) -> Result<(), KeeperFault>
        ensures ok { OnOk result (told self.new ≡ option_map (with_batch batch.now) (told self.old)) }
        ensures err { OnErr result (told self.new ≡ told self.old) }
        ensures cause { HasCause (faults self.old) (faults self.new) (has_failed result) };

    /// The parameters, none before a file system is made. The rows of all tables keep the ranges of their fields.
    fn params(&mut self) -> Result<Option<Params>, KeeperFault>
        ensures row { IfOk result (λ r. IfTold (told self.old) (λ t. r ≡ t.params)) }
        ensures ranges { IfOk result (λ r. IfTold (told self.old) HasRanges) }
        ensures same { told self.new ≡ told self.old }
        ensures cause { HasCause (faults self.old) (faults self.new) (has_failed result) };

    fn inode(&mut self, id: u64) -> Result<Option<InodeRow>, KeeperFault>
        ensures row { IfOk result (λ r. IfTold (told self.old) (λ t. r ≡ inode_at t id)) }
        ensures same { told self.new ≡ told self.old }
        ensures cause { HasCause (faults self.old) (faults self.new) (has_failed result) };

    fn name(&mut self, id: u64) -> Result<Option<NameRow>, KeeperFault>
        ensures row { IfOk result (λ r. IfTold (told self.old) (λ t. r ≡ name_at t id)) }
        ensures same { told self.new ≡ told self.old }
        ensures cause { HasCause (faults self.old) (faults self.new) (has_failed result) };

    /// The least id of a name with these bytes.
    fn name_id(&mut self, name: &ByteList) -> Result<Option<u64>, KeeperFault>
        ensures row { IfOk result (λ r. IfTold (told self.old) (λ t. r ≡ option_map (λ n. n.id) (name_of_bytes t name.now))) }
        ensures same { told self.new ≡ told self.old }
        ensures cause { HasCause (faults self.old) (faults self.new) (has_failed result) };

    fn entry(&mut self, parent: u64, name_id: u64) -> Result<Option<ContentRow>, KeeperFault>
        ensures row { IfOk result (λ r. IfTold (told self.old) (λ t. r ≡ entry_at t parent name_id)) }
        ensures same { told self.new ≡ told self.old }
        ensures cause { HasCause (faults self.old) (faults self.new) (has_failed result) };

    /// The first `max` entries of a directory whose names come after `after`, in the order of their names. An entry whose name
    /// has no row is left out, and of several of the same bytes only the one with the least name id is given.
    fn entries(&mut self, parent: u64, after: &ByteList, max: u32) -> Result<EntryList, KeeperFault>
        requires { 0 < max }
        ensures rows { IfOk result (λ l. IfTold (told self.old) (λ t. l ≡ entries_listed t parent after.now max)) }
        ensures page { IfOk result (λ l. IsTrue (is_page by_entry_name after.now max l && list_all (λ e. has_short_name e.name) l)) }
        ensures same { told self.new ≡ told self.old }
        ensures cause { HasCause (faults self.old) (faults self.new) (has_failed result) };

    /// An entry that names the inode: the least by its parent and by the bytes of its name.
    fn holder(&mut self, inode: u64) -> Result<Option<ContentRow>, KeeperFault>
        ensures row { IfOk result (λ r. IfTold (told self.old) (λ t. r ≡ holder_of t inode)) }
        ensures same { told self.new ≡ told self.old }
        ensures cause { HasCause (faults self.old) (faults self.new) (has_failed result) };

    fn block_at(&mut self, inode: u64, blockno: u64) -> Result<Option<InodeBlockRow>, KeeperFault>
        ensures row { IfOk result (λ r. IfTold (told self.old) (λ t. r ≡ inode_block_at t inode blockno)) }
        ensures same { told self.new ≡ told self.old }
        ensures cause { HasCause (faults self.old) (faults self.new) (has_failed result) };

    /// The first `max` blocks of a file, from the one at `from` on.
    fn blocks_of(&mut self, inode: u64, from: u64, max: u32) -> Result<InodeBlockList, KeeperFault>
        requires { 0 < max }
        ensures rows { IfOk result (λ l. IfTold (told self.old) (λ t. l ≡ inode_blocks_listed t inode from max)) }
        ensures page { IfOk result (λ l. IsTrue (is_run_of inode from max l)) }
        ensures same { told self.new ≡ told self.old }
        ensures cause { HasCause (faults self.old) (faults self.new) (has_failed result) };

    fn block(&mut self, id: u64) -> Result<Option<BlockRow>, KeeperFault>
        ensures row { IfOk result (λ r. IfTold (told self.old) (λ t. r ≡ block_at t id)) }
        ensures same { told self.new ≡ told self.old }
        ensures cause { HasCause (faults self.old) (faults self.new) (has_failed result) };

    /// The block of the least id with this digest.
    fn block_by_digest(&mut self, digest: &Digest) -> Result<Option<BlockRow>, KeeperFault>
        ensures row { IfOk result (λ r. IfTold (told self.old) (λ t. r ≡ block_of_digest t digest.now)) }
        ensures same { told self.new ≡ told self.old }
        ensures cause { HasCause (faults self.old) (faults self.new) (has_failed result) };

    fn object(&mut self, id: u64) -> Result<Option<ObjectRow>, KeeperFault>
        ensures row { IfOk result (λ r. IfTold (told self.old) (λ t. r ≡ object_at t id)) }
        ensures same { told self.new ≡ told self.old }
        ensures cause { HasCause (faults self.old) (faults self.new) (has_failed result) };

    /// The first `max` ids past `after` of objects that no block has.
    fn free_objects(&mut self, after: u64, max: u32) -> Result<NumberList, KeeperFault>
        requires { 0 < max }
        ensures rows { IfOk result (λ l. IfTold (told self.old) (λ t. l ≡ free_objects_listed t after max)) }
        ensures page { IfOk result (λ l. IsTrue (is_page by_number after max l)) }
        ensures same { told self.new ≡ told self.old }
        ensures cause { HasCause (faults self.old) (faults self.new) (has_failed result) };

    fn target(&mut self, inode: u64) -> Result<Option<TargetRow>, KeeperFault>
        ensures row { IfOk result (λ r. IfTold (told self.old) (λ t. r ≡ target_at t inode)) }
        ensures same { told self.new ≡ told self.old }
        ensures cause { HasCause (faults self.old) (faults self.new) (has_failed result) };

    fn attr(&mut self, inode: u64, name_id: u64) -> Result<Option<AttrRow>, KeeperFault>
        ensures row { IfOk result (λ r. IfTold (told self.old) (λ t. r ≡ attr_at t inode name_id)) }
        ensures same { told self.new ≡ told self.old }
        ensures cause { HasCause (faults self.old) (faults self.new) (has_failed result) };

    /// The first `max` attributes of an inode whose names come after `after`, in the order of their names, with the same
    /// rules as `entries`.
    fn attrs(
        &mut self,
        inode: u64,
        after: &ByteList,
        max: u32,
    ) -> Result<NamedAttrList, KeeperFault>
        requires { 0 < max }
        ensures rows { IfOk result (λ l. IfTold (told self.old) (λ t. l ≡ attrs_listed t inode after.now max)) }
        ensures page { IfOk result (λ l. IsTrue (is_page by_attr_name after.now max l && list_all (λ a. has_short_name a.name) l)) }
        ensures same { told self.new ≡ told self.old }
        ensures cause { HasCause (faults self.old) (faults self.new) (has_failed result) };

    /// The least slot that holds the block at this place.
    fn slot_at(&mut self, inode: u64, blockno: u64) -> Result<Option<SlotRow>, KeeperFault>
        ensures row { IfOk result (λ r. IfTold (told self.old) (λ t. r ≡ slot_of_spot t inode blockno)) }
        ensures same { told self.new ≡ told self.old }
        ensures cause { HasCause (faults self.old) (faults self.new) (has_failed result) };

    /// The first `max` slots from the one at `from` on.
    fn slots(&mut self, from: u32, max: u32) -> Result<SlotList, KeeperFault>
        requires { 0 < max }
        ensures rows { IfOk result (λ l. IfTold (told self.old) (λ t. l ≡ slots_listed t from max)) }
        ensures page { IfOk result (λ l. IsTrue (is_run_of_slots from max l)) }
        ensures same { told self.new ≡ told self.old }
        ensures cause { HasCause (faults self.old) (faults self.new) (has_failed result) };

    /// The first `max` rows of a table past a key, in the order of the table's key. `after` has as many parts as that key, or
    /// is the start.
    fn page(&mut self, table: TableName, after: &RowKey, max: u32) -> Result<RowList, KeeperFault>
        requires some { 0 < max }
        requires fits { IsTrue (fits_key table after.now) }
        ensures rows { IfOk result (λ l. IfTold (told self.old) (λ t. l ≡ page_of t table after.now max)) }
        ensures page { IfOk result (λ l. IsTrue (is_page_of table after.now max l)) }
        ensures same { told self.new ≡ told self.old }
        ensures cause { HasCause (faults self.old) (faults self.new) (has_failed result) };
}

ghost use Rattle.std.specs.Prelude.{◌≡◌, ◌<◌, Some, option_map, IsTrue, IfOk, OnOk, OnErr, ◌&&◌};
ghost use Rattle.std.specs.List.{list_all};
ghost use Rattle.s3_base.specs.Faults.{HasCause};
ghost use Rattle.s3_rows.specs.Selections.{inode_at, name_at, entry_at, inode_block_at, block_at, object_at, target_at, attr_at, name_of_bytes, block_of_digest, slot_of_spot, holder_of, entries_listed, attrs_listed, inode_blocks_listed, free_objects_listed, slots_listed, page_of, fits_key, by_entry_name, by_attr_name};
ghost use Rattle.s3_rows.specs.Ranges.{HasRanges};
ghost use Rattle.s3_rows.specs.Told.{with_batch, has_failed, is_page, is_run_of, is_run_of_slots, is_page_of, by_number, has_short_name};
ghost use Rattle.mem_keeper.specs.Memory.{IsCall};

use crate::MemKeeper;
use crate::commit::commit_batch;
use crate::indexes::{block_of_digest_in, holder_in, name_id_in};
use crate::lists::{attrs_in, blocks_in, entries_in, free_objects_in, slot_in, slots_in};
use crate::look_ups::{attr_in, copy_of_row, entry_in, spot_in};
use crate::pages::page_in;
use crate::store::settle;
use s3_base::{ByteList, NumberList};
use s3_rows::{
    AttrRow, Batch, BlockRow, ContentRow, Digest, EntryList, InodeBlockList, InodeBlockRow,
    InodeRow, Keeper, KeeperFault, NameRow, NamedAttrList, ObjectRow, Params, RowKey, RowList,
    SlotList, SlotRow, TableName, TargetRow,
};

/// Every call is counted, and fails where its number is listed. Else only a lack of memory refuses it. What is told changes
/// by a commit alone.
impl Keeper for MemKeeper {
    ghost told = { λ s. Some s.told };

    ghost faults = { λ s. s.faults };

    /// A batch is made whole and counted, or not at all.
    fn commit(&mut self, batch: &Batch) -> Result<(), KeeperFault>
        ensures ok { OnOk result (self.new.told ≡ with_batch batch.now self.old.told) }
        ensures err { OnErr result (self.new.told ≡ self.old.told) }
        ensures cause { HasCause self.old.faults self.new.faults (has_failed result) }
        ensures call { IsCall result self.old self.new }
    {
        self.begin()?;
        match commit_batch(
            self.alloc,
            &mut self.store,
            &mut self.indexes,
            &mut self.filings,
            batch,
        ) {
            Ok(()) => {
                self.commits = self.commits.saturating_add(1);
                Ok(())
            }
            Err(_) => Err(KeeperFault::Memory),
        }
    }

    fn params(&mut self) -> Result<Option<Params>, KeeperFault>
        ensures row { IfOk result (λ r. r ≡ self.old.told.tables.params) }
        ensures ranges { IfOk result (λ r. HasRanges self.old.told.tables) }
        ensures same { self.new.told ≡ self.old.told }
        ensures cause { HasCause self.old.faults self.new.faults (has_failed result) }
        ensures call { IsCall result self.old self.new }
    {
        self.begin()?;
        settle(&mut self.store, self.alloc)?;
        Ok(self.store.maps.params)
    }

    fn inode(&mut self, id: u64) -> Result<Option<InodeRow>, KeeperFault>
        ensures row { IfOk result (λ r. r ≡ inode_at self.old.told.tables id) }
        ensures same { self.new.told ≡ self.old.told }
        ensures cause { HasCause self.old.faults self.new.faults (has_failed result) }
        ensures call { IsCall result self.old self.new }
    {
        self.begin()?;
        settle(&mut self.store, self.alloc)?;
        match copy_of_row(&self.store.maps.inodes, id) {
            Ok(found) => Ok(found),
            Err(_) => Err(KeeperFault::Memory),
        }
    }

    fn name(&mut self, id: u64) -> Result<Option<NameRow>, KeeperFault>
        ensures row { IfOk result (λ r. r ≡ name_at self.old.told.tables id) }
        ensures same { self.new.told ≡ self.old.told }
        ensures cause { HasCause self.old.faults self.new.faults (has_failed result) }
        ensures call { IsCall result self.old self.new }
    {
        self.begin()?;
        settle(&mut self.store, self.alloc)?;
        match copy_of_row(&self.store.maps.names.map, id) {
            Ok(found) => Ok(found),
            Err(_) => Err(KeeperFault::Memory),
        }
    }

    fn name_id(&mut self, name: &ByteList) -> Result<Option<u64>, KeeperFault>
        ensures row { IfOk result (λ r. r ≡ option_map (λ n. n.id) (name_of_bytes self.old.told.tables name.now)) }
        ensures same { self.new.told ≡ self.old.told }
        ensures cause { HasCause self.old.faults self.new.faults (has_failed result) }
        ensures call { IsCall result self.old self.new }
    {
        self.begin()?;
        settle(&mut self.store, self.alloc)?;
        match name_id_in(
            &mut self.indexes,
            self.alloc,
            &self.store.maps,
            name.as_slice(),
        ) {
            Ok(found) => Ok(found),
            Err(_) => Err(KeeperFault::Memory),
        }
    }

    fn entry(&mut self, parent: u64, name_id: u64) -> Result<Option<ContentRow>, KeeperFault>
        ensures row { IfOk result (λ r. r ≡ entry_at self.old.told.tables parent name_id) }
        ensures same { self.new.told ≡ self.old.told }
        ensures cause { HasCause self.old.faults self.new.faults (has_failed result) }
        ensures call { IsCall result self.old self.new }
    {
        self.begin()?;
        settle(&mut self.store, self.alloc)?;
        match entry_in(&self.store.maps, parent, name_id) {
            Ok(found) => Ok(found),
            Err(_) => Err(KeeperFault::Memory),
        }
    }

    fn entries(&mut self, parent: u64, after: &ByteList, max: u32) -> Result<EntryList, KeeperFault>
        requires { 0 < max }
        ensures rows { IfOk result (λ l. l ≡ entries_listed self.old.told.tables parent after.now max) }
        ensures page { IfOk result (λ l. IsTrue (is_page by_entry_name after.now max l && list_all (λ e. has_short_name e.name) l)) }
        ensures same { self.new.told ≡ self.old.told }
        ensures cause { HasCause self.old.faults self.new.faults (has_failed result) }
        ensures call { IsCall result self.old self.new }
    {
        self.begin()?;
        settle(&mut self.store, self.alloc)?;
        match entries_in(
            &mut self.filings,
            self.alloc,
            &self.store.maps,
            parent,
            after,
            max,
        ) {
            Ok(found) => Ok(found),
            Err(_) => Err(KeeperFault::Memory),
        }
    }

    fn holder(&mut self, inode: u64) -> Result<Option<ContentRow>, KeeperFault>
        ensures row { IfOk result (λ r. r ≡ holder_of self.old.told.tables inode) }
        ensures same { self.new.told ≡ self.old.told }
        ensures cause { HasCause self.old.faults self.new.faults (has_failed result) }
        ensures call { IsCall result self.old self.new }
    {
        self.begin()?;
        settle(&mut self.store, self.alloc)?;
        match holder_in(&mut self.indexes, self.alloc, &self.store.maps, inode) {
            Ok(found) => Ok(found),
            Err(_) => Err(KeeperFault::Memory),
        }
    }

    fn block_at(&mut self, inode: u64, blockno: u64) -> Result<Option<InodeBlockRow>, KeeperFault>
        ensures row { IfOk result (λ r. r ≡ inode_block_at self.old.told.tables inode blockno) }
        ensures same { self.new.told ≡ self.old.told }
        ensures cause { HasCause self.old.faults self.new.faults (has_failed result) }
        ensures call { IsCall result self.old self.new }
    {
        self.begin()?;
        settle(&mut self.store, self.alloc)?;
        match spot_in(&self.store.maps, inode, blockno) {
            Ok(found) => Ok(found),
            Err(_) => Err(KeeperFault::Memory),
        }
    }

    fn blocks_of(&mut self, inode: u64, from: u64, max: u32) -> Result<InodeBlockList, KeeperFault>
        requires { 0 < max }
        ensures rows { IfOk result (λ l. l ≡ inode_blocks_listed self.old.told.tables inode from max) }
        ensures page { IfOk result (λ l. IsTrue (is_run_of inode from max l)) }
        ensures same { self.new.told ≡ self.old.told }
        ensures cause { HasCause self.old.faults self.new.faults (has_failed result) }
        ensures call { IsCall result self.old self.new }
    {
        self.begin()?;
        settle(&mut self.store, self.alloc)?;
        match blocks_in(self.alloc, &self.store.maps, inode, from, max) {
            Ok(found) => Ok(found),
            Err(_) => Err(KeeperFault::Memory),
        }
    }

    fn block(&mut self, id: u64) -> Result<Option<BlockRow>, KeeperFault>
        ensures row { IfOk result (λ r. r ≡ block_at self.old.told.tables id) }
        ensures same { self.new.told ≡ self.old.told }
        ensures cause { HasCause self.old.faults self.new.faults (has_failed result) }
        ensures call { IsCall result self.old self.new }
    {
        self.begin()?;
        settle(&mut self.store, self.alloc)?;
        match copy_of_row(&self.store.maps.blocks, id) {
            Ok(found) => Ok(found),
            Err(_) => Err(KeeperFault::Memory),
        }
    }

    fn block_by_digest(&mut self, digest: &Digest) -> Result<Option<BlockRow>, KeeperFault>
        ensures row { IfOk result (λ r. r ≡ block_of_digest self.old.told.tables digest.now) }
        ensures same { self.new.told ≡ self.old.told }
        ensures cause { HasCause self.old.faults self.new.faults (has_failed result) }
        ensures call { IsCall result self.old self.new }
    {
        self.begin()?;
        settle(&mut self.store, self.alloc)?;
        match block_of_digest_in(&mut self.indexes, self.alloc, &self.store.maps, digest) {
            Ok(found) => Ok(found),
            Err(_) => Err(KeeperFault::Memory),
        }
    }

    fn object(&mut self, id: u64) -> Result<Option<ObjectRow>, KeeperFault>
        ensures row { IfOk result (λ r. r ≡ object_at self.old.told.tables id) }
        ensures same { self.new.told ≡ self.old.told }
        ensures cause { HasCause self.old.faults self.new.faults (has_failed result) }
        ensures call { IsCall result self.old self.new }
    {
        self.begin()?;
        settle(&mut self.store, self.alloc)?;
        match copy_of_row(&self.store.maps.objects, id) {
            Ok(found) => Ok(found),
            Err(_) => Err(KeeperFault::Memory),
        }
    }

    fn free_objects(&mut self, after: u64, max: u32) -> Result<NumberList, KeeperFault>
        requires { 0 < max }
        ensures rows { IfOk result (λ l. l ≡ free_objects_listed self.old.told.tables after max) }
        ensures page { IfOk result (λ l. IsTrue (is_page by_number after max l)) }
        ensures same { self.new.told ≡ self.old.told }
        ensures cause { HasCause self.old.faults self.new.faults (has_failed result) }
        ensures call { IsCall result self.old self.new }
    {
        self.begin()?;
        settle(&mut self.store, self.alloc)?;
        match free_objects_in(self.alloc, &self.store.maps, after, max) {
            Ok(found) => Ok(found),
            Err(_) => Err(KeeperFault::Memory),
        }
    }

    fn target(&mut self, inode: u64) -> Result<Option<TargetRow>, KeeperFault>
        ensures row { IfOk result (λ r. r ≡ target_at self.old.told.tables inode) }
        ensures same { self.new.told ≡ self.old.told }
        ensures cause { HasCause self.old.faults self.new.faults (has_failed result) }
        ensures call { IsCall result self.old self.new }
    {
        self.begin()?;
        settle(&mut self.store, self.alloc)?;
        match copy_of_row(&self.store.maps.targets, inode) {
            Ok(found) => Ok(found),
            Err(_) => Err(KeeperFault::Memory),
        }
    }

    fn attr(&mut self, inode: u64, name_id: u64) -> Result<Option<AttrRow>, KeeperFault>
        ensures row { IfOk result (λ r. r ≡ attr_at self.old.told.tables inode name_id) }
        ensures same { self.new.told ≡ self.old.told }
        ensures cause { HasCause self.old.faults self.new.faults (has_failed result) }
        ensures call { IsCall result self.old self.new }
    {
        self.begin()?;
        settle(&mut self.store, self.alloc)?;
        match attr_in(&self.store.maps, inode, name_id) {
            Ok(found) => Ok(found),
            Err(_) => Err(KeeperFault::Memory),
        }
    }

    fn attrs(
        &mut self,
        inode: u64,
        after: &ByteList,
        max: u32,
    ) -> Result<NamedAttrList, KeeperFault>
        requires { 0 < max }
        ensures rows { IfOk result (λ l. l ≡ attrs_listed self.old.told.tables inode after.now max) }
        ensures page { IfOk result (λ l. IsTrue (is_page by_attr_name after.now max l && list_all (λ a. has_short_name a.name) l)) }
        ensures same { self.new.told ≡ self.old.told }
        ensures cause { HasCause self.old.faults self.new.faults (has_failed result) }
        ensures call { IsCall result self.old self.new }
    {
        self.begin()?;
        settle(&mut self.store, self.alloc)?;
        match attrs_in(
            &mut self.filings,
            self.alloc,
            &self.store.maps,
            inode,
            after,
            max,
        ) {
            Ok(found) => Ok(found),
            Err(_) => Err(KeeperFault::Memory),
        }
    }

    fn slot_at(&mut self, inode: u64, blockno: u64) -> Result<Option<SlotRow>, KeeperFault>
        ensures row { IfOk result (λ r. r ≡ slot_of_spot self.old.told.tables inode blockno) }
        ensures same { self.new.told ≡ self.old.told }
        ensures cause { HasCause self.old.faults self.new.faults (has_failed result) }
        ensures call { IsCall result self.old self.new }
    {
        self.begin()?;
        settle(&mut self.store, self.alloc)?;
        match slot_in(self.alloc, &self.store.maps, inode, blockno) {
            Ok(found) => Ok(found),
            Err(_) => Err(KeeperFault::Memory),
        }
    }

    fn slots(&mut self, from: u32, max: u32) -> Result<SlotList, KeeperFault>
        requires { 0 < max }
        ensures rows { IfOk result (λ l. l ≡ slots_listed self.old.told.tables from max) }
        ensures page { IfOk result (λ l. IsTrue (is_run_of_slots from max l)) }
        ensures same { self.new.told ≡ self.old.told }
        ensures cause { HasCause self.old.faults self.new.faults (has_failed result) }
        ensures call { IsCall result self.old self.new }
    {
        self.begin()?;
        settle(&mut self.store, self.alloc)?;
        match slots_in(self.alloc, &self.store.maps, from, max) {
            Ok(found) => Ok(found),
            Err(_) => Err(KeeperFault::Memory),
        }
    }

    fn page(&mut self, table: TableName, after: &RowKey, max: u32) -> Result<RowList, KeeperFault>
        requires some { 0 < max }
        requires fits { IsTrue (fits_key table after.now) }
        ensures rows { IfOk result (λ l. l ≡ page_of self.old.told.tables table after.now max) }
        ensures page { IfOk result (λ l. IsTrue (is_page_of table after.now max l)) }
        ensures same { self.new.told ≡ self.old.told }
        ensures cause { HasCause self.old.faults self.new.faults (has_failed result) }
        ensures call { IsCall result self.old self.new }
    {
        self.begin()?;
        settle(&mut self.store, self.alloc)?;
        match page_in(self.alloc, &self.store.maps, table, after, max) {
            Ok(found) => Ok(found),
            Err(_) => Err(KeeperFault::Memory),
        }
    }
}

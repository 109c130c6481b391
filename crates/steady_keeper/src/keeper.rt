ghost use Rattle.std.specs.Prelude.{Some};

use crate::SteadyKeeper;
use s3_base::{ByteList, NumberList};
use s3_rows::{
    AttrRow, Batch, BlockRow, ContentRow, Digest, EntryList, InodeBlockList, InodeBlockRow,
    InodeRow, Keeper, KeeperFault, NameRow, NamedAttrList, ObjectRow, Params, RowKey, RowList,
    SlotList, SlotRow, TableName, TargetRow,
};

/// No call counts a fault, so that none answers `KeeperFault::Failed`.
impl Keeper for SteadyKeeper {
    ghost told = { λ s. Some s };

    ghost faults = { λ _. 0 };

    fn commit(&mut self, batch: &Batch) -> Result<(), KeeperFault> {
        self.keeper.commit(batch)
    }

    fn params(&mut self) -> Result<Option<Params>, KeeperFault> {
        self.keeper.params()
    }

    fn inode(&mut self, id: u64) -> Result<Option<InodeRow>, KeeperFault> {
        self.keeper.inode(id)
    }

    fn name(&mut self, id: u64) -> Result<Option<NameRow>, KeeperFault> {
        self.keeper.name(id)
    }

    fn name_id(&mut self, name: &ByteList) -> Result<Option<u64>, KeeperFault> {
        self.keeper.name_id(name)
    }

    fn entry(&mut self, parent: u64, name_id: u64) -> Result<Option<ContentRow>, KeeperFault> {
        self.keeper.entry(parent, name_id)
    }

    fn entries(
        &mut self,
        parent: u64,
        after: &ByteList,
        max: u32,
    ) -> Result<EntryList, KeeperFault> {
        self.keeper.entries(parent, after, max)
    }

    fn holder(&mut self, inode: u64) -> Result<Option<ContentRow>, KeeperFault> {
        self.keeper.holder(inode)
    }

    fn block_at(&mut self, inode: u64, blockno: u64) -> Result<Option<InodeBlockRow>, KeeperFault> {
        self.keeper.block_at(inode, blockno)
    }

    fn blocks_of(
        &mut self,
        inode: u64,
        from: u64,
        max: u32,
    ) -> Result<InodeBlockList, KeeperFault> {
        self.keeper.blocks_of(inode, from, max)
    }

    fn block(&mut self, id: u64) -> Result<Option<BlockRow>, KeeperFault> {
        self.keeper.block(id)
    }

    fn block_by_digest(&mut self, digest: &Digest) -> Result<Option<BlockRow>, KeeperFault> {
        self.keeper.block_by_digest(digest)
    }

    fn object(&mut self, id: u64) -> Result<Option<ObjectRow>, KeeperFault> {
        self.keeper.object(id)
    }

    fn free_objects(&mut self, after: u64, max: u32) -> Result<NumberList, KeeperFault> {
        self.keeper.free_objects(after, max)
    }

    fn target(&mut self, inode: u64) -> Result<Option<TargetRow>, KeeperFault> {
        self.keeper.target(inode)
    }

    fn attr(&mut self, inode: u64, name_id: u64) -> Result<Option<AttrRow>, KeeperFault> {
        self.keeper.attr(inode, name_id)
    }

    fn attrs(
        &mut self,
        inode: u64,
        after: &ByteList,
        max: u32,
    ) -> Result<NamedAttrList, KeeperFault> {
        self.keeper.attrs(inode, after, max)
    }

    fn slot_at(&mut self, inode: u64, blockno: u64) -> Result<Option<SlotRow>, KeeperFault> {
        self.keeper.slot_at(inode, blockno)
    }

    fn slots(&mut self, from: u32, max: u32) -> Result<SlotList, KeeperFault> {
        self.keeper.slots(from, max)
    }

    fn page(&mut self, table: TableName, after: &RowKey, max: u32) -> Result<RowList, KeeperFault> {
        self.keeper.page(table, after, max)
    }
}

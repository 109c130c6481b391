//! Changes of rows.
ghost use Rattle.std.specs.Prelude.{◌≡◌};
ghost use Rattle.s3_rows.specs.Latest.{row_id};

use crate::{
    AttrRow, BlockRow, ContentRow, InodeBlockRow, InodeRow, NameRow, ObjectRow, Params, RowId,
    SlotRow, TargetRow,
};

/// A row that is put in place of the row of its key, or a key whose row is deleted. A key of two parts has them in the
/// order of the row's fields.
#[derive(Clone, Debug, Drop)]
pub enum Change {
    PutInode(InodeRow),
    DeleteInode(u64),
    PutName(NameRow),
    DeleteName(u64),
    PutContent(ContentRow),
    DeleteContent(u64, u64),
    PutInodeBlock(InodeBlockRow),
    DeleteInodeBlock(u64, u64),
    PutBlock(BlockRow),
    DeleteBlock(u64),
    PutObject(ObjectRow),
    DeleteObject(u64),
    PutTarget(TargetRow),
    DeleteTarget(u64),
    PutAttr(AttrRow),
    DeleteAttr(u64, u64),
    PutSlot(SlotRow),
    DeleteSlot(u32),
    SetParams(Params),
}

impl Change {
    /// The row that the change is about.
    pub fn row_id(&self) -> RowId
        ensures { result ≡ row_id self.now }
    {
        match self {
            Change::PutInode(row) => RowId::Inode(row.id),
            Change::DeleteInode(id) => RowId::Inode(*id),
            Change::PutName(row) => RowId::Name(row.id),
            Change::DeleteName(id) => RowId::Name(*id),
            Change::PutContent(row) => RowId::Content(row.parent, row.name_id),
            Change::DeleteContent(parent, name_id) => RowId::Content(*parent, *name_id),
            Change::PutInodeBlock(row) => RowId::InodeBlock(row.inode, row.blockno),
            Change::DeleteInodeBlock(inode, blockno) => RowId::InodeBlock(*inode, *blockno),
            Change::PutBlock(row) => RowId::Block(row.id),
            Change::DeleteBlock(id) => RowId::Block(*id),
            Change::PutObject(row) => RowId::Object(row.id),
            Change::DeleteObject(id) => RowId::Object(*id),
            Change::PutTarget(row) => RowId::Target(row.inode),
            Change::DeleteTarget(inode) => RowId::Target(*inode),
            Change::PutAttr(row) => RowId::Attr(row.inode, row.name_id),
            Change::DeleteAttr(inode, name_id) => RowId::Attr(*inode, *name_id),
            Change::PutSlot(row) => RowId::Slot(row.slot),
            Change::DeleteSlot(slot) => RowId::Slot(*slot),
            Change::SetParams(_) => RowId::Params,
        }
    }
}

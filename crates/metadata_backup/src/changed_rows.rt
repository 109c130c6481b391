//! Rows of each table as changes of a batch.
ghost use Rattle.std.specs.Prelude.{◌≡◌, ◌++◌, map, reverse, OnOk};
ghost use Rattle.metadata_backup.specs.Replacing.{RowChanges, inode_changes, name_changes, content_changes, inode_block_changes, block_changes, object_changes, target_changes, attr_changes, slot_changes};

use s3_base::Sequence;
use s3_rows::{
    AttrRow, Batch, BlockRow, Change, ContentRow, InodeBlockRow, InodeRow, NameRow, ObjectRow,
    SlotRow, TargetRow,
};
use std::alloc::AllocError;

/// A row of one of the tables, which a batch puts or deletes.
pub(crate) trait ChangedRow: Drop {
    /// Its table, and its changes.
    ghost changes: { RowChanges Self };

    /// The change that puts it.
    fn put(self) -> Change
        ensures { result ≡ changes.put_of self };

    /// The change that deletes the row of its key.
    fn delete(&self) -> Change
        ensures { result ≡ changes.delete_of self.now };
}

impl ChangedRow for InodeRow {
    ghost changes = { inode_changes };

    fn put(self) -> Change {
        Change::PutInode(self)
    }

    fn delete(&self) -> Change {
        Change::DeleteInode(self.id)
    }
}

impl ChangedRow for NameRow {
    ghost changes = { name_changes };

    fn put(self) -> Change {
        Change::PutName(self)
    }

    fn delete(&self) -> Change {
        Change::DeleteName(self.id)
    }
}

impl ChangedRow for ContentRow {
    ghost changes = { content_changes };

    fn put(self) -> Change {
        Change::PutContent(self)
    }

    fn delete(&self) -> Change {
        Change::DeleteContent(self.parent, self.name_id)
    }
}

impl ChangedRow for InodeBlockRow {
    ghost changes = { inode_block_changes };

    fn put(self) -> Change {
        Change::PutInodeBlock(self)
    }

    fn delete(&self) -> Change {
        Change::DeleteInodeBlock(self.inode, self.blockno)
    }
}

impl ChangedRow for BlockRow {
    ghost changes = { block_changes };

    fn put(self) -> Change {
        Change::PutBlock(self)
    }

    fn delete(&self) -> Change {
        Change::DeleteBlock(self.id)
    }
}

impl ChangedRow for ObjectRow {
    ghost changes = { object_changes };

    fn put(self) -> Change {
        Change::PutObject(self)
    }

    fn delete(&self) -> Change {
        Change::DeleteObject(self.id)
    }
}

impl ChangedRow for TargetRow {
    ghost changes = { target_changes };

    fn put(self) -> Change {
        Change::PutTarget(self)
    }

    fn delete(&self) -> Change {
        Change::DeleteTarget(self.inode)
    }
}

impl ChangedRow for AttrRow {
    ghost changes = { attr_changes };

    fn put(self) -> Change {
        Change::PutAttr(self)
    }

    fn delete(&self) -> Change {
        Change::DeleteAttr(self.inode, self.name_id)
    }
}

impl ChangedRow for SlotRow {
    ghost changes = { slot_changes };

    fn put(self) -> Change {
        Change::PutSlot(self)
    }

    fn delete(&self) -> Change {
        Change::DeleteSlot(self.slot)
    }
}

/// Adds the puts of rows.
pub(crate) fn put_rows<T: ChangedRow>(
    batch: &mut Batch,
    rows: Sequence<T>,
) -> Result<(), AllocError>
    ensures { OnOk result (batch.new ≡ batch.old ++ map T.changes.put_of rows) }
{
    for row in rows.into_vec() {
        batch.push(row.put())?;
    }
    Ok(())
}

/// Adds the deletes of rows, from the last on, so that a keeper takes each off the end.
pub(crate) fn delete_rows<T: ChangedRow>(
    batch: &mut Batch,
    rows: &Sequence<T>,
) -> Result<(), AllocError>
    ensures { OnOk result (batch.new ≡ batch.old ++ map T.changes.delete_of (reverse rows.now)) }
{
    let rows = rows.as_slice();
    for done in 0..rows.len() {
        batch.push(rows[rows.len() - 1 - done].delete())?;
    }
    Ok(())
}

//! What a check may find.
use s3_base::ByteList;

/// The tables whose rows have a number of their own.
#[derive(Clone, Copy, Debug, PartialEq, Eq)]
pub enum Numbered {
    Inode,
    Name,
    Block,
    Object,
}

/// What a check found and what it did about it.
#[derive(Clone, Debug, Drop)]
pub enum Finding {
    /// The entry of this directory went. It has no name where its name had no row.
    EntryDropped {
        parent: u64,
        name: Option<ByteList>,
    },
    /// The root was made anew.
    RootMade,
    /// The directory `lost+found` was made in the root.
    LostAndFoundMade,
    /// The inode stands in `lost+found` now.
    Moved(u64),
    /// The row went.
    Removed(Numbered, u64),
    /// The target of what is no symbolic link went.
    TargetDropped(u64),
    /// The attribute of an inode without row, or of a name without row, went.
    AttributeDropped {
        inode: u64,
        name_id: u64,
    },
    /// The size of a directory or of a symbolic link is set.
    Size {
        inode: u64,
        was: u64,
        now: u64,
    },
    /// The block of what is no regular file, or of a place past its end, went.
    LinkDropped {
        inode: u64,
        blockno: u64,
    },
    /// The number that comes next is set.
    Next {
        table: Numbered,
        was: u64,
        now: u64,
    },
    /// The store has not the object, or another size of it.
    ObjectMissing(u64),
    /// The row of a slot of the cache disk went.
    SlotDropped(u32),
    /// What the slot had is the block now.
    SlotStored {
        slot: u32,
        inode: u64,
        blockno: u64,
    },
    /// The bytes of the block are gone.
    BlockLost {
        inode: u64,
        blockno: u64,
    },
    /// The count of a row is set.
    Count {
        table: Numbered,
        id: u64,
        was: u64,
        now: u64,
    },
    /// The key of the store went.
    KeyRemoved(ByteList),
}

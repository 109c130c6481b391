use s3_base::{ByteList, Errno, Kind, Sequence};

/// The attributes of a node. Times are nanoseconds since 1970-01-01 00:00 UTC, and `size` counts bytes.
#[derive(Clone, Copy, Debug, PartialEq, Eq)]
pub struct Attr {
    pub inode: u64,
    pub kind: Kind,
    pub mode: u16,
    pub uid: u32,
    pub gid: u32,
    pub links: u64,
    pub size: u64,
    pub mtime: u64,
    pub ctime: u64,
    pub locked: bool,
}

/// Why a call could not be carried out.
#[derive(Clone, Copy, Debug, PartialEq, Eq)]
pub enum Cause {
    Link,
    Keeper,
    Disk,
    Memory,
}

/// An entry of a directory.
#[derive(Debug, Drop)]
pub struct DirEntry {
    pub inode: u64,
    pub kind: Kind,
    pub name: ByteList,
}

/// Entries of a directory, in order.
pub type DirEntryList = Sequence<DirEntry>;

/// Names of entries or of attributes, in order.
pub type NameList = Sequence<ByteList>;

/// The reply to an operation.
#[derive(Debug, Drop)]
pub enum Reply {
    Done,
    Attr(Attr),
    Opened {
        handle: u64,
        attr: Attr,
    },
    Bytes(ByteList),
    Count(u32),
    Entries(DirEntryList),
    Names(NameList),
    /// The size of a block in bytes, and how many inodes, directory entries and bytes the file system has.
    Stat {
        block_size: u32,
        inodes: u64,
        entries: u64,
        bytes: u64,
    },
    Errno(Errno),
    Fault(Cause),
    /// The stored object does not hold the block: its number, the SHA-256 that it should have, and the one that it has,
    /// if the store gave any bytes.
    Lost {
        object: u64,
        kept: [u8; 32],
        got: Option<[u8; 32]>,
    },
}

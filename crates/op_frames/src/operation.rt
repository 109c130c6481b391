use s3_base::ByteList;

/// Which attributes a `Setxattr` may set, as in `setxattr(2)`.
#[derive(Clone, Copy, Debug, PartialEq, Eq)]
pub enum SetFlag {
    Any,
    /// Only an attribute that is not there yet.
    New,
    /// Only an attribute that is there.
    Old,
}

/// An operation on the file tree. Inodes, handles and lengths are as the caller gave them; times and ids are numbers
/// of the frame, and `mode` has the permission bits as in POSIX `stat.h`.
#[derive(Debug, Drop)]
pub enum Op {
    Lookup {
        parent: u64,
        name: ByteList,
    },
    Getattr {
        inode: u64,
    },
    Chmod {
        inode: u64,
        mode: u16,
    },
    Chown {
        inode: u64,
        uid: u32,
        gid: u32,
    },
    Utimes {
        inode: u64,
        mtime: u64,
    },
    Truncate {
        inode: u64,
        size: u64,
    },
    Mkdir {
        parent: u64,
        name: ByteList,
        mode: u16,
        uid: u32,
        gid: u32,
    },
    /// Makes a file and opens it.
    Create {
        parent: u64,
        name: ByteList,
        mode: u16,
        uid: u32,
        gid: u32,
    },
    Unlink {
        parent: u64,
        name: ByteList,
    },
    Rmdir {
        parent: u64,
        name: ByteList,
    },
    Rename {
        parent: u64,
        name: ByteList,
        new_parent: u64,
        new_name: ByteList,
    },
    /// Gives the inode one more name.
    Link {
        inode: u64,
        parent: u64,
        name: ByteList,
    },
    Symlink {
        parent: u64,
        name: ByteList,
        target: ByteList,
        uid: u32,
        gid: u32,
    },
    Readlink {
        inode: u64,
    },
    Open {
        inode: u64,
    },
    /// Closes the handle.
    Release {
        handle: u64,
    },
    Read {
        handle: u64,
        offset: u64,
        length: u32,
    },
    Write {
        handle: u64,
        offset: u64,
        bytes: ByteList,
    },
    Fsync {
        handle: u64,
    },
    /// At most `max` entries whose names come after `after`.
    Readdir {
        inode: u64,
        after: ByteList,
        max: u16,
    },
    Statfs,
    Setxattr {
        inode: u64,
        name: ByteList,
        flag: SetFlag,
        value: ByteList,
    },
    Getxattr {
        inode: u64,
        name: ByteList,
    },
    /// At most `max` names of attributes that come after `after`.
    Listxattr {
        inode: u64,
        after: ByteList,
        max: u16,
    },
    Removexattr {
        inode: u64,
        name: ByteList,
    },
    /// Copies the tree under `source` to a new entry of `parent`.
    CopyTree {
        source: u64,
        parent: u64,
        name: ByteList,
    },
    /// Locks the tree under the inode against changes.
    LockTree {
        inode: u64,
    },
    /// Removes an entry with all that is under it.
    RemoveTree {
        parent: u64,
        name: ByteList,
    },
    FlushCache,
    UploadMeta,
    CacheSize {
        entries: u32,
    },
    Leave,
    Unmount,
}

/// One step of a replay: a call of the pass `pass` at the time `now` (nanoseconds), or the end.
#[derive(Debug, Drop)]
pub enum Step {
    Call { pass: u64, now: u64, op: Op },
    End,
}

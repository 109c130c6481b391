use s3_base::Kind;
use std::marker::Model;

/// An inode. `mode` has the twelve permission bits, times are nanoseconds since 1970-01-01 00:00 UTC, `refcount` is the
/// number of entries that name the inode (1 for the root), and `size` counts the bytes of a file or of a link's target.
#[derive(Clone, Copy, Debug, PartialEq, Eq)]
pub struct InodeRow {
    pub id: u64,
    pub kind: Kind,
    pub mode: u16,
    pub uid: u32,
    pub gid: u32,
    pub mtime: u64,
    pub ctime: u64,
    pub refcount: u64,
    pub size: u64,
    pub locked: bool,
}

impl Model for InodeRow {
    ghost use Rattle.s3_rows.specs.Rows.{Inode, IsInode};

    ghost Value = { Inode };

    ghost view = { λ r. record { id = r.id; kind = r.kind; mode = r.mode; uid = r.uid; gid = r.gid; mtime = r.mtime; ctime = r.ctime; refcount = r.refcount; size = r.size; locked = r.locked } };

    ghost invariant = { λ r. IsInode (record { id = r.id; kind = r.kind; mode = r.mode; uid = r.uid; gid = r.gid; mtime = r.mtime; ctime = r.ctime; refcount = r.refcount; size = r.size; locked = r.locked }) };

    ghost inverse = { λ r. record { id = r.id; kind = r.kind; mode = r.mode; uid = r.uid; gid = r.gid; mtime = r.mtime; ctime = r.ctime; refcount = r.refcount; size = r.size; locked = r.locked } };
}

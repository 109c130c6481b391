//! The attributes that a row has.
ghost use Rattle.std.specs.Prelude.{◌≡◌, IsTrue};
ghost use Rattle.op_frames.specs.Rules.{has_mode};
ghost use Rattle.tree_rows.specs.Attrs.{attr_of_row};

use op_frames::Attr;
use s3_rows::InodeRow;

/// The attributes that an inode's row has.
pub fn attr_of(row: &InodeRow) -> Attr
    ensures attr { result ≡ attr_of_row row.now }
    ensures mode { IsTrue (has_mode result) }
{
    Attr {
        inode: row.id,
        kind: row.kind,
        mode: row.mode,
        uid: row.uid,
        gid: row.gid,
        links: row.refcount,
        size: row.size,
        mtime: row.mtime,
        ctime: row.ctime,
        locked: row.locked,
    }
}

//! Sizes of directories and links.
ghost use Rattle.std.specs.Prelude.{◌≡◌, ◌≤◌, ◌^◌, length, Some, None};
ghost use Rattle.s3_rows.specs.Selections.{target_at};
ghost use Rattle.fsck_tables.specs.Rows as rows;
ghost use Rattle.fsck_tables.specs.Rows.{about_size};

use fsck_findings::{Finding, Look, Repair};
use s3_base::Kind;
use s3_rows::{Change, InodeRow, Tables};
use std::alloc::{AllocError, Global};
use table_look_ups::target_of;

/// Sizes that are not those of the kind.
#[derive(Clone, Copy)]
pub(crate) struct WrongSizes<'a> {
    pub(crate) alloc: Global,
    pub(crate) tables: &'a Tables,
}

/// The length of the target of a link, if it has one.
fn target_size(tables: &Tables, row: &InodeRow) -> u64
    ensures small { result ≤ 2 ^ 50 }
    ensures size { result ≡ elim (target_at tables.now row.now.id) [ Some x ↦ length x.target | None ↦ row.now.size ] }
{
    match target_of(tables, row.id) {
        Some(target) => target.target.len() as u64,
        None => row.size,
    }
}

/// The size that the inode is to have.
fn right_size(tables: &Tables, row: &InodeRow) -> u64
    ensures small { result ≤ 2 ^ 50 }
    ensures size { result ≡ rows.right_size tables.now row.now }
{
    match row.kind {
        Kind::Directory => 0,
        Kind::Regular => row.size,
        Kind::Link => target_size(tables, row),
    }
}

impl Look<InodeRow> for WrongSizes<'_> {
    ghost about = { λ s r. about_size s.tables.now r };

    fn look(&self, row: &InodeRow, repair: &mut Repair) -> Result<(), AllocError> {
        let size = right_size(self.tables, row);
        if row.size == size {
            return Ok(());
        }
        let finding = Finding::Size {
            inode: row.id,
            was: row.size,
            now: size,
        };
        repair.add(
            self.alloc,
            Change::PutInode(InodeRow { size, ..*row }),
            &finding,
        )
    }
}

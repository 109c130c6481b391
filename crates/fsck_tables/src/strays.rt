//! Targets, attributes and places in files that belong to nothing.
ghost use Rattle.std.specs.Prelude.{◌≡◌, ◌<◌, ◌^◌, is_some};
ghost use Rattle.s3_rows.specs.Selections.{name_at};
ghost use Rattle.s3_rows.specs.Validity.{is_in_file};
ghost use Rattle.fsck_tables.specs.Rows.{about_target, about_attr, about_place};

use fsck_findings::{Finding, Look, Repair};
use s3_rows::{AttrRow, Change, InodeBlockRow, Params, Tables, TargetRow};
use std::alloc::{AllocError, Global};
use table_look_ups::{has_file_at, has_inode_at, has_link_at, inode_of, name_of};

/// Targets of what is no symbolic link.
#[derive(Clone, Copy)]
pub(crate) struct StrayTargets<'a> {
    pub(crate) alloc: Global,
    pub(crate) tables: &'a Tables,
}

impl Look<TargetRow> for StrayTargets<'_> {
    ghost about = { λ s r. about_target s.tables.now r };

    fn look(&self, row: &TargetRow, repair: &mut Repair) -> Result<(), AllocError> {
        if has_link_at(self.tables, row.inode) {
            return Ok(());
        }
        let finding = Finding::TargetDropped(row.inode);
        repair.add(self.alloc, Change::DeleteTarget(row.inode), &finding)
    }
}

/// Attributes of inodes without row, or of names without row.
#[derive(Clone, Copy)]
pub(crate) struct StrayAttrs<'a> {
    pub(crate) alloc: Global,
    pub(crate) tables: &'a Tables,
}

impl Look<AttrRow> for StrayAttrs<'_> {
    ghost about = { λ s r. about_attr s.tables.now r };

    fn look(&self, row: &AttrRow, repair: &mut Repair) -> Result<(), AllocError> {
        let inode = row.inode;
        let name_id = row.name_id;
        if has_inode_at(self.tables, inode) && has_name_at(self.tables, name_id) {
            return Ok(());
        }
        let finding = Finding::AttributeDropped { inode, name_id };
        repair.add(self.alloc, Change::DeleteAttr(inode, name_id), &finding)
    }
}

/// Whether there is a name of the number.
fn has_name_at(tables: &Tables, id: u64) -> bool
    ensures { result ≡ is_some (name_at tables.now id) }
{
    match name_of(tables, id) {
        Some(_) => true,
        None => false,
    }
}

/// Places of what is no regular file, and at or past its end.
#[derive(Clone, Copy)]
pub(crate) struct StrayPlaces<'a> {
    pub(crate) alloc: Global,
    pub(crate) tables: &'a Tables,
    pub(crate) params: Params,
}

impl Look<InodeBlockRow> for StrayPlaces<'_> {
    ghost about = { λ s r. about_place s.tables.now s.params r };

    fn look(&self, row: &InodeBlockRow, repair: &mut Repair) -> Result<(), AllocError> {
        let inode = row.inode;
        let blockno = row.blockno;
        if has_file_at(self.tables, inode)
            && begins_in_file(self.tables, self.params, inode, blockno)
        {
            return Ok(());
        }
        let finding = Finding::LinkDropped { inode, blockno };
        repair.add(
            self.alloc,
            Change::DeleteInodeBlock(inode, blockno),
            &finding,
        )
    }
}

/// Whether a block begins before the end of the file.
fn begins_in_file(tables: &Tables, params: Params, inode: u64, blockno: u64) -> bool
    requires { blockno < 2 ^ 38 }
    ensures { result ≡ is_in_file tables.now params inode blockno }
{
    match inode_of(tables, inode) {
        Some(row) => blockno * (params.block_size as u64) < row.size,
        None => false,
    }
}

//! What is found about the counts of rows.
ghost use Rattle.std.specs.Prelude.{◌≡◌, ℕ, ◌<◌, ◌^◌, ◌==◌, IfOk, if◌then◌else◌};
ghost use Rattle.s3_rows.specs.Rows as rows;
ghost use Rattle.fsck_findings.specs.Found.{Adds};
ghost use Rattle.fsck_tables.specs.Counts.{about_count, about_use, about_inode, about_name, about_block, about_object};
ghost use Rattle.fsck_tables.specs.Tally.{tally_at};

use crate::tally::Tally;
use fsck_findings::{Finding, Look, Numbered, Repair};
use s3_base::LIMIT;
use s3_rows::{BlockRow, Change, InodeRow, NameRow, ObjectRow};
use std::alloc::{AllocError, Global};

/// How often a number was counted. No memory has so many rows that the count would not fit into a row.
fn count_of(tally: &Tally, id: u64) -> Result<u64, AllocError>
    ensures count { IfOk result (λ n. n ≡ tally_at tally.now id) }
    ensures small { IfOk result (λ n. n < 2 ^ 62) }
{
    let count = tally.of(id);
    if count >= LIMIT {
        return Err(AllocError);
    }
    Ok(count)
}

/// Counts of inodes, of which the root has 1.
#[derive(Clone, Copy)]
pub(crate) struct InodeCounts<'a> {
    pub(crate) alloc: Global,
    pub(crate) tally: &'a Tally,
}

impl Look<InodeRow> for InodeCounts<'_> {
    ghost about = { λ s r. about_inode (λ id. if id == 1 then 1 else tally_at s.tally.now id) r };

    fn look(&self, row: &InodeRow, repair: &mut Repair) -> Result<(), AllocError> {
        let id = row.id;
        let refcount = if id == 1 {
            1
        } else {
            count_of(self.tally, id)?
        };
        if row.refcount == refcount {
            return Ok(());
        }
        let finding = Finding::Count {
            table: Numbered::Inode,
            id,
            was: row.refcount,
            now: refcount,
        };
        repair.add(
            self.alloc,
            Change::PutInode(InodeRow { refcount, ..*row }),
            &finding,
        )
    }
}

/// Counts of names.
#[derive(Clone, Copy)]
pub(crate) struct NameCounts<'a> {
    pub(crate) alloc: Global,
    pub(crate) tally: &'a Tally,
}

impl Look<NameRow> for NameCounts<'_> {
    ghost about = { λ s r. about_name (λ id. tally_at s.tally.now id) r };

    fn look(&self, row: &NameRow, repair: &mut Repair) -> Result<(), AllocError> {
        let id = row.id;
        let refcount = count_of(self.tally, id)?;
        if refcount == 0 {
            let finding = Finding::Removed(Numbered::Name, id);
            return repair.add(self.alloc, Change::DeleteName(id), &finding);
        }
        if row.refcount == refcount {
            return Ok(());
        }
        let finding = Finding::Count {
            table: Numbered::Name,
            id,
            was: row.refcount,
            now: refcount,
        };
        let name = row.name.clone()?;
        let put = Change::PutName(NameRow { id, refcount, name });
        repair.add(self.alloc, put, &finding)
    }
}

/// Counts of blocks.
#[derive(Clone, Copy)]
pub(crate) struct BlockCounts<'a> {
    pub(crate) alloc: Global,
    pub(crate) tally: &'a Tally,
}

impl Look<BlockRow> for BlockCounts<'_> {
    ghost about = { λ s r. about_block (λ id. tally_at s.tally.now id) r };

    fn look(&self, row: &BlockRow, repair: &mut Repair) -> Result<(), AllocError> {
        let id = row.id;
        let refcount = count_of(self.tally, id)?;
        if refcount == 0 {
            let finding = Finding::Removed(Numbered::Block, id);
            return repair.add(self.alloc, Change::DeleteBlock(id), &finding);
        }
        if row.refcount == refcount {
            return Ok(());
        }
        let finding = Finding::Count {
            table: Numbered::Block,
            id,
            was: row.refcount,
            now: refcount,
        };
        repair.add(
            self.alloc,
            Change::PutBlock(BlockRow { refcount, ..*row }),
            &finding,
        )
    }
}

/// Counts of objects.
#[derive(Clone, Copy)]
pub(crate) struct ObjectCounts<'a> {
    pub(crate) alloc: Global,
    pub(crate) tally: &'a Tally,
}

impl Look<ObjectRow> for ObjectCounts<'_> {
    ghost about = { λ s r. about_object (λ id. tally_at s.tally.now id) r };

    fn look(&self, row: &ObjectRow, repair: &mut Repair) -> Result<(), AllocError> {
        let id = row.id;
        let refcount = count_of(self.tally, id)?;
        if row.refcount == refcount {
            return Ok(());
        }
        let finding = Finding::Count {
            table: Numbered::Object,
            id,
            was: row.refcount,
            now: refcount,
        };
        repair.add(
            self.alloc,
            Change::PutObject(ObjectRow { refcount, ..*row }),
            &finding,
        )
    }
}

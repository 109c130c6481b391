//! The steps of the pass that go from inode to inode.
ghost use Rattle.std.specs.Prelude.{◌≡◌, ◌<◌, Bool, Option, filter, IfOk};
ghost use Rattle.s3_rows.specs.Rows.{Inode};
ghost use Rattle.s3_rows.specs.Tables as tables;
ghost use Rattle.fsck_names.specs.declared.numbers.Free as numbers;
ghost use Rattle.fsck_names.specs.Made.{Made, for_each};
ghost use Rattle.fsck_names.specs.Pass.{each_inode};
ghost use Rattle.fsck_names.specs.Steps.{Gives};

use crate::numbers::Free;
use fsck_findings::{PassFault, Repair};
use s3_rows::{InodeRow, Tables};
use std::alloc::{AllocError, Global};

/// A test of inodes.
pub(crate) trait InodeTest {
    ghost test: { tables.Tables → Inode → Bool };

    fn passes(tables: &Tables, row: &InodeRow) -> bool
        ensures { result ≡ test tables.now row.now };
}

/// What is done about an inode.
pub(crate) trait InodeStep {
    ghost step: { numbers.Free → Inode → tables.Tables → Option Made };

    fn take(
        alloc: Global,
        free: Free,
        tables: &mut Tables,
        repair: &mut Repair,
        row: &InodeRow,
    ) -> Result<(), PassFault>
        requires { 0 < free.name }
        ensures { Gives result (step free row.now tables.old) tables.old tables.new repair.old repair.new };
}

/// The inodes that pass the test.
fn passing<S: InodeTest>(alloc: Global, tables: &Tables) -> Result<Vec<InodeRow>, AllocError>
    ensures { IfOk result (λ v. v.items ≡ filter (S.test tables.now) tables.now.inodes) }
{
    let mut found = Vec::new(alloc);
    for row in tables.inodes.as_slice() {
        if S::passes(tables, row) {
            found.push(*row)?;
        }
    }
    Ok(found)
}

/// The step for each of the rows, in order.
pub(crate) fn take_each<S: InodeStep>(
    alloc: Global,
    free: Free,
    tables: &mut Tables,
    repair: &mut Repair,
    rows: &[InodeRow],
) -> Result<(), PassFault>
    requires { 0 < free.name }
    ensures { Gives result (for_each (S.step free) rows.now tables.old) tables.old tables.new repair.old repair.new }
{
    for row in rows {
        S::take(alloc, free, tables, repair, row)?;
    }
    Ok(())
}

/// The step for each inode that passes the test.
pub(crate) fn each_inode<S: InodeTest + InodeStep>(
    alloc: Global,
    free: Free,
    tables: &mut Tables,
    repair: &mut Repair,
) -> Result<(), PassFault>
    requires { 0 < free.name }
    ensures { Gives result (each_inode S.test (S.step free) tables.old) tables.old tables.new repair.old repair.new }
{
    let rows = passing::<S>(alloc, tables)?;
    take_each::<S>(alloc, free, tables, repair, rows.as_slice())
}

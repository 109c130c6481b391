//! The numbers that come next.
ghost use Rattle.std.specs.Prelude.{◌≡◌, ◌≤◌, ◌<◌, ◌^◌, ◌++◌, List, map, max, OnOk};
ghost use Rattle.fsck_findings.specs.Found.{Adds};
ghost use Rattle.fsck_findings.specs.Work.{above};
ghost use Rattle.fsck_tables.specs.Rows.{about_next, about_numbers};

use fsck_findings::{Finding, Numbered, Repair};
use s3_rows::{Change, Params};
use std::alloc::{AllocError, Global};

/// A number that is below the least free one becomes that.
fn raise(
    alloc: Global,
    table: Numbered,
    was: u64,
    least: u64,
    params: Params,
    repair: &mut Repair,
) -> Result<(), AllocError>
    ensures { OnOk result (Adds (about_next table was least params) repair.old repair.new) }
{
    if was >= least {
        return Ok(());
    }
    let finding = Finding::Next {
        table,
        was,
        now: least,
    };
    repair.add(alloc, Change::SetParams(params), &finding)
}

/// The least numbers that are free, of inodes, names and blocks.
#[derive(Clone, Copy)]
pub(crate) struct Free {
    pub(crate) inode: u64,
    pub(crate) name: u64,
    pub(crate) block: u64,
}

/// Raises the numbers that come next to these.
pub(crate) fn raise_numbers(
    alloc: Global,
    params: Params,
    free: Free,
    repair: &mut Repair,
) -> Result<(), AllocError>
    requires inode { free.inode ≤ 2 ^ 62 }
    requires name { free.name ≤ 2 ^ 62 }
    requires block { free.block ≤ 2 ^ 62 }
    ensures { OnOk result (Adds (about_numbers params free.inode free.name free.block) repair.old repair.new) }
{
    let first = Params {
        next_inode: params.next_inode.max(free.inode),
        ..params
    };
    let second = Params {
        next_name: params.next_name.max(free.name),
        ..first
    };
    let third = Params {
        next_block: params.next_block.max(free.block),
        ..second
    };
    raise(
        alloc,
        Numbered::Inode,
        params.next_inode,
        free.inode,
        first,
        repair,
    )?;
    raise(
        alloc,
        Numbered::Name,
        params.next_name,
        free.name,
        second,
        repair,
    )?;
    raise(
        alloc,
        Numbered::Block,
        params.next_block,
        free.block,
        third,
        repair,
    )
}

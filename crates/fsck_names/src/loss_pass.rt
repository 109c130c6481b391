//! The pass of a check on losses.
ghost use Rattle.std.specs.Prelude.{◌≡◌, ◌<◌, ◌==◌, not, filter, IfOk, OnOk};
ghost use Rattle.s3_rows.specs.Rows.{IsId};
ghost use Rattle.fsck_findings.specs.declared.finding.Finding.TheVariants as findings;
ghost use Rattle.fsck_names.specs.Made.{finding};
ghost use Rattle.fsck_names.specs.Entries.{delete_entries};
ghost use Rattle.fsck_names.specs.Losses as losses;
ghost use Rattle.fsck_names.specs.Losses.{count_one, enter_lost, names_it, pass_on_losses};
ghost use Rattle.fsck_names.specs.Steps.{Gives, IsRepairOf, Takes};

use crate::drops::tell_deleted;
use crate::each::{InodeStep, take_each};
use crate::edits::put_inode;
use crate::look_ups::inode_row;
use crate::lost_places::{drop_places, losing_files};
use crate::moves::{enter, free_name, is_counted, lost_and_found_of};
use crate::numbers::{Free, above_all_in_use};
use fsck_findings::{Finding, PassFault, Repair};
use s3_base::Sequence;
use s3_rows::{ContentRow, InodeRow, Tables};
use std::alloc::{AllocError, Global};

/// A count that is the listed one becomes that of one entry.
fn count_one(
    alloc: Global,
    tables: &mut Tables,
    repair: &mut Repair,
    inode: u64,
) -> Result<(), AllocError>
    ensures { OnOk result (Takes (count_one inode tables.old) tables.old tables.new repair.old repair.new) }
{
    let Some(row) = inode_row(tables, inode).copied() else {
        return Ok(());
    };
    if !is_counted(tables, &row) {
        return Ok(());
    }
    put_inode(alloc, tables, repair, InodeRow { refcount: 1, ..row })
}

/// The entries that name an inode, and the others.
fn parted_by(
    alloc: Global,
    rows: &[ContentRow],
    inode: u64,
) -> Result<(Vec<ContentRow>, Vec<ContentRow>), AllocError>
    ensures { IfOk result (λ p. (p.0.items ≡ filter (λ r. r.inode == inode) rows.now) × (p.1.items ≡ filter (λ r. not (r.inode == inode)) rows.now)) }
{
    let mut gone = Vec::new(alloc);
    let mut kept = Vec::new(alloc);
    for row in rows {
        if row.inode == inode {
            gone.push(*row)?;
        } else {
            kept.push(*row)?;
        }
    }
    Ok((gone, kept))
}

/// The entries that name an inode go.
fn delete_entries_of(
    alloc: Global,
    tables: &mut Tables,
    repair: &mut Repair,
    inode: u64,
) -> Result<(), AllocError>
    ensures { OnOk result (Takes (delete_entries (names_it inode) tables.old) tables.old tables.new repair.old repair.new) }
{
    let (gone, kept) = parted_by(alloc, tables.contents.as_slice(), inode)?;
    tell_deleted(gone.as_slice(), repair)?;
    tables.contents = Sequence::from(kept);
    Ok(())
}

/// An entry in `lost+found`, with the first name that is free there.
fn enter_lost(
    alloc: Global,
    free: Free,
    tables: &mut Tables,
    repair: &mut Repair,
    inode: u64,
) -> Result<(), PassFault>
    requires free { 0 < free.name }
    requires inode { IsId inode }
    ensures { Gives result (enter_lost free inode tables.old) tables.old tables.new repair.old repair.new }
{
    let Some(parent) = lost_and_found_of(tables) else {
        return Err(PassFault::Worn);
    };
    let name = free_name(alloc, tables, parent, inode)?;
    enter(alloc, free, tables, repair, parent, name, inode)
}

/// The line of a file that is moved.
fn tell_moved(
    alloc: Global,
    repair: &mut Repair,
    tables: &Tables,
    inode: u64,
) -> Result<(), AllocError>
    ensures { OnOk result (Takes (finding (findings.Moved inode) tables.now) tables.now tables.now repair.old repair.new) }
{
    repair.find(alloc, &Finding::Moved(inode))
}

/// A file that lost a block.
struct LosingFile;

impl InodeStep for LosingFile {
    ghost step = { losses.replace_of_file };

    fn take(
        alloc: Global,
        free: Free,
        tables: &mut Tables,
        repair: &mut Repair,
        row: &InodeRow,
    ) -> Result<(), PassFault> {
        replace_entries(alloc, free, tables, repair, row.id)
    }
}

/// The entries of the file are replaced by one in `lost+found`.
fn replace_entries(
    alloc: Global,
    free: Free,
    tables: &mut Tables,
    repair: &mut Repair,
    inode: u64,
) -> Result<(), PassFault>
    requires free { 0 < free.name }
    requires inode { IsId inode }
    ensures { Gives result (losses.replace_entries free inode tables.old) tables.old tables.new repair.old repair.new }
{
    tell_moved(alloc, repair, tables, inode)?;
    count_one(alloc, tables, repair, inode)?;
    delete_entries_of(alloc, tables, repair, inode)?;
    enter_lost(alloc, free, tables, repair, inode)?;
    Ok(())
}

/// All steps of the pass.
fn take_losses(alloc: Global, tables: &mut Tables, repair: &mut Repair) -> Result<(), PassFault>
    ensures { Gives result (pass_on_losses tables.old) tables.old tables.new repair.old repair.new }
{
    let free = above_all_in_use(tables);
    let files = losing_files(alloc, tables)?;
    drop_places(alloc, tables, repair)?;
    take_each::<LosingFile>(alloc, free, tables, repair, files.as_slice())?;
    Ok(())
}

/// Places in files whose blocks have no row go, and the entries of the files that lost one so, for which `lost+found` gets one each.
/// Worn: a name needs a number, and none is left.
pub fn losses(alloc: Global, tables: Tables) -> Result<Repair, PassFault>
    ensures { IsRepairOf (pass_on_losses tables) result }
{
    let mut tables = tables;
    let mut repair = Repair::new(alloc);
    take_losses(alloc, &mut tables, &mut repair)?;
    Ok(repair)
}

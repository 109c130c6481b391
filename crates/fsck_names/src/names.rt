//! The pass of a check on names.
ghost use Rattle.std.specs.Prelude.{◌<◌, OnOk};
ghost use Rattle.fsck_names.specs.Pass as pass;
ghost use Rattle.fsck_names.specs.Steps.{Gives, IsRepairOf, Takes};

use crate::drops::{delete_entries, drop_entries};
use crate::each::each_inode;
use crate::entry_tests::{NoLostAndFound, OutOfPlace};
use crate::inode_steps::{EmptyLink, LostDirectory, LostFile, NamesEmptyLink};
use crate::numbers::{Free, above_all_in_use};
use crate::parents::ClosesLoop;
use crate::roots::{make_lost_and_found, make_root};
use crate::twins::{NamesDirectoryAgain, RepeatsName};
use fsck_findings::{PassFault, Repair};
use s3_rows::Tables;
use std::alloc::{AllocError, Global};

/// Entries that are not right go.
fn clear_entries(alloc: Global, tables: &mut Tables, repair: &mut Repair) -> Result<(), AllocError>
    ensures { OnOk result (Takes (pass.clear_entries tables.old) tables.old tables.new repair.old repair.new) }
{
    drop_entries::<OutOfPlace>(alloc, tables, repair)?;
    drop_entries::<RepeatsName>(alloc, tables, repair)?;
    drop_entries::<NoLostAndFound>(alloc, tables, repair)?;
    drop_entries::<NamesDirectoryAgain>(alloc, tables, repair)?;
    Ok(())
}

/// There are a root and `lost+found`, and no loops.
fn make_roots(
    alloc: Global,
    free: Free,
    tables: &mut Tables,
    repair: &mut Repair,
) -> Result<(), PassFault>
    requires inode { 0 < free.inode }
    requires name { 0 < free.name }
    ensures { Gives result (pass.make_roots free tables.old) tables.old tables.new repair.old repair.new }
{
    make_root(alloc, tables, repair)?;
    make_lost_and_found(alloc, free, tables, repair)?;
    drop_entries::<ClosesLoop>(alloc, tables, repair)?;
    Ok(())
}

/// Each inode that no entry names is moved or goes.
fn settle_inodes(
    alloc: Global,
    free: Free,
    tables: &mut Tables,
    repair: &mut Repair,
) -> Result<(), PassFault>
    requires { 0 < free.name }
    ensures { Gives result (pass.settle_inodes free tables.old) tables.old tables.new repair.old repair.new }
{
    each_inode::<LostDirectory>(alloc, free, tables, repair)?;
    each_inode::<LostFile>(alloc, free, tables, repair)?;
    delete_entries::<NamesEmptyLink>(alloc, tables, repair)?;
    each_inode::<EmptyLink>(alloc, free, tables, repair)?;
    Ok(())
}

/// All steps of the pass.
fn take_steps(alloc: Global, tables: &mut Tables, repair: &mut Repair) -> Result<(), PassFault>
    ensures { Gives result (pass.pass_on_names tables.old) tables.old tables.new repair.old repair.new }
{
    let free = above_all_in_use(tables);
    clear_entries(alloc, tables, repair)?;
    make_roots(alloc, free, tables, repair)?;
    settle_inodes(alloc, free, tables, repair)?;
    Ok(())
}

/// What makes one tree of the names of tables, and a line for each thing that is not right. Worn: an inode or a name needs a
/// number, and none is left.
pub fn pass(alloc: Global, tables: Tables) -> Result<Repair, PassFault>
    ensures { IsRepairOf (pass.pass_on_names tables) result }
{
    let mut tables = tables;
    let mut repair = Repair::new(alloc);
    take_steps(alloc, &mut tables, &mut repair)?;
    Ok(repair)
}

//! The passes that are one batch each.
ghost use Rattle.std.specs.Prelude.{◌≡◌, List, Option, Some, option_map};
ghost use Rattle.s3_rows.specs.Tables as tables;
ghost use Rattle.s3_devices.specs.declared.key_list.KeyItem as keys;
ghost use Rattle.fsck_findings.specs.Found as found;
ghost use Rattle.fsck_run.specs.Passes as passes;
ghost use Rattle.fsck_run.specs.Passes.{IsRepair};

use fsck_findings::{PassFault, Repair, free_block, free_inode, free_name};
use s3_devices::KeyList;
use s3_rows::{Params, Tables};
use std::alloc::Global;

/// A pass of a check.
pub(crate) trait Pass {
    /// What it finds, none where it needs a number and none is left.
    ghost found: { List keys.KeyItem → tables.Tables → Option found.Found };

    fn repair(alloc: Global, tables: Tables, keys: &KeyList) -> Result<Repair, PassFault>
        ensures { IsRepair (found keys.now tables) result };
}

pub(crate) struct Names;

impl Pass for Names {
    ghost found = { passes.names_found };

    fn repair(alloc: Global, tables: Tables, _keys: &KeyList) -> Result<Repair, PassFault> {
        fsck_names::pass(alloc, tables)
    }
}

/// The parameters with the numbers that come next as the pass on rows leaves them.
fn raised(tables: &Tables) -> Params
    ensures { Some result ≡ option_map (passes.raised tables.now) tables.now.params }
{
    let params = tables.params;
    Params {
        next_inode: params.next_inode.max(free_inode(tables)),
        next_name: params.next_name.max(free_name(tables)),
        next_block: params.next_block.max(free_block(tables)),
        ..params
    }
}

pub(crate) struct Rows;

impl Pass for Rows {
    ghost found = { passes.rows_found };

    fn repair(alloc: Global, tables: Tables, keys: &KeyList) -> Result<Repair, PassFault> {
        let mut repair = fsck_tables::rows(alloc, &tables)?;
        let params = raised(&tables);
        fsck_objects::raise_next_object(alloc, &tables, keys, params, &mut repair)?;
        Ok(repair)
    }
}

pub(crate) struct Objects;

impl Pass for Objects {
    ghost found = { passes.objects_found };

    fn repair(alloc: Global, tables: Tables, keys: &KeyList) -> Result<Repair, PassFault> {
        Ok(fsck_objects::missing(alloc, &tables, keys)?)
    }
}

pub(crate) struct Losses;

impl Pass for Losses {
    ghost found = { passes.losses_found };

    fn repair(alloc: Global, tables: Tables, _keys: &KeyList) -> Result<Repair, PassFault> {
        fsck_names::losses(alloc, tables)
    }
}

pub(crate) struct Counts;

impl Pass for Counts {
    ghost found = { passes.counts_found };

    fn repair(alloc: Global, tables: Tables, _keys: &KeyList) -> Result<Repair, PassFault> {
        Ok(fsck_tables::counts(alloc, &tables)?)
    }
}

//! The pass on rows.
ghost use Rattle.std.specs.Prelude.{◌≡◌, map, OnOk, IfOk, IfSome};
ghost use Rattle.fsck_findings.specs.Line.{line_of};
ghost use Rattle.fsck_findings.specs.Found.{Adds};
ghost use Rattle.fsck_tables.specs.Rows.{about_rows, repaired_rows};

use crate::blocks::look_at_blocks;
use crate::numbers::{Free, raise_numbers};
use crate::sizes::WrongSizes;
use crate::strays::{StrayAttrs, StrayPlaces, StrayTargets};
use fsck_findings::{Repair, free_block, free_inode, free_name, look_at_all};
use s3_rows::{Params, Tables};
use std::alloc::{AllocError, Global};

/// Looks at the targets, the attributes, the sizes and the places in files.
fn look_at_rows(
    alloc: Global,
    tables: &Tables,
    params: Params,
    repair: &mut Repair,
) -> Result<(), AllocError>
    ensures { OnOk result (Adds (about_rows params tables.now) repair.old repair.new) }
{
    look_at_all(
        &StrayTargets { alloc, tables },
        tables.targets.as_slice(),
        repair,
    )?;
    look_at_all(
        &StrayAttrs { alloc, tables },
        tables.attrs.as_slice(),
        repair,
    )?;
    look_at_all(
        &WrongSizes { alloc, tables },
        tables.inodes.as_slice(),
        repair,
    )?;
    let places = StrayPlaces {
        alloc,
        tables,
        params,
    };
    look_at_all(&places, tables.inode_blocks.as_slice(), repair)
}

/// The pass on rows: targets, attributes, sizes, places in files, blocks, and the numbers that come next.
pub fn rows(alloc: Global, tables: &Tables) -> Result<Repair, AllocError>
    ensures batch { IfOk result (λ r. IfSome tables.now.params (λ p. r.batch ≡ (repaired_rows p tables.now).changes)) }
    ensures findings { IfOk result (λ r. IfSome tables.now.params (λ p. r.findings ≡ map line_of (repaired_rows p tables.now).findings)) }
{
    let mut repair = Repair::new(alloc);
    let params = tables.params;
    look_at_rows(alloc, tables, params, &mut repair)?;
    look_at_blocks(alloc, tables, params, &mut repair)?;
    let free = Free {
        inode: free_inode(tables),
        name: free_name(tables),
        block: free_block(tables),
    };
    raise_numbers(alloc, params, free, &mut repair)?;
    Ok(repair)
}

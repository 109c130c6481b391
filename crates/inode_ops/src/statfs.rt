//! The plan of Statfs: what is counted over all rows of two tables.
ghost use Rattle.std.specs.Prelude.{◌≡◌, ℕ, IfOk, option_map, unwrap_or};
ghost use Rattle.s3_base.specs.Faults.{HasCause};
ghost use Rattle.op_frames.specs.declared.operation.Op.TheVariants as ops;
ghost use Rattle.s3_rows.specs.Told.{IfTold, has_failed};
ghost use Rattle.s3_rows.specs.Validity.{IsValid};
ghost use Rattle.plain_tree.specs.Tree.{Tree};
ghost use Rattle.tree_rows.specs.Shapes.{Represents};
ghost use Rattle.ref_counts.specs.Plans.{IsPlanOf, HasFitReply};

use crate::counting::count;
use op_frames::Reply;
use ref_counts::{Plan, answer};
use s3_rows::{Keeper, KeeperFault, Params, TableName};
use std::alloc::Global;

/// The size of a block, or 0 where there is no file system.
fn block_size_of(params: Option<Params>) -> u32
    ensures { result ≡ unwrap_or (option_map (λ p. p.block_size) params) 0 }
{
    match params {
        Some(params) => params.block_size,
        None => 0,
    }
}

/// The size of a block, and how many nodes, entries and bytes of regular files there are.
pub fn statfs<K: Keeper>(alloc: Global, keeper: &mut K) -> Result<Plan, KeeperFault>
    ensures plan { IfOk result (λ p. IfTold (K.told keeper.old) (λ t. IsValid t → (whole : Tree) (pass now : ℕ) → Represents t whole → IsPlanOf t whole pass ops.Statfs now p)) }
    ensures same { K.told keeper.new ≡ K.told keeper.old }
    ensures cause { HasCause (K.faults keeper.old) (K.faults keeper.new) (has_failed result) }
    ensures fit { IfOk result HasFitReply }
{
    let block_size = block_size_of(keeper.params()?);
    let inodes = count(keeper, TableName::Inodes)?;
    let entries = count(keeper, TableName::Contents)?;
    let stat = Reply::Stat {
        block_size,
        inodes: inodes.rows,
        entries: entries.rows,
        bytes: inodes.weight,
    };
    Ok(answer(alloc, Ok(stat)))
}

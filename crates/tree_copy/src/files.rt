//! The places of the copies of all files.
ghost use Rattle.std.specs.Prelude.{◌≡◌, ◌≤◌, ◌<◌, ◌+◌, ◌^◌, ◌++◌, true, length, IfOk};
ghost use Rattle.s3_base.specs.Faults.{HasCause};
ghost use Rattle.s3_rows.specs.Batches.{tables_after};
ghost use Rattle.s3_rows.specs.Tables.{IsOrdered};
ghost use Rattle.s3_rows.specs.Told.{IfTold, has_failed};
ghost use Rattle.tree_copy.specs.CopiedFiles.{fit_from, placed_from};

use crate::places::copy_places;
use s3_rows::{Batch, Keeper, KeeperFault};

/// Adds the changes by which the places of the copies of inodes come, one inode after the other; their numbers rise from `next` on. False
/// where a block may not count one place more; the batch is to be dropped then.
pub(crate) fn copy_files<K: Keeper>(
    keeper: &mut K,
    batch: &mut Batch,
    seen: &[u64],
    next: u64,
) -> Result<bool, KeeperFault>
    requires some { 0 < next }
    requires room { next + length seen.now ≤ 2 ^ 62 }
    ensures fits { IfOk result (λ fits. IfTold (K.told keeper.old) (λ t. IsOrdered t → fits ≡ fit_from t next seen.now (tables_after batch.old t))) }
    ensures copied { IfOk result (λ fits. IfTold (K.told keeper.old) (λ t. IsOrdered t → fits ≡ true → batch.new ≡ batch.old ++ placed_from t next seen.now (tables_after batch.old t))) }
    ensures same { K.told keeper.new ≡ K.told keeper.old }
    ensures cause { HasCause (K.faults keeper.old) (K.faults keeper.new) (has_failed result) }
{
    let mut copy = next;
    for inode in seen {
        if !copy_places(keeper, batch, *inode, copy)? {
            return Ok(false);
        }
        copy += 1;
    }
    Ok(true)
}

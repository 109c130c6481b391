//! Whether a directory is empty.
ghost use Rattle.std.specs.Prelude.{◌≡◌, [], length, nat_lt, IfOk};
ghost use Rattle.s3_base.specs.Errors.{enotempty};
ghost use Rattle.s3_base.specs.Faults.{HasCause};
ghost use Rattle.plain_tree.specs.Checks.{fails_with};
ghost use Rattle.s3_rows.specs.Selections.{entries_listed};
ghost use Rattle.s3_rows.specs.Told.{IfTold, has_failed};
ghost use Rattle.op_checks.specs.Checks.{Checks};

use s3_base::{ByteList, Errno};
use s3_rows::{InodeRow, Keeper, KeeperFault};
use std::alloc::Global;

/// A directory has an entry: a page from the empty name on, which no entry has, is not empty.
pub fn has_entries<K: Keeper>(
    alloc: Global,
    keeper: &mut K,
    directory: &InodeRow,
) -> Result<bool, KeeperFault>
    ensures full { IfOk result (λ full. IfTold (K.told keeper.old) (λ t. full ≡ nat_lt 0 (length (entries_listed t directory.now.id [] 1)))) }
    ensures same { K.told keeper.new ≡ K.told keeper.old }
    ensures cause { HasCause (K.faults keeper.old) (K.faults keeper.new) (has_failed result) }
{
    let page = keeper.entries(directory.id, &ByteList::new(alloc), 1)?;
    Ok(page.len() > 0)
}

/// ENOTEMPTY where a directory has entries.
pub fn check_empty(full: bool) -> Result<(), Errno>
    ensures { Checks result (fails_with enotempty full) }
{
    if full {
        return Err(Errno::ENOTEMPTY);
    }
    Ok(())
}

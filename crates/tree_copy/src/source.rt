//! The source's own node and entry.
ghost use Rattle.std.specs.Prelude.{◌≡◌, ◌<◌, ◌^◌, ◌++◌, ◌∷◌, [], List, None, Some, IfOk, OnOk};
ghost use Rattle.s3_base.specs.Faults.{HasCause};
ghost use Rattle.plain_tree.specs.Checks.{attribute_name_check};
ghost use Rattle.s3_rows.specs.declared.change.Change.{Change};
ghost use Rattle.s3_rows.specs.declared.change.Change.TheVariants as changes;
ghost use Rattle.s3_rows.specs.Tables.{IsOrdered};
ghost use Rattle.s3_rows.specs.Told.{IfTold, has_failed};
ghost use Rattle.s3_rows.specs.Validity.{HasUniqueNames};
ghost use Rattle.ref_counts.specs.Names.{StaysUnique};
ghost use Rattle.row_steps.specs.RowChanges.{touched_row};
ghost use Rattle.tree_copy.specs.CopiedNames.{AreAttrNames};
ghost use Rattle.tree_copy.specs.CopyWalks.{source_batch};

use crate::rows::{copy_entry, copy_node};
use s3_base::{ByteList, LIMIT};
use s3_rows::{Batch, Change, InodeRow, Keeper, KeeperFault, Params};
use std::alloc::{AllocError, Global};

/// Touches the directory that has the copy.
fn touch(batch: &mut Batch, directory: &InodeRow, now: u64) -> Result<(), AllocError>
    requires { now < 2 ^ 62 }
    ensures { OnOk result (batch.new ≡ batch.old ++ changes.PutInode (touched_row now directory.now) ∷ []) }
{
    batch.push(Change::PutInode(InodeRow {
        mtime: now,
        ctime: now,
        ..*directory
    }))?;
    Ok(())
}

/// The batch by which the source's own node comes under the number that comes next, with its entry in a directory, which is touched.
/// None where that number, or a use of a name, is worn.
pub fn copy_source<K: Keeper>(
    alloc: Global,
    keeper: &mut K,
    top: &InodeRow,
    directory: &InodeRow,
    name: &ByteList,
    params: &Params,
    now: u64,
) -> Result<Option<Batch>, KeeperFault>
    requires { now < 2 ^ 62 }
    ensures copied { IfOk result (λ b. IfTold (K.told keeper.old) (λ t. IsOrdered t → HasUniqueNames t → AreAttrNames t top.now.id → attribute_name_check name.now ≡ None
        → t.params ≡ Some params.now → b ≡ source_batch t params.now.next_inode now top.now directory.now name.now)) }
    ensures unique { IfOk result (λ b. IfTold (K.told keeper.old) (λ t. IsOrdered t → HasUniqueNames t → AreAttrNames t top.now.id → attribute_name_check name.now ≡ None
        → (cs : List Change) → b ≡ Some cs → StaysUnique cs t)) }
    ensures same { K.told keeper.new ≡ K.told keeper.old }
    ensures cause { HasCause (K.faults keeper.old) (K.faults keeper.new) (has_failed result) }
{
    let next = params.next_inode;
    if next >= LIMIT {
        return Ok(None);
    }
    let mut batch = Batch::new(alloc);
    if !copy_node(alloc, keeper, &mut batch, top, next, now)? {
        return Ok(None);
    }
    if !copy_entry(keeper, &mut batch, name, directory.id, next)? {
        return Ok(None);
    }
    touch(&mut batch, directory, now)?;
    Ok(Some(batch))
}

//! The directory in which an entry is made.
ghost use Rattle.std.specs.Prelude.{◌≡◌, ◌<◌, ◌^◌, [], ◌∷◌, Some, IfOk};
ghost use Rattle.s3_base.specs.Faults.{HasCause};
ghost use Rattle.s3_base.specs.Errors.{eexist};
ghost use Rattle.plain_tree.specs.Tree.{Tree};
ghost use Rattle.plain_tree.specs.Checks.{fails_with, first_failure};
ghost use Rattle.s3_rows.specs.Rows.{Parameters};
ghost use Rattle.s3_rows.specs.Told.{IfTold, has_failed};
ghost use Rattle.s3_rows.specs.Validity.{IsValid, HasUniqueNames};
ghost use Rattle.tree_rows.specs.Shapes.{Represents};
ghost use Rattle.op_checks.specs.Checks.{Checks};
ghost use Rattle.op_checks.specs.Rows.{row_check, directory_row_check, lock_row_check, ids_row_check};
ghost use Rattle.dir_ops.specs.Places.{IsPlaced};

use crate::entries::has_entry;
use op_checks::{check_directory, check_free, check_ids, check_node, check_unlocked};
use s3_base::{ByteList, Errno};
use s3_rows::{InodeRow, Keeper, KeeperFault, Params};

/// The directory and the parameters, where no check fails: `taken` says that it has such an entry already.
fn check_place(
    found: Option<InodeRow>,
    taken: bool,
    params: Option<Params>,
) -> Result<(InodeRow, Params), Errno>
    ensures next { IfOk result (λ place. place.1.next_inode < 2 ^ 62) }
    ensures found { IfOk result (λ place. found ≡ Some place.0) }
    ensures params { IfOk result (λ place. params ≡ Some place.1) }
    ensures check { (p : Parameters) → params ≡ Some p → Checks result (first_failure (row_check found ∷ directory_row_check found ∷ lock_row_check found
        ∷ fails_with eexist taken ∷ ids_row_check p 1 ∷ [])) }
{
    let directory = check_node(found)?;
    check_directory(&directory)?;
    check_unlocked(&directory)?;
    check_free(taken)?;
    let params = params.ok_or(Errno::ENOSPC)?;
    check_ids(&params, 1)?;
    Ok((directory, params))
}

/// The directory in which a new inode gets its entry, and the parameters, or the error of the first check of the two that fails.
pub fn find_place<K: Keeper>(
    keeper: &mut K,
    parent: u64,
    name: &ByteList,
) -> Result<Result<(InodeRow, Params), Errno>, KeeperFault>
    ensures place { IfOk result (λ r. IfTold (K.told keeper.old) (λ t. IsValid t → HasUniqueNames t → (whole : Tree) → Represents t whole → IsPlaced t whole parent name.now r)) }
    ensures next { IfOk result (λ r. IfOk r (λ place. place.1.next_inode < 2 ^ 62)) }
    ensures same { K.told keeper.new ≡ K.told keeper.old }
    ensures cause { HasCause (K.faults keeper.old) (K.faults keeper.new) (has_failed result) }
{
    let found = keeper.inode(parent)?;
    let taken = has_entry(keeper, parent, name)?;
    let params = keeper.params()?;
    Ok(check_place(found, taken, params))
}

//! The way up from a directory.
ghost use Rattle.std.specs.Prelude.{◌≡◌, Some, IsTrue, IfOk};
ghost use Rattle.s3_base.specs.Faults.{HasCause};
ghost use Rattle.plain_tree.specs.Below.{is_at_or_below};
ghost use Rattle.plain_tree.specs.Tree.{Tree};
ghost use Rattle.plain_tree.specs.WellFormed.{IsWellFormed};
ghost use Rattle.s3_rows.specs.Told.{IfTold, has_failed};
ghost use Rattle.s3_rows.specs.Validity.{IsValid, has_inode, is_directory};
ghost use Rattle.tree_rows.specs.Shapes.{Represents};

use op_checks::ROOT;
use row_steps::holders_are_parents;
use s3_rows::{Keeper, KeeperFault};
use tree_laws::directories_lie_below_their_parents;

/// A directory is `top` or lies below it, told by the entries that name the directories above it. None where the way up does
/// not end at the root within as many steps as inode numbers were drawn.
pub fn lies_within<K: Keeper>(
    keeper: &mut K,
    top: u64,
    directory: u64,
) -> Result<Option<bool>, KeeperFault>
    ensures below { IfOk result (λ b. IfTold (K.told keeper.old) (λ t. IsValid t → (whole : Tree) → Represents t whole → IsWellFormed whole
        → IsTrue (has_inode is_directory t directory) → b ≡ Some (is_at_or_below whole top directory))) }
    ensures same { K.told keeper.new ≡ K.told keeper.old }
    ensures cause { HasCause (K.faults keeper.old) (K.faults keeper.new) (has_failed result) }
{
    holders_are_parents();
    directories_lie_below_their_parents();
    let Some(params) = keeper.params()? else {
        return Ok(None);
    };
    let mut current = directory;
    for _step in 0..params.next_inode {
        if current == top {
            return Ok(Some(true));
        }
        if current == ROOT {
            return Ok(Some(false));
        }
        match keeper.holder(current)? {
            Some(holder) => current = holder.parent,
            None => return Ok(None),
        }
    }
    Ok(None)
}

//! Names whose counts are at their end.
ghost use Rattle.std.specs.Prelude.{◌<◌, ◌+◌, ◌^◌, ℕ};
ghost use Rattle.op_frames.specs.declared.operation.Op.{Op};
ghost use Rattle.plain_tree.specs.Tree.{Tree};
ghost use Rattle.plain_tree.specs.WellFormed.{IsWellFormed};
ghost use Rattle.tree_laws.specs.Growth.{HaveFewNames};
ghost use Rattle.s3_rows.specs.Tables.{Tables};
ghost use Rattle.s3_rows.specs.Validity.{HasUniqueNames, IsValid};
ghost use Rattle.tree_rows.specs.Shapes.{Represents};
ghost use Rattle.ref_counts.specs.Plans.{IsWorn, next_name_of};
ghost use Rattle.tree_limits.specs.Full.{IsNameFull};

use inode_ops::names_count_their_uses;

/// Where numbers of names are left, and no inode has almost 2^62 names, a count that is worn is that of a name, which is full.
pub fn worn_names_are_full()
    ensures { (t : Tables) (whole : Tree) (op : Op) (most : ℕ) → IsValid t → HasUniqueNames t → Represents t whole → IsWellFormed whole
        → HaveFewNames most whole → most + 1 < 2 ^ 62 → next_name_of t < 2 ^ 62 → IsWorn t whole op → IsNameFull whole op }
{
    names_count_their_uses();
}

//! Copies of trees for which a count is at its end.
ghost use Rattle.std.specs.Prelude.{◌≡◌, ◌⊎◌, ◌<◌, ◌^◌, ℕ, List, None};
ghost use Rattle.op_frames.specs.declared.operation.Op.TheVariants as ops;
ghost use Rattle.plain_tree.specs.Checks.{first_failure};
ghost use Rattle.plain_tree.specs.Operations.{checks, effect};
ghost use Rattle.plain_tree.specs.Tree.{Tree};
ghost use Rattle.plain_tree.specs.WellFormed.{IsWellFormed};
ghost use Rattle.s3_rows.specs.Tables.{Tables};
ghost use Rattle.s3_rows.specs.Validity.{HasUniqueNames, IsValid};
ghost use Rattle.tree_rows.specs.Shapes.{Represents};
ghost use Rattle.core_model.specs.Bytes.{no_overlay};
ghost use Rattle.core_model.specs.Exact.{IsExact};
ghost use Rattle.core_model.specs.Occurring.{IsCollisionFree, blocks_in};
ghost use Rattle.ref_counts.specs.Plans.{next_name_of};
ghost use Rattle.tree_copy.specs.CopyPlans.{IsCopyWorn};
ghost use Rattle.tree_limits.specs.Full.{GetsFullBlock, GetsFullName};

use inode_ops::names_count_their_uses;
use tree_copy::{copy_walks_come_to_all, names_fit_by_their_counts, places_fit_by_the_tree};

/// Where numbers of names are left, all places are exact, and no two different blocks collide, a count that is worn for a copy that no
/// check refuses is that of a name or of a block, which would be full in the tree with the copy.
pub fn worn_copies_are_full()
    ensures { (digest_of : List ℕ → List ℕ) (t : Tables) (whole : Tree) (pass source parent now : ℕ) (name : List ℕ) → IsValid t → HasUniqueNames t → Represents t whole
        → IsWellFormed whole → IsExact digest_of t no_overlay whole → IsCollisionFree digest_of (blocks_in whole) → next_name_of t < 2 ^ 62
        → first_failure (checks whole pass (ops.CopyTree source parent name)) ≡ None → IsCopyWorn t whole source parent now name
        → GetsFullName whole (effect whole pass (ops.CopyTree source parent name) now) ⊎ GetsFullBlock whole (effect whole pass (ops.CopyTree source parent name) now) }
{
    copy_walks_come_to_all();
    names_count_their_uses();
    names_fit_by_their_counts();
    places_fit_by_the_tree();
}

//! Operations that store no block.
ghost use Rattle.std.specs.Prelude.{◌≡◌, ℕ, List};
ghost use Rattle.plain_tree.specs.Tree.{Tree};
ghost use Rattle.s3_rows.specs.Stores.{AreHeld};
ghost use Rattle.s3_rows.specs.Tables.{IsOrdered, Tables};
ghost use Rattle.s3_rows.specs.Validity.{IsValid};
ghost use Rattle.tree_rows.specs.Contents.{Contents};
ghost use Rattle.tree_rows.specs.Shapes.{Represents};
ghost use Rattle.ref_counts.specs.Plans.{LeavesRest};
ghost use Rattle.core_model.specs.Bytes.{HasBytes, no_overlay};
ghost use Rattle.core_model.specs.Exact.{IsExact};
ghost use Rattle.core_model.specs.Safe.{HaveHeld, Held};
ghost use Rattle.byte_steps.specs.Kept.{KeepsBytes};
ghost use Rattle.byte_steps.specs.Shared.{SharesBlocks};

use block_steps::kept_rows_keep_what_is_held;

/// Where each file shares the blocks of one that was there, or has none, tables and contents have the bytes of the tree after it, exact
/// places stay exact, and what is held of blocks is held of the ones that are left. So it is after an operation on names that
/// leaves the bytes of files.
pub fn shared_blocks_keep_bytes()
    ensures names { (t after : Tables) (whole next : Tree) → IsValid t → Represents t whole → Represents after next → LeavesRest t after
        → next.block_size ≡ whole.block_size → KeepsBytes whole next → SharesBlocks t after whole next }
    ensures bytes { (m : Contents) (t after : Tables) (whole next : Tree) → IsOrdered t → IsOrdered after → SharesBlocks t after whole next
        → HasBytes m t no_overlay whole → HasBytes m after no_overlay next }
    ensures exact { (digest_of : List ℕ → List ℕ) (t after : Tables) (whole next : Tree) → SharesBlocks t after whole next
        → IsExact digest_of t no_overlay whole → IsExact digest_of after no_overlay next }
    ensures held { (m : Contents) (held : Held) (t after : Tables) (whole next : Tree) → IsOrdered t → IsOrdered after → SharesBlocks t after whole next
        → HaveHeld m held t.blocks → HaveHeld m held after.blocks }
    ensures stored { (digest_of : List ℕ → List ℕ) (held : Held) (t after : Tables) (whole next : Tree) → IsOrdered t → IsOrdered after
        → SharesBlocks t after whole next → AreHeld digest_of held t.blocks → AreHeld digest_of held after.blocks }
{
    kept_rows_keep_what_is_held();
}

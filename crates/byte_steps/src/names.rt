//! Operations on names and inodes.
ghost use Rattle.std.specs.Prelude.{◌≡◌, ◌≢◌, ℕ, List, None, false};
ghost use Rattle.op_frames.specs.declared.operation.Op.{Op};
ghost use Rattle.plain_tree.specs.Tree.{Tree};
ghost use Rattle.plain_tree.specs.Checks.{first_failure};
ghost use Rattle.plain_tree.specs.Classes.{Bytes, class_of};
ghost use Rattle.plain_tree.specs.Operations.{checks, effect};
ghost use Rattle.plain_tree.specs.WellFormed.{IsWellFormed};
ghost use Rattle.s3_rows.specs.Stores.{AreHeld};
ghost use Rattle.s3_rows.specs.Tables.{IsOrdered, Tables};
ghost use Rattle.s3_rows.specs.Validity.{IsValid};
ghost use Rattle.tree_rows.specs.Contents.{Contents};
ghost use Rattle.tree_rows.specs.Shapes.{Represents};
ghost use Rattle.ref_counts.specs.Plans.{LeavesRest};
ghost use Rattle.core_model.specs.Bytes.{HasBytes, no_overlay};
ghost use Rattle.core_model.specs.Exact.{IsExact};
ghost use Rattle.core_model.specs.Safe.{HaveHeld, Held};
ghost use Rattle.tree_laws.specs.Files.{copies_files};
ghost use Rattle.byte_steps.specs.Kept.{KeepsBytes};

use block_steps::kept_rows_keep_what_is_held;

/// An operation that neither writes bytes nor copies files leaves the bytes of every file that stays, and the files that it makes are empty. So where the
/// rows that it leaves alone are as before, tables and contents have the bytes of the tree after it, exact places stay exact, and
/// what is held of blocks is held of the ones that are left.
pub fn operations_on_names_keep_bytes()
    ensures files { (whole : Tree) (pass now : ℕ) (op : Op) → IsWellFormed whole → class_of op ≢ Bytes → copies_files op ≡ false
        → first_failure (checks whole pass op) ≡ None → KeepsBytes whole (effect whole pass op now) }
    ensures size { (whole : Tree) (pass now : ℕ) (op : Op) → first_failure (checks whole pass op) ≡ None
        → (effect whole pass op now).block_size ≡ whole.block_size }
    ensures bytes { (m : Contents) (t after : Tables) (whole next : Tree) → IsValid t → IsValid after → Represents t whole → Represents after next
        → LeavesRest t after → next.block_size ≡ whole.block_size → KeepsBytes whole next → HasBytes m t no_overlay whole → HasBytes m after no_overlay next }
    ensures exact { (digest_of : List ℕ → List ℕ) (t after : Tables) (whole next : Tree) → IsValid t → IsValid after → Represents t whole → Represents after next
        → LeavesRest t after → next.block_size ≡ whole.block_size → KeepsBytes whole next → IsExact digest_of t no_overlay whole → IsExact digest_of after no_overlay next }
    ensures held { (m : Contents) (held : Held) (t after : Tables) → LeavesRest t after → IsOrdered t → IsOrdered after
        → HaveHeld m held t.blocks → HaveHeld m held after.blocks }
    ensures stored { (digest_of : List ℕ → List ℕ) (held : Held) (t after : Tables) → LeavesRest t after → IsOrdered t → IsOrdered after
        → AreHeld digest_of held t.blocks → AreHeld digest_of held after.blocks }
{
    kept_rows_keep_what_is_held();
}

//! The bytes of the files of a tree with a copy.
ghost use Rattle.std.specs.Prelude.{◌≡◌, ◌==◌, ℕ, List, length, filter, not, None};
ghost use Rattle.op_frames.specs.declared.operation.Op.TheVariants as ops;
ghost use Rattle.plain_tree.specs.Checks.{first_failure};
ghost use Rattle.plain_tree.specs.Numbers.{InOrder};
ghost use Rattle.plain_tree.specs.Operations.{checks, effect};
ghost use Rattle.plain_tree.specs.Tree.{Tree};
ghost use Rattle.plain_tree.specs.WellFormed.{IsWellFormed};
ghost use Rattle.s3_rows.specs.Stores.{AreHeld};
ghost use Rattle.s3_rows.specs.Tables.{IsOrdered, Tables};
ghost use Rattle.s3_rows.specs.Validity.{IsValid};
ghost use Rattle.tree_rows.specs.Contents.{Contents};
ghost use Rattle.tree_rows.specs.Shapes.{Represents};
ghost use Rattle.core_model.specs.Bytes.{HasBytes, Overlay, no_overlay};
ghost use Rattle.core_model.specs.Exact.{IsExact};
ghost use Rattle.core_model.specs.Occurring.{blocks_in};
ghost use Rattle.core_model.specs.Safe.{HaveHeld, Held};
ghost use Rattle.byte_steps.specs.Counts.{different_blocks};
ghost use Rattle.byte_steps.specs.Shared.{SharesBlocks};
ghost use Rattle.tree_copy.specs.CopiedBytes.{CopiesFiles, WaitsElsewhere};
ghost use Rattle.tree_copy.specs.CopySteps.{IsCopyStep};

use block_steps::kept_rows_keep_what_is_held;
use byte_steps::{same_bytes_make_as_many_blocks, shared_blocks_keep_bytes};

/// A CopyTree leaves the bytes of all files, and gives each file of the copy those of its source, whose blocks it shares. So after a
/// copy tables and contents have the bytes of the next tree, exact places stay exact, and what is held of blocks stays held.
pub fn copied_trees_keep_bytes()
    ensures files { (whole : Tree) (pass source parent now : ℕ) (name : List ℕ) → InOrder whole
        → CopiesFiles whole source (effect whole pass (ops.CopyTree source parent name) now) }
    ensures shares { (t after : Tables) (whole next : Tree) (source : ℕ) → Represents t whole → CopiesFiles whole source next → IsCopyStep t after whole source next
        → SharesBlocks t after whole next }
    ensures bytes { (m : Contents) (t after : Tables) (whole : Tree) (pass source parent now : ℕ) (name : List ℕ) → IsValid t → Represents t whole → InOrder whole
        → IsCopyStep t after whole source (effect whole pass (ops.CopyTree source parent name) now)
        → HasBytes m t no_overlay whole → HasBytes m after no_overlay (effect whole pass (ops.CopyTree source parent name) now) }
    ensures exact { (digest_of : List ℕ → List ℕ) (t after : Tables) (whole : Tree) (pass source parent now : ℕ) (name : List ℕ) → Represents t whole → InOrder whole
        → IsCopyStep t after whole source (effect whole pass (ops.CopyTree source parent name) now)
        → IsExact digest_of t no_overlay whole → IsExact digest_of after no_overlay (effect whole pass (ops.CopyTree source parent name) now) }
    ensures held { (m : Contents) (held : Held) (t after : Tables) (whole next : Tree) (source : ℕ) → IsOrdered t → IsCopyStep t after whole source next
        → HaveHeld m held t.blocks → HaveHeld m held after.blocks }
    ensures stored { (digest_of : List ℕ → List ℕ) (held : Held) (t after : Tables) (whole next : Tree) (source : ℕ) → IsOrdered t
        → IsCopyStep t after whole source next → AreHeld digest_of held t.blocks → AreHeld digest_of held after.blocks }
{
    kept_rows_keep_what_is_held();
    shared_blocks_keep_bytes();
}

/// The same holds where blocks of other files wait to be linked: they still wait after the copy, and all files have their bytes.
pub fn copied_trees_keep_waiting_bytes()
    ensures bytes { (m : Contents) (t after : Tables) (over : Overlay) (whole : Tree) (pass source parent now : ℕ) (name : List ℕ) → IsValid t → Represents t whole
        → InOrder whole → IsCopyStep t after whole source (effect whole pass (ops.CopyTree source parent name) now) → WaitsElsewhere whole source over
        → HasBytes m t over whole → HasBytes m after over (effect whole pass (ops.CopyTree source parent name) now) }
    ensures exact { (digest_of : List ℕ → List ℕ) (t after : Tables) (over : Overlay) (whole : Tree) (pass source parent now : ℕ) (name : List ℕ) → Represents t whole
        → InOrder whole → IsCopyStep t after whole source (effect whole pass (ops.CopyTree source parent name) now) → WaitsElsewhere whole source over
        → IsExact digest_of t over whole → IsExact digest_of after over (effect whole pass (ops.CopyTree source parent name) now) }
{
    kept_rows_keep_what_is_held();
}

/// A copy makes no block: as many blocks have rows after it, and as many objects have a block, as before it. Neither has its tree another
/// block that is not all zeros.
pub fn copied_trees_make_no_blocks()
    ensures blocks { (t after : Tables) (whole next : Tree) (source : ℕ) → IsOrdered t → IsCopyStep t after whole source next → length after.blocks ≡ length t.blocks }
    ensures objects { (t after : Tables) (whole next : Tree) (source : ℕ) → IsCopyStep t after whole source next
        → length (filter (λ o. not (o.refcount == 0)) after.objects) ≡ length (filter (λ o. not (o.refcount == 0)) t.objects) }
    ensures different { (whole : Tree) (pass source parent now : ℕ) (name : List ℕ) → IsWellFormed whole → first_failure (checks whole pass (ops.CopyTree source parent name)) ≡ None
        → different_blocks (blocks_in (effect whole pass (ops.CopyTree source parent name) now)) ≡ different_blocks (blocks_in whole) }
{
    same_bytes_make_as_many_blocks();
}

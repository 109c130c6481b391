//! When the places of a copy fit.
ghost use Rattle.std.specs.Prelude.{◌≡◌, ◌<◌, ◌≤◌, ◌+◌, ◌^◌, ℕ, List, false, IsTrue, Some, Contains};
ghost use Rattle.op_frames.specs.declared.operation.Op.TheVariants as ops;
ghost use Rattle.plain_tree.specs.Below.{at_and_below};
ghost use Rattle.plain_tree.specs.Operations.{effect};
ghost use Rattle.plain_tree.specs.Tree.{Tree};
ghost use Rattle.s3_rows.specs.Rows.{Block};
ghost use Rattle.s3_rows.specs.Selections.{block_at};
ghost use Rattle.s3_rows.specs.Tables.{Tables};
ghost use Rattle.s3_rows.specs.Validity.{IsValid};
ghost use Rattle.tree_rows.specs.Shapes.{Represents};
ghost use Rattle.core_model.specs.Bytes.{no_overlay};
ghost use Rattle.core_model.specs.Exact.{IsExact};
ghost use Rattle.core_model.specs.Occurring.{IsCollisionFree, blocks_in};
ghost use Rattle.byte_steps.specs.Counts.{equal_blocks};
ghost use Rattle.tree_copy.specs.CopiedCounts.{copied_block_count};
ghost use Rattle.tree_copy.specs.CopiedPlaces.{files_fit};

use byte_steps::{
    blocks_of_exact_tables_have_rows, counts_of_exact_tables, places_of_files_are_counted,
};

/// The places of copies fit where each block that they name counts fewer than 2^62 places with them, and only there.
pub fn places_fit_by_their_counts()
    ensures fit { (t : Tables) (next : ℕ) (seen inodes : List ℕ) → IsValid t → IsTrue (files_fit t next seen inodes t)
        → (b : Block) → block_at t b.id ≡ Some b → 1 ≤ copied_block_count t inodes b.id → b.refcount + copied_block_count t inodes b.id < 2 ^ 62 }
    ensures over { (t : Tables) (next : ℕ) (seen inodes : List ℕ) → IsValid t → files_fit t next seen inodes t ≡ false
        → (b : Block) × (block_at t b.id ≡ Some b) × (1 ≤ copied_block_count t inodes b.id) × (2 ^ 62 ≤ b.refcount + copied_block_count t inodes b.id) }
{}

/// Where all places were exact and no two different blocks collide, the places of a copy fit where each block that the tree with the copy
/// has more often is in fewer than 2^62 places of it, and only there.
pub fn places_fit_by_the_tree()
    ensures fit { (digest_of : List ℕ → List ℕ) (t : Tables) (whole : Tree) (pass source parent now next : ℕ) (name : List ℕ) (seen : List ℕ) → IsValid t → Represents t whole
        → IsExact digest_of t no_overlay whole → IsCollisionFree digest_of (blocks_in whole) → IsTrue (files_fit t next seen (at_and_below whole source) t)
        → (b : List ℕ) → Contains (blocks_in whole) b
        → equal_blocks b (blocks_in whole) < equal_blocks b (blocks_in (effect whole pass (ops.CopyTree source parent name) now))
        → equal_blocks b (blocks_in (effect whole pass (ops.CopyTree source parent name) now)) < 2 ^ 62 }
    ensures over { (digest_of : List ℕ → List ℕ) (t : Tables) (whole : Tree) (pass source parent now next : ℕ) (name : List ℕ) (seen : List ℕ) → IsValid t → Represents t whole
        → IsExact digest_of t no_overlay whole → IsCollisionFree digest_of (blocks_in whole) → files_fit t next seen (at_and_below whole source) t ≡ false
        → (b : List ℕ) × Contains (blocks_in whole) b
        × (equal_blocks b (blocks_in whole) < equal_blocks b (blocks_in (effect whole pass (ops.CopyTree source parent name) now)))
        × (2 ^ 62 ≤ equal_blocks b (blocks_in (effect whole pass (ops.CopyTree source parent name) now))) }
{
    blocks_of_exact_tables_have_rows();
    counts_of_exact_tables();
    places_of_files_are_counted();
}

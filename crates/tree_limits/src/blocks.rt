//! Blocks whose counts are at their end.
ghost use Rattle.std.specs.Prelude.{◌≡◌, ◌⊎◌, ◌≤◌, ◌^◌, ℕ, List, [], ◌∷◌, length, Option};
ghost use Rattle.plain_tree.specs.Tree.{Tree};
ghost use Rattle.s3_rows.specs.declared.change.Change.{Change};
ghost use Rattle.s3_rows.specs.declared.change.Change.TheVariants as changes;
ghost use Rattle.s3_rows.specs.Rows.{Inode};
ghost use Rattle.s3_rows.specs.Tables.{Tables};
ghost use Rattle.s3_rows.specs.Validity.{IsValid};
ghost use Rattle.s3_devices.specs.Objects.{Objects};
ghost use Rattle.tree_rows.specs.Shapes.{Represents};
ghost use Rattle.core_model.specs.Bytes.{no_overlay};
ghost use Rattle.core_model.specs.Exact.{IsExact};
ghost use Rattle.core_model.specs.Occurring.{IsCollisionFree, blocks_in};
ghost use Rattle.block_steps.specs.Owed.{next_block_of};
ghost use Rattle.file_ops.specs.FileChanges.{AreWorn, next_object_of};
ghost use Rattle.tree_limits.specs.Full.{HasFullBlock};

use byte_steps::counts_of_exact_tables;

/// Where numbers of blocks and objects are left, all places are exact, and no two different blocks collide, a count that is worn for at
/// most 34 blocks of a file is that of a block, which is in almost 2^62 places of the tree.
pub fn worn_blocks_are_full()
    ensures { (digest_of : List ℕ → List ℕ) (t : Tables) (objects : Option Objects) (whole : Tree) (r : Inode) (block_size : ℕ) (bytes_of : List ℕ → List ℕ)
        (blocks : List ℕ) (batch : List Change) → IsValid t → Represents t whole → IsExact digest_of t no_overlay whole → IsCollisionFree digest_of (blocks_in whole)
        → (batch ≡ []) ⊎ ((row : Inode) × (batch ≡ changes.PutInode row ∷ [])) → length blocks ≤ 34 → next_block_of t ≤ 2 ^ 60 → next_object_of t ≤ 2 ^ 60
        → AreWorn digest_of t objects r block_size bytes_of blocks batch → HasFullBlock whole }
{
    counts_of_exact_tables();
}

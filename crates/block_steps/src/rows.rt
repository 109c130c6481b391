//! What changes of places leave alone, and what follows of the tree and of the store.
ghost use Rattle.std.specs.Prelude.{◌≡◌, ℕ, List, Option, None, Some, option_map, length};
ghost use Rattle.plain_tree.specs.Tree.{Tree};
ghost use Rattle.s3_rows.specs.declared.change.Change.{Change};
ghost use Rattle.s3_rows.specs.declared.digest.Digest.{Digest};
ghost use Rattle.s3_rows.specs.Rows.{Block, Parameters};
ghost use Rattle.s3_rows.specs.Stores.{AreHeld};
ghost use Rattle.s3_rows.specs.Tables.{IsOrdered, Tables};
ghost use Rattle.s3_rows.specs.Batches.{tables_after};
ghost use Rattle.s3_rows.specs.Selections.{block_at};
ghost use Rattle.s3_rows.specs.Validity.{HasUniqueNames};
ghost use Rattle.tree_rows.specs.Contents.{Contents, HaveBytes};
ghost use Rattle.tree_rows.specs.Shapes.{Represents};
ghost use Rattle.core_model.specs.Safe.{HaveHeld, Held};
ghost use Rattle.ref_counts.specs.Links.{counted_block, relinked, AreRowsOf};
ghost use Rattle.block_steps.specs.Owed.{KeepsNames};
ghost use Rattle.block_steps.specs.Places.{block_made};

/// Each change of places keeps the names, and where it makes no block, each block row is one that was there.
pub fn changes_of_places_keep_names()
    ensures same { (t : Tables) → KeepsNames t t }
    ensures joined { (t middle after : Tables) → KeepsNames t middle → KeepsNames middle after → KeepsNames t after }
    ensures counted { (t : Tables) (b : Block) (more : List Change) → counted_block (Some b) ≡ Some more → KeepsNames t (tables_after more t) }
    ensures made { (t : Tables) (p : Parameters) (object size : ℕ) (digest : Digest) → t.params ≡ Some p → KeepsNames t (tables_after (block_made p object digest size) t) }
    ensures relinked { (t : Tables) (inode blockno : ℕ) (block : Option ℕ) → KeepsNames t (tables_after (relinked t inode blockno block) t) }
    ensures counted_rows { (t : Tables) (b : Block) (more : List Change) → block_at t b.id ≡ Some b → counted_block (Some b) ≡ Some more → AreRowsOf t (tables_after more t) }
    ensures relinked_rows { (t : Tables) (inode blockno : ℕ) (block : Option ℕ) → AreRowsOf t (tables_after (relinked t inode blockno block) t) }
    ensures joined_rows { (t middle after : Tables) → AreRowsOf t middle → AreRowsOf middle after → AreRowsOf t after }
{}

/// Where names are kept, the tree stays, and unique names stay unique.
pub fn names_kept_keep_the_tree()
    ensures tree { (t after : Tables) (whole : Tree) → KeepsNames t after → Represents t whole → Represents after whole }
    ensures unique { (t after : Tables) → KeepsNames t after → HasUniqueNames t → HasUniqueNames after }
{}

/// Where each block row is one that was there, what is held and known of the blocks stays so.
pub fn kept_rows_keep_what_is_held()
    ensures held { (m : Contents) (held : Held) (t after : Tables) → IsOrdered t → IsOrdered after → AreRowsOf t after → HaveHeld m held t.blocks → HaveHeld m held after.blocks }
    ensures known { (m : Contents) (t after : Tables) → IsOrdered t → IsOrdered after → AreRowsOf t after → HaveBytes m t.blocks → HaveBytes m after.blocks }
    ensures stored { (digest_of : List ℕ → List ℕ) (held : Held) (t after : Tables) → IsOrdered t → IsOrdered after → AreRowsOf t after
        → AreHeld digest_of held t.blocks → AreHeld digest_of held after.blocks }
{}

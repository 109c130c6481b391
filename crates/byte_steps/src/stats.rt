//! How many places, blocks and objects tables have beside their tree.
ghost use Rattle.std.specs.Prelude.{◌≡◌, ◌==◌, ℕ, List, [], ◌∷◌, Some, length, filter, not, Contains, count_by};
ghost use Rattle.plain_tree.specs.Numbers.{InOrder};
ghost use Rattle.plain_tree.specs.Tree.{Tree};
ghost use Rattle.s3_rows.specs.Rows.{Block};
ghost use Rattle.s3_rows.specs.Selections.{block_at};
ghost use Rattle.s3_rows.specs.Tables.{Tables};
ghost use Rattle.s3_rows.specs.Validity.{IsValid};
ghost use Rattle.tree_rows.specs.Shapes.{Represents};
ghost use Rattle.ref_counts.specs.Links.{places_from};
ghost use Rattle.core_model.specs.Bytes.{no_overlay};
ghost use Rattle.core_model.specs.Exact.{IsExact};
ghost use Rattle.core_model.specs.Occurring.{IsCollisionFree, blocks_in};
ghost use Rattle.byte_steps.specs.Counts.{HasBytesOf, blocks_at, different_blocks, equal_blocks};

/// Valid tables whose places are all exact have a place for each block of the tree that is not all zeros, and where no two different
/// ones collide a block for each different one, which counts the places where the tree has it. As many objects have a block.
pub fn counts_of_exact_tables()
    ensures links { (digest_of : List ℕ → List ℕ) (t : Tables) (whole : Tree) → IsValid t → Represents t whole → IsExact digest_of t no_overlay whole
        → length t.inode_blocks ≡ length (blocks_in whole) }
    ensures blocks { (digest_of : List ℕ → List ℕ) (t : Tables) (whole : Tree) → IsValid t → Represents t whole → IsExact digest_of t no_overlay whole
        → IsCollisionFree digest_of (blocks_in whole) → length t.blocks ≡ different_blocks (blocks_in whole) }
    ensures places { (digest_of : List ℕ → List ℕ) (t : Tables) (whole : Tree) → IsValid t → Represents t whole → IsExact digest_of t no_overlay whole
        → IsCollisionFree digest_of (blocks_in whole) → (r : Block) → block_at t r.id ≡ Some r
        → (b : List ℕ) × Contains (blocks_in whole) b × (digest_of b ≡ r.digest.0) × (r.refcount ≡ equal_blocks b (blocks_in whole)) }
    ensures objects { (t : Tables) → IsValid t → length (filter (λ o. not (o.refcount == 0)) t.objects) ≡ length t.blocks }
    ensures worked { different_blocks ((1 ∷ []) ∷ (2 ∷ []) ∷ (1 ∷ []) ∷ []) ≡ 2 }
{}

/// Two trees in blocks of one size have as many different blocks where each file of either has the bytes of one of the other.
pub fn same_bytes_make_as_many_blocks()
    ensures { (whole next : Tree) → InOrder whole → InOrder next → next.block_size ≡ whole.block_size → HasBytesOf whole next → HasBytesOf next whole
        → different_blocks (blocks_in next) ≡ different_blocks (blocks_in whole) }
{}

/// Of valid tables whose places are all exact, a file has as many places that name a block as its bytes have blocks equal to it, where no
/// two different ones collide.
pub fn places_of_files_are_counted()
    ensures { (digest_of : List ℕ → List ℕ) (t : Tables) (whole : Tree) → IsValid t → Represents t whole → IsExact digest_of t no_overlay whole
        → IsCollisionFree digest_of (blocks_in whole) → (r : Block) (b : List ℕ) (inode : ℕ) → block_at t r.id ≡ Some r → Contains (blocks_in whole) b → digest_of b ≡ r.digest.0
        → count_by (λ l. l.block == r.id) (places_from t inode 0) ≡ equal_blocks b (blocks_at whole inode) }
{}

/// Where all places of valid tables are exact, each block of the tree that is not all zeros has a row, with its digest.
pub fn blocks_of_exact_tables_have_rows()
    ensures { (digest_of : List ℕ → List ℕ) (t : Tables) (whole : Tree) → IsValid t → Represents t whole → IsExact digest_of t no_overlay whole
        → (b : List ℕ) → Contains (blocks_in whole) b → (r : Block) × (block_at t r.id ≡ Some r) × (digest_of b ≡ r.digest.0) }
{}

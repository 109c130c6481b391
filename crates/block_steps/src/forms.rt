//! What changes of places make of the forms that places have.
ghost use Rattle.std.specs.Prelude.{◌≡◌, ℕ, List, ◌∷◌, false, is_some, IsTrue, None, Some, option_map};
ghost use Rattle.std.specs.Ordering.{is_eq};
ghost use Rattle.s3_rows.specs.declared.change.Change.{Change};
ghost use Rattle.s3_rows.specs.declared.digest.Digest.{Digest};
ghost use Rattle.s3_rows.specs.Rows.{Block, Parameters};
ghost use Rattle.s3_rows.specs.Keyed.{pair_cmp};
ghost use Rattle.s3_rows.specs.Tables.{Tables};
ghost use Rattle.s3_rows.specs.Batches.{tables_after};
ghost use Rattle.s3_rows.specs.Selections.{block_at};
ghost use Rattle.tree_rows.specs.Spots.{form_at, form_of_row};
ghost use Rattle.ref_counts.specs.Links.{counted_block, relinked};
ghost use Rattle.block_steps.specs.Owed.{OwesPlaces, is_owed};
ghost use Rattle.block_steps.specs.Places.{block_made};

/// A block that counts one place more keeps the forms of all places and of all blocks.
pub fn counted_blocks_leave_forms()
    ensures places { (t : Tables) (b : Block) (more : List Change) (inode blockno : ℕ) → block_at t b.id ≡ Some b → counted_block (Some b) ≡ Some more
        → form_at (tables_after more t) inode blockno ≡ form_at t inode blockno }
    ensures blocks { (t : Tables) (b : Block) (more : List Change) (id : ℕ) → block_at t b.id ≡ Some b → counted_block (Some b) ≡ Some more
        → option_map form_of_row (block_at (tables_after more t) id) ≡ option_map form_of_row (block_at t id) }
{}

/// A block that comes has its form, and all places and all other blocks keep theirs.
pub fn made_blocks_have_their_form()
    ensures own { (t : Tables) (p : Parameters) (object size : ℕ) (digest : Digest)
        → option_map form_of_row (block_at (tables_after (block_made p object digest size) t) p.next_block) ≡ Some (digest.0, size) }
    ensures places { (t : Tables) (p : Parameters) (object size inode blockno : ℕ) (digest : Digest) (blocks : List ℕ) → OwesPlaces t p blocks
        → form_at (tables_after (block_made p object digest size) t) inode blockno ≡ form_at t inode blockno }
    ensures blocks { (t : Tables) (p : Parameters) (object size id : ℕ) (digest : Digest) (blocks : List ℕ) → OwesPlaces t p blocks → IsTrue (is_some (block_at t id))
        → option_map form_of_row (block_at (tables_after (block_made p object digest size) t) id) ≡ option_map form_of_row (block_at t id) }
{}

/// A place that names a block from now on has its form, one that names none has none, and all other places keep theirs. What is
/// still owed keeps its form too.
pub fn relinked_places_have_their_form()
    ensures put { (t : Tables) (p : Parameters) (inode blockno block : ℕ) (blocks : List ℕ) → OwesPlaces t p (block ∷ blocks)
        → form_at (tables_after (relinked t inode blockno (Some block)) t) inode blockno ≡ option_map form_of_row (block_at t block) }
    ensures put_elsewhere { (t : Tables) (p : Parameters) (inode blockno block other number : ℕ) (blocks : List ℕ) → OwesPlaces t p (block ∷ blocks)
        → is_eq (pair_cmp (other, number) (inode, blockno)) ≡ false → form_at (tables_after (relinked t inode blockno (Some block)) t) other number ≡ form_at t other number }
    ensures put_owed { (t : Tables) (p : Parameters) (inode blockno block id : ℕ) (blocks : List ℕ) → OwesPlaces t p (block ∷ blocks) → IsTrue (is_owed blocks id)
        → option_map form_of_row (block_at (tables_after (relinked t inode blockno (Some block)) t) id) ≡ option_map form_of_row (block_at t id) }
    ensures dropped { (t : Tables) (inode blockno : ℕ) → form_at (tables_after (relinked t inode blockno None) t) inode blockno ≡ None }
    ensures dropped_elsewhere { (t : Tables) (p : Parameters) (inode blockno other number : ℕ) (blocks : List ℕ) → OwesPlaces t p blocks
        → is_eq (pair_cmp (other, number) (inode, blockno)) ≡ false → form_at (tables_after (relinked t inode blockno None) t) other number ≡ form_at t other number }
    ensures dropped_owed { (t : Tables) (p : Parameters) (inode blockno id : ℕ) (blocks : List ℕ) → OwesPlaces t p blocks → IsTrue (is_owed blocks id)
        → option_map form_of_row (block_at (tables_after (relinked t inode blockno None) t) id) ≡ option_map form_of_row (block_at t id) }
{}

//! Counts of blocks on the way of a change.
ghost use Rattle.std.specs.Prelude.{◌≡◌, ◌≤◌, ◌<◌, ℕ, List, [], ◌∷◌, IsTrue, None, Some};
ghost use Rattle.s3_rows.specs.declared.change.Change.{Change};
ghost use Rattle.s3_rows.specs.declared.digest.Digest.{Digest};
ghost use Rattle.s3_rows.specs.Rows.{Block, Parameters};
ghost use Rattle.s3_rows.specs.Tables.{Tables};
ghost use Rattle.s3_rows.specs.Batches.{tables_after};
ghost use Rattle.s3_rows.specs.Selections.{block_at, block_of_digest, object_at};
ghost use Rattle.s3_rows.specs.Validity.{IsValid, has_inode, is_in_file, is_regular};
ghost use Rattle.core_model.specs.Safe.{new_object};
ghost use Rattle.ref_counts.specs.Links.{counted_block, relinked};
ghost use Rattle.block_steps.specs.Owed.{OwesPlaces, times};
ghost use Rattle.block_steps.specs.Places.{block_drawn, block_made};

/// Valid tables owe no places, and tables that owe none are valid.
pub fn tables_that_owe_no_places_are_valid()
    ensures valid { (t : Tables) (p : Parameters) → IsValid t → t.params ≡ Some p → OwesPlaces t p [] }
    ensures back { (t : Tables) (p : Parameters) → OwesPlaces t p [] → IsValid t }
{}

/// What is owed stands in no order.
pub fn order_of_debts_is_free()
    ensures { (t : Tables) (p : Parameters) (blocks others : List ℕ) → ((id : ℕ) → times id others ≡ times id blocks) → OwesPlaces t p blocks → OwesPlaces t p others }
{}

/// A block that counts one place more owes it.
pub fn counted_blocks_owe_a_place()
    ensures { (t : Tables) (p : Parameters) (b : Block) (blocks : List ℕ) (more : List Change) → OwesPlaces t p blocks → block_at t b.id ≡ Some b
        → counted_block (Some b) ≡ Some more → OwesPlaces (tables_after more t) p (b.id ∷ blocks) }
{}

/// And so does a block that comes, with a digest that no other has, and with an object that no block has.
pub fn made_blocks_owe_a_place()
    ensures { (t : Tables) (p : Parameters) (object size : ℕ) (digest : Digest) (blocks : List ℕ) → OwesPlaces t p blocks → object_at t object ≡ Some (new_object object)
        → block_of_digest t digest ≡ None → size ≤ p.block_size → OwesPlaces (tables_after (block_made p object digest size) t) (block_drawn p) (p.next_block ∷ blocks) }
{}

/// A place within a file that names a block from now on pays what was owed for it, and what it named before counts one less. A place
/// that names none from now on owes nothing.
pub fn places_pay_for_their_blocks()
    ensures put { (t : Tables) (p : Parameters) (inode blockno block : ℕ) (blocks : List ℕ) → OwesPlaces t p (block ∷ blocks)
        → IsTrue (has_inode is_regular t inode) → IsTrue (is_in_file t p inode blockno) → OwesPlaces (tables_after (relinked t inode blockno (Some block)) t) p blocks }
    ensures dropped { (t : Tables) (p : Parameters) (inode blockno : ℕ) (blocks : List ℕ) → OwesPlaces t p blocks
        → OwesPlaces (tables_after (relinked t inode blockno None) t) p blocks }
{}

//! Regular files that take another length, and the order of that change and of changes of places.
ghost use Rattle.std.specs.Prelude.{◌≡◌, ◌≤◌, ◌<◌, ℕ, ◌*◌, ◌==◌, ◌||◌, List, [], ◌∷◌, ◌++◌, not, nat_lt, IsTrue, Option, Some};
ghost use Rattle.std.specs.List.{list_all};
ghost use Rattle.s3_base.specs.declared.node_kind.Kind.TheVariants as kinds;
ghost use Rattle.s3_rows.specs.declared.change.Change.{Change};
ghost use Rattle.s3_rows.specs.declared.change.Change.TheVariants as changes;
ghost use Rattle.s3_rows.specs.declared.digest.Digest.{Digest};
ghost use Rattle.s3_rows.specs.Rows.{Block, Inode, InodeBlock, Parameters};
ghost use Rattle.s3_rows.specs.Tables.{Tables};
ghost use Rattle.s3_rows.specs.Batches.{after_change, tables_after};
ghost use Rattle.s3_rows.specs.Selections.{inode_at};
ghost use Rattle.s3_rows.specs.Validity.{IsValid};
ghost use Rattle.tree_rows.specs.Spots.{form_at};
ghost use Rattle.ref_counts.specs.Links.{counted_block, places_dropped, places_from, relinked};
ghost use Rattle.byte_steps.specs.BlockChanges.{is_of_blocks};
ghost use Rattle.block_steps.specs.Owed.{KeepsNames, OwesPlaces};
ghost use Rattle.block_steps.specs.Places.{Places, block_made, places_relinked};

/// A regular file takes another length where all its places lie within it, so where it grows, and where its places from one on go
/// and the others lie within. What is owed stays owed.
pub fn files_take_other_lengths()
    ensures valid { (t : Tables) (p : Parameters) (r new : Inode) → IsValid t → t.params ≡ Some p → inode_at t new.id ≡ Some r → r.kind ≡ kinds.Regular
        → new.kind ≡ r.kind → new.refcount ≡ r.refcount → t.slots ≡ []
        → IsTrue (list_all (λ l. not (l.inode == new.id) || nat_lt (l.blockno * p.block_size) new.size) t.inode_blocks)
        → IsValid (after_change (changes.PutInode new) t) }
    ensures longer { (t : Tables) (p : Parameters) (r new : Inode) → IsValid t → t.params ≡ Some p → inode_at t new.id ≡ Some r → r.kind ≡ kinds.Regular
        → new.kind ≡ r.kind → new.refcount ≡ r.refcount → t.slots ≡ [] → r.size ≤ new.size → IsValid (after_change (changes.PutInode new) t) }
    ensures cut { (t : Tables) (p : Parameters) (r new : Inode) (from : ℕ) → IsValid t → t.params ≡ Some p → inode_at t new.id ≡ Some r → r.kind ≡ kinds.Regular
        → new.kind ≡ r.kind → new.refcount ≡ r.refcount → t.slots ≡ [] → ((n : ℕ) → n < from → n * p.block_size < new.size)
        → IsValid (after_change (changes.PutInode new) (tables_after (places_dropped (places_from t new.id from) t) t)) }
    ensures cut_found { (t : Tables) (r : Inode) (id from : ℕ) → inode_at t id ≡ Some r → inode_at (tables_after (places_dropped (places_from t id from) t) t) id ≡ Some r }
    ensures owed { (t : Tables) (p : Parameters) (r new : Inode) (blocks : List ℕ) → OwesPlaces t p blocks → inode_at t new.id ≡ Some r → r.kind ≡ kinds.Regular
        → new.kind ≡ r.kind → new.refcount ≡ r.refcount → t.slots ≡ []
        → IsTrue (list_all (λ l. not (l.inode == new.id) || nat_lt (l.blockno * p.block_size) new.size) t.inode_blocks)
        → OwesPlaces (after_change (changes.PutInode new) t) p blocks }
    ensures owed_longer { (t : Tables) (p : Parameters) (r new : Inode) (blocks : List ℕ) → OwesPlaces t p blocks → inode_at t new.id ≡ Some r → r.kind ≡ kinds.Regular
        → new.kind ≡ r.kind → new.refcount ≡ r.refcount → t.slots ≡ [] → r.size ≤ new.size → OwesPlaces (after_change (changes.PutInode new) t) p blocks }
{}

/// A put of an inode leaves the forms of all places, and all other tables; and what is kept before it is kept after.
pub fn lengths_leave_forms()
    ensures forms { (t : Tables) (new : Inode) (inode blockno : ℕ) → form_at (after_change (changes.PutInode new) t) inode blockno ≡ form_at t inode blockno }
    ensures params { (t : Tables) (new : Inode) → (after_change (changes.PutInode new) t).params ≡ t.params }
    ensures names { (t : Tables) (new : Inode) → (after_change (changes.PutInode new) t).names ≡ t.names }
    ensures contents { (t : Tables) (new : Inode) → (after_change (changes.PutInode new) t).contents ≡ t.contents }
    ensures inode_blocks { (t : Tables) (new : Inode) → (after_change (changes.PutInode new) t).inode_blocks ≡ t.inode_blocks }
    ensures blocks { (t : Tables) (new : Inode) → (after_change (changes.PutInode new) t).blocks ≡ t.blocks }
    ensures objects { (t : Tables) (new : Inode) → (after_change (changes.PutInode new) t).objects ≡ t.objects }
    ensures targets { (t : Tables) (new : Inode) → (after_change (changes.PutInode new) t).targets ≡ t.targets }
    ensures attrs { (t : Tables) (new : Inode) → (after_change (changes.PutInode new) t).attrs ≡ t.attrs }
    ensures slots { (t : Tables) (new : Inode) → (after_change (changes.PutInode new) t).slots ≡ t.slots }
    ensures kept { (t after : Tables) (new : Inode) → KeepsNames t after → KeepsNames (after_change (changes.PutInode new) t) (after_change (changes.PutInode new) after) }
{}

/// A block that counts one place more, a block that comes, and places that name other blocks or none are changes of blocks, and so are
/// two lists of such changes as one.
pub fn changes_of_places_are_of_blocks()
    ensures counted { (b : Block) (more : List Change) → counted_block (Some b) ≡ Some more → IsTrue (list_all is_of_blocks more) }
    ensures made { (p : Parameters) (object size : ℕ) (digest : Digest) → IsTrue (list_all is_of_blocks (block_made p object digest size)) }
    ensures relinked { (t : Tables) (inode blockno : ℕ) (block : Option ℕ) → IsTrue (list_all is_of_blocks (relinked t inode blockno block)) }
    ensures places { (t : Tables) (inode : ℕ) (places : Places) → IsTrue (list_all is_of_blocks (places_relinked inode places t)) }
    ensures dropped { (t : Tables) (rows : List InodeBlock) → IsTrue (list_all is_of_blocks (places_dropped rows t)) }
    ensures joined { (first second : List Change) → IsTrue (list_all is_of_blocks first) → IsTrue (list_all is_of_blocks second)
        → IsTrue (list_all is_of_blocks (first ++ second)) }
{}

/// Changes of blocks make the same of tables before and after a put of an inode, and which changes places need does not depend on it.
pub fn orders_do_not_matter()
    ensures changes { (t : Tables) (new : Inode) (more : List Change) → IsTrue (list_all is_of_blocks more)
        → tables_after (changes.PutInode new ∷ more) t ≡ after_change (changes.PutInode new) (tables_after more t) }
    ensures relinked { (t : Tables) (new : Inode) (inode blockno : ℕ) (block : Option ℕ)
        → relinked (after_change (changes.PutInode new) t) inode blockno block ≡ relinked t inode blockno block }
    ensures places { (t : Tables) (new : Inode) (inode : ℕ) (places : Places)
        → places_relinked inode places (after_change (changes.PutInode new) t) ≡ places_relinked inode places t }
    ensures dropped { (t : Tables) (new : Inode) (rows : List InodeBlock) → places_dropped rows (after_change (changes.PutInode new) t) ≡ places_dropped rows t }
    ensures placed { (t : Tables) (new : Inode) (inode : ℕ) (places : Places)
        → tables_after (changes.PutInode new ∷ places_relinked inode places (after_change (changes.PutInode new) t)) t
        ≡ after_change (changes.PutInode new) (tables_after (places_relinked inode places t) t) }
    ensures left { (t : Tables) (new : Inode) (rows : List InodeBlock)
        → tables_after (changes.PutInode new ∷ places_dropped rows (after_change (changes.PutInode new) t)) t
        ≡ after_change (changes.PutInode new) (tables_after (places_dropped rows t) t) }
{}

ghost use Rattle.std.specs.Prelude.{◌≡◌, ℕ, ◌+◌, ◌==◌, List, [], ◌∷◌, length, false, nat_lt, IsTrue, None, Some};
ghost use Rattle.std.specs.List.{list_all};
ghost use Rattle.s3_base.specs.Numbers.{root};
ghost use Rattle.s3_base.specs.declared.node_kind.Kind.TheVariants as kinds;
ghost use Rattle.s3_rows.specs.declared.change.Change.TheVariants as changes;
ghost use Rattle.s3_rows.specs.Rows.{Inode, Name, Content, Target, Attr, Parameters};
ghost use Rattle.s3_rows.specs.Tables.{Tables};
ghost use Rattle.s3_rows.specs.Batches.{after_change, tables_after};
ghost use Rattle.s3_rows.specs.Counts.{listed_inode_count};
ghost use Rattle.s3_rows.specs.Selections.{inode_at, name_at, entry_at, attr_at, bytes_of_name};
ghost use Rattle.s3_rows.specs.Validity.{IsValid, finds_of_attr};
ghost use Rattle.tree_rows.specs.Premises.{HasPremises, finds_directory_and_name, fits_kind};
ghost use Rattle.ref_counts.specs.Names.{Raised, lowered, raised};
ghost use Rattle.row_steps.specs.Owed.{HasNothing, Owes, has_entry, times};
ghost use Rattle.row_steps.specs.RowChanges.{drawn};

/// Valid tables owe nothing.
pub fn valid_tables_owe_nothing()
    ensures { (t : Tables) (p : Parameters) → IsValid t → t.params ≡ Some p → Owes t p [] [] }
{}

/// Tables that owe nothing are valid where they represent a well-formed tree.
pub fn tables_that_owe_nothing_have_the_premises()
    ensures { (t : Tables) (p : Parameters) → Owes t p [] [] → HasPremises t }
{}

/// A number that is drawn is owed nothing, and no row has it; nor does an entry name it, where the root is below.
pub fn drawn_numbers_are_free()
    ensures owes { (t : Tables) (p : Parameters) (links uses : List ℕ) → Owes t p links uses → Owes (after_change (changes.SetParams (drawn p)) t) (drawn p) links uses }
    ensures row { (t : Tables) (p : Parameters) (links uses : List ℕ) → Owes t p links uses → inode_at t p.next_inode ≡ None }
    ensures entries { (t : Tables) (p : Parameters) (links uses : List ℕ) → Owes t p links uses → IsTrue (nat_lt root p.next_inode) → listed_inode_count t p.next_inode ≡ 0 }
{}

/// A new inode that counts one link owes it.
pub fn new_inodes_owe_a_link()
    ensures { (t : Tables) (p : Parameters) (new : Inode) (links uses : List ℕ) → Owes t p links uses → inode_at t new.id ≡ None
        → listed_inode_count t new.id + times new.id links ≡ 0 → new.refcount ≡ 1 → IsTrue (fits_kind t new) → IsTrue (nat_lt new.id p.next_inode)
        → Owes (after_change (changes.PutInode new) t) p (new.id ∷ links) uses }
{}

/// A row in place of one of its kind and size: with its count, with one link more, which is owed then, or with one less, which
/// was owed.
pub fn other_rows_owe_what_they_count()
    ensures same { (t : Tables) (p : Parameters) (r new : Inode) (links uses : List ℕ) → Owes t p links uses → inode_at t new.id ≡ Some r
        → new.kind ≡ r.kind → new.size ≡ r.size → new.refcount ≡ r.refcount → Owes (after_change (changes.PutInode new) t) p links uses }
    ensures more { (t : Tables) (p : Parameters) (r new : Inode) (links uses : List ℕ) → Owes t p links uses → inode_at t new.id ≡ Some r
        → new.kind ≡ r.kind → new.size ≡ r.size → new.refcount ≡ r.refcount + 1 → Owes (after_change (changes.PutInode new) t) p (new.id ∷ links) uses }
    ensures less { (t : Tables) (p : Parameters) (r new : Inode) (links uses : List ℕ) → Owes t p (new.id ∷ links) uses → inode_at t new.id ≡ Some r
        → new.kind ≡ r.kind → new.size ≡ r.size → new.refcount + 1 ≡ r.refcount → Owes (after_change (changes.PutInode new) t) p links uses }
{}

/// A name that is used once more owes the use.
pub fn raised_names_owe_a_use()
    ensures { (t : Tables) (p : Parameters) (links uses : List ℕ) (more : Raised) (name : List ℕ) → Owes t p links uses
        → IsTrue (list_all (λ id. nat_lt id p.next_name) uses) → raised t name ≡ Some more
        → (next : ℕ) × Owes (tables_after more.changes t) (record p { next_name = next }) links (more.id ∷ uses) }
{}

/// A name that is used once less owes it no more.
pub fn lowered_names_owe_no_use()
    ensures { (t : Tables) (p : Parameters) (n : Name) (links uses : List ℕ) → Owes t p links (n.id ∷ uses) → name_at t n.id ≡ Some n
        → Owes (tables_after (lowered n) t) p links uses }
{}

/// An entry that is put, where its directory has none of the name, is the link and the use that were owed; one that is deleted
/// owes them again.
pub fn entries_are_links_and_uses()
    ensures put { (t : Tables) (p : Parameters) (c : Content) (links uses : List ℕ) → Owes t p (c.inode ∷ links) (c.name_id ∷ uses)
        → has_entry t c.parent (bytes_of_name t c.name_id) ≡ false → IsTrue (finds_directory_and_name t c) → (c.inode == root) ≡ false
        → IsTrue (nat_lt c.inode p.next_inode) → Owes (after_change (changes.PutContent c) t) p links uses }
    ensures delete { (t : Tables) (p : Parameters) (c : Content) (links uses : List ℕ) → Owes t p links uses → entry_at t c.parent c.name_id ≡ Some c
        → (c.inode == root) ≡ false → Owes (after_change (changes.DeleteContent c.parent c.name_id) t) p (c.inode ∷ links) (c.name_id ∷ uses) }
{}

/// An inode that counts only a link that it owes goes, where no row has it as its own.
pub fn dropped_inodes_owe_no_link()
    ensures { (t : Tables) (p : Parameters) (id : ℕ) (links uses : List ℕ) → Owes t p (id ∷ links) uses → HasNothing t id
        → Owes (after_change (changes.DeleteInode id) t) p links uses }
{}

/// A new attribute is the use that was owed, one in place of another of its name is none, and one that is deleted owes it again.
pub fn attributes_are_uses()
    ensures put { (t : Tables) (p : Parameters) (a : Attr) (links uses : List ℕ) → Owes t p links (a.name_id ∷ uses) → attr_at t a.inode a.name_id ≡ None
        → IsTrue (finds_of_attr t a) → Owes (after_change (changes.PutAttr a) t) p links uses }
    ensures replaced { (t : Tables) (p : Parameters) (old a : Attr) (links uses : List ℕ) → Owes t p links uses → attr_at t a.inode a.name_id ≡ Some old
        → Owes (after_change (changes.PutAttr a) t) p links uses }
    ensures delete { (t : Tables) (p : Parameters) (a : Attr) (links uses : List ℕ) → Owes t p links uses → attr_at t a.inode a.name_id ≡ Some a
        → Owes (after_change (changes.DeleteAttr a.inode a.name_id) t) p links (a.name_id ∷ uses) }
{}

/// A target owes nothing: it is put for a symbolic link of its length, and deleted.
pub fn targets_owe_nothing()
    ensures put { (t : Tables) (p : Parameters) (x : Target) (r : Inode) (links uses : List ℕ) → Owes t p links uses → inode_at t x.inode ≡ Some r
        → r.kind ≡ kinds.Link → r.size ≡ length x.target → Owes (after_change (changes.PutTarget x) t) p links uses }
    ensures delete { (t : Tables) (p : Parameters) (id : ℕ) (links uses : List ℕ) → Owes t p links uses → Owes (after_change (changes.DeleteTarget id) t) p links uses }
{}

ghost use Rattle.std.specs.Prelude.{◌≡◌, ℕ, ◌+◌, ◌==◌, List, ◌∷◌, false, nat_lt, IsTrue, Some};
ghost use Rattle.std.specs.List.{list_all};
ghost use Rattle.s3_base.specs.Numbers.{root};
ghost use Rattle.s3_base.specs.declared.node_kind.Kind.TheVariants as kinds;
ghost use Rattle.plain_tree.specs.Tree.{Tree, change_node, stamped, without_node};
ghost use Rattle.plain_tree.specs.Entries.{add_entry, drop_entry};
ghost use Rattle.s3_rows.specs.declared.change.Change.TheVariants as changes;
ghost use Rattle.s3_rows.specs.Rows.{Inode, Name, Content, Attr, Parameters};
ghost use Rattle.s3_rows.specs.Tables.{Tables};
ghost use Rattle.s3_rows.specs.Batches.{after_change, tables_after};
ghost use Rattle.s3_rows.specs.Selections.{inode_at, name_at, entry_at, attr_at};
ghost use Rattle.s3_rows.specs.Validity.{HasUniqueNames};
ghost use Rattle.tree_rows.specs.Shapes.{node_of_row, Represents};
ghost use Rattle.ref_counts.specs.Names.{Raised, raised};
ghost use Rattle.ref_counts.specs.Removals.{removal};
ghost use Rattle.row_steps.specs.Owed.{IsBare, Owes, has_entry, times};
ghost use Rattle.row_steps.specs.RowChanges.{counted_row, dropping, dropping_attr, entering};

/// An entry that goes, with the use of its name, owes the link of its inode, and is one less of the tree.
pub fn entries_that_go_owe_a_link()
    ensures owes { (t : Tables) (p : Parameters) (directory : Inode) (c : Content) (n : Name) (now : ℕ) (links uses : List ℕ) → Owes t p links uses
        → inode_at t directory.id ≡ Some directory → directory.id ≡ c.parent → entry_at t c.parent c.name_id ≡ Some c → name_at t c.name_id ≡ Some n
        → (c.inode == root) ≡ false → Owes (tables_after (dropping directory c n now) t) p (c.inode ∷ links) uses }
    ensures represents { (t : Tables) (p : Parameters) (directory : Inode) (c : Content) (n : Name) (now : ℕ) (links uses : List ℕ) → Owes t p links uses
        → inode_at t directory.id ≡ Some directory → directory.id ≡ c.parent → entry_at t c.parent c.name_id ≡ Some c → name_at t c.name_id ≡ Some n
        → (c.inode == root) ≡ false → (whole : Tree) → directory.kind ≡ kinds.Directory → Represents t whole
        → Represents (tables_after (dropping directory c n now) t) (drop_entry directory.id n.name now whole) }
    ensures unique { (t : Tables) (p : Parameters) (directory : Inode) (c : Content) (n : Name) (now : ℕ) (links uses : List ℕ) → Owes t p links uses
        → inode_at t directory.id ≡ Some directory → directory.id ≡ c.parent → entry_at t c.parent c.name_id ≡ Some c → name_at t c.name_id ≡ Some n
        → (c.inode == root) ≡ false → HasUniqueNames t → HasUniqueNames (tables_after (dropping directory c n now) t) }
{}

/// An entry that comes, with the use of its name, is the link of its inode that was owed, and one more of the tree.
pub fn entries_that_come_are_owed_links()
    ensures owes { (t : Tables) (p : Parameters) (directory : Inode) (more : Raised) (name : List ℕ) (inode now : ℕ) (links uses : List ℕ)
        → Owes t p (inode ∷ links) uses → IsTrue (list_all (λ id. nat_lt id p.next_name) uses) → raised t name ≡ Some more
        → inode_at t directory.id ≡ Some directory → directory.kind ≡ kinds.Directory → has_entry t directory.id name ≡ false → (inode == root) ≡ false
        → IsTrue (nat_lt inode p.next_inode)
        → (next : ℕ) × Owes (tables_after (entering directory more inode now) t) (record p { next_name = next }) links uses }
    ensures represents { (t : Tables) (p : Parameters) (directory : Inode) (more : Raised) (name : List ℕ) (inode now : ℕ) (links uses : List ℕ)
        → Owes t p (inode ∷ links) uses → IsTrue (list_all (λ id. nat_lt id p.next_name) uses) → raised t name ≡ Some more
        → inode_at t directory.id ≡ Some directory → directory.kind ≡ kinds.Directory → has_entry t directory.id name ≡ false → (inode == root) ≡ false
        → IsTrue (nat_lt inode p.next_inode) → (whole : Tree) → Represents t whole
        → Represents (tables_after (entering directory more inode now) t) (add_entry directory.id name inode now whole) }
    ensures unique { (t : Tables) (p : Parameters) (directory : Inode) (more : Raised) (name : List ℕ) (inode now : ℕ) (links uses : List ℕ)
        → Owes t p (inode ∷ links) uses → IsTrue (list_all (λ id. nat_lt id p.next_name) uses) → raised t name ≡ Some more
        → inode_at t directory.id ≡ Some directory → directory.kind ≡ kinds.Directory → has_entry t directory.id name ≡ false → (inode == root) ≡ false
        → IsTrue (nat_lt inode p.next_inode) → HasUniqueNames t → HasUniqueNames (tables_after (entering directory more inode now) t) }
{}

/// An attribute that goes, with the use of its name, owes nothing, and the nodes of other inodes stay.
pub fn attributes_that_go_owe_nothing()
    ensures owes { (t : Tables) (p : Parameters) (a : Attr) (n : Name) (links uses : List ℕ) → Owes t p links uses → attr_at t a.inode a.name_id ≡ Some a
        → name_at t a.name_id ≡ Some n → Owes (tables_after (dropping_attr a n) t) p links uses }
    ensures nodes { (t : Tables) (p : Parameters) (a : Attr) (n : Name) (links uses : List ℕ) → Owes t p links uses → attr_at t a.inode a.name_id ≡ Some a
        → name_at t a.name_id ≡ Some n → (x : Inode) → (x.id == a.inode) ≡ false → node_of_row (tables_after (dropping_attr a n) t) x ≡ node_of_row t x }
    ensures unique { (t : Tables) (p : Parameters) (a : Attr) (n : Name) (links uses : List ℕ) → Owes t p links uses → attr_at t a.inode a.name_id ≡ Some a
        → name_at t a.name_id ≡ Some n → HasUniqueNames t → HasUniqueNames (tables_after (dropping_attr a n) t) }
{}

/// Where the inode of an entry that goes counts one link less, nothing is owed for it, and its node is stamped.
pub fn unlinked_inodes_count_one_link_less()
    ensures owes { (t : Tables) (p : Parameters) (directory : Inode) (c : Content) (n : Name) (now : ℕ) (links uses : List ℕ) → Owes t p links uses
        → inode_at t directory.id ≡ Some directory → directory.id ≡ c.parent → entry_at t c.parent c.name_id ≡ Some c → name_at t c.name_id ≡ Some n
        → (c.inode == root) ≡ false → (r : Inode) → r.id ≡ c.inode → inode_at t r.id ≡ Some r → (r.id == directory.id) ≡ false → (count : ℕ)
        → count + 1 ≡ r.refcount → Owes (after_change (changes.PutInode (counted_row count now r)) (tables_after (dropping directory c n now) t)) p links uses }
    ensures represents { (t : Tables) (p : Parameters) (directory : Inode) (c : Content) (n : Name) (now : ℕ) (links uses : List ℕ) → Owes t p links uses
        → inode_at t directory.id ≡ Some directory → directory.id ≡ c.parent → entry_at t c.parent c.name_id ≡ Some c → name_at t c.name_id ≡ Some n
        → (c.inode == root) ≡ false → (r : Inode) → r.id ≡ c.inode → inode_at t r.id ≡ Some r → (r.id == directory.id) ≡ false → (count : ℕ)
        → count + 1 ≡ r.refcount → (whole : Tree) → directory.kind ≡ kinds.Directory → Represents t whole
        → Represents (after_change (changes.PutInode (counted_row count now r)) (tables_after (dropping directory c n now) t))
        (change_node r.id (stamped now) (drop_entry directory.id n.name now whole)) }
{}

/// An inode that goes with its attributes and its target, where no entry is in it and no block of it, owes nothing more: links
/// that were owed to it are not; and the tree has its node less.
pub fn inodes_that_go_owe_nothing()
    ensures owes { (t : Tables) (p : Parameters) (id : ℕ) (links uses now : List ℕ) → Owes t p links uses → IsBare t id
        → ((x : ℕ) → (id == x) ≡ false → times x now ≡ times x links) → Owes (tables_after (removal t id t) t) p now uses }
    ensures represents { (t : Tables) (p : Parameters) (id : ℕ) (links uses now : List ℕ) → Owes t p links uses → IsBare t id
        → ((x : ℕ) → (id == x) ≡ false → times x now ≡ times x links) → (whole : Tree) → Represents t whole
        → Represents (tables_after (removal t id t) t) (without_node id whole) }
    ensures unique { (t : Tables) (p : Parameters) (id : ℕ) (links uses now : List ℕ) → Owes t p links uses → IsBare t id
        → ((x : ℕ) → (id == x) ≡ false → times x now ≡ times x links) → HasUniqueNames t → HasUniqueNames (tables_after (removal t id t) t) }
{}

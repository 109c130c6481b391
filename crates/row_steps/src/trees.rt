ghost use Rattle.std.specs.Prelude.{◌≡◌, ℕ, suc, ◌==◌, List, ◌∷◌, length, false, is_some, IsTrue, None, Some};
ghost use Rattle.s3_base.specs.Numbers.{root};
ghost use Rattle.s3_base.specs.declared.node_kind.Kind.TheVariants as kinds;
ghost use Rattle.plain_tree.specs.Tree.{Node, Tree, change_node, stamped, with_node, without_node};
ghost use Rattle.plain_tree.specs.Below.{is_at_or_below};
ghost use Rattle.plain_tree.specs.Entries as entries;
ghost use Rattle.plain_tree.specs.Entries.{add_entry, drop_entry};
ghost use Rattle.plain_tree.specs.WellFormed.{IsWellFormed};
ghost use Rattle.plain_tree.specs.Pages.{with_attribute, without_attribute};
ghost use Rattle.s3_rows.specs.declared.change.Change.TheVariants as changes;
ghost use Rattle.s3_rows.specs.Rows.{Inode, Name, Content, Target, Attr, Parameters};
ghost use Rattle.s3_rows.specs.Tables.{Tables};
ghost use Rattle.s3_rows.specs.Batches.{after_change, tables_after};
ghost use Rattle.s3_rows.specs.Selections.{holder_of, inode_at, name_at, entry_at, attr_at, bytes_of_name};
ghost use Rattle.s3_rows.specs.Validity.{IsValid, HasUniqueNames, has_inode, is_directory, leads_to_root};
ghost use Rattle.tree_rows.specs.Shapes.{shape_of_node, node_of_row, Represents};
ghost use Rattle.ref_counts.specs.Names.{lowered};
ghost use Rattle.row_steps.specs.Owed.{Owes, has_entry};
ghost use Rattle.row_steps.specs.RowChanges.{drawn, stamped_row, touched_row};

/// A row under the number that is drawn is a node more; a row that is deleted, one less; and a row in place of another is the
/// node that a change makes of its shape.
pub fn rows_are_nodes()
    ensures put { (t : Tables) (whole : Tree) (p : Parameters) (new : Inode) (node : Node) → Represents t whole → t.params ≡ Some p → new.id ≡ p.next_inode
        → shape_of_node node ≡ node_of_row t new → Represents (after_change (changes.PutInode new) (after_change (changes.SetParams (drawn p)) t)) (with_node node whole) }
    ensures delete { (t : Tables) (whole : Tree) (p : Parameters) (id : ℕ) (links uses : List ℕ) → Owes t p links uses → Represents t whole
        → Represents (after_change (changes.DeleteInode id) t) (without_node id whole) }
    ensures replaced { (t : Tables) (whole : Tree) (p : Parameters) (r new : Inode) (f : Node → Node) (links uses : List ℕ) → Owes t p links uses
        → Represents t whole → inode_at t new.id ≡ Some r → ((node : Node) → shape_of_node node ≡ node_of_row t r → shape_of_node (f node) ≡ node_of_row t new)
        → Represents (after_change (changes.PutInode new) t) (change_node new.id f whole) }
{}

/// A name row whose id has none, or one of the same bytes, leaves the tree, and so does a name that is used once less.
pub fn name_rows_leave_the_tree()
    ensures put { (t : Tables) (whole : Tree) (p : Parameters) (row : Name) (links uses : List ℕ) → Owes t p links uses
        → ((old : Name) → name_at t row.id ≡ Some old → old.name ≡ row.name) → Represents t whole → Represents (after_change (changes.PutName row) t) whole }
    ensures lowered { (t : Tables) (whole : Tree) (p : Parameters) (n : Name) (links uses : List ℕ) → Owes t p links (n.id ∷ uses) → name_at t n.id ≡ Some n
        → Represents t whole → Represents (tables_after (lowered n) t) whole }
{}

/// An entry that is put, where its directory has none of the name, is one more of the tree, and one that is deleted one less,
/// where the directory is touched.
pub fn entries_are_entries()
    ensures put { (t : Tables) (whole : Tree) (p : Parameters) (directory : Inode) (c : Content) (now : ℕ) (links uses : List ℕ) → Owes t p links uses
        → Represents t whole → directory.id ≡ c.parent → inode_at t directory.id ≡ Some directory → directory.kind ≡ kinds.Directory
        → IsTrue (is_some (name_at t c.name_id)) → has_entry t c.parent (bytes_of_name t c.name_id) ≡ false
        → Represents (after_change (changes.PutInode (touched_row now directory)) (after_change (changes.PutContent c) t))
        (add_entry directory.id (bytes_of_name t c.name_id) c.inode now whole) }
    ensures delete { (t : Tables) (whole : Tree) (p : Parameters) (directory : Inode) (c : Content) (now : ℕ) (links uses : List ℕ) → Owes t p links uses
        → Represents t whole → directory.id ≡ c.parent → inode_at t directory.id ≡ Some directory → directory.kind ≡ kinds.Directory
        → IsTrue (is_some (name_at t c.name_id)) → entry_at t c.parent c.name_id ≡ Some c
        → Represents (after_change (changes.PutInode (touched_row now directory)) (after_change (changes.DeleteContent c.parent c.name_id) t))
        (drop_entry directory.id (bytes_of_name t c.name_id) now whole) }
{}

/// Attributes and targets of a number that has no row, or not yet, leave the tree.
pub fn rows_of_no_node_leave_the_tree()
    ensures attrs { (t : Tables) (whole : Tree) (id name_id : ℕ) → inode_at t id ≡ None → Represents t whole
        → Represents (after_change (changes.DeleteAttr id name_id) t) whole }
    ensures targets { (t : Tables) (whole : Tree) (id : ℕ) → inode_at t id ≡ None → Represents t whole
        → Represents (after_change (changes.DeleteTarget id) t) whole }
    ensures new_targets { (t : Tables) (whole : Tree) (r : Target) → inode_at t r.inode ≡ None → Represents t whole
        → Represents (after_change (changes.PutTarget r) t) whole }
{}

/// An attribute that is put, whether its inode has one of the name or not, is one of the node, and one that is deleted none, where
/// the inode is stamped and no two names have the same bytes.
pub fn attributes_are_attributes()
    ensures put { (t : Tables) (whole : Tree) (p : Parameters) (r : Inode) (a : Attr) (n : Name) (now : ℕ) (links uses : List ℕ) → Owes t p links uses
        → Represents t whole → HasUniqueNames t → r.id ≡ a.inode → inode_at t r.id ≡ Some r → name_at t a.name_id ≡ Some n
        → Represents (after_change (changes.PutInode (stamped_row now r)) (after_change (changes.PutAttr a) t))
        (change_node r.id (λ node. stamped now (with_attribute n.name a.value node)) whole) }
    ensures delete { (t : Tables) (whole : Tree) (p : Parameters) (r : Inode) (a : Attr) (n : Name) (now : ℕ) (links uses : List ℕ) → Owes t p links uses
        → Represents t whole → HasUniqueNames t → r.id ≡ a.inode → inode_at t r.id ≡ Some r → name_at t a.name_id ≡ Some n
        → attr_at t a.inode a.name_id ≡ Some a
        → Represents (after_change (changes.PutInode (stamped_row now r)) (after_change (changes.DeleteAttr a.inode a.name_id) t))
        (change_node r.id (λ node. stamped now (without_attribute n.name node)) whole) }
{}

/// A directory but the root has an entry that names it. The entry that tables find is one of the tree, its parent is a directory,
/// and the one that it names lies at or below another, which it is not, where the parent does. No way up is longer than inodes are
/// many.
pub fn holders_are_parents()
    ensures found { (t : Tables) (whole : Tree) → IsValid t → Represents t whole → IsWellFormed whole → (inode : ℕ) → IsTrue (has_inode is_directory t inode)
        → (inode == root) ≡ false → IsTrue (is_some (holder_of t inode)) }
    ensures entry { (t : Tables) (whole : Tree) → IsValid t → Represents t whole → (inode : ℕ) (c : Content) → holder_of t inode ≡ Some c
        → entries.entry_at whole c.parent (bytes_of_name t c.name_id) ≡ Some inode }
    ensures parent { (t : Tables) (whole : Tree) → IsValid t → Represents t whole → (inode : ℕ) (c : Content) → holder_of t inode ≡ Some c
        → IsTrue (has_inode is_directory t c.parent) }
    ensures below { (t : Tables) (whole : Tree) → IsValid t → Represents t whole → (inode : ℕ) (c : Content) → holder_of t inode ≡ Some c → IsWellFormed whole
        → IsTrue (has_inode is_directory t inode) → (top : ℕ) → (inode == top) ≡ false → is_at_or_below whole top inode ≡ is_at_or_below whole top c.parent }
    ensures nearer { (t : Tables) (whole : Tree) → IsValid t → Represents t whole → (inode : ℕ) (c : Content) → holder_of t inode ≡ Some c → IsWellFormed whole
        → IsTrue (has_inode is_directory t inode) → (inode == root) ≡ false → (steps : ℕ) → IsTrue (leads_to_root (suc steps) t inode)
        → IsTrue (leads_to_root steps t c.parent) }
    ensures short { (t : Tables) → IsValid t → (inode : ℕ) → IsTrue (has_inode is_directory t inode) → IsTrue (leads_to_root (length t.inodes) t inode) }
{}

ghost use Rattle.std.specs.Prelude.{◌≡◌, ℕ, ◌==◌, ◌||◌, List, [], Bool, false, true, not, nat_lt, IsTrue, None, Some};
ghost use Rattle.std.specs.List.{list_all};
ghost use Rattle.op_frames.specs.declared.operation.Op.TheVariants as ops;
ghost use Rattle.plain_tree.specs.Tree.{Tree};
ghost use Rattle.plain_tree.specs.Checks.{first_failure};
ghost use Rattle.plain_tree.specs.Entries as entries;
ghost use Rattle.plain_tree.specs.Entries.{is_open};
ghost use Rattle.plain_tree.specs.Operations.{checks, effect};
ghost use Rattle.plain_tree.specs.Subtrees.{is_same};
ghost use Rattle.plain_tree.specs.WellFormed.{IsWellFormed};
ghost use Rattle.s3_rows.specs.Rows.{Inode, Name, Content, Slot, Parameters};
ghost use Rattle.s3_rows.specs.Tables.{Tables};
ghost use Rattle.s3_rows.specs.Batches.{tables_after};
ghost use Rattle.s3_rows.specs.Selections.{inode_at, entry_at, name_of_bytes};
ghost use Rattle.s3_rows.specs.Validity.{IsValid, HasUniqueNames};
ghost use Rattle.tree_rows.specs.Shapes.{Represents};
ghost use Rattle.ref_counts.specs.Names.{Raised, raised};
ghost use Rattle.ref_counts.specs.Plans.{IsStep};
ghost use Rattle.row_steps.specs.RowChanges.{dropping, moving, other_name, replacing, same_name};

/// Where no check of a Rename fails, its batch leaves valid tables that represent the tree with the entry moved: none where both
/// names name one inode; and where the new directory has no entry of the name, one that leaves the name alone, or one by which the
/// old name is used once less and then the new one once more. Over an entry of another inode the old name is used once less, and
/// that inode counts one link less where another entry or a handle keeps it, and goes with its places where none does.
pub fn renames_are_steps()
    ensures itself { (t : Tables) (whole : Tree) (pass parent new_parent now : ℕ) (name new_name : List ℕ)
        → IsValid t → Represents t whole → is_same (entries.entry_at whole new_parent new_name) (entries.entry_at whole parent name) ≡ true
        → IsStep t (tables_after [] t) (effect whole pass (ops.Rename parent name new_parent new_name) now) 0 }
    ensures same_name { (t : Tables) (whole : Tree) (p : Parameters) (directory new_directory r : Inode) (c : Content) (n : Name)
        (pass parent new_parent now : ℕ) (name : List ℕ)
        → IsValid t → IsWellFormed whole → Represents t whole → t.params ≡ Some p
        → inode_at t parent ≡ Some directory → inode_at t new_parent ≡ Some new_directory → name_of_bytes t name ≡ Some n → entry_at t parent n.id ≡ Some c
        → inode_at t c.inode ≡ Some r → first_failure (checks whole pass (ops.Rename parent name new_parent name)) ≡ None
        → entries.entry_at whole new_parent name ≡ None
        → IsStep t (tables_after (moving directory new_directory c (same_name c) r now) t) (effect whole pass (ops.Rename parent name new_parent name) now) 0 }
    ensures other_name { (t : Tables) (whole : Tree) (p : Parameters) (directory new_directory r : Inode) (c : Content) (n : Name) (more : Raised)
        (pass parent new_parent now : ℕ) (name new_name : List ℕ)
        → IsValid t → IsWellFormed whole → Represents t whole → t.params ≡ Some p
        → inode_at t parent ≡ Some directory → inode_at t new_parent ≡ Some new_directory → name_of_bytes t name ≡ Some n → entry_at t parent n.id ≡ Some c
        → inode_at t c.inode ≡ Some r → first_failure (checks whole pass (ops.Rename parent name new_parent new_name)) ≡ None
        → entries.entry_at whole new_parent new_name ≡ None → raised (tables_after (dropping directory c n now) t) new_name ≡ Some more
        → IsStep t (tables_after (moving directory new_directory c (other_name n more) r now) t) (effect whole pass (ops.Rename parent name new_parent new_name) now) 1 }
    ensures replaced { (t : Tables) (whole : Tree) (p : Parameters) (directory new_directory r replaced : Inode) (c old : Content) (n old_name : Name)
        (pass parent new_parent now : ℕ) (name new_name : List ℕ) (held : Bool)
        → IsValid t → IsWellFormed whole → Represents t whole → t.params ≡ Some p
        → inode_at t parent ≡ Some directory → inode_at t new_parent ≡ Some new_directory → name_of_bytes t name ≡ Some n → entry_at t parent n.id ≡ Some c
        → inode_at t c.inode ≡ Some r → name_of_bytes t new_name ≡ Some old_name → entry_at t new_parent old_name.id ≡ Some old → inode_at t old.inode ≡ Some replaced
        → IsTrue (list_all (λ (x : Slot). not (x.inode == replaced.id)) t.slots)
        → is_open whole old.inode ≡ held → first_failure (checks whole pass (ops.Rename parent name new_parent new_name)) ≡ None → (old.inode == c.inode) ≡ false
        → IsStep t (tables_after (replacing (nat_lt 1 replaced.refcount || held) t directory new_directory r replaced c old n now) t)
        (effect whole pass (ops.Rename parent name new_parent new_name) now) 0 }
{}

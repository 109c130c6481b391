ghost use Rattle.std.specs.Prelude.{◌≡◌, ℕ, ◌==◌, List, not, IsTrue, None, Some};
ghost use Rattle.std.specs.List.{list_all};
ghost use Rattle.op_frames.specs.declared.operation.Op.TheVariants as ops;
ghost use Rattle.plain_tree.specs.Checks.{first_failure};
ghost use Rattle.plain_tree.specs.Entries as entries;
ghost use Rattle.plain_tree.specs.Operations.{checks, effect};
ghost use Rattle.plain_tree.specs.Subtrees.{with_lock};
ghost use Rattle.plain_tree.specs.Tree.{Tree};
ghost use Rattle.plain_tree.specs.WellFormed.{IsWellFormed};
ghost use Rattle.s3_rows.specs.Batches.{tables_after};
ghost use Rattle.s3_rows.specs.Rows.{Content, Inode, Name};
ghost use Rattle.s3_rows.specs.Selections.{entry_at, inode_at, name_of_bytes};
ghost use Rattle.s3_rows.specs.Tables.{Tables};
ghost use Rattle.s3_rows.specs.Validity.{IsValid};
ghost use Rattle.tree_rows.specs.Shapes.{Represents};
ghost use Rattle.ref_counts.specs.Plans.{IsStep};
ghost use Rattle.immutable_trees.specs.LockedRows.{AreRowsBelow, locking};
ghost use Rattle.immutable_trees.specs.RemovedRows.{AreGone, Gone, all_taken, uprooting};

/// Where the checks of a LockTree pass, the rows of all at and below the directory, put again and locked in any order, make of
/// valid tables those of the locked tree. No name or number is drawn.
pub fn locked_trees_are_steps()
    ensures { (t : Tables) (whole : Tree) (pass inode : ℕ) (rows : List Inode) → IsValid t → Represents t whole → IsWellFormed whole
        → first_failure (checks whole pass (ops.LockTree inode)) ≡ None → AreRowsBelow t whole inode rows
        → IsStep t (tables_after (locking rows) t) (with_lock inode whole) 0 }
{}

/// Where the checks of a RemoveTree pass, the rows of entries in directories at or below the one that it names, which go one after
/// the other until that is empty, and at last its own entry, make of valid tables those of the tree without it. A directory goes
/// once it is empty; what is none counts one link less and is stamped where another entry or a handle keeps it, and goes where none
/// does. No name or number is drawn.
pub fn removed_trees_are_steps()
    ensures { (t : Tables) (whole : Tree) (directory top : Inode) (c : Content) (n : Name) (gone : List Gone) (pass parent now inode : ℕ) (name : List ℕ)
        → IsValid t → IsWellFormed whole → Represents t whole → first_failure (checks whole pass (ops.RemoveTree parent name)) ≡ None
        → entries.entry_at whole parent name ≡ Some inode → AreGone now whole inode t gone
        → inode_at (tables_after (all_taken now t gone) t) parent ≡ Some directory → name_of_bytes (tables_after (all_taken now t gone) t) name ≡ Some n
        → entry_at (tables_after (all_taken now t gone) t) parent n.id ≡ Some c → inode_at (tables_after (all_taken now t gone) t) c.inode ≡ Some top
        → IsTrue (list_all (λ x. not (x.parent == top.id)) (tables_after (all_taken now t gone) t).contents)
        → IsStep t (tables_after (uprooting now t gone directory top c n) t) (effect whole pass (ops.RemoveTree parent name) now) 0 }
{}

ghost use Rattle.std.specs.Prelude.{◌≡◌, ◌≢◌, ℕ, Some};
ghost use Rattle.plain_tree.specs.Tree.{Tree};
ghost use Rattle.plain_tree.specs.WellFormed.{HasOneTree, entries_naming};
ghost use Rattle.s3_rows.specs.Rows.{Inode};
ghost use Rattle.s3_rows.specs.Tables.{Tables};
ghost use Rattle.s3_rows.specs.Selections.{inode_at};
ghost use Rattle.s3_base.specs.Numbers.{root};
ghost use Rattle.s3_rows.specs.Validity.{IsValid};
ghost use Rattle.tree_rows.specs.Shapes.{Represents};

/// A tree that valid tables represent has one tree of names from the root: each other directory is named by exactly one entry
/// and its parents lead to the root, and each entry names a node and has a legal name.
pub fn valid_tables_have_one_tree()
    ensures { (t : Tables) (whole : Tree) → IsValid t → Represents t whole → HasOneTree whole }
{}

/// In valid tables the stored count of an inode is the number of entries of the tree that name it; the root's is 1.
pub fn stored_counts_are_link_counts()
    ensures others { (t : Tables) (whole : Tree) (id : ℕ) (r : Inode) → IsValid t → Represents t whole → inode_at t id ≡ Some r → id ≢ root
        → r.refcount ≡ entries_naming whole id }
    ensures root { (t : Tables) (r : Inode) → IsValid t → inode_at t root ≡ Some r → r.refcount ≡ 1 }
{}

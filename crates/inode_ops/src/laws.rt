//! Laws of the counts of names.
ghost use Rattle.std.specs.Prelude.{◌≡◌, Some};
ghost use Rattle.plain_tree.specs.Tree.{Tree};
ghost use Rattle.s3_rows.specs.Rows.{Name};
ghost use Rattle.s3_rows.specs.Selections.{name_at};
ghost use Rattle.s3_rows.specs.Tables.{Tables};
ghost use Rattle.s3_rows.specs.Validity.{IsValid, HasUniqueNames};
ghost use Rattle.tree_rows.specs.Shapes.{Represents};
ghost use Rattle.inode_ops.specs.Uses.{name_uses};

/// In valid tables in which no two names have the same bytes a name counts the entries and attributes of the tree that have it.
pub fn names_count_their_uses()
    ensures uses { (t : Tables) (whole : Tree) (n : Name) → IsValid t → HasUniqueNames t → Represents t whole → name_at t n.id ≡ Some n → n.refcount ≡ name_uses whole n.name }
{}

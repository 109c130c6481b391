ghost use Rattle.std.specs.Prelude.{◌≡◌, ◌<◌, ℕ, List, [], Some};
ghost use Rattle.s3_rows.specs.Rows.{Parameters};
ghost use Rattle.s3_rows.specs.Tables.{Tables};
ghost use Rattle.plain_tree.specs.Tree.{made_tree};
ghost use Rattle.s3_rows.specs.Made.{made_tables};
ghost use Rattle.tree_rows.specs.Shapes.{Represents};
ghost use Rattle.tree_rows.specs.Contents.{Contents, tree_of};

/// The tables of a file system that was just made stand for the tree that was just made, whatever its block size, its slots
/// and its time.
pub fn made_tables_are_the_made_tree()
    ensures represents { (block_size slots now : ℕ) → Represents (made_tables block_size slots now) (made_tree block_size now) }
    ensures whole { (block_size slots now : ℕ) → tree_of [] (made_tables block_size slots now) ≡ made_tree block_size now }
{}

/// Tables with a block size represent the tree that they and any contents stand for: each file of it is as long as its row
/// says, whatever its blocks hold.
pub fn tables_represent_their_tree()
    ensures { (contents : Contents) (t : Tables) (p : Parameters) → t.params ≡ Some p → 0 < p.block_size → Represents t (tree_of contents t) }
{}

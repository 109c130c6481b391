ghost use Rattle.std.specs.Prelude.{ℕ, ◌+◌};
ghost use Rattle.op_frames.specs.declared.operation.Op.{Op};
ghost use Rattle.plain_tree.specs.Operations.{tree_after};
ghost use Rattle.plain_tree.specs.Tree.{Tree, made_tree};
ghost use Rattle.plain_tree.specs.WellFormed.{IsWellFormed};
ghost use Rattle.tree_laws.specs.Growth.{HaveFewNames};

/// An operation adds at most one to the greatest number of entries that name one inode, also where it copies a tree: the copies have as
/// many names as what they are copies of.
pub fn names_of_inodes_grow_by_one()
    ensures grows { (t : Tree) (pass now most : ℕ) (op : Op) → IsWellFormed t → HaveFewNames most t → HaveFewNames (most + 1) (tree_after t pass op now) }
    ensures made { (block_size time : ℕ) → HaveFewNames 1 (made_tree block_size time) }
{}

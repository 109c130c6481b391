ghost use Rattle.std.specs.Prelude.{◌≡◌, ℕ, Some};
ghost use Rattle.op_frames.specs.declared.operation.Op.{Op};
ghost use Rattle.plain_tree.specs.Tree.{Tree};
ghost use Rattle.plain_tree.specs.Operations.{tree_after};
ghost use Rattle.tree_laws.specs.Changes.{ChangesOneNode, node_changed};

/// An operation on the state of one node changes no other node, no entry, no handle and no number, whatever it answers.
pub fn changes_stay_in_one_node()
    ensures { (t : Tree) (pass now inode : ℕ) (op : Op) → node_changed op ≡ Some inode → ChangesOneNode inode t (tree_after t pass op now) }
{}

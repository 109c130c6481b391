ghost use Rattle.std.specs.Prelude.{ℕ, ◌^◌, ◌<◌};
ghost use Rattle.op_frames.specs.declared.operation.Op.{Op};
ghost use Rattle.plain_tree.specs.Operations.{tree_after};
ghost use Rattle.plain_tree.specs.Tree.{Tree, made_tree};
ghost use Rattle.plain_tree.specs.WellFormed.{HasTimes, IsWellFormed};

/// Whatever an operation of any pass answers at any time, the tree after it is well formed where the tree before was, also where
/// the fields of the operation break the rules of frames. Times stay below 2^62 where the call is made at such a time.
pub fn well_formed_trees_stay_well_formed()
    ensures stays { (t : Tree) (pass now : ℕ) (op : Op) → IsWellFormed t → IsWellFormed (tree_after t pass op now) }
    ensures times { (t : Tree) (pass now : ℕ) (op : Op) → now < 2 ^ 62 → HasTimes t → HasTimes (tree_after t pass op now) }
{}

/// The tree of a file system that was just made is well formed.
pub fn made_trees_are_well_formed()
    ensures made { (block_size time : ℕ) → IsWellFormed (made_tree block_size time) }
    ensures times { (block_size time : ℕ) → time < 2 ^ 62 → HasTimes (made_tree block_size time) }
{}

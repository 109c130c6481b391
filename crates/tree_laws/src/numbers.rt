ghost use Rattle.std.specs.Prelude.{ℕ, List};
ghost use Rattle.op_frames.specs.Replay.{Request};
ghost use Rattle.plain_tree.specs.Tree.{made_tree};
ghost use Rattle.plain_tree.specs.Calls.{tree_after_all};
ghost use Rattle.plain_tree.specs.Numbers.{InOrder};

/// Whatever calls come after the making, the nodes are in the order of their inode numbers, no two have one number, and each
/// number is below the next one.
pub fn nodes_stay_in_order()
    ensures { (block_size time : ℕ) (calls : List Request) → InOrder (tree_after_all (made_tree block_size time) calls) }
{}

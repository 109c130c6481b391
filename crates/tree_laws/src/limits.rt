ghost use Rattle.std.specs.Prelude.{ℕ, List};
ghost use Rattle.op_frames.specs.Replay.{Request};
ghost use Rattle.plain_tree.specs.Tree.{made_tree};
ghost use Rattle.plain_tree.specs.Calls.{tree_after_all};
ghost use Rattle.plain_tree.specs.WellFormed.{IsWithinRules};

/// Whatever calls come after the making, no file is longer than 2^50 bytes, targets and attributes are such as the operations
/// take, and the next inode number and the next handle number are at most 2^62.
pub fn limits_stay()
    ensures { (block_size time : ℕ) (calls : List Request) → IsWithinRules (tree_after_all (made_tree block_size time) calls) }
{}

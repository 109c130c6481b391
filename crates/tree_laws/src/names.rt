ghost use Rattle.std.specs.Prelude.{ℕ, List};
ghost use Rattle.op_frames.specs.Replay.{Request};
ghost use Rattle.plain_tree.specs.Tree.{made_tree};
ghost use Rattle.plain_tree.specs.Calls.{tree_after_all};
ghost use Rattle.plain_tree.specs.Names.{NamesInOrder};

/// Whatever calls come after the making, the entries of each directory are in the order of their names by bytes, and no two
/// entries of a directory have one name.
pub fn names_stay_in_order()
    ensures { (block_size time : ℕ) (calls : List Request) → NamesInOrder (tree_after_all (made_tree block_size time) calls) }
{}

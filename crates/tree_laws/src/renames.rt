ghost use Rattle.std.specs.Prelude.{◌≡◌, ◌≢◌, ℕ, List};
ghost use Rattle.op_frames.specs.Replay.{Request};
ghost use Rattle.op_frames.specs.declared.operation.Op.TheVariants as ops;
ghost use Rattle.op_frames.specs.declared.reply.Reply.TheVariants as replies;
ghost use Rattle.plain_tree.specs.Tree.{Tree, made_tree};
ghost use Rattle.plain_tree.specs.Calls.{tree_after_all};
ghost use Rattle.plain_tree.specs.Entries.{entry_at};
ghost use Rattle.plain_tree.specs.Operations.{reply_to, tree_after, HandlesBelow};
ghost use Rattle.plain_tree.specs.WellFormed.{HasOneTree, HasNoOrphans};
ghost use Rattle.plain_tree.specs.Names.{NamesInOrder};
ghost use Rattle.plain_tree.specs.Numbers.{InOrder};
ghost use Rattle.tree_laws.specs.Renames.{IsRenamed};

/// A Rename that is answered Done, of a name to one that does not name the same node, moves that entry: the old name is gone,
/// the new one names the node, and every third entry is as before.
pub fn renamed_moves_one_entry()
    ensures { (t : Tree) (pass now parent new_parent : ℕ) (name new_name : List ℕ) → InOrder t → NamesInOrder t → HasOneTree t
        → reply_to t pass (ops.Rename parent name new_parent new_name) now ≡ replies.Done → entry_at t new_parent new_name ≢ entry_at t parent name
        → IsRenamed parent name new_parent new_name now t (tree_after t pass (ops.Rename parent name new_parent new_name) now) }
{}

/// A Rename keeps the directories one tree, whatever it answers: no directory becomes its own ancestor.
pub fn renamed_stays_one_tree()
    ensures { (t : Tree) (pass now parent new_parent : ℕ) (name new_name : List ℕ) → InOrder t → NamesInOrder t → HandlesBelow t → HasOneTree t → HasNoOrphans t
        → HasOneTree (tree_after t pass (ops.Rename parent name new_parent new_name) now) }
{}

/// Whatever calls come after the making, a Rename that is answered Done, of a name to one that does not name the same node,
/// moves that entry so, and the directories stay one tree.
pub fn reached_renames_move_one_entry()
    ensures { (block_size time : ℕ) (calls : List Request) (t : Tree) (pass now parent new_parent : ℕ) (name new_name : List ℕ) → t ≡ tree_after_all (made_tree block_size time) calls
        → reply_to t pass (ops.Rename parent name new_parent new_name) now ≡ replies.Done → entry_at t new_parent new_name ≢ entry_at t parent name
        → IsRenamed parent name new_parent new_name now t (tree_after t pass (ops.Rename parent name new_parent new_name) now)
        × HasOneTree (tree_after t pass (ops.Rename parent name new_parent new_name) now) }
{}

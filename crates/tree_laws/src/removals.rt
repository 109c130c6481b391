ghost use Rattle.std.specs.Prelude.{◌≡◌, ℕ, List};
ghost use Rattle.op_frames.specs.Replay.{Request};
ghost use Rattle.op_frames.specs.declared.operation.Op.TheVariants as ops;
ghost use Rattle.op_frames.specs.declared.reply.Reply.TheVariants as replies;
ghost use Rattle.plain_tree.specs.Tree.{Tree, made_tree};
ghost use Rattle.plain_tree.specs.Calls.{tree_after_all};
ghost use Rattle.plain_tree.specs.Operations.{reply_to, tree_after};
ghost use Rattle.plain_tree.specs.WellFormed.{HasOneTree, HasNoOrphans};
ghost use Rattle.plain_tree.specs.Names.{NamesInOrder};
ghost use Rattle.plain_tree.specs.Numbers.{InOrder};
ghost use Rattle.tree_laws.specs.Removals.{IsRemoved};

/// In every tree that is well formed, a RemoveTree that is answered Done removes what it names: the entry, and the directory
/// with all at and below it. Of these only files and links with a name elsewhere, and open files, stay. Nothing else changes
/// but the parent, which has one entry less.
pub fn removal_removes_what_it_names()
    ensures { (t : Tree) → InOrder t → NamesInOrder t → HasOneTree t → HasNoOrphans t → (pass now parent : ℕ) (name : List ℕ) → reply_to t pass (ops.RemoveTree parent name) now ≡ replies.Done
        → IsRemoved parent name now t (tree_after t pass (ops.RemoveTree parent name) now) }
{}

/// The same of every tree that calls after the making lead to.
pub fn reached_removal_removes_what_it_names()
    ensures { (block_size time : ℕ) (calls : List Request) (pass now parent : ℕ) (name : List ℕ)
        → reply_to (tree_after_all (made_tree block_size time) calls) pass (ops.RemoveTree parent name) now ≡ replies.Done
        → IsRemoved parent name now (tree_after_all (made_tree block_size time) calls) (tree_after (tree_after_all (made_tree block_size time) calls) pass (ops.RemoveTree parent name) now) }
{}

ghost use Rattle.std.specs.Prelude.{◌≡◌, ℕ, List};
ghost use Rattle.op_frames.specs.Replay.{Request};
ghost use Rattle.op_frames.specs.declared.operation.Op.TheVariants as ops;
ghost use Rattle.op_frames.specs.declared.reply.Attr.{Attr};
ghost use Rattle.op_frames.specs.declared.reply.Reply.TheVariants as replies;
ghost use Rattle.plain_tree.specs.Calls.{tree_after_all};
ghost use Rattle.plain_tree.specs.Operations.{reply_to, tree_after};
ghost use Rattle.plain_tree.specs.Tree.{Tree, made_tree};
ghost use Rattle.plain_tree.specs.WellFormed.{HasOneTree};
ghost use Rattle.tree_laws.specs.Copies.{IsCopied, AreApart};
ghost use Rattle.plain_tree.specs.Names.{NamesInOrder};
ghost use Rattle.plain_tree.specs.Numbers.{InOrder};

/// A copy is a copy: after a CopyTree is answered with attributes, the parent has one entry more, all else that was there is as
/// before, each node at or below the source has one copy under a new number, and source and copy are equal but for number,
/// ctime and lock.
pub fn copy_is_a_copy()
    ensures { (t : Tree) (pass now source parent : ℕ) (name : List ℕ) (attr : Attr) → InOrder t → NamesInOrder t → HasOneTree t
        → reply_to t pass (ops.CopyTree source parent name) now ≡ replies.Attr attr
        → IsCopied source parent name now t (tree_after t pass (ops.CopyTree source parent name) now) }
{}

/// Source and copy stay apart: in any later tree, a Write, a Truncate or another operation on one node alone, of a node of one
/// side, leaves every node of the other side as it was, whatever it answers.
pub fn sides_stay_apart()
    ensures { (t later : Tree) (pass now source parent : ℕ) (name : List ℕ) (attr : Attr) → InOrder t → NamesInOrder t → HasOneTree t
        → reply_to t pass (ops.CopyTree source parent name) now ≡ replies.Attr attr → AreApart source t later }
{}

/// Both hold of every CopyTree that is answered with attributes, whatever calls came before it, after the making.
pub fn copies_are_copies()
    ensures { (block_size time : ℕ) (calls : List Request) (pass now source parent : ℕ) (name : List ℕ) (attr : Attr)
        → reply_to (tree_after_all (made_tree block_size time) calls) pass (ops.CopyTree source parent name) now ≡ replies.Attr attr
        → IsCopied source parent name now (tree_after_all (made_tree block_size time) calls)
        (tree_after (tree_after_all (made_tree block_size time) calls) pass (ops.CopyTree source parent name) now)
        × ((later : Tree) → AreApart source (tree_after_all (made_tree block_size time) calls) later) }
{}

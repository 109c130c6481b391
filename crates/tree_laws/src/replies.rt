ghost use Rattle.std.specs.Prelude.{◌≡◌, ℕ, IsTrue};
ghost use Rattle.op_frames.specs.declared.operation.Op.{Op};
ghost use Rattle.op_frames.specs.declared.reply.Attr.{Attr};
ghost use Rattle.op_frames.specs.declared.reply.Reply.TheVariants as replies;
ghost use Rattle.op_frames.specs.Rules.{has_mode};
ghost use Rattle.plain_tree.specs.Operations.{reply_to};
ghost use Rattle.plain_tree.specs.Tree.{Tree};
ghost use Rattle.plain_tree.specs.WellFormed.{HaveModes};

/// Where the modes of a tree have the twelve bits of permissions alone, so have those of the attributes in every reply.
pub fn replies_have_modes()
    ensures attr { (t : Tree) (pass now : ℕ) (op : Op) (attr : Attr) → HaveModes t.nodes → reply_to t pass op now ≡ replies.Attr attr → IsTrue (has_mode attr) }
    ensures opened { (t : Tree) (pass now handle : ℕ) (op : Op) (attr : Attr) → HaveModes t.nodes → reply_to t pass op now ≡ replies.Opened handle attr → IsTrue (has_mode attr) }
{}

ghost use Rattle.std.specs.Prelude.{◌≡◌, ◌≢◌, ◌<◌, ◌≤◌, ℕ, List, length, false};
ghost use Rattle.op_frames.specs.declared.operation.Op.{Op};
ghost use Rattle.op_frames.specs.declared.operation.Op.TheVariants as ops;
ghost use Rattle.op_frames.specs.declared.reply.Attr.{Attr};
ghost use Rattle.op_frames.specs.declared.reply.Reply.TheVariants as replies;
ghost use Rattle.plain_tree.specs.Tree.{Tree, handle_of};
ghost use Rattle.plain_tree.specs.Classes.{Bytes, class_of};
ghost use Rattle.plain_tree.specs.Files.{inode_of};
ghost use Rattle.plain_tree.specs.Numbers.{InOrder};
ghost use Rattle.plain_tree.specs.Operations.{reply_to, tree_after};
ghost use Rattle.tree_laws.specs.Files.{IsWritten, IsResized, KeepsFiles, KeepsOldFiles, ReadsThere, copies_files};

/// What is written is read: after a Write is answered with a count of at least 1, each handle on that file, of any pass,
/// reads the data there. A gap reads as zeros, and nothing else has changed but the times of the file.
pub fn written_is_read()
    ensures { (t : Tree) (pass now handle offset count : ℕ) (text : List ℕ) → reply_to t pass (ops.Write handle offset text) now ≡ replies.Count count → 1 ≤ count
        → (count ≡ length text)
        × IsWritten (inode_of (handle_of t pass handle)) offset now text t (tree_after t pass (ops.Write handle offset text) now)
        × ReadsThere (inode_of (handle_of t pass handle)) offset text t (tree_after t pass (ops.Write handle offset text) now) }
{}

/// A Truncate that is answered with attributes cuts the file, or lengthens it with zeros, and changes nothing else but its
/// times.
pub fn truncated_is_cut()
    ensures { (t : Tree) (pass now inode size : ℕ) (attr : Attr) → reply_to t pass (ops.Truncate inode size) now ≡ replies.Attr attr
        → IsResized inode size now t (tree_after t pass (ops.Truncate inode size) now) }
{}

/// An operation that does not work on the bytes of one file leaves the bytes of every file that stays. The files that it makes are
/// empty, but for those of a copy, each of which has the bytes of a file that was there.
pub fn unwritten_files_keep_their_bytes()
    ensures each { (t : Tree) (pass now : ℕ) (op : Op) → InOrder t → class_of op ≢ Bytes → KeepsOldFiles t (tree_after t pass op now) }
    ensures empty { (t : Tree) (pass now : ℕ) (op : Op) → InOrder t → class_of op ≢ Bytes → copies_files op ≡ false → KeepsFiles t (tree_after t pass op now) }
{}

ghost use Rattle.std.specs.Prelude.{◌≡◌, ℕ, List, Some, true};
ghost use Rattle.op_frames.specs.Replay.{Request};
ghost use Rattle.op_frames.specs.declared.operation.Op.{Op};
ghost use Rattle.op_frames.specs.declared.operation.Op.TheVariants as ops;
ghost use Rattle.op_frames.specs.declared.reply.Reply.TheVariants as replies;
ghost use Rattle.s3_base.specs.declared.errors.Errno.{Errno};
ghost use Rattle.plain_tree.specs.Tree.{Node, Tree, made_tree, node_at};
ghost use Rattle.plain_tree.specs.Entries.{entry_at};
ghost use Rattle.plain_tree.specs.Operations.{reply_to, tree_after};
ghost use Rattle.plain_tree.specs.Calls.{Answered, tree_after_all, tree_at_end};
ghost use Rattle.tree_laws.specs.Locks.{WouldChange, IsKept};
ghost use Rattle.tree_laws.specs.LockedTrees.{AllSpare, AllSpareTree, IsAsBefore, RunSparesTree, StaysLocked};
ghost use Rattle.plain_tree.specs.Numbers.{InOrder};
ghost use Rattle.plain_tree.specs.WellFormed.{IsWellFormed};

/// A locked node refuses what would change it: its mode, owner, times, bytes or attributes, an entry in it, or the entry that
/// names it. The tree above it may be removed whole.
pub fn locked_nodes_refuse()
    ensures { (t : Tree) (pass now inode : ℕ) (node : Node) (op : Op) → node_at t inode ≡ Some node → node.locked ≡ true → WouldChange t pass inode op
        → (errno : Errno) × (reply_to t pass op now ≡ replies.Errno errno) }
{}

/// Whatever calls come, a locked node stays as it is, with its mode, owner, mtime, attributes, and bytes, entries or target,
/// until it is gone; only ctime may change. No other node takes its number. The order of numbers holds after all calls.
pub fn locked_nodes_stay()
    ensures { (t : Tree) (calls : List Request) (inode : ℕ) (node : Node) → InOrder t → node_at t inode ≡ Some node → node.locked ≡ true
        → IsKept (node_at (tree_after_all t calls) inode) node }
{}

/// Whatever calls come after the making, an entry that names a locked node stays and names it, and the node stays as it is but
/// for ctime, through all further calls but a RemoveTree, answered Done, of the entry, or of a directory at or above the one
/// that it is in.
pub fn locked_entries_stay()
    ensures { (block_size time : ℕ) (calls more : List Request) (parent inode : ℕ) (name : List ℕ) (node : Node) → node_at (tree_after_all (made_tree block_size time) calls) inode ≡ Some node
        → node.locked ≡ true → entry_at (tree_after_all (made_tree block_size time) calls) parent name ≡ Some inode
        → AllSpare (tree_after_all (made_tree block_size time) calls) parent name more
        → IsAsBefore parent name inode node (tree_after_all (tree_after_all (made_tree block_size time) calls) more) }
{}

/// Whatever calls come after the making, once a LockTree is answered Done, all at and below its inode stays as it is but for
/// ctime, with the same names, through all further calls but a RemoveTree, answered Done, of it or of a directory above it.
pub fn locked_trees_stay()
    ensures { (block_size time : ℕ) (calls more : List Request) (pass now inode : ℕ) → reply_to (tree_after_all (made_tree block_size time) calls) pass (ops.LockTree inode) now ≡ replies.Done
        → AllSpareTree (tree_after (tree_after_all (made_tree block_size time) calls) pass (ops.LockTree inode) now) inode more
        → StaysLocked inode (tree_after_all (made_tree block_size time) calls)
        (tree_after_all (tree_after (tree_after_all (made_tree block_size time) calls) pass (ops.LockTree inode) now) more) }
{}

/// The same in every well-formed tree, along every run of calls with what they were answered, where an error, a fault or a word of
/// lost bytes leaves the tree: once a LockTree is answered Done, all at and below its inode stays as it is but for ctime, with the
/// same names, until a RemoveTree of it or of a directory above it has an answer that does not leave the tree.
pub fn locked_trees_stay_along_runs()
    ensures { (t : Tree) (pass now inode : ℕ) (run : List Answered) → IsWellFormed t → reply_to t pass (ops.LockTree inode) now ≡ replies.Done
        → RunSparesTree (tree_after t pass (ops.LockTree inode) now) inode run → StaysLocked inode t (tree_at_end (tree_after t pass (ops.LockTree inode) now) run) }
{}

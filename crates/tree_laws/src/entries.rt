ghost use Rattle.std.specs.Prelude.{◌≡◌, ℕ, List, None, Some, IsSome};
ghost use Rattle.op_frames.specs.Replay.{Request};
ghost use Rattle.op_frames.specs.declared.operation.Op.TheVariants as ops;
ghost use Rattle.plain_tree.specs.Tree.{Tree, made_tree, node_at};
ghost use Rattle.plain_tree.specs.Calls.{tree_after_all};
ghost use Rattle.plain_tree.specs.Checks.{name_check};
ghost use Rattle.plain_tree.specs.Entries.{entry_at};
ghost use Rattle.plain_tree.specs.Operations.{tree_after};

/// Where both names name one node, a Rename changes nothing, as POSIX `rename` has it.
pub fn renamed_to_itself_is_as_before()
    ensures { (t : Tree) (pass now parent new_parent inode : ℕ) (name new_name : List ℕ) → entry_at t parent name ≡ Some inode → entry_at t new_parent new_name ≡ Some inode
        → tree_after t pass (ops.Rename parent name new_parent new_name) now ≡ t }
{}

/// Whatever calls come after the making, each entry of a directory names a node that is there.
pub fn entries_name_nodes()
    ensures { (block_size time : ℕ) (calls : List Request) (parent inode : ℕ) (name : List ℕ) → entry_at (tree_after_all (made_tree block_size time) calls) parent name ≡ Some inode
        → IsSome (node_at (tree_after_all (made_tree block_size time) calls) inode) }
{}

/// Whatever calls come after the making, each name of an entry is one that the operations take: of 1 to 255 bytes, with no
/// slash and no zero byte, and neither `.` nor `..`.
pub fn names_stay_legal()
    ensures { (block_size time : ℕ) (calls : List Request) (parent inode : ℕ) (name : List ℕ) → entry_at (tree_after_all (made_tree block_size time) calls) parent name ≡ Some inode
        → name_check name ≡ None }
{}

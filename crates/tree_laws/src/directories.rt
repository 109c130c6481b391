ghost use Rattle.std.specs.Prelude.{◌≡◌, ℕ, ◌==◌, List, false, true, Some};
ghost use Rattle.s3_base.specs.Numbers.{root};
ghost use Rattle.op_frames.specs.Replay.{Request};
ghost use Rattle.plain_tree.specs.Tree.{Tree, made_tree, node_at};
ghost use Rattle.plain_tree.specs.Below.{is_at_or_below};
ghost use Rattle.plain_tree.specs.Entries.{entry_at, is_folder};
ghost use Rattle.plain_tree.specs.Calls.{tree_after_all};
ghost use Rattle.plain_tree.specs.WellFormed.{HasOneTree, HasNoOrphans, IsWellFormed};

/// Whatever calls come after the making, the directories are one tree: the root is a directory that no entry names, it has
/// the directory lost+found, every other directory is named by exactly one entry, and its parents lead to the root.
pub fn directories_stay_one_tree()
    ensures { (block_size time : ℕ) (calls : List Request) → HasOneTree (tree_after_all (made_tree block_size time) calls) }
{}

/// Whatever calls come after the making, a node but the root that no entry names is a regular file that some handle has open,
/// and every handle is on a regular file that is there.
pub fn orphans_stay_open_files()
    ensures { (block_size time : ℕ) (calls : List Request) → HasNoOrphans (tree_after_all (made_tree block_size time) calls) }
{}

/// Whether a directory lies at or below another is told by the way up from it: the other lies at or below itself, the root lies
/// below none, and each other directory lies below what its parent lies at or below.
pub fn directories_lie_below_their_parents()
    ensures itself { (t : Tree) → IsWellFormed t → (top : ℕ) → is_at_or_below t top top ≡ true }
    ensures root { (t : Tree) → IsWellFormed t → (top : ℕ) → (root == top) ≡ false → is_at_or_below t top root ≡ false }
    ensures parent { (t : Tree) → IsWellFormed t → (top inode parent : ℕ) (name : List ℕ) → is_folder (node_at t inode) ≡ true
        → entry_at t parent name ≡ Some inode → (inode == top) ≡ false → is_at_or_below t top inode ≡ is_at_or_below t top parent }
{}

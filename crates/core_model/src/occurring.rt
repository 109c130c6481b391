//! Laws of the blocks that occur.
ghost use Rattle.std.specs.Prelude.{◌≡◌, ℕ, List, ◌++◌, Contains, Some};
ghost use Rattle.plain_tree.specs.Tree.{Tree};
ghost use Rattle.plain_tree.specs.Calls.{Answered, tree_at_end};
ghost use Rattle.tree_rows.specs.Contents.{Contents, bytes_of};
ghost use Rattle.core_model.specs.Occurring.{IsCollisionFree, Knows, KnowsAll, blocks_in, contents_of, occurring};

/// Contents that have each of some blocks under its digest know all of them, where no two of them collide. Contents that know a block
/// give its bytes for its digest and no others.
pub fn contents_of_blocks_know_them()
    ensures all { (digest_of : List ℕ → List ℕ) (blocks : List (List ℕ)) → IsCollisionFree digest_of blocks → KnowsAll digest_of (contents_of digest_of blocks) blocks }
    ensures fewer { (digest_of : List ℕ → List ℕ) (blocks others : List (List ℕ)) → ((b : List ℕ) → Contains others b → Contains blocks b)
        → IsCollisionFree digest_of blocks → IsCollisionFree digest_of others }
    ensures known { (digest_of : List ℕ → List ℕ) (m : Contents) (blocks others : List (List ℕ)) → ((b : List ℕ) → Contains others b → Contains blocks b)
        → KnowsAll digest_of m blocks → KnowsAll digest_of m others }
    ensures own { (digest_of : List ℕ → List ℕ) (m : Contents) (bytes found digest : List ℕ) → Knows digest_of m bytes → digest_of bytes ≡ digest
        → bytes_of m digest ≡ Some found → found ≡ bytes }
{}

/// What occurs in a run occurs in a longer one.
pub fn longer_runs_have_more_blocks()
    ensures { (m : Contents) (t : Tree) (run more : List Answered) (b : List ℕ) → Contains (occurring m t run) b → Contains (occurring m t (run ++ more)) b }
{}

/// The blocks of the tree before a run, and of the one at its end, occur in it.
pub fn trees_on_the_way_occur()
    ensures first { (m : Contents) (t : Tree) (run : List Answered) (b : List ℕ) → Contains (blocks_in t) b → Contains (occurring m t run) b }
    ensures last { (m : Contents) (t : Tree) (run : List Answered) (b : List ℕ) → Contains (blocks_in (tree_at_end t run)) b → Contains (occurring m t run) b }
{}

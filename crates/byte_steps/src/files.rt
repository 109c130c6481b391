//! Files that get other bytes.
ghost use Rattle.std.specs.Prelude.{◌≡◌, ◌<◌, ℕ, List, length, Some};
ghost use Rattle.plain_tree.specs.Tree.{Tree};
ghost use Rattle.plain_tree.specs.Files.{file_at};
ghost use Rattle.block_math.specs.Changes.{resized, written_at};
ghost use Rattle.s3_rows.specs.Tables.{Tables};
ghost use Rattle.tree_rows.specs.Contents.{Contents, HaveBytes};
ghost use Rattle.core_model.specs.Bytes.{HasBytes, no_overlay};
ghost use Rattle.core_model.specs.Changes.{blocks_of_resize, blocks_of_write};
ghost use Rattle.core_model.specs.Exact.{IsExact};
ghost use Rattle.byte_steps.specs.Changed.{EndsAt, IsFileChanged, KnowsChanged, stored_length};

use core_model::{other_blocks_are_left, shown_pieces_may_be_resized};

/// Where a write, or another length of a file, gives its changed blocks their forms, drops the places past its end and leaves all
/// others, tables and contents that know the changed blocks have the bytes of the tree after it, and exact places stay exact.
pub fn changed_files_have_their_bytes()
    ensures written { (digest_of : List ℕ → List ℕ) (m : Contents) (t after : Tables) (whole next : Tree) (inode off : ℕ) (text old : List ℕ)
        → file_at whole inode ≡ Some old → 0 < whole.block_size → 0 < length text → EndsAt t inode whole.block_size (length old)
        → IsFileChanged digest_of t after whole next inode (written_at off text old) (blocks_of_write whole.block_size off (length text) (length old) (stored_length t inode))
        → HaveBytes m after.blocks
        → KnowsChanged digest_of m whole.block_size (written_at off text old) (blocks_of_write whole.block_size off (length text) (length old) (stored_length t inode))
        → HasBytes m t no_overlay whole → HasBytes m after no_overlay next }
    ensures resized { (digest_of : List ℕ → List ℕ) (m : Contents) (t after : Tables) (whole next : Tree) (inode longer : ℕ) (old : List ℕ)
        → file_at whole inode ≡ Some old → 0 < whole.block_size → EndsAt t inode whole.block_size (length old)
        → IsFileChanged digest_of t after whole next inode (resized longer old) (blocks_of_resize whole.block_size longer (length old) (stored_length t inode))
        → HaveBytes m after.blocks
        → KnowsChanged digest_of m whole.block_size (resized longer old) (blocks_of_resize whole.block_size longer (length old) (stored_length t inode))
        → HasBytes m t no_overlay whole → HasBytes m after no_overlay next }
    ensures written_exact { (digest_of : List ℕ → List ℕ) (t after : Tables) (whole next : Tree) (inode off : ℕ) (text old : List ℕ)
        → file_at whole inode ≡ Some old → 0 < whole.block_size → 0 < length text → EndsAt t inode whole.block_size (length old)
        → IsFileChanged digest_of t after whole next inode (written_at off text old) (blocks_of_write whole.block_size off (length text) (length old) (stored_length t inode))
        → IsExact digest_of t no_overlay whole → IsExact digest_of after no_overlay next }
    ensures resized_exact { (digest_of : List ℕ → List ℕ) (t after : Tables) (whole next : Tree) (inode longer : ℕ) (old : List ℕ)
        → file_at whole inode ≡ Some old → 0 < whole.block_size → EndsAt t inode whole.block_size (length old)
        → IsFileChanged digest_of t after whole next inode (resized longer old) (blocks_of_resize whole.block_size longer (length old) (stored_length t inode))
        → IsExact digest_of t no_overlay whole → IsExact digest_of after no_overlay next }
{
    other_blocks_are_left();
    shown_pieces_may_be_resized();
}

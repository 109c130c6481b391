//! Objects that are drawn before they are put.
ghost use Rattle.std.specs.Prelude.{◌≡◌, ℕ, List};
ghost use Rattle.plain_tree.specs.Tree.{Tree};
ghost use Rattle.s3_rows.specs.Stores.{AreHeld};
ghost use Rattle.s3_rows.specs.Tables.{Tables};
ghost use Rattle.tree_rows.specs.Contents.{Contents};
ghost use Rattle.core_model.specs.Bytes.{HasBytes, Overlay};
ghost use Rattle.core_model.specs.Exact.{IsExact};
ghost use Rattle.core_model.specs.Safe.{HaveHeld, Held, with_new_objects};

use core_model::prepared_tables_stay_valid;

/// Objects that are drawn leave all blocks, and so the bytes of the tree, every exact place, and what is held of blocks.
pub fn prepared_tables_keep_bytes()
    ensures blocks { (t : Tables) (count : ℕ) → (with_new_objects count t).blocks ≡ t.blocks }
    ensures bytes { (m : Contents) (t : Tables) (count : ℕ) (over : Overlay) (whole : Tree) → HasBytes m t over whole → HasBytes m (with_new_objects count t) over whole }
    ensures exact { (digest_of : List ℕ → List ℕ) (t : Tables) (count : ℕ) (over : Overlay) (whole : Tree)
        → IsExact digest_of t over whole → IsExact digest_of (with_new_objects count t) over whole }
    ensures held { (m : Contents) (held : Held) (t : Tables) (count : ℕ) → HaveHeld m held t.blocks → HaveHeld m held (with_new_objects count t).blocks }
    ensures stored { (digest_of : List ℕ → List ℕ) (held : Held) (t : Tables) (count : ℕ)
        → AreHeld digest_of held t.blocks → AreHeld digest_of held (with_new_objects count t).blocks }
{
    prepared_tables_stay_valid();
}

//! Laws of objects that are drawn before they are put, and of what the store holds.
ghost use Rattle.std.specs.Prelude.{◌≡◌, ℕ, List, IsTrue, ◌==◌, Bool};
ghost use Rattle.std.specs.List.{list_any};
ghost use Rattle.plain_tree.specs.Tree.{Tree};
ghost use Rattle.s3_rows.specs.Rows.{Block};
ghost use Rattle.s3_rows.specs.Keyed.{put, without};
ghost use Rattle.s3_rows.specs.Stores.{AreHeld, IsHeld};
ghost use Rattle.s3_rows.specs.Tables.{Tables, by_block};
ghost use Rattle.s3_rows.specs.Validity.{IsValid, HasUniqueNames};
ghost use Rattle.tree_rows.specs.Contents.{Contents, bytes_of};
ghost use Rattle.tree_rows.specs.Shapes.{Represents};
ghost use Rattle.tree_rows.specs.Spots.{form_at};
ghost use Rattle.core_model.specs.Safe.{HaveHeld, Held, with_new_objects};

/// Objects that are drawn leave valid tables, their tree and every form.
pub fn prepared_tables_stay_valid()
    ensures valid { (t : Tables) (count : ℕ) → IsValid t → IsValid (with_new_objects count t) }
    ensures unique { (t : Tables) (count : ℕ) → HasUniqueNames t → HasUniqueNames (with_new_objects count t) }
    ensures tree { (t : Tables) (count : ℕ) (whole : Tree) → Represents t whole → Represents (with_new_objects count t) whole }
    ensures forms { (t : Tables) (count inode blockno : ℕ) → form_at (with_new_objects count t) inode blockno ≡ form_at t inode blockno }
{}

/// What is held of blocks rests on their own objects alone, and holds of one block more whose object is held, and of one less.
pub fn held_blocks_rest_on_their_objects()
    ensures others { (m : Contents) (held after : Held) (rows : List Block) → ((object : ℕ) → IsTrue (list_any (λ r. r.object == object) rows) → after object ≡ held object)
        → HaveHeld m held rows → HaveHeld m after rows }
    ensures put { (m : Contents) (held : Held) (r : Block) (rows : List Block) → held r.object ≡ bytes_of m r.digest.0 → HaveHeld m held rows → HaveHeld m held (put by_block r rows) }
    ensures without { (m : Contents) (held : Held) (id : ℕ) (rows : List Block) → HaveHeld m held rows → HaveHeld m held (without by_block id rows) }
    ensures stored_others { (digest_of : List ℕ → List ℕ) (held after : Held) (rows : List Block) → ((object : ℕ) → IsTrue (list_any (λ r. r.object == object) rows) → after object ≡ held object)
        → AreHeld digest_of held rows → AreHeld digest_of after rows }
    ensures stored_put { (digest_of : List ℕ → List ℕ) (held : Held) (r : Block) (rows : List Block) → IsHeld digest_of held r → AreHeld digest_of held rows → AreHeld digest_of held (put by_block r rows) }
    ensures stored_without { (digest_of : List ℕ → List ℕ) (held : Held) (id : ℕ) (rows : List Block) → AreHeld digest_of held rows → AreHeld digest_of held (without by_block id rows) }
{}

//! The places of a file that go.
ghost use Rattle.std.specs.Prelude.{◌≡◌, ℕ, ◌==◌, ◌&&◌, List, false, not, nat_le, IsTrue};
ghost use Rattle.std.specs.List.{list_all};
ghost use Rattle.s3_rows.specs.Rows.{InodeBlock};
ghost use Rattle.s3_rows.specs.Tables.{Tables};
ghost use Rattle.s3_rows.specs.Batches.{tables_after};
ghost use Rattle.s3_rows.specs.Validity.{IsValid};
ghost use Rattle.tree_rows.specs.Spots.{form_at};
ghost use Rattle.ref_counts.specs.Links.{AreRowsOf, places_dropped, places_from};
ghost use Rattle.block_steps.specs.Owed.{KeepsNames};

/// Where places name no block any more, valid tables stay valid, with the same names and parameters. Where these are the places of a
/// file from one on, none of them has a row then, and all other places keep their forms.
pub fn dropped_places_leave_valid_tables()
    ensures valid { (t : Tables) (rows : List InodeBlock) → IsValid t → IsValid (tables_after (places_dropped rows t) t) }
    ensures names { (t : Tables) (rows : List InodeBlock) → KeepsNames t (tables_after (places_dropped rows t) t) }
    ensures params { (t : Tables) (rows : List InodeBlock) → (tables_after (places_dropped rows t) t).params ≡ t.params }
    ensures rows { (t : Tables) (rows : List InodeBlock) → AreRowsOf t (tables_after (places_dropped rows t) t) }
    ensures gone { (t : Tables) (inode from : ℕ) → IsTrue (list_all (λ r. not (r.inode == inode && nat_le from r.blockno)) (tables_after (places_dropped (places_from t inode from) t) t).inode_blocks) }
    ensures elsewhere { (t : Tables) (inode from other number : ℕ) → IsValid t → (other == inode && nat_le from number) ≡ false
        → form_at (tables_after (places_dropped (places_from t inode from) t) t) other number ≡ form_at t other number }
{}

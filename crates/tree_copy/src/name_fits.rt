//! When the names of a copy fit.
ghost use Rattle.std.specs.Prelude.{◌≡◌, ◌∷◌, ℕ, List, [], false, IsTrue};
ghost use Rattle.s3_rows.specs.Rows.{Inode};
ghost use Rattle.s3_rows.specs.Tables.{Tables};
ghost use Rattle.s3_rows.specs.Validity.{HasUniqueNames, IsValid};
ghost use Rattle.tree_copy.specs.CopiedRows.{AreVisits, names_fit, Visit};
ghost use Rattle.tree_copy.specs.NameCounts.{IsNameSpent};

/// The names of a copy may be used where each of them counts fewer than 2^62 uses with all that the copy makes of it, and a number is
/// left for its own name where that is new; and only there.
pub fn names_fit_by_their_counts()
    ensures fit { (t : Tables) (next now : ℕ) (source directory : Inode) (name : List ℕ) (visits : List Visit) → IsValid t → HasUniqueNames t
        → AreVisits t (source.id ∷ []) [] visits → IsTrue (names_fit t next now source directory name visits)
        → IsNameSpent t source.id name visits → ⊥ }
    ensures over { (t : Tables) (next now : ℕ) (source directory : Inode) (name : List ℕ) (visits : List Visit) → IsValid t → HasUniqueNames t
        → AreVisits t (source.id ∷ []) [] visits → names_fit t next now source directory name visits ≡ false
        → IsNameSpent t source.id name visits }
{}

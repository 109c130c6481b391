//! What the definitions make of tables that are worked by hand. Each is the contract of a function without a body.
ghost use Rattle.std.specs.Prelude.{◌≡◌, ℕ, [], ◌∷◌, false};
ghost use Rattle.std.specs.List.{list_all};
ghost use Rattle.s3_rows.specs.Validity.{IsValid, HasUniqueNames, counts_inode, is_below_root};
ghost use Rattle.s3_rows.specs.Stores.{IsClean, is_settled};
ghost use Rattle.s3_rows.specs.Made.{made_tables, made_keys};
ghost use Rattle.s3_rows.specs.Worked.{forsaken_object, directories_in_a_ring, inodes_that_fail, IsValidElsewhere};

/// The tables of a file system that was just made are valid, no two names have the same bytes, and nothing is unfinished.
pub fn made_tables_are_clean()
    ensures clean { (block_size slots now : ℕ) → IsClean (made_tables block_size slots now) made_keys }
    ensures unique { (block_size slots now : ℕ) → HasUniqueNames (made_tables block_size slots now) }
{}

/// Tables with an object that no block has are valid and not clean, and the object is why.
pub fn forsaken_objects_are_not_clean()
    ensures valid { IsValid forsaken_object }
    ensures unclean { list_all is_settled forsaken_object.objects ≡ false }
{}

/// Of tables with two directories that name each other, a file without entry and a wrong count, exactly these fail: the counts
/// of inodes 2 and 5, and the chains of parents of directories 3 and 4.
pub fn rings_are_not_valid()
    ensures counts { inodes_that_fail (counts_inode directories_in_a_ring) directories_in_a_ring ≡ 2 ∷ 5 ∷ [] }
    ensures chains { inodes_that_fail (is_below_root directories_in_a_ring) directories_in_a_ring ≡ 3 ∷ 4 ∷ [] }
    ensures elsewhere { IsValidElsewhere directories_in_a_ring }
{}

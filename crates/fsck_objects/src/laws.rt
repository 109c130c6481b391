//! The passes over stores and tables that are worked by hand. Each law is the contract of a function without a body.
ghost use Rattle.std.specs.Prelude.{◌≡◌, [], ◌∷◌, codes};
ghost use Rattle.s3_rows.specs.declared.change.Change.TheVariants as changes;
ghost use Rattle.fsck_objects.specs.Store.{unused_keys};
ghost use Rattle.fsck_objects.specs.Worked as worked;
ghost use Rattle.fsck_objects.specs.Worked.{missing_lines, missing_changes, next_lines, store_lines, store_changes};

/// Where nothing is wrong there is nothing to say.
pub fn whole_stores_stay()
    ensures objects { missing_lines worked.whole_keys worked.whole_tables ≡ [] }
    ensures numbers { next_lines worked.whole_keys worked.whole_tables ≡ [] }
    ensures store { store_lines worked.whole_keys worked.whole_tables ≡ [] }
{}

/// Objects whose keys are not listed with their sizes go, with the blocks that have them. A block whose object has no row stays here.
pub fn missing_objects_go()
    ensures lines { missing_lines worked.damaged_keys worked.damaged_tables ≡ codes "object 2 missing" ∷ codes "object 3 missing" ∷ codes "object 5 missing" ∷ [] }
    ensures batch { missing_changes worked.damaged_keys worked.damaged_tables ≡ changes.DeleteBlock 2 ∷ changes.DeleteBlock 3 ∷ changes.DeleteBlock 4
        ∷ changes.DeleteBlock 5 ∷ changes.DeleteObject 2 ∷ changes.DeleteObject 3 ∷ changes.DeleteObject 5 ∷ [] }
{}

/// The number that the next object gets is above those of all keys.
pub fn next_object_is_raised()
    ensures late { next_lines worked.late_keys worked.whole_tables ≡ codes "next object 9 is 13" ∷ [] }
    ensures last { next_lines worked.last_keys worked.whole_tables ≡ codes "next object 9 is 4611686018427387904" ∷ [] }
{}

/// What no row has and no block has goes, and keys of other forms stay.
pub fn worked_stores_are_cleared()
    ensures lines { store_lines worked.stray_store worked.unused_objects ≡ codes "object 1 removed" ∷ codes "object 2 removed" ∷ codes "key s3ql_data_12 removed"
        ∷ codes "key s3ql_data_7 removed" ∷ codes "key s3ql_metadata_00000000000000000002 removed" ∷ [] }
    ensures batch { store_changes worked.stray_store worked.unused_objects ≡ changes.DeleteObject 1 ∷ changes.DeleteObject 2 ∷ [] }
    ensures unused { unused_keys worked.unused_objects ≡ codes "s3ql_data_1" ∷ codes "s3ql_data_2" ∷ [] }
    ensures strays { worked.strays worked.stray_store worked.unused_objects ≡ codes "s3ql_data_12" ∷ codes "s3ql_data_7" ∷ codes "s3ql_metadata_00000000000000000002" ∷ [] }
{}

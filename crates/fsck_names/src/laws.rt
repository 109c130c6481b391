//! Passes that are worked by hand. Each law is the contract of a function without a body.
ghost use Rattle.std.specs.Prelude.{◌≡◌, ℕ, ◌-◌, ◌^◌, [], ◌∷◌, None, Some, codes};
ghost use Rattle.std.specs.Option.{option_and_then};
ghost use Rattle.s3_rows.specs.declared.change.Change.TheVariants as changes;
ghost use Rattle.s3_rows.specs.Made.{made_tables, made_parameters};
ghost use Rattle.s3_rows.specs.Worked.{directories_in_a_ring};
ghost use Rattle.fsck_names.specs.Worked as worked;

/// Entries that go, and what they named.
pub fn drops_worked_by_hand()
    ensures made { worked.lines_of (made_tables 4096 8 0) ≡ Some [] }
    ensures out_of_place { worked.lines_of worked.entries_out_of_place ≡ Some (codes "entry 1 2e dropped" ∷ codes "entry 1 612f62 dropped" ∷ codes "entry 1 - dropped" ∷ codes "entry 2 63 dropped" ∷ codes "entry 2 - dropped" ∷ codes "entry 2 - dropped" ∷ codes "entry 3 63 dropped" ∷ codes "entry 8 63 dropped" ∷ []) }
    ensures one_name_twice { worked.lines_of worked.one_name_twice ≡ Some (codes "entry 1 61 dropped" ∷ codes "inode 4 moved" ∷ []) }
    ensures named_again { worked.lines_of worked.directory_named_again ≡ Some (codes "entry 1 62 dropped" ∷ codes "entry 2 62 dropped" ∷ []) }
    ensures ring_of_three { worked.lines_of worked.ring_of_three ≡ Some (codes "entry 4 64 dropped" ∷ codes "inode 3 moved" ∷ []) }
    ensures loop_below_lost_and_found { worked.lines_of worked.lost_and_found_in_loop ≡ Some (codes "lost+found made" ∷ codes "entry 3 64 dropped" ∷ codes "inode 2 moved" ∷ []) }
    ensures links { worked.lines_of worked.links ≡ Some (codes "inode 4 moved" ∷ codes "inode 3 removed" ∷ []) }
    ensures without_count { worked.lines_of worked.without_count ≡ Some (codes "inode 3 moved" ∷ codes "inode 4 removed" ∷ []) }
{}

/// A root and a `lost+found` that are made.
pub fn roots_worked_by_hand()
    ensures file { worked.lines_of worked.root_is_file ≡ Some (codes "entry 1 6c6f73742b666f756e64 dropped" ∷ codes "root made" ∷ codes "lost+found made" ∷ codes "inode 2 moved" ∷ []) }
    ensures no_rows { worked.lines_of worked.no_rows ≡ Some (codes "root made" ∷ codes "lost+found made" ∷ []) }
    ensures lost_and_found { worked.lines_of worked.file_for_lost_and_found ≡ Some (codes "entry 1 6c6f73742b666f756e64 dropped" ∷ codes "lost+found made" ∷ codes "inode 2 moved" ∷ []) }
{}

/// The batch of a pass, whose tables a second pass leaves as they are.
pub fn batches_worked_by_hand()
    ensures lines { worked.lines_of directories_in_a_ring ≡ Some (codes "entry 4 62 dropped" ∷ codes "inode 3 moved" ∷ codes "inode 5 moved" ∷ []) }
    ensures batch { worked.batch_of directories_in_a_ring ≡ Some (changes.DeleteContent 4 3 ∷ changes.PutName (worked.name 4 (codes "inode-3")) ∷ changes.SetParams (record (made_parameters 4096 8) { next_inode = 6; next_name = 5 }) ∷ changes.PutContent (worked.entry 2 4 3) ∷ changes.PutName (worked.name 5 (codes "inode-5")) ∷ changes.SetParams (record (made_parameters 4096 8) { next_inode = 6; next_name = 6 }) ∷ changes.PutContent (worked.entry 2 5 5) ∷ []) }
    ensures again { option_and_then worked.lines_of (worked.after_pass directories_in_a_ring) ≡ Some [] }
    ensures taken { worked.batch_of worked.names_taken ≡ Some (changes.PutName (worked.name 4 (codes "inode-3-2")) ∷ changes.SetParams (record (made_parameters 4096 8) { next_inode = 5; next_name = 5 }) ∷ changes.PutContent (worked.entry 2 4 3) ∷ []) }
    ensures count { worked.batch_of worked.without_count ≡ Some (changes.PutInode (worked.directory 3 1) ∷ changes.PutContent (worked.entry 2 2 3) ∷ changes.DeleteInode 4 ∷ []) }
    ensures named_only { option_and_then worked.batch_of (worked.after_pass worked.entries_out_of_place) ≡ Some [] }
{}

/// A number that is needed and is not left.
pub fn worn_passes()
    ensures last { worked.lines_of (worked.lost_file 4 (2 ^ 62 - 1)) ≡ Some (codes "inode 3 moved" ∷ []) }
    ensures name { worked.lines_of (worked.lost_file 4 (2 ^ 62)) ≡ None }
    ensures greatest { worked.lines_of worked.greatest_name ≡ None }
    ensures not_needed { worked.lines_of (worked.tables_of (worked.directory 1 1 ∷ worked.directory 2 1 ∷ []) (worked.name 1 (codes "lost+found") ∷ []) (worked.entry 1 1 2 ∷ []) (2 ^ 62) (2 ^ 62)) ≡ Some [] }
{}

/// Places that are lost, and the files that they are of. The name that the first file would get is taken.
pub fn losses_worked_by_hand()
    ensures lines { worked.loss_lines (worked.lost_blocks 5) ≡ Some (codes "inode 3 block 0 lost" ∷ codes "inode 4 block 0 lost" ∷ codes "inode 3 moved" ∷ codes "inode 4 moved" ∷ []) }
    ensures entries { worked.entries_after_losses (worked.lost_blocks 5) ≡ Some (worked.entry 1 1 2 ∷ worked.entry 2 5 3 ∷ worked.entry 2 6 4 ∷ []) }
    ensures places { worked.places_after_losses (worked.lost_blocks 5) ≡ Some (worked.place 3 1 2 ∷ []) }
    ensures counts { worked.counts_after_losses (worked.lost_blocks 5) ≡ Some (1 ∷ 1 ∷ 1 ∷ 5 ∷ []) }
    ensures whole { worked.loss_lines (made_tables 4096 8 0) ≡ Some [] }
    ensures worn { worked.loss_lines (worked.lost_blocks (2 ^ 62 - 1)) ≡ None }
{}

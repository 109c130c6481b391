//! The passes over tables that are worked by hand. Each law is the contract of a function without a body.
ghost use Rattle.std.specs.Prelude.{◌≡◌, [], ◌∷◌, codes};
ghost use Rattle.fsck_tables.specs.Worked as worked;
ghost use Rattle.fsck_tables.specs.Worked.{row_lines, count_lines, with_inodes};

/// Where nothing is wrong there is nothing to say.
pub fn whole_rows_stay()
    ensures rows { row_lines (with_inodes []) ≡ [] }
    ensures counts { count_lines (with_inodes []) ≡ [] }
{}

/// Targets, attributes and places that belong to nothing go.
pub fn strays_go()
    ensures rows { row_lines worked.strays ≡ codes "target 3 dropped" ∷ codes "target 7 dropped" ∷ codes "attribute 2 5 dropped" ∷ codes "attribute 7 1 dropped" ∷ [] }
    ensures places { row_lines worked.stray_places ≡ codes "link 2 0 dropped" ∷ codes "link 3 2 dropped" ∷ codes "link 4 1 dropped" ∷ codes "link 7 0 dropped" ∷ [] }
{}

/// A directory has size 0, and a link its target's length.
pub fn sizes_are_right()
    ensures { row_lines worked.wrong_sizes ≡ codes "inode 2 size 7 is 0" ∷ codes "inode 3 size 9 is 3" ∷ [] }
{}

/// A block stays where its object has its size, and no block before it that stays has its digest or its object.
pub fn blocks_are_sound()
    ensures { row_lines worked.damaged_blocks ≡ codes "block 2 removed" ∷ codes "block 3 removed" ∷ codes "block 4 removed"
        ∷ codes "block 5 removed" ∷ codes "block 6 removed" ∷ codes "block 7 removed" ∷ [] }
{}

/// The numbers that come next are above all that are in use.
pub fn numbers_are_raised()
    ensures low { row_lines worked.low_numbers ≡ codes "next inode 9 is 10" ∷ codes "next name 9 is 11" ∷ codes "next block 9 is 13" ∷ [] }
    ensures last { row_lines worked.last_number ≡ codes "next inode 9 is 4611686018427387904" ∷ [] }
{}

/// Counts become the listed ones, and names and blocks that nothing has go.
pub fn counts_are_listed()
    ensures names { count_lines worked.wrong_counts ≡ codes "inode 1 count 3 is 1" ∷ codes "inode 2 count 7 is 1" ∷ codes "inode 3 count 1 is 2"
        ∷ codes "inode 4 count 1 is 0" ∷ codes "name 2 count 1 is 3" ∷ codes "name 3 removed" ∷ [] }
    ensures blocks { count_lines worked.block_counts ≡ codes "block 1 removed" ∷ codes "block 2 count 1 is 2" ∷ codes "object 1 count 1 is 0" ∷ [] }
{}

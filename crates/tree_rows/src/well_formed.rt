ghost use Rattle.std.specs.Prelude.{◌≡◌, ◌==◌, [], not, IsTrue};
ghost use Rattle.std.specs.List.{list_all};
ghost use Rattle.plain_tree.specs.Tree.{Tree};
ghost use Rattle.plain_tree.specs.WellFormed.{IsWellFormed, HasTimes};
ghost use Rattle.s3_rows.specs.Ranges.{HasRanges};
ghost use Rattle.s3_rows.specs.Keyed.{rises};
ghost use Rattle.s3_rows.specs.Tables.{Tables, by_entry};
ghost use Rattle.s3_rows.specs.Validity.{IsValid, HasUniqueNames, differ, have_one_name};
ghost use Rattle.tree_rows.specs.Premises.{HasPremises, HasItsHandles, finds_directory_and_name, is_named_or_regular};
ghost use Rattle.tree_rows.specs.Shapes.{Represents};

/// Tables that represent a well-formed tree are valid where they are in order, no directory has two entries of one name, the
/// counts are exact, rows find what they name, blocks differ, sizes fit and the next numbers are free. The tree says the rest:
/// that there are parameters, whose next inode number is free, that inodes are there, and that names are one tree.
pub fn valid_from_a_well_formed_tree()
    ensures { (t : Tables) (whole : Tree) → HasPremises t → Represents t whole → IsWellFormed whole → IsValid t }
{}

/// And valid tables have all of this, so that the tables of a well-formed tree are valid exactly where they have it.
pub fn valid_tables_have_the_premises()
    ensures { (t : Tables) → IsValid t → HasPremises t }
{}

/// Where no two name rows have the same bytes, no directory has two entries of one name.
pub fn unique_names_are_apart_in_directories()
    ensures { (t : Tables) → HasUniqueNames t → IsTrue (rises by_entry t.contents) → IsTrue (list_all (finds_directory_and_name t) t.contents)
        → IsTrue (differ (have_one_name t) t.contents) }
{}

/// A tree that valid tables represent is well formed where the rows keep their ranges, inodes that no entry names
/// are regular files, and the tree's handles are in order, on regular files, and on each file that no entry names.
pub fn valid_tables_have_a_well_formed_tree()
    ensures well_formed { (t : Tables) (whole : Tree) → IsValid t → HasRanges t → IsTrue (list_all is_named_or_regular t.inodes) → Represents t whole
        → HasItsHandles t whole → IsWellFormed whole }
    ensures times { (t : Tables) (whole : Tree) → HasRanges t → Represents t whole → HasTimes whole }
{}

/// So a tree without handles is well formed where each inode of such tables is named: what opening finds.
pub fn named_tables_open_as_a_well_formed_tree()
    ensures { (t : Tables) (whole : Tree) → IsValid t → HasRanges t → IsTrue (list_all (λ r. not (r.refcount == 0)) t.inodes) → Represents t whole
        → whole.handles ≡ [] → whole.next_handle ≡ 1 → IsWellFormed whole }
{}

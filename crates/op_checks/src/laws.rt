ghost use Rattle.std.specs.Prelude.{◌≡◌, ℕ, List, Some, option_map, ◌==◌, ◌&&◌, not};
ghost use Rattle.std.specs.List.{list_any};
ghost use Rattle.std.specs.Ordering.{is_eq};
ghost use Rattle.s3_base.specs.Errors.{eexist, enoent};
ghost use Rattle.plain_tree.specs.Tree.{Tree, node_at};
ghost use Rattle.plain_tree.specs.Entries.{is_named};
ghost use Rattle.plain_tree.specs.Files.{file_at};
ghost use Rattle.plain_tree.specs.Pages.{attribute_at};
ghost use Rattle.plain_tree.specs.Checks.{node_check, directory_check, file_check, link_check, no_directory_check, lock_check, open_check, ids_check, fails_with, free_check};
ghost use Rattle.s3_rows.specs.Rows.{Parameters};
ghost use Rattle.s3_rows.specs.Tables.{Tables};
ghost use Rattle.s3_rows.specs.Selections.{inode_at, bytes_cmp, bytes_of_name};
ghost use Rattle.s3_rows.specs.Validity.{IsValid, HasUniqueNames};
ghost use Rattle.tree_rows.specs.NamedAttrs.{attr_of_name};
ghost use Rattle.tree_rows.specs.Shapes.{Represents};
ghost use Rattle.op_checks.specs.Rows.{row_check, directory_row_check, file_row_check, link_row_check, no_directory_row_check, lock_row_check, named_row_check, open_row_check, ids_row_check};

/// The checks on rows are the tree's on the nodes that the rows stand for. Where the tables are valid, a name is free in a
/// directory where no entry of it has the bytes, and an inode is named where its row says so.
pub fn row_checks_are_checks()
    ensures node { (t : Tables) (whole : Tree) (x : ℕ) → Represents t whole → node_check (node_at whole x) ≡ row_check (inode_at t x) }
    ensures directory { (t : Tables) (whole : Tree) (x : ℕ) → Represents t whole → directory_check (node_at whole x) ≡ directory_row_check (inode_at t x) }
    ensures file { (t : Tables) (whole : Tree) (x : ℕ) → Represents t whole → file_check (node_at whole x) ≡ file_row_check (inode_at t x) }
    ensures link { (t : Tables) (whole : Tree) (x : ℕ) → Represents t whole → link_check (node_at whole x) ≡ link_row_check (inode_at t x) }
    ensures no_directory { (t : Tables) (whole : Tree) (x errno : ℕ) → Represents t whole → no_directory_check errno (node_at whole x) ≡ no_directory_row_check errno (inode_at t x) }
    ensures lock { (t : Tables) (whole : Tree) (x : ℕ) → Represents t whole → lock_check (node_at whole x) ≡ lock_row_check (inode_at t x) }
    ensures open { (t : Tables) (whole : Tree) (x : ℕ) → Represents t whole → open_check (file_at whole x) ≡ open_row_check (inode_at t x) }
    ensures attribute { (t : Tables) (whole : Tree) (x : ℕ) (name : List ℕ) → IsValid t → HasUniqueNames t → Represents t whole
        → attribute_at whole x name ≡ option_map (λ a. a.value) (attr_of_name t x name) }
    ensures named { (t : Tables) (whole : Tree) (x : ℕ) → IsValid t → Represents t whole → fails_with enoent (not (is_named whole x)) ≡ named_row_check (inode_at t x) }
    ensures free { (t : Tables) (whole : Tree) (x : ℕ) (name : List ℕ) → IsValid t → Represents t whole
        → free_check (node_at whole x) name ≡ fails_with eexist (list_any (λ c. c.parent == x && is_eq (bytes_cmp name (bytes_of_name t c.name_id))) t.contents) }
    ensures ids { (t : Tables) (whole : Tree) (p : Parameters) (count : ℕ) → Represents t whole → t.params ≡ Some p → ids_check whole count ≡ ids_row_check p count }
{}

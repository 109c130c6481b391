ghost use Rattle.std.specs.Prelude.{◌≡◌, ◌<◌, ◌∷◌, ◌++◌, ◌&&◌, ℕ, List, [], Bool, true, false, find, IsTrue, None, Some};
ghost use Rattle.op_frames.specs.declared.operation.Op.TheVariants as ops;
ghost use Rattle.plain_tree.specs.Below.{at_and_below, children, is_among};
ghost use Rattle.plain_tree.specs.Checks.{attribute_name_check, first_failure, name_check};
ghost use Rattle.plain_tree.specs.Entries.{add_entry, entry_at};
ghost use Rattle.plain_tree.specs.Names.{NamesInOrder};
ghost use Rattle.plain_tree.specs.Numbers.{InOrder};
ghost use Rattle.plain_tree.specs.Operations.{checks, effect};
ghost use Rattle.plain_tree.specs.Subtrees.{copy_number, with_copy};
ghost use Rattle.plain_tree.specs.Tree.{Node, Tree, change_node, node_at};
ghost use Rattle.plain_tree.specs.WellFormed.{IsWellFormed};
ghost use Rattle.s3_rows.specs.declared.lists.NamedEntry.{NamedEntry};
ghost use Rattle.s3_rows.specs.Batches.{tables_after};
ghost use Rattle.s3_rows.specs.Keyed.{is_past};
ghost use Rattle.s3_rows.specs.Rows.{Inode};
ghost use Rattle.s3_rows.specs.Selections.{by_entry_name, inode_at, named_entries};
ghost use Rattle.s3_rows.specs.Tables.{Tables};
ghost use Rattle.s3_rows.specs.Validity.{has_inode, is_directory, HasUniqueNames, IsValid};
ghost use Rattle.tree_rows.specs.Shapes.{Represents};
ghost use Rattle.ref_counts.specs.Links.{places_from};
ghost use Rattle.tree_copy.specs.CopiedNames.{AreAttrNames};
ghost use Rattle.tree_copy.specs.CopiedPlaces.{file_copied, file_fits, files_copied, files_fit};
ghost use Rattle.tree_copy.specs.CopiedRows.{all_seen, AreVisitsOf, Visit, names_copied, names_fit, visit_copied, visit_fits};
ghost use Rattle.tree_copy.specs.declared.walk.Level.{Level};
ghost use Rattle.tree_copy.specs.CopyLevels.{first_level, HasCome, levels_after, visit_of};
ghost use Rattle.tree_copy.specs.CopySteps.{AreNamesOf, inodes_seen, IsCopyStep, tree_copied, tree_fits};
ghost use Rattle.tree_copy.specs.WalkOrder.{walked};
ghost use Rattle.tree_copy.specs.PartialCopies.{HasMore, IsPartial, also_entry, begun, entered, without_entries};

/// The plain tree's walk may be made one node at a time: what was seen is passed, and what was not is seen, with all below it before
/// the next.
pub fn walks_go_on_node_by_node()
    ensures first { (t : Tree) (x : ℕ) → at_and_below t x ≡ walked t (children t x) (x ∷ []) }
    ensures seen { (t : Tree) (x : ℕ) (xs seen : List ℕ) → is_among seen x ≡ true → walked t (x ∷ xs) seen ≡ walked t xs seen }
    ensures new { (t : Tree) (x : ℕ) (xs seen : List ℕ) → is_among seen x ≡ false
        → walked t (x ∷ xs) seen ≡ walked t xs (walked t (children t x) (seen ++ x ∷ [])) }
{}

/// A partial copy begins with a node and its entry, gains nodes that were not seen and entries of what was seen, and is the plain
/// tree's own copy once it has seen all at and below the source in the order of the walk, and has all their entries.
pub fn partial_copies_come_to_be_whole()
    ensures first { (whole after : Tree) (source parent now : ℕ) (name : List ℕ) (node : Node) → parent < whole.next_inode
        → HasMore whole after (begun now (without_entries node.content) node) → node_at whole source ≡ Some node
        → IsPartial whole (add_entry parent name whole.next_inode now after) parent now name (source ∷ []) (λ x other. false) }
    ensures node { (whole t after : Tree) (parent now y : ℕ) (name : List ℕ) (seen : List ℕ) (done : ℕ → List ℕ → Bool) (node : Node) → parent < whole.next_inode
        → IsPartial whole t parent now name seen done → HasMore t after (begun now (without_entries node.content) node) → node_at whole y ≡ Some node
        → is_among seen y ≡ false → IsPartial whole after parent now name (seen ++ y ∷ []) done }
    ensures entry { (whole t : Tree) (parent now q y : ℕ) (name other : List ℕ) (seen : List ℕ) (done : ℕ → List ℕ → Bool) → parent < whole.next_inode
        → IsPartial whole t parent now name seen done → is_among seen q ≡ true → entry_at whole q other ≡ Some y → is_among seen y ≡ true
        → IsPartial whole (change_node (copy_number whole.next_inode seen q) (entered other (copy_number whole.next_inode seen y)) t) parent now name seen (also_entry done q other) }
    ensures whole { (whole t : Tree) (source parent now : ℕ) (name : List ℕ) (done : ℕ → List ℕ → Bool) → parent < whole.next_inode
        → IsPartial whole t parent now name (at_and_below whole source) done → InOrder whole → NamesInOrder whole → InOrder (with_copy source parent name now whole)
        → ((x y : ℕ) (other : List ℕ) → is_among (at_and_below whole source) x ≡ true → entry_at whole x other ≡ Some y → done x other ≡ true)
        → t ≡ with_copy source parent name now whole }
{}

/// Where the checks of a CopyTree pass, and all names may be used once more, the rows of the source's own node and entry, and then
/// those of each entry that the walk meets, with those of its node at the first visit, make of valid tables those of the tree with
/// the copy. Its files have no places yet.
pub fn copied_names_leave_valid_tables()
    ensures { (t : Tables) (whole : Tree) (directory top : Inode) (visits : List Visit) (pass source parent now : ℕ) (name : List ℕ)
        → IsValid t → HasUniqueNames t → IsWellFormed whole → Represents t whole → first_failure (checks whole pass (ops.CopyTree source parent name)) ≡ None
        → inode_at t parent ≡ Some directory → inode_at t source ≡ Some top → AreVisitsOf t (at_and_below whole source) top.id visits
        → IsTrue (names_fit t whole.next_inode now top directory name visits)
        → AreNamesOf t (tables_after (names_copied t whole.next_inode now top directory name visits) t) (effect whole pass (ops.CopyTree source parent name) now) }
{}

/// And where all blocks of its files may count one place more, the places of the files, which come behind the names, leave valid
/// tables of the tree with the copy. No block and no object comes or goes; each place of the copy of a file has the form of the
/// place of the file, and all other places keep theirs.
pub fn copied_trees_are_steps()
    ensures { (t : Tables) (whole : Tree) (directory top : Inode) (visits : List Visit) (pass source parent now : ℕ) (name : List ℕ)
        → IsValid t → HasUniqueNames t → IsWellFormed whole → Represents t whole → first_failure (checks whole pass (ops.CopyTree source parent name)) ≡ None
        → inode_at t parent ≡ Some directory → inode_at t source ≡ Some top → AreVisitsOf t (at_and_below whole source) top.id visits
        → IsTrue (tree_fits t whole.next_inode now top directory name visits)
        → IsCopyStep t (tables_after (tree_copied t whole.next_inode now top directory name visits) t) whole source (effect whole pass (ops.CopyTree source parent name) now) }
{}

/// The walk of a copy begins before all entries of the source. A level that has no further entry is done; the entry behind a
/// level's last one is visited, and what it names is seen, where it was not, and a directory is gone through before the level goes
/// on. Where no level is left, the visits are those of the copy.
pub fn copy_walks_come_to_all()
    ensures first { (t : Tables) (whole : Tree) (top : ℕ) → IsValid t → Represents t whole → IsWellFormed whole → IsTrue (has_inode is_directory t top)
        → HasCome t whole top [] (first_level top whole.next_inode ∷ []) }
    ensures done { (t : Tables) (whole : Tree) (top : ℕ) (visits : List Visit) (l : Level) (levels : List Level) → IsValid t → Represents t whole → IsWellFormed whole
        → IsTrue (has_inode is_directory t top) → HasCome t whole top visits (l ∷ levels)
        → find (is_past by_entry_name l.last) (named_entries t l.directory) ≡ None → HasCome t whole top visits levels }
    ensures again { (t : Tables) (whole : Tree) (top : ℕ) (visits : List Visit) (l : Level) (levels : List Level) (e : NamedEntry) (r : Inode) → IsValid t → Represents t whole
        → IsWellFormed whole → IsTrue (has_inode is_directory t top) → HasCome t whole top visits (l ∷ levels)
        → find (is_past by_entry_name l.last) (named_entries t l.directory) ≡ Some e → inode_at t e.row.inode ≡ Some r → is_among (all_seen (top ∷ []) visits) r.id ≡ true
        → HasCome t whole top (visits ++ visit_of l e r ∷ []) (levels_after l e r true 0 levels) }
    ensures new { (t : Tables) (whole : Tree) (top copy : ℕ) (visits : List Visit) (l : Level) (levels : List Level) (e : NamedEntry) (r : Inode) → IsValid t → Represents t whole
        → IsWellFormed whole → IsTrue (has_inode is_directory t top) → HasCome t whole top visits (l ∷ levels)
        → find (is_past by_entry_name l.last) (named_entries t l.directory) ≡ Some e → inode_at t e.row.inode ≡ Some r → is_among (all_seen (top ∷ []) visits) r.id ≡ false
        → copy ≡ copy_number whole.next_inode (all_seen (top ∷ []) visits) r.id
        → HasCome t whole top (visits ++ visit_of l e r ∷ []) (levels_after l e r false copy levels) }
    ensures all { (t : Tables) (whole : Tree) (top : ℕ) (visits : List Visit) → IsValid t → Represents t whole → IsWellFormed whole → IsTrue (has_inode is_directory t top)
        → HasCome t whole top visits [] → AreVisitsOf t (at_and_below whole top) top visits }
{}

/// What the next entry of a level names is seen first, where it is a directory, or counts one link.
pub fn directories_and_single_links_are_seen_first()
    ensures directory { (t : Tables) (whole : Tree) (top : ℕ) (visits : List Visit) (l : Level) (levels : List Level) (e : NamedEntry) (r : Inode) → IsValid t → Represents t whole
        → IsWellFormed whole → IsTrue (has_inode is_directory t top) → HasCome t whole top visits (l ∷ levels)
        → find (is_past by_entry_name l.last) (named_entries t l.directory) ≡ Some e → inode_at t e.row.inode ≡ Some r → IsTrue (is_directory r.kind)
        → is_among (all_seen (top ∷ []) visits) r.id ≡ false }
    ensures single { (t : Tables) (whole : Tree) (top : ℕ) (visits : List Visit) (l : Level) (levels : List Level) (e : NamedEntry) (r : Inode) → IsValid t → Represents t whole
        → IsWellFormed whole → IsTrue (has_inode is_directory t top) → HasCome t whole top visits (l ∷ levels)
        → find (is_past by_entry_name l.last) (named_entries t l.directory) ≡ Some e → inode_at t e.row.inode ≡ Some r → r.refcount ≡ 1
        → is_among (all_seen (top ∷ []) visits) r.id ≡ false }
{}

/// The batch of a copy grows at its end, by what comes for one visit more and by the places of one inode more.
pub fn batches_of_copies_grow_at_their_ends()
    ensures names { (t : Tables) (next now : ℕ) (source directory : Inode) (name : List ℕ) (visits : List Visit) (v : Visit)
        → names_copied t next now source directory name (visits ++ v ∷ [])
        ≡ names_copied t next now source directory name visits ++ visit_copied t next now (inodes_seen source visits) v (tables_after (names_copied t next now source directory name visits) t) }
    ensures names_fit { (t : Tables) (next now : ℕ) (source directory : Inode) (name : List ℕ) (visits : List Visit) (v : Visit)
        → names_fit t next now source directory name (visits ++ v ∷ [])
        ≡ (names_fit t next now source directory name visits && visit_fits t next now (inodes_seen source visits) v (tables_after (names_copied t next now source directory name visits) t)) }
    ensures places { (t : Tables) (next x : ℕ) (seen xs : List ℕ) → files_copied t next seen (xs ++ x ∷ []) t
        ≡ files_copied t next seen xs t ++ file_copied (copy_number next seen x) (places_from t x 0) (tables_after (files_copied t next seen xs t) t) }
    ensures places_fit { (t : Tables) (next x : ℕ) (seen xs : List ℕ) → files_fit t next seen (xs ++ x ∷ []) t
        ≡ (files_fit t next seen xs t && file_fits (copy_number next seen x) (places_from t x 0) (tables_after (files_copied t next seen xs t) t)) }
{}

/// What a copy uses more are names such as Setxattr takes: the attributes of an inode have no others, nor have entries.
pub fn copies_use_legal_names()
    ensures attributes { (t : Tables) (whole : Tree) (r : Inode) → Represents t whole → IsWellFormed whole → inode_at t r.id ≡ Some r → AreAttrNames t r.id }
    ensures entries { (name : List ℕ) → name_check name ≡ None → attribute_name_check name ≡ None }
{}

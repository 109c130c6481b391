ghost use Rattle.std.specs.Prelude.{◌≡◌, ◌++◌, ◌==◌, ◌||◌, ℕ, List, [], Bool, filter, not, nat_lt, IsTrue, None, Some, ◌+◌};
ghost use Rattle.op_frames.specs.declared.operation.Op.{Op};
ghost use Rattle.op_frames.specs.declared.operation.Op.TheVariants as ops;
ghost use Rattle.op_frames.specs.declared.operation.SetFlag.{SetFlag};
ghost use Rattle.std.specs.List.{list_all};
ghost use Rattle.s3_base.specs.declared.node_kind.Kind.TheVariants as kinds;
ghost use Rattle.plain_tree.specs.Tree.{Handle, Tree, handle_of, without_handle};
ghost use Rattle.plain_tree.specs.Below.{is_among};
ghost use Rattle.plain_tree.specs.Classes.{keeps_rows};
ghost use Rattle.plain_tree.specs.Entries.{is_open, lives};
ghost use Rattle.plain_tree.specs.Checks.{first_failure};
ghost use Rattle.plain_tree.specs.Operations.{checks, effect};
ghost use Rattle.plain_tree.specs.WellFormed.{IsWellFormed};
ghost use Rattle.s3_rows.specs.Rows.{Attr, Content, Inode, Name, Parameters};
ghost use Rattle.s3_rows.specs.Tables.{Tables};
ghost use Rattle.s3_rows.specs.Batches.{tables_after};
ghost use Rattle.s3_rows.specs.Selections.{entry_at, inode_at, name_at, name_of_bytes};
ghost use Rattle.s3_rows.specs.Validity.{IsValid, HasUniqueNames, differ};
ghost use Rattle.tree_rows.specs.NamedAttrs.{attr_of_name};
ghost use Rattle.tree_rows.specs.Shapes.{Represents};
ghost use Rattle.ref_counts.specs.Names.{Raised, raised};
ghost use Rattle.ref_counts.specs.Plans.{IsStep};
ghost use Rattle.ref_counts.specs.Removals.{removal};
ghost use Rattle.row_steps.specs.Owed.{Owes};
ghost use Rattle.row_steps.specs.RowChanges.{adding_attr, creation, dropping, leaving, link_creation, linking, new_directory_row, new_file_row, removing_attr, setting_attr, settling, unlinking, with_drawn, counted_row};

/// Where no check of an operation on a well-formed tree fails, tables that owe nothing and represent the tree after it are valid.
pub fn tables_after_operations_are_valid()
    ensures { (t : Tables) (whole : Tree) (p : Parameters) (pass now : ℕ) (op : Op) → IsWellFormed whole → first_failure (checks whole pass op) ≡ None
        → Owes t p [] [] → Represents t (effect whole pass op now) → IsValid t }
{}

/// Where no check of a Create fails, and its name may be used once more, its batch leaves valid tables that represent the tree
/// with the new file.
pub fn new_files_are_steps()
    ensures { (t : Tables) (whole : Tree) (p : Parameters) (directory : Inode) (more : Raised) (pass parent mode uid gid now : ℕ) (name : List ℕ)
        → IsValid t → HasUniqueNames t → IsWellFormed whole → Represents t whole → t.params ≡ Some p → inode_at t parent ≡ Some directory
        → first_failure (checks whole pass (ops.Create parent name mode uid gid)) ≡ None → raised (with_drawn p t) name ≡ Some more
        → IsStep t (tables_after (creation p directory more (new_file_row p.next_inode mode uid gid now) now) t) (effect whole pass (ops.Create parent name mode uid gid) now) 1 }
{}

/// And so it is where no check of a Mkdir fails.
pub fn new_directories_are_steps()
    ensures { (t : Tables) (whole : Tree) (p : Parameters) (directory : Inode) (more : Raised) (pass parent mode uid gid now : ℕ) (name : List ℕ)
        → IsValid t → HasUniqueNames t → IsWellFormed whole → Represents t whole → t.params ≡ Some p → inode_at t parent ≡ Some directory
        → first_failure (checks whole pass (ops.Mkdir parent name mode uid gid)) ≡ None → raised (with_drawn p t) name ≡ Some more
        → IsStep t (tables_after (creation p directory more (new_directory_row p.next_inode mode uid gid now) now) t) (effect whole pass (ops.Mkdir parent name mode uid gid) now) 1 }
{}

/// And so it is where no check of a Symlink fails; the target is put with it.
pub fn symlinks_are_steps()
    ensures { (t : Tables) (whole : Tree) (p : Parameters) (directory : Inode) (more : Raised) (pass parent uid gid now : ℕ) (name target : List ℕ)
        → IsValid t → HasUniqueNames t → IsWellFormed whole → Represents t whole → t.params ≡ Some p → inode_at t parent ≡ Some directory
        → first_failure (checks whole pass (ops.Symlink parent name target uid gid)) ≡ None → raised (with_drawn p t) name ≡ Some more
        → IsStep t (tables_after (link_creation p directory more target uid gid now) t) (effect whole pass (ops.Symlink parent name target uid gid) now) 1 }
{}

/// Where no check of a Link fails, and its name may be used once more, its batch leaves valid tables that represent the tree with
/// an entry more of the file. The file's row is the one that counts the entry.
pub fn links_are_steps()
    ensures step { (t : Tables) (whole : Tree) (p : Parameters) (directory r : Inode) (more : Raised) (pass inode parent now : ℕ) (name : List ℕ)
        → IsValid t → HasUniqueNames t → IsWellFormed whole → Represents t whole → t.params ≡ Some p → inode_at t parent ≡ Some directory
        → inode_at t inode ≡ Some r → first_failure (checks whole pass (ops.Link inode parent name)) ≡ None → raised t name ≡ Some more
        → IsStep t (tables_after (linking directory r more now) t) (effect whole pass (ops.Link inode parent name) now) 1 }
    ensures row { (t : Tables) (whole : Tree) (p : Parameters) (directory r : Inode) (more : Raised) (pass inode parent now : ℕ) (name : List ℕ)
        → IsValid t → HasUniqueNames t → IsWellFormed whole → Represents t whole → t.params ≡ Some p → inode_at t parent ≡ Some directory
        → inode_at t inode ≡ Some r → first_failure (checks whole pass (ops.Link inode parent name)) ≡ None → raised t name ≡ Some more
        → inode_at (tables_after (linking directory r more now) t) inode ≡ Some (counted_row (r.refcount + 1) now r) }
{}

/// The row of a new inode is found after its batch.
pub fn new_rows_are_found()
    ensures { (t : Tables) (p : Parameters) (directory new : Inode) (more : Raised) (parent now : ℕ) (name : List ℕ) → IsValid t → t.params ≡ Some p
        → inode_at t parent ≡ Some directory → new.id ≡ p.next_inode → raised (with_drawn p t) name ≡ Some more
        → inode_at (tables_after (creation p directory more new now) t) new.id ≡ Some new }
{}

/// Where no check of an Rmdir fails, its batch leaves valid tables that represent the tree without the directory.
pub fn old_directories_are_steps()
    ensures { (t : Tables) (whole : Tree) (p : Parameters) (directory child : Inode) (c : Content) (n : Name) (pass parent now : ℕ) (name : List ℕ)
        → IsValid t → HasUniqueNames t → IsWellFormed whole → Represents t whole → t.params ≡ Some p → inode_at t parent ≡ Some directory
        → name_of_bytes t name ≡ Some n → entry_at t parent n.id ≡ Some c → inode_at t c.inode ≡ Some child
        → first_failure (checks whole pass (ops.Rmdir parent name)) ≡ None
        → IsStep t (tables_after (dropping directory c n now ++ removal t child.id (tables_after (dropping directory c n now) t)) t)
        (effect whole pass (ops.Rmdir parent name) now) 0 }
{}

/// Where no check of an Unlink fails, its batch leaves valid tables that represent the tree without the entry: the file counts one
/// link less where another entry or a handle keeps it, and goes with its places where none does. No slot is of it.
pub fn old_links_are_steps()
    ensures { (t : Tables) (whole : Tree) (p : Parameters) (directory r : Inode) (c : Content) (n : Name) (pass parent now : ℕ) (name : List ℕ) (held : Bool)
        → IsValid t → HasUniqueNames t → IsWellFormed whole → Represents t whole → t.params ≡ Some p → inode_at t parent ≡ Some directory
        → name_of_bytes t name ≡ Some n → entry_at t parent n.id ≡ Some c → inode_at t c.inode ≡ Some r → IsTrue (list_all (λ x. not (x.inode == r.id)) t.slots)
        → is_open whole c.inode ≡ held → first_failure (checks whole pass (ops.Unlink parent name)) ≡ None
        → IsStep t (tables_after (unlinking (nat_lt 1 r.refcount || held) t directory r c n now) t) (effect whole pass (ops.Unlink parent name) now) 0 }
{}

/// Where a pass leaves, the nameless files go that its handles alone kept, one after the other, after the places of all of them. No entry
/// is in them, and no slot is of them.
pub fn left_files_are_steps()
    ensures { (t : Tables) (whole : Tree) (p : Parameters) (pass now : ℕ) (inodes : List ℕ)
        → IsValid t → HasUniqueNames t → IsWellFormed whole → Represents t whole → t.params ≡ Some p
        → ((x : ℕ) → IsTrue (is_among inodes x) → IsTrue (list_all (λ r. not (r.parent == x)) t.contents))
        → ((x : ℕ) → IsTrue (is_among inodes x) → IsTrue (list_all (λ r. not (r.inode == x)) t.slots)) → IsTrue (differ (λ a b. b == a) inodes)
        → ((r : Inode) → inode_at t r.id ≡ Some r → lives (record whole { handles = filter (λ h. not (h.1.pass == pass)) whole.handles }) r.id ≡ not (is_among inodes r.id))
        → IsStep t (tables_after (leaving t inodes) t) (effect whole pass ops.Leave now) 0 }
{}

/// Where no check of a Release fails, a file that neither an entry nor another handle keeps goes; else the rows stay.
pub fn old_files_are_steps()
    ensures { (t : Tables) (whole : Tree) (p : Parameters) (r : Inode) (handle : Handle) (pass number now : ℕ) (held : Bool)
        → IsValid t → HasUniqueNames t → IsWellFormed whole → Represents t whole → t.params ≡ Some p → handle_of whole pass number ≡ Some handle
        → inode_at t handle.inode ≡ Some r → r.kind ≡ kinds.Regular → IsTrue (list_all (λ x. not (x.inode == r.id)) t.slots)
        → is_open (without_handle number whole) handle.inode ≡ held → first_failure (checks whole pass (ops.Release number)) ≡ None
        → IsStep t (tables_after (settling (not (r.refcount == 0) || held) t r.id) t) (effect whole pass (ops.Release number) now) 0
        × (keeps_rows whole pass (ops.Release number) ≡ (not (r.refcount == 0) || held)) }
{}

/// Where no check of a Setxattr fails, its batch leaves valid tables that represent the tree with the attribute: one more of its
/// inode, where its name may be used once more, or another value of the one that is there.
pub fn set_attributes_are_steps()
    ensures new { (t : Tables) (whole : Tree) (p : Parameters) (r : Inode) (pass inode now : ℕ) (name : List ℕ) (flag : SetFlag) (value : List ℕ) (more : Raised)
        → IsValid t → HasUniqueNames t → IsWellFormed whole → Represents t whole → t.params ≡ Some p → inode_at t inode ≡ Some r
        → first_failure (checks whole pass (ops.Setxattr inode name flag value)) ≡ None → attr_of_name t inode name ≡ None → raised t name ≡ Some more
        → IsStep t (tables_after (adding_attr r more value now) t) (effect whole pass (ops.Setxattr inode name flag value) now) 1 }
    ensures there { (t : Tables) (whole : Tree) (p : Parameters) (r : Inode) (pass inode now : ℕ) (name : List ℕ) (flag : SetFlag) (value : List ℕ) (a : Attr)
        → IsValid t → HasUniqueNames t → IsWellFormed whole → Represents t whole → t.params ≡ Some p → inode_at t inode ≡ Some r
        → first_failure (checks whole pass (ops.Setxattr inode name flag value)) ≡ None → attr_of_name t inode name ≡ Some a
        → IsStep t (tables_after (setting_attr r a.name_id value now) t) (effect whole pass (ops.Setxattr inode name flag value) now) 0 }
{}

/// And where no check of a Removexattr fails, its batch leaves those of the tree without the attribute.
pub fn removed_attributes_are_steps()
    ensures { (t : Tables) (whole : Tree) (p : Parameters) (r : Inode) (pass inode now : ℕ) (name : List ℕ) (a : Attr) (n : Name)
        → IsValid t → HasUniqueNames t → IsWellFormed whole → Represents t whole → t.params ≡ Some p → inode_at t inode ≡ Some r
        → first_failure (checks whole pass (ops.Removexattr inode name)) ≡ None → attr_of_name t inode name ≡ Some a → name_at t a.name_id ≡ Some n
        → IsStep t (tables_after (removing_attr r a n now) t) (effect whole pass (ops.Removexattr inode name) now) 0 }
{}

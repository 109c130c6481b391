//! Worked calls, each with its reply: they close by computation, and so they check the definitions. Beside each stands a
//! wrong rule that it refutes.
#![tactic(auto, unfolding(crate::specs::Operations::reply_to, crate::specs::Operations::tree_after))]

ghost use Rattle.std.specs.Prelude.{◌≡◌, ℕ, ◌+◌, ◌-◌, ◌^◌, List, [], ◌∷◌, ◌++◌, replicate, codes, true, false};
ghost use Rattle.op_frames.specs.declared.operation.Op.TheVariants as ops;
ghost use Rattle.op_frames.specs.declared.operation.SetFlag.TheVariants as flags;
ghost use Rattle.op_frames.specs.declared.reply.Reply.TheVariants as replies;
ghost use Rattle.s3_base.specs.declared.node_kind.Kind.TheVariants as kinds;
ghost use Rattle.plain_tree.specs.Rows.{answers, at, by, file, directory, link, errno};

/// Refutes: a read past the end of a file is filled with zeros.
pub fn create_write_read()
    ensures { answers (by 1 (ops.Create 1 (codes "a") 420 0 0) ∷ at 1 6 (ops.Write 1 0 (codes "abc")) ∷ at 1 7 (ops.Read 1 0 10) ∷ [])
        ≡ replies.Opened 1 (file 3 1 0 5 5) ∷ replies.Count 3 ∷ replies.Bytes (codes "abc") ∷ [] }
{}

/// Refutes: a write behind the end puts its data at the end; a handle is open for every pass.
pub fn write_behind_the_end()
    ensures { answers (by 1 (ops.Create 1 (codes "a") 420 0 0) ∷ by 1 (ops.Write 1 4094 (codes "hello")) ∷ by 1 (ops.Getattr 3)
        ∷ by 1 (ops.Read 1 4094 5) ∷ by 1 (ops.Read 1 0 2) ∷ by 1 (ops.Read 1 4099 5) ∷ by 2 (ops.Read 1 0 2) ∷ [])
        ≡ replies.Opened 1 (file 3 1 0 5 5) ∷ replies.Count 5 ∷ replies.Attr (file 3 1 4099 5 5)
        ∷ replies.Bytes (codes "hello") ∷ replies.Bytes (0 ∷ 0 ∷ []) ∷ replies.Bytes [] ∷ errno 9 ∷ [] }
{}

/// Refutes: a file that was cut shows its old bytes when it grows again.
pub fn cut_and_lengthened()
    ensures { answers (by 1 (ops.Create 1 (codes "a") 420 0 0) ∷ by 1 (ops.Write 1 0 (replicate 8192 121)) ∷ by 1 (ops.Truncate 3 10)
        ∷ by 1 (ops.Truncate 3 8192) ∷ by 1 (ops.Read 1 8 4) ∷ by 1 (ops.Read 1 4096 1) ∷ [])
        ≡ replies.Opened 1 (file 3 1 0 5 5) ∷ replies.Count 8192 ∷ replies.Attr (file 3 1 10 5 5)
        ∷ replies.Attr (file 3 1 8192 5 5) ∷ replies.Bytes (121 ∷ 121 ∷ 0 ∷ 0 ∷ []) ∷ replies.Bytes (0 ∷ []) ∷ [] }
{}

/// Refutes: a file goes with its last entry, though a handle is open; or it stays when its last handle is closed.
pub fn unlinked_but_open()
    ensures { answers (by 1 (ops.Create 1 (codes "a") 420 0 0) ∷ by 1 (ops.Write 1 0 (codes "abc")) ∷ by 1 (ops.Unlink 1 (codes "a"))
        ∷ by 1 (ops.Read 1 0 3) ∷ by 1 (ops.Getattr 3) ∷ by 2 (ops.Read 1 0 3) ∷ by 1 (ops.Release 1) ∷ by 1 (ops.Getattr 3) ∷ [])
        ≡ replies.Opened 1 (file 3 1 0 5 5) ∷ replies.Count 3 ∷ replies.Done
        ∷ replies.Bytes (codes "abc") ∷ replies.Attr (file 3 0 3 5 5) ∷ errno 9 ∷ replies.Done ∷ errno 2 ∷ [] }
{}

/// Refutes: a directory may be renamed into its own subtree; a rename to its own name touches the parent; a directory that
/// is not empty may be replaced; `lost+found` may be renamed.
pub fn renames_refused()
    ensures { answers (by 1 (ops.Mkdir 1 (codes "d") 493 0 0) ∷ by 1 (ops.Mkdir 3 (codes "e") 493 0 0) ∷ by 1 (ops.Rename 1 (codes "d") 4 (codes "x"))
        ∷ at 1 9 (ops.Rename 1 (codes "d") 1 (codes "d")) ∷ by 1 (ops.Getattr 1) ∷ by 1 (ops.Mkdir 1 (codes "f") 493 0 0)
        ∷ by 1 (ops.Mkdir 5 (codes "g") 493 0 0) ∷ by 1 (ops.Rename 1 (codes "d") 1 (codes "f")) ∷ by 1 (ops.Rename 1 (codes "lost+found") 1 (codes "l")) ∷ [])
        ≡ replies.Attr (directory 3 5 5) ∷ replies.Attr (directory 4 5 5) ∷ errno 22
        ∷ replies.Done ∷ replies.Attr (directory 1 5 5) ∷ replies.Attr (directory 5 5 5)
        ∷ replies.Attr (directory 6 5 5) ∷ errno 39 ∷ errno 1 ∷ [] }
{}

/// Refutes: a copy shares its files with the source; a directory may be copied into itself.
pub fn copied()
    ensures { answers (by 1 (ops.Mkdir 1 (codes "d") 493 0 0) ∷ by 1 (ops.Create 3 (codes "a") 420 0 0) ∷ by 1 (ops.Write 1 0 (codes "abc"))
        ∷ by 1 (ops.CopyTree 3 1 (codes "c")) ∷ by 1 (ops.Lookup 5 (codes "a")) ∷ by 1 (ops.Open 6) ∷ by 1 (ops.Write 2 0 (codes "X"))
        ∷ by 1 (ops.Read 2 0 3) ∷ by 1 (ops.Read 1 0 3) ∷ by 1 (ops.CopyTree 3 3 (codes "z")) ∷ [])
        ≡ replies.Attr (directory 3 5 5) ∷ replies.Opened 1 (file 4 1 0 5 5) ∷ replies.Count 3
        ∷ replies.Attr (directory 5 5 5) ∷ replies.Attr (file 6 1 3 5 5) ∷ replies.Opened 2 (file 6 1 3 5 5) ∷ replies.Count 1
        ∷ replies.Bytes (codes "Xbc") ∷ replies.Bytes (codes "abc") ∷ errno 22 ∷ [] }
{}

/// Refutes: a locked tree may be changed in some way; a locked tree may not be removed; a removed file with a handle goes.
pub fn locked_and_removed()
    ensures { answers (by 1 (ops.Mkdir 1 (codes "d") 493 0 0) ∷ by 1 (ops.Create 3 (codes "a") 420 0 0) ∷ by 1 (ops.Write 1 0 (codes "abc"))
        ∷ by 1 (ops.CopyTree 3 1 (codes "c")) ∷ by 1 (ops.Open 6) ∷ by 1 (ops.Write 2 0 (codes "X")) ∷ by 1 (ops.LockTree 5)
        ∷ by 1 (ops.Write 2 0 (codes "Y")) ∷ by 1 (ops.Create 5 (codes "n") 420 0 0) ∷ by 1 (ops.Unlink 5 (codes "a"))
        ∷ by 1 (ops.Rename 5 (codes "a") 1 (codes "z")) ∷ by 1 (ops.Link 6 1 (codes "z")) ∷ by 1 (ops.Chmod 6 0) ∷ by 1 (ops.Truncate 6 0)
        ∷ by 1 (ops.RemoveTree 1 (codes "c")) ∷ by 1 (ops.Lookup 1 (codes "c")) ∷ by 1 (ops.Read 2 0 3) ∷ [])
        ≡ replies.Attr (directory 3 5 5) ∷ replies.Opened 1 (file 4 1 0 5 5) ∷ replies.Count 3
        ∷ replies.Attr (directory 5 5 5) ∷ replies.Opened 2 (file 6 1 3 5 5) ∷ replies.Count 1 ∷ replies.Done
        ∷ errno 1 ∷ errno 1 ∷ errno 1 ∷ errno 1 ∷ errno 1 ∷ errno 1 ∷ errno 1 ∷ replies.Done ∷ errno 2 ∷ replies.Bytes (codes "Xbc") ∷ [] }
{}

/// Refutes: a flag of Setxattr is ignored; a page begins with the name after which it is asked for.
pub fn attributes_and_pages()
    ensures { answers (by 1 (ops.Create 1 (codes "a") 420 0 0) ∷ by 1 (ops.Setxattr 3 (codes "user.k") flags.Old (codes "v"))
        ∷ by 1 (ops.Setxattr 3 (codes "user.k") flags.New (codes "v")) ∷ by 1 (ops.Setxattr 3 (codes "user.k") flags.New (codes "v"))
        ∷ by 1 (ops.Getxattr 3 (codes "user.k")) ∷ by 1 (ops.Listxattr 3 [] 10) ∷ by 1 (ops.Removexattr 3 (codes "user.k")) ∷ by 1 (ops.Removexattr 3 (codes "user.k"))
        ∷ by 1 (ops.Create 1 (codes "b") 420 0 0) ∷ by 1 (ops.Readdir 1 [] 2) ∷ by 1 (ops.Readdir 1 (codes "b") 2) ∷ by 1 (ops.Readdir 1 (codes "lost+found") 2)
        ∷ by 1 (ops.Symlink 1 (codes "s") (codes "a") 0 0) ∷ by 1 (ops.Readlink 5) ∷ by 1 (ops.Link 3 1 (codes "h")) ∷ [])
        ≡ replies.Opened 1 (file 3 1 0 5 5) ∷ errno 61 ∷ replies.Done ∷ errno 17
        ∷ replies.Bytes (codes "v") ∷ replies.Names (codes "user.k" ∷ []) ∷ replies.Done ∷ errno 61
        ∷ replies.Opened 2 (file 4 1 0 5 5)
        ∷ replies.Entries (record { inode = 3; kind = kinds.Regular; name = codes "a" } ∷ record { inode = 4; kind = kinds.Regular; name = codes "b" } ∷ [])
        ∷ replies.Entries (record { inode = 2; kind = kinds.Directory; name = codes "lost+found" } ∷ []) ∷ replies.Entries []
        ∷ replies.Attr (link 5 1 5) ∷ replies.Bytes (codes "a") ∷ replies.Attr (file 3 2 0 5 5) ∷ [] }
{}

/// Refutes: a name may be longer than 255 bytes; a file may be longer than 2^50 bytes.
pub fn limits()
    ensures { answers (by 1 (ops.Create 1 (replicate 255 97) 420 0 0) ∷ by 1 (ops.Create 1 (replicate 256 97) 420 0 0) ∷ by 1 (ops.Create 1 [] 420 0 0)
        ∷ by 1 (ops.Create 1 (codes "a/b") 420 0 0) ∷ by 1 (ops.Create 9 (codes "a") 420 0 0)
        ∷ by 1 (ops.Truncate 3 (2 ^ 50 + 1)) ∷ by 1 (ops.Write 1 (2 ^ 50 - 1) (codes "ab")) ∷ [])
        ≡ replies.Opened 1 (file 3 1 0 5 5) ∷ errno 36 ∷ errno 22 ∷ errno 22 ∷ errno 2 ∷ errno 27 ∷ errno 27 ∷ [] }
{}

//! More worked calls, one row at least for each operation that `rows` has not. Beside each stands a wrong rule that it
//! refutes.
#![tactic(auto, unfolding(crate::specs::Operations::reply_to, crate::specs::Operations::tree_after))]

ghost use Rattle.std.specs.Prelude.{◌≡◌, ℕ, ◌^◌, List, [], ◌∷◌, replicate, codes, true, false};
ghost use Rattle.op_frames.specs.declared.operation.Op.TheVariants as ops;
ghost use Rattle.op_frames.specs.declared.operation.SetFlag.TheVariants as flags;
ghost use Rattle.op_frames.specs.declared.reply.Reply.TheVariants as replies;
ghost use Rattle.s3_base.specs.declared.node_kind.Kind.TheVariants as kinds;
ghost use Rattle.plain_tree.specs.Rows.{answers, at, by, file, directory, link, errno};

/// Refutes: a file that is replaced goes though a handle is open; a rename leaves the moved node's time of change.
pub fn renamed_over_a_file()
    ensures { answers (by 1 (ops.Create 1 (codes "a") 420 0 0) ∷ by 1 (ops.Write 1 0 (codes "abc")) ∷ by 1 (ops.Create 1 (codes "b") 420 0 0)
        ∷ at 1 9 (ops.Rename 1 (codes "a") 1 (codes "b")) ∷ by 1 (ops.Lookup 1 (codes "b")) ∷ by 1 (ops.Lookup 1 (codes "a")) ∷ by 1 (ops.Getattr 4)
        ∷ by 1 (ops.Getattr 1) ∷ by 1 (ops.Release 2) ∷ by 1 (ops.Getattr 4) ∷ [])
        ≡ replies.Opened 1 (file 3 1 0 5 5) ∷ replies.Count 3 ∷ replies.Opened 2 (file 4 1 0 5 5)
        ∷ replies.Done ∷ replies.Attr (file 3 1 3 5 9) ∷ errno 2 ∷ replies.Attr (file 4 0 0 5 9)
        ∷ replies.Attr (directory 1 9 9) ∷ replies.Done ∷ errno 2 ∷ [] }
{}

/// Refutes: a file and a directory may replace one another; an empty directory may not be replaced.
pub fn renamed_over_a_directory()
    ensures { answers (by 1 (ops.Mkdir 1 (codes "d") 493 0 0) ∷ by 1 (ops.Mkdir 1 (codes "e") 493 0 0) ∷ by 1 (ops.Create 1 (codes "f") 420 0 0)
        ∷ by 1 (ops.Rename 1 (codes "d") 1 (codes "f")) ∷ by 1 (ops.Rename 1 (codes "f") 1 (codes "d")) ∷ at 1 8 (ops.Rename 1 (codes "d") 1 (codes "e"))
        ∷ by 1 (ops.Lookup 1 (codes "e")) ∷ by 1 (ops.Getattr 4) ∷ by 1 (ops.Rename 1 (codes "x") 1 (codes "y")) ∷ [])
        ≡ replies.Attr (directory 3 5 5) ∷ replies.Attr (directory 4 5 5) ∷ replies.Opened 1 (file 5 1 0 5 5)
        ∷ errno 20 ∷ errno 21 ∷ replies.Done ∷ replies.Attr (directory 3 5 8) ∷ errno 2 ∷ errno 2 ∷ [] }
{}

/// Refutes: two names of one file become two files in a copy, or use up two inode numbers.
pub fn copied_links()
    ensures { answers (by 1 (ops.Mkdir 1 (codes "d") 493 0 0) ∷ by 1 (ops.Create 3 (codes "a") 420 0 0) ∷ at 1 6 (ops.Link 4 3 (codes "b"))
        ∷ at 1 7 (ops.CopyTree 3 1 (codes "c")) ∷ by 1 (ops.Lookup 5 (codes "a")) ∷ by 1 (ops.Lookup 5 (codes "b")) ∷ by 1 (ops.Write 1 0 (codes "x"))
        ∷ by 1 (ops.Getattr 6) ∷ by 1 (ops.Getattr 1) ∷ by 1 (ops.Create 1 (codes "n") 420 0 0) ∷ by 1 ops.Statfs ∷ [])
        ≡ replies.Attr (directory 3 5 5) ∷ replies.Opened 1 (file 4 1 0 5 5) ∷ replies.Attr (file 4 2 0 5 6)
        ∷ replies.Attr (directory 5 6 7) ∷ replies.Attr (file 6 2 0 5 7) ∷ replies.Attr (file 6 2 0 5 7) ∷ replies.Count 1
        ∷ replies.Attr (file 6 2 0 5 7) ∷ replies.Attr (directory 1 7 7) ∷ replies.Opened 2 (file 7 1 0 5 5) ∷ replies.Stat 4096 7 8 1 ∷ [] }
{}

/// Refutes: copies are numbered breadth first.
pub fn copy_numbers()
    ensures { answers (by 1 (ops.Mkdir 1 (codes "d") 493 0 0) ∷ by 1 (ops.Mkdir 3 (codes "a") 493 0 0) ∷ by 1 (ops.Symlink 4 (codes "x") (codes "t") 0 0)
        ∷ by 1 (ops.Mkdir 3 (codes "b") 493 0 0) ∷ by 1 (ops.CopyTree 3 1 (codes "c")) ∷ by 1 (ops.Lookup 7 (codes "a")) ∷ by 1 (ops.Lookup 8 (codes "x"))
        ∷ by 1 (ops.Lookup 7 (codes "b")) ∷ by 1 (ops.Readlink 9) ∷ [])
        ≡ replies.Attr (directory 3 5 5) ∷ replies.Attr (directory 4 5 5) ∷ replies.Attr (link 5 1 5)
        ∷ replies.Attr (directory 6 5 5) ∷ replies.Attr (directory 7 5 5) ∷ replies.Attr (directory 8 5 5) ∷ replies.Attr (link 9 1 5)
        ∷ replies.Attr (directory 10 5 5) ∷ replies.Bytes (codes "t") ∷ [] }
{}

/// Refutes: a change of attributes sets mtime; Utimes leaves ctime.
pub fn attributes_changed()
    ensures { answers (by 1 (ops.Create 1 (codes "a") 420 0 0) ∷ at 1 6 (ops.Chown 3 7 8) ∷ at 1 8 (ops.Utimes 3 7) ∷ at 1 9 (ops.Chmod 3 256)
        ∷ by 1 (ops.Chmod 3 4096) ∷ by 1 (ops.Utimes 3 (2 ^ 62)) ∷ by 1 (ops.Chown 9 0 0) ∷ [])
        ≡ replies.Opened 1 (file 3 1 0 5 5) ∷ replies.Attr (record (file 3 1 0 5 6) { uid = 7; gid = 8 }) ∷ replies.Attr (record (file 3 1 0 7 8) { uid = 7; gid = 8 })
        ∷ replies.Attr (record (file 3 1 0 7 9) { mode = 256; uid = 7; gid = 8 }) ∷ errno 22 ∷ errno 22 ∷ errno 2 ∷ [] }
{}

/// Refutes: the sum of lengths counts targets of symbolic links; a file without an entry is not counted.
pub fn statistics()
    ensures { answers (by 1 (ops.Create 1 (codes "a") 420 0 0) ∷ by 1 (ops.Write 1 0 (codes "hello")) ∷ by 1 (ops.Symlink 1 (codes "s") (codes "target") 0 0)
        ∷ by 1 ops.Statfs ∷ by 1 (ops.Unlink 1 (codes "a")) ∷ by 1 ops.Statfs ∷ by 1 ops.Leave ∷ by 1 ops.Statfs ∷ [])
        ≡ replies.Opened 1 (file 3 1 0 5 5) ∷ replies.Count 5 ∷ replies.Attr (link 4 6 5)
        ∷ replies.Stat 4096 4 3 5 ∷ replies.Done ∷ replies.Stat 4096 4 2 5 ∷ replies.Done ∷ replies.Stat 4096 3 2 0 ∷ [] }
{}

/// Refutes: Leave closes the handles of other passes, or leaves a file that nothing keeps.
pub fn passes_leave()
    ensures { answers (by 1 (ops.Create 1 (codes "a") 420 0 0) ∷ by 2 (ops.Open 3) ∷ by 1 (ops.Unlink 1 (codes "a")) ∷ by 1 ops.Leave
        ∷ by 1 (ops.Read 1 0 1) ∷ by 2 (ops.Read 2 0 1) ∷ by 1 (ops.Release 2) ∷ by 2 ops.Leave ∷ by 1 (ops.Getattr 3) ∷ [])
        ≡ replies.Opened 1 (file 3 1 0 5 5) ∷ replies.Opened 2 (file 3 1 0 5 5) ∷ replies.Done ∷ replies.Done
        ∷ errno 9 ∷ replies.Bytes [] ∷ errno 9 ∷ replies.Done ∷ errno 2 ∷ [] }
{}

/// Refutes: a page may be empty or as long as one likes; pages come in the order in which entries were made.
pub fn pages()
    ensures { answers (by 1 (ops.Symlink 1 (codes "b") (codes "t") 0 0) ∷ by 1 (ops.Symlink 1 (codes "a") (codes "t") 0 0) ∷ by 1 (ops.Readdir 1 [] 1)
        ∷ by 1 (ops.Readdir 1 (codes "a") 256) ∷ by 1 (ops.Readdir 1 [] 0) ∷ by 1 (ops.Readdir 1 [] 257) ∷ by 1 (ops.Readdir 3 [] 1)
        ∷ by 1 (ops.Setxattr 1 (codes "k") flags.Any (codes "v")) ∷ by 1 (ops.Setxattr 1 (codes "j") flags.Any (codes "w")) ∷ by 1 (ops.Listxattr 1 [] 1)
        ∷ by 1 (ops.Listxattr 1 (codes "j") 9) ∷ by 1 (ops.Setxattr 1 (codes "k") flags.Old (codes "x")) ∷ by 1 (ops.Getxattr 1 (codes "k")) ∷ [])
        ≡ replies.Attr (link 3 1 5) ∷ replies.Attr (link 4 1 5) ∷ replies.Entries (record { inode = 4; kind = kinds.Link; name = codes "a" } ∷ [])
        ∷ replies.Entries (record { inode = 3; kind = kinds.Link; name = codes "b" } ∷ record { inode = 2; kind = kinds.Directory; name = codes "lost+found" } ∷ [])
        ∷ errno 22 ∷ errno 22 ∷ errno 20 ∷ replies.Done ∷ replies.Done ∷ replies.Names (codes "j" ∷ [])
        ∷ replies.Names (codes "k" ∷ []) ∷ replies.Done ∷ replies.Bytes (codes "x") ∷ [] }
{}

/// Refutes: a file of a removed tree goes though it has an entry outside or a handle; or it stays as it was.
pub fn removed_tree()
    ensures { answers (by 1 (ops.Mkdir 1 (codes "d") 493 0 0) ∷ by 1 (ops.Create 3 (codes "a") 420 0 0) ∷ by 1 (ops.Symlink 3 (codes "b") (codes "t") 0 0)
        ∷ by 1 (ops.Link 5 1 (codes "o")) ∷ by 1 (ops.Mkdir 3 (codes "e") 493 0 0) ∷ at 1 9 (ops.RemoveTree 1 (codes "d")) ∷ by 1 (ops.Getattr 3)
        ∷ by 1 (ops.Getattr 6) ∷ by 1 (ops.Getattr 4) ∷ by 1 (ops.Lookup 1 (codes "o")) ∷ by 1 (ops.Release 1) ∷ by 1 (ops.Getattr 4) ∷ [])
        ≡ replies.Attr (directory 3 5 5) ∷ replies.Opened 1 (file 4 1 0 5 5) ∷ replies.Attr (link 5 1 5)
        ∷ replies.Attr (record (link 5 1 5) { links = 2 }) ∷ replies.Attr (directory 6 5 5) ∷ replies.Done ∷ errno 2
        ∷ errno 2 ∷ replies.Attr (file 4 0 0 5 9) ∷ replies.Attr (record (link 5 1 5) { ctime = 9 }) ∷ replies.Done ∷ errno 2 ∷ [] }
{}

/// Refutes: Rmdir removes a directory with entries, or a file; Unlink removes a directory; `lost+found` may be removed.
pub fn removed_entries()
    ensures { answers (by 1 (ops.Mkdir 1 (codes "d") 493 0 0) ∷ by 1 (ops.Symlink 3 (codes "a") (codes "t") 0 0) ∷ by 1 (ops.Rmdir 1 (codes "d"))
        ∷ by 1 (ops.Unlink 1 (codes "d")) ∷ by 1 (ops.Rmdir 3 (codes "a")) ∷ by 1 (ops.Unlink 3 (codes "a")) ∷ by 1 (ops.Getattr 4) ∷ at 1 7 (ops.Rmdir 1 (codes "d"))
        ∷ by 1 (ops.Getattr 3) ∷ by 1 (ops.Getattr 1) ∷ by 1 (ops.Rmdir 1 (codes "lost+found")) ∷ by 1 (ops.Unlink 1 (codes "x")) ∷ [])
        ≡ replies.Attr (directory 3 5 5) ∷ replies.Attr (link 4 1 5) ∷ errno 39
        ∷ errno 21 ∷ errno 20 ∷ replies.Done ∷ errno 2 ∷ replies.Done ∷ errno 2 ∷ replies.Attr (directory 1 7 7) ∷ errno 1 ∷ errno 2 ∷ [] }
{}

/// Refutes: what is no regular file may be opened or cut; a directory may have two names; a target may be empty.
pub fn kinds_are_told_apart()
    ensures { answers (by 1 (ops.Truncate 1 0) ∷ by 1 (ops.Open 1) ∷ by 1 (ops.Symlink 1 (codes "s") (codes "t") 0 0) ∷ by 1 (ops.Open 3) ∷ by 1 (ops.Truncate 3 0)
        ∷ by 1 (ops.Readlink 1) ∷ by 1 (ops.Link 2 1 (codes "h")) ∷ by 1 (ops.Symlink 1 (codes "u") [] 0 0) ∷ by 1 (ops.Symlink 1 (codes "u") (replicate 4096 97) 0 0)
        ∷ by 1 (ops.LockTree 1) ∷ by 1 (ops.LockTree 3) ∷ by 1 (ops.CopyTree 3 1 (codes "c")) ∷ [])
        ≡ errno 21 ∷ errno 21 ∷ replies.Attr (link 3 1 5) ∷ errno 22 ∷ errno 22
        ∷ errno 22 ∷ errno 1 ∷ errno 22 ∷ errno 36 ∷ errno 1 ∷ errno 20 ∷ errno 20 ∷ [] }
{}

/// Refutes: a control changes the tree, or takes any number.
pub fn controls()
    ensures { answers (by 1 ops.FlushCache ∷ by 1 ops.UploadMeta ∷ by 1 (ops.CacheSize 64) ∷ by 1 (ops.CacheSize 63) ∷ by 1 (ops.CacheSize 4097)
        ∷ by 1 ops.Unmount ∷ by 1 (ops.Create 1 (codes "a") 420 0 0) ∷ by 1 (ops.Fsync 1) ∷ by 2 (ops.Fsync 1) ∷ by 1 ops.Statfs ∷ [])
        ≡ replies.Done ∷ replies.Done ∷ replies.Done ∷ errno 22 ∷ errno 22
        ∷ replies.Done ∷ replies.Opened 1 (file 3 1 0 5 5) ∷ replies.Done ∷ errno 9 ∷ replies.Stat 4096 3 2 0 ∷ [] }
{}

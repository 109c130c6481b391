//! Laws of bytes that rows and contents have.
ghost use Rattle.std.specs.Prelude.{◌≡◌, ◌<◌, ◌≤◌, ◌⊎◌, ℕ, List, None, Some, length, nat_le, IsTrue};
ghost use Rattle.std.specs.List.{list_all};
ghost use Rattle.plain_tree.specs.Tree.{Tree};
ghost use Rattle.plain_tree.specs.Files.{file_at};
ghost use Rattle.block_math.specs.Blocks.{piece_of, trimmed};
ghost use Rattle.block_math.specs.Changes.{resized};
ghost use Rattle.s3_rows.specs.Rows.{Parameters};
ghost use Rattle.s3_rows.specs.Tables.{Tables};
ghost use Rattle.tree_rows.specs.Contents.{Contents, HaveBytes, tree_of};
ghost use Rattle.core_model.specs.Bytes.{AgreesAt, HasBytes, Overlay, Shows, no_overlay, shown_at};
ghost use Rattle.core_model.specs.Exact.{IsExactAt};
ghost use Rattle.core_model.specs.Occurring.{Knows};

/// Two spots that show the same bytes agree alike with files that have the same bytes there.
pub fn spots_that_show_the_same_agree_alike()
    ensures { (m : Contents) (t other : Tables) (over beside : Overlay) (whole after : Tree) (inode blockno copy copyno : ℕ)
        → shown_at m other beside copy copyno ≡ shown_at m t over inode blockno
        → ((bytes : List ℕ) → file_at after copy ≡ Some bytes → (own : List ℕ) × (file_at whole inode ≡ Some own)
        × (piece_of after.block_size bytes copyno ≡ piece_of whole.block_size own blockno))
        → AgreesAt m t over whole inode blockno → AgreesAt m other beside after copy copyno }
{}

/// A spot that is exact, and whose trimmed block the contents know, shows the bytes of the file.
pub fn exact_spots_agree()
    ensures { (digest_of : List ℕ → List ℕ) (m : Contents) (t : Tables) (over : Overlay) (whole : Tree) (inode blockno : ℕ)
        → over inode blockno ≡ None → IsExactAt digest_of t whole inode blockno
        → ((bytes : List ℕ) → file_at whole inode ≡ Some bytes → Knows digest_of m (trimmed (piece_of whole.block_size bytes blockno)))
        → AgreesAt m t over whole inode blockno }
{}

/// Bytes that begin with a piece begin with it cut, and lengthened with zeros where they have no more bytes than the piece.
pub fn shown_pieces_may_be_resized()
    ensures { (piece shown : List ℕ) (len : ℕ) → Shows piece shown → (len ≤ length piece) ⊎ (length shown ≤ length piece) → Shows (resized len piece) shown }
{}

/// Tables whose digests the contents have, with bytes of their lengths, have the bytes of the tree that they are together.
pub fn tables_have_the_bytes_of_their_tree()
    ensures { (m : Contents) (t : Tables) (p : Parameters) → t.params ≡ Some p → 0 < p.block_size → HaveBytes m t.blocks
        → IsTrue (list_all (λ r. nat_le r.size p.block_size) t.blocks) → HasBytes m t no_overlay (tree_of m t) }
{}

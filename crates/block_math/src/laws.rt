//! What the definitions of blocks and pieces say together. Each is the contract of a function without a body.
ghost use Rattle.std.specs.Prelude.{◌≡◌, ◌≢◌, ℕ, ◌+◌, ◌-◌, ◌*◌, ◌/◌, ◌<◌, ◌≤◌, ◌⊎◌, List, [], ◌∷◌, ◌++◌, length, take, drop, slice_index};
ghost use Rattle.block_math.specs.Blocks.{block_of, piece_of, trimmed, forms_of, patched, cut_at};
ghost use Rattle.block_math.specs.Changes.{padded, written_at, resized};
ghost use Rattle.block_math.specs.declared.parts.Piece.{Piece};
ghost use Rattle.block_math.specs.Ranges.{piece_count, piece_start, IsPiece};

/// A trimmed form has no zero at its end, it is that of the bytes with more zeros too, and zeros make the bytes of it again. So
/// blocks of one size with the same trimmed form are the same.
pub fn trimmed_form_stands_for_its_block()
    ensures end { (bytes front : List ℕ) → trimmed bytes ≢ front ++ 0 ∷ [] }
    ensures padded { (bytes : List ℕ) → padded (length bytes) (trimmed bytes) ≡ bytes }
    ensures zeros { (size : ℕ) (bytes : List ℕ) → trimmed (padded size bytes) ≡ trimmed bytes }
    ensures block { (size n : ℕ) (bytes : List ℕ) → trimmed (block_of size bytes n) ≡ trimmed (piece_of size bytes n) }
{}

/// The first piece of a range begins where the range does, the others where blocks begin, and they reach its end.
pub fn pieces_join()
    ensures first { (off size : ℕ) → 0 < size → piece_start off size 0 ≡ 0 }
    ensures each { (off len size k : ℕ) → 0 < size → k < piece_count off len size → piece_start off size k < len }
    ensures whole { (off len size : ℕ) → 0 < size → len ≤ piece_start off size (piece_count off len size) }
{}

/// A block has as many bytes as its size, those of the file that lie in it, and zeros past the end.
pub fn blocks_have_the_bytes_of_their_file()
    ensures size { (size n : ℕ) (bytes : List ℕ) → length (block_of size bytes n) ≡ size }
    ensures bytes { (size n i : ℕ) (bytes : List ℕ) → i < size → slice_index (block_of size bytes n) i ≡ slice_index bytes (n * size + i) }
{}

/// A write patches each block that it touches with its piece of the data, and leaves every other block, also where it lengthens the
/// file.
pub fn written_blocks_are_patched()
    ensures patched { (off size k : ℕ) (new bytes : List ℕ) (p : Piece) → IsPiece off (length new) size k p
        → block_of size (written_at off new bytes) p.blockno ≡ patched p.at (take p.len (drop p.from new)) (block_of size bytes p.blockno) }
    ensures others { (off size n : ℕ) (new bytes : List ℕ) → 0 < size
        → (n < off / size) ⊎ (off / size + piece_count off (length new) size ≤ n)
        → block_of size (written_at off new bytes) n ≡ block_of size bytes n }
{}

/// A file of another length has its blocks cut at that length; zeros at its end change none.
pub fn resized_blocks_are_cut()
    ensures { (len size n : ℕ) (bytes : List ℕ) → block_of size (resized len bytes) n ≡ cut_at (len - n * size) (block_of size bytes n) }
{}

/// Blocks of four bytes, worked by hand: a file that ends within a block, one that ends in zeros, and one that is only zeros.
pub fn blocks_worked_by_hand()
    ensures last { block_of 4 (97 ∷ 98 ∷ 99 ∷ 100 ∷ 101 ∷ 102 ∷ []) 1 ≡ 101 ∷ 102 ∷ 0 ∷ 0 ∷ [] }
    ensures past { block_of 4 (97 ∷ 98 ∷ []) 3 ≡ 0 ∷ 0 ∷ 0 ∷ 0 ∷ [] }
    ensures forms { forms_of 4 (0 ∷ 7 ∷ 0 ∷ 0 ∷ 0 ∷ 0 ∷ 0 ∷ 0 ∷ 5 ∷ []) ≡ (0 ∷ 7 ∷ []) ∷ [] ∷ (5 ∷ []) ∷ [] }
    ensures none { forms_of 4 [] ≡ [] }
    ensures written { written_at 3 (9 ∷ []) (1 ∷ []) ≡ 1 ∷ 0 ∷ 0 ∷ 9 ∷ [] }
    ensures count { piece_count 3 6 4 ≡ 3 }
{}

//! The definitions on small trees.
ghost use Rattle.std.specs.Prelude.{◌≡◌, [], ◌∷◌, ◌++◌, Some, None};
ghost use Rattle.core_model.specs.Changes.{blocks_of_write, blocks_of_resize, needed_by_write, tail_of};
ghost use Rattle.core_model.specs.Exact.{form_for};
ghost use Rattle.core_model.specs.Occurring.{blocks_in, contents_of, occurring};
ghost use Rattle.tree_rows.specs.Contents.{bytes_of};
ghost use Rattle.core_model.specs.Worked.{toy_digest, toy_tree};

/// Blocks of four bytes, worked by hand: equal and zero blocks, a tail, and what writes and other lengths change.
pub fn blocks_worked_by_hand()
    ensures blocks { blocks_in (toy_tree (1 ∷ 2 ∷ 0 ∷ 0 ∷ 0 ∷ 0 ∷ 0 ∷ 0 ∷ 5 ∷ []) (1 ∷ 2 ∷ [])) ≡ (1 ∷ 2 ∷ []) ∷ (5 ∷ []) ∷ (1 ∷ 2 ∷ []) ∷ [] }
    ensures occurring { occurring (([], 7 ∷ []) ∷ []) (toy_tree [] (9 ∷ [])) [] ≡ (7 ∷ []) ∷ (9 ∷ []) ∷ [] }
    ensures colliding { bytes_of (contents_of toy_digest ((1 ∷ 3 ∷ []) ∷ (2 ∷ 2 ∷ []) ∷ [])) (toy_digest (2 ∷ 2 ∷ [])) ≡ Some (1 ∷ 3 ∷ []) }
    ensures form { form_for toy_digest (1 ∷ 3 ∷ 0 ∷ 0 ∷ []) ≡ Some (2 ∷ 4 ∷ [], 2) }
    ensures zeros { form_for toy_digest (0 ∷ 0 ∷ []) ≡ None }
    // A file of 3 bytes whose only stored form has 4 has a tail; one whose form has 3 has none, nor has an empty file.
    ensures tail { tail_of 4 3 (λ n. 4) ≡ 0 ∷ [] }
    ensures no_tail { tail_of 4 3 (λ n. 3) ++ tail_of 4 0 (λ n. 4) ≡ [] }
    // A write past the end of a file with a tail changes the tail too; one within the file does not.
    ensures past { blocks_of_write 4 9 2 3 (λ n. 4) ≡ 0 ∷ 2 ∷ [] }
    ensures within { blocks_of_write 4 3 6 11 (λ n. 4) ≡ 0 ∷ 1 ∷ 2 ∷ [] }
    ensures needed { needed_by_write 4 3 6 (0 ∷ 1 ∷ 2 ∷ []) ≡ 0 ∷ 2 ∷ [] }
    // A length within a block changes it, a length at its end does not, but for a tail before it.
    ensures cut { blocks_of_resize 4 2 11 (λ n. 4) ≡ 0 ∷ [] }
    ensures even { blocks_of_resize 4 8 11 (λ n. 4) ≡ [] }
    ensures longer { blocks_of_resize 4 8 3 (λ n. 4) ≡ 0 ∷ [] }
    ensures both { blocks_of_resize 4 9 3 (λ n. 4) ≡ 0 ∷ 2 ∷ [] }
{}

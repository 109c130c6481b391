//! Which blocks a change of a file leaves alone.
ghost use Rattle.std.specs.Prelude.{◌≡◌, ℕ, ◌*◌, ◌<◌, ◌≤◌, ◌==◌, List, length, false};
ghost use Rattle.std.specs.List.{list_any};
ghost use Rattle.block_math.specs.Changes.{written_at, resized};
ghost use Rattle.core_model.specs.Changes.{IsLeft, blocks_of_write, blocks_of_resize};

/// A write and another length leave every block alone that they are not said to change. Blocks past the end of the file have no
/// stored form.
pub fn other_blocks_are_left()
    ensures written { (size off n : ℕ) (new bytes : List ℕ) (stored : ℕ → ℕ) → 0 < size → 0 < length new
        → ((m : ℕ) → length bytes ≤ m * size → stored m ≡ 0)
        → list_any (λ m. m == n) (blocks_of_write size off (length new) (length bytes) stored) ≡ false → IsLeft size n stored bytes (written_at off new bytes) }
    ensures resized { (size longer n : ℕ) (bytes : List ℕ) (stored : ℕ → ℕ) → 0 < size
        → ((m : ℕ) → length bytes ≤ m * size → stored m ≡ 0)
        → list_any (λ m. m == n) (blocks_of_resize size longer (length bytes) stored) ≡ false → IsLeft size n stored bytes (resized longer bytes) }
{}

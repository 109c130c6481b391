//! Places of a file that name other blocks, which were counted before.
ghost use Rattle.std.specs.Prelude.{◌≡◌, ℕ, ◌==◌, List, [], false, IsTrue, Option, option_and_then, option_map, Some, Contains};
ghost use Rattle.std.specs.List.{list_all};
ghost use Rattle.s3_rows.specs.Rows.{Parameters};
ghost use Rattle.s3_rows.specs.Tables.{Tables};
ghost use Rattle.s3_rows.specs.Batches.{tables_after};
ghost use Rattle.s3_rows.specs.Selections.{block_at};
ghost use Rattle.s3_rows.specs.Validity.{IsValid, differ, has_inode, is_in_file, is_regular};
ghost use Rattle.tree_rows.specs.Spots.{form_at, form_of_row};
ghost use Rattle.ref_counts.specs.Links.{AreRowsOf};
ghost use Rattle.block_steps.specs.Owed.{KeepsNames, OwesPlaces};
ghost use Rattle.block_steps.specs.Places.{Places, blocks_named, is_among_places, places_relinked};

use crate::owed::{places_pay_for_their_blocks, tables_that_owe_no_places_are_valid};
use crate::rows::changes_of_places_keep_names;

/// Places within a file that name other blocks, where just these blocks are owed, leave valid tables with the same names. Each has
/// the form of its block, and all other places keep theirs.
pub fn relinked_places_leave_valid_tables()
    ensures valid { (t : Tables) (p : Parameters) (inode : ℕ) (places : Places) → OwesPlaces t p (blocks_named places) → IsTrue (has_inode is_regular t inode)
        → IsTrue (list_all (λ place. is_in_file t p inode place.0) places) → IsValid (tables_after (places_relinked inode places t) t) }
    ensures names { (t : Tables) (inode : ℕ) (places : Places) → KeepsNames t (tables_after (places_relinked inode places t) t) }
    ensures rows { (t : Tables) (inode : ℕ) (places : Places) → AreRowsOf t (tables_after (places_relinked inode places t) t) }
    ensures forms { (t : Tables) (p : Parameters) (inode : ℕ) (places : Places) → OwesPlaces t p (blocks_named places) → IsTrue (has_inode is_regular t inode)
        → IsTrue (list_all (λ place. is_in_file t p inode place.0) places) → IsTrue (differ (λ a b. b.0 == a.0) places)
        → (place : ℕ × Option ℕ) → Contains places place
        → form_at (tables_after (places_relinked inode places t) t) inode place.0 ≡ option_and_then (λ id. option_map form_of_row (block_at t id)) place.1 }
    ensures elsewhere { (t : Tables) (p : Parameters) (inode other number : ℕ) (places : Places) → OwesPlaces t p (blocks_named places) → IsTrue (has_inode is_regular t inode)
        → IsTrue (list_all (λ place. is_in_file t p inode place.0) places) → is_among_places inode places other number ≡ false
        → form_at (tables_after (places_relinked inode places t) t) other number ≡ form_at t other number }
{
    changes_of_places_keep_names();
    places_pay_for_their_blocks();
    tables_that_owe_no_places_are_valid();
}

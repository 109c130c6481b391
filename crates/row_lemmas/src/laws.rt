//! Laws of batches. Each is the contract of a function without a body.
ghost use Rattle.std.specs.Prelude.{◌≡◌, ℕ, ◌+◌, ◌^◌, ◌<◌, List, ◌++◌, length, false};
ghost use Rattle.s3_rows.specs.declared.change.Change.{Change};
ghost use Rattle.s3_rows.specs.Tables.{Tables, IsOrdered};
ghost use Rattle.s3_rows.specs.Batches.{after_change, finds_row, tables_after, tables_after_all};
ghost use Rattle.s3_rows.specs.Told.{Told, with_batches};

/// Two batches one after the other do what they do joined.
pub fn batches_join()
    ensures { (first second : List Change) (t : Tables) → tables_after second (tables_after first t) ≡ tables_after (first ++ second) t }
{}

/// The tables that a keeper tells are those that it began with after its batches, one after the other, and each batch is counted.
pub fn commits_are_folded()
    ensures tables { (s : Told) (batches : List (List Change)) → (with_batches batches s).tables ≡ tables_after_all batches s.tables }
    ensures commits { (s : Told) (batches : List (List Change)) → s.commits + length batches < 2 ^ 64 → (with_batches batches s).commits ≡ s.commits + length batches }
{}

/// A change that is made twice does what it does once.
pub fn changes_may_be_repeated()
    ensures { (change : Change) (t : Tables) → after_change change (after_change change t) ≡ after_change change t }
{}

/// A delete of a key that has no row changes nothing.
pub fn absent_deletes_change_nothing()
    ensures { (change : Change) (t : Tables) → finds_row change t ≡ false → after_change change t ≡ t }
{}

/// The rows of each table stay in the order of its key.
pub fn batches_keep_order()
    ensures { (batch : List Change) (t : Tables) → IsOrdered t → IsOrdered (tables_after batch t) }
{}

//! How often rows name numbers.
ghost use Rattle.std.specs.Prelude.{◌≡◌, ℕ, ◌+◌, ◌==◌, Bool, OnOk, count_by, if◌then◌else◌};
ghost use Rattle.fsck_tables.specs.Tally.{tally_at, is_of};

use std::alloc::{AllocError, Global};
use std::collections::BTreeMap;

/// How often each number was counted.
#[derive(Drop)]
pub(crate) struct Tally {
    counts: BTreeMap<u64, u64>,
}

impl Tally {
    /// No number was counted.
    pub(crate) fn new(alloc: Global) -> Self
        ensures { (id : ℕ) → tally_at result id ≡ 0 }
    {
        Tally {
            counts: BTreeMap::new(alloc),
        }
    }

    /// How often the number was counted.
    pub(crate) fn of(&self, id: u64) -> u64
        ensures { result ≡ tally_at self.now id }
    {
        match self.counts.get(&id) {
            Some(count) => *count,
            None => 0,
        }
    }

    /// Counts a number once more. No memory has so many rows that a count would not fit.
    fn add(&mut self, id: u64) -> Result<(), AllocError>
        ensures { OnOk result ((q : ℕ) → tally_at self.new q ≡ tally_at self.old q + (if id == q then 1 else 0)) }
    {
        let Some(count) = self.of(id).checked_add(1) else {
            return Err(AllocError);
        };
        self.counts.insert(id, count)?;
        Ok(())
    }
}

/// The number that a row is counted for, if any.
pub(crate) trait Counted<R> {
    /// Whether the row is counted for a number.
    ghost counts: { Self → ℕ → R → Bool };

    fn number(&self, row: &R) -> Option<u64>
        ensures { (id : ℕ) → counts self.now id row.now ≡ is_of result id };
}

/// Counts the rows.
pub(crate) fn tally_rows<R, C: Counted<R>>(
    counted: &C,
    rows: &[R],
    tally: &mut Tally,
) -> Result<(), AllocError>
    ensures { OnOk result ((id : ℕ) → tally_at tally.new id ≡ tally_at tally.old id + count_by (C.counts counted.now id) rows.now) }
{
    for row in rows {
        if let Some(id) = counted.number(row) {
            tally.add(id)?;
        }
    }
    Ok(())
}

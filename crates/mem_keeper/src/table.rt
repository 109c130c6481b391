//! Rows by their keys in a map. A key may be held for a row to come, so that a put of it takes no memory.
ghost use Rattle.std.specs.Prelude.{◌≡◌, ◌++◌, ◌+◌, ◌≤◌, [], filter, take, Bool, IsTrue, IfOk, OnOk, IfSome, IsSome, Option, option_map};
ghost use Rattle.std.specs.BTreeMap.{get};
ghost use Rattle.std.specs.declared.cmp.Ordering.TheVariants.{Equal};
ghost use Rattle.std.specs.BTreeMap.Range.{IsLeBy, IsLtBy, range_contains};
ghost use Rattle.std.specs.Range.Bound.{IsForward};
ghost use Rattle.std.specs.List.{cons_option};
ghost use Rattle.std.specs.Vec.{vec_len};
ghost use Rattle.s3_rows.specs.Keyed.{Order, rises, put, without, row_at};
ghost use Rattle.mem_keeper.specs.Table.{rows_of, IsTable, KeepsPlaces};

use crate::keyed::Keyed;
use std::alloc::{AllocError, Global};
use std::collections::BTreeMap;
use std::ops::Bound;

/// The row of a key.
pub(crate) fn row_in<R: Keyed>(table: &BTreeMap<R::Key, Option<R>>, key: R::Key) -> Option<&R>
    requires { IsTable (record { compare = R.Key.cmp; key = R.key }) table.now.entries }
    ensures { option_map (λ r. r.now) result ≡ row_at (record { compare = R.Key.cmp; key = R.key }) key (rows_of table.now.entries) }
{
    match table.get(&key) {
        Some(held) => held.as_ref(),
        None => None,
    }
}

/// Holds a key for a row.
pub(crate) fn hold_place<R: Keyed>(
    table: &mut BTreeMap<R::Key, Option<R>>,
    key: R::Key,
) -> Result<(), AllocError>
    requires { IsTable (record { compare = R.Key.cmp; key = R.key }) table.old.entries }
    ensures table { IsTable (record { compare = R.Key.cmp; key = R.key }) table.new.entries }
    ensures rows { rows_of table.new.entries ≡ rows_of table.old.entries }
    ensures held { OnOk result (IsSome (get R.Key.cmp table.new key)) }
    ensures kept { KeepsPlaces R.Key.cmp table.old table.new }
{
    if table.contains_key(&key) {
        return Ok(());
    }
    match table.insert(key, None) {
        Ok(_) => Ok(()),
        Err(_) => Err(AllocError),
    }
}

/// Puts a row at its key, which is there, and gives the row that was at it.
pub(crate) fn put_in<R: Keyed>(table: &mut BTreeMap<R::Key, Option<R>>, row: R) -> Option<R>
    requires table { IsTable (record { compare = R.Key.cmp; key = R.key }) table.old.entries }
    requires held { IsSome (get R.Key.cmp table.old (R.key row)) }
    ensures table { IsTable (record { compare = R.Key.cmp; key = R.key }) table.new.entries }
    ensures rows { rows_of table.new.entries ≡ put (record { compare = R.Key.cmp; key = R.key }) row (rows_of table.old.entries) }
    ensures fits { R.fits row }
    ensures kept { KeepsPlaces R.Key.cmp table.old table.new }
{
    match table.insert(row.key(), Some(row)) {
        Ok(Some(old)) => old,
        _ => None,
    }
}

/// Puts a row at its key, which is there.
pub(crate) fn put_row<R: Keyed>(table: &mut BTreeMap<R::Key, Option<R>>, row: R)
    requires table { IsTable (record { compare = R.Key.cmp; key = R.key }) table.old.entries }
    requires held { IsSome (get R.Key.cmp table.old (R.key row)) }
    ensures table { IsTable (record { compare = R.Key.cmp; key = R.key }) table.new.entries }
    ensures rows { rows_of table.new.entries ≡ put (record { compare = R.Key.cmp; key = R.key }) row (rows_of table.old.entries) }
    ensures fits { R.fits row }
    ensures kept { KeepsPlaces R.Key.cmp table.old table.new }
{
    let _ = put_in(table, row);
}

/// Takes the row at a key and leaves the key.
pub(crate) fn take_from<R: Keyed>(table: &mut BTreeMap<R::Key, Option<R>>, key: R::Key) -> Option<R>
    requires { IsTable (record { compare = R.Key.cmp; key = R.key }) table.old.entries }
    ensures table { IsTable (record { compare = R.Key.cmp; key = R.key }) table.new.entries }
    ensures rows { rows_of table.new.entries ≡ without (record { compare = R.Key.cmp; key = R.key }) key (rows_of table.old.entries) }
    ensures kept { KeepsPlaces R.Key.cmp table.old table.new }
{
    if !table.contains_key(&key) {
        return None;
    }
    match table.insert(key, None) {
        Ok(Some(old)) => old,
        _ => None,
    }
}

/// Takes the row at a key away and leaves the key.
pub(crate) fn remove_row<R: Keyed>(table: &mut BTreeMap<R::Key, Option<R>>, key: R::Key)
    requires { IsTable (record { compare = R.Key.cmp; key = R.key }) table.old.entries }
    ensures table { IsTable (record { compare = R.Key.cmp; key = R.key }) table.new.entries }
    ensures rows { rows_of table.new.entries ≡ without (record { compare = R.Key.cmp; key = R.key }) key (rows_of table.old.entries) }
    ensures kept { KeepsPlaces R.Key.cmp table.old table.new }
{
    let _ = take_from(table, key);
}

/// Lets go of a key that has no row.
pub(crate) fn drop_place<R: Keyed>(table: &mut BTreeMap<R::Key, Option<R>>, key: R::Key)
    requires { IsTable (record { compare = R.Key.cmp; key = R.key }) table.old.entries }
    ensures table { IsTable (record { compare = R.Key.cmp; key = R.key }) table.new.entries }
    ensures rows { rows_of table.new.entries ≡ rows_of table.old.entries }
{
    match table.get(&key) {
        Some(None) => {}
        _ => return,
    }
    let _ = table.remove(&key);
}

// Adds a copy of a row that is there.
fn copy_held<R: Keyed>(rows: &mut Vec<R>, held: &Option<R>) -> Result<(), AllocError>
    ensures rows { OnOk result (rows.new.items ≡ rows.old.items ++ cons_option held.now []) }
    ensures len { OnOk result (vec_len rows.new ≤ vec_len rows.old + 1) }
{
    if let Some(row) = held {
        rows.push(row.copy()?)?;
    }
    Ok(())
}

/// Copies of the first `max` rows whose keys lie between two bounds.
pub(crate) fn rows_within<R: Keyed>(
    alloc: Global,
    table: &BTreeMap<R::Key, Option<R>>,
    low: Bound<R::Key>,
    high: Bound<R::Key>,
    max: usize,
) -> Result<Vec<R>, AllocError>
    requires table { IsTable (record { compare = R.Key.cmp; key = R.key }) table.now.entries }
    requires forward { IsForward (IsLeBy R.Key.cmp) (IsLtBy R.Key.cmp) low high }
    ensures { IfOk result (λ v. v.items ≡ take max (filter (λ r. range_contains R.Key.cmp low high (R.key r)) (rows_of table.now.entries))) }
{
    let mut rows = Vec::new(alloc);
    let mut entries = table.range((low, high));
    while rows.len() < max {
        match entries.next() {
            Some((_, held)) => copy_held(&mut rows, held)?,
            None => break,
        }
    }
    Ok(rows)
}

/// Holds a key in a set of keys.
pub(crate) fn hold_key<K: Ord + Drop>(keys: &mut BTreeMap<K, ()>, key: K) -> Result<(), AllocError>
    ensures held { OnOk result (IsSome (get K.cmp keys.new key)) }
    ensures kept { KeepsPlaces K.cmp keys.old keys.new }
{
    if keys.contains_key(&key) {
        return Ok(());
    }
    match keys.insert(key, ()) {
        Ok(_) => Ok(()),
        Err(_) => Err(AllocError),
    }
}

/// Lets go of a key of a set of keys.
pub(crate) fn drop_key<K: Ord + Drop>(keys: &mut BTreeMap<K, ()>, key: K)
    ensures { (q : K) → (K.cmp key q ≡ Equal → ⊥) → IsSome (get K.cmp keys.old q) → IsSome (get K.cmp keys.new q) }
{
    let _ = keys.remove(&key);
}

/// A test of rows.
pub(crate) trait Sought<R> {
    ghost passes: { Self → R → Bool };

    fn passes(&self, row: &R) -> bool
        ensures { result ≡ passes self.now row.now };
}

// Adds a copy of a row that is there and passes the test.
fn copy_sought<R: Keyed, S: Sought<R>>(
    rows: &mut Vec<R>,
    held: &Option<R>,
    sought: &S,
) -> Result<(), AllocError>
    ensures { OnOk result (rows.new.items ≡ rows.old.items ++ filter (S.passes sought.now) (cons_option held.now [])) }
{
    if let Some(row) = held {
        if sought.passes(row) {
            rows.push(row.copy()?)?;
        }
    }
    Ok(())
}

/// Copies of all rows that pass a test and whose keys lie between two bounds.
pub(crate) fn rows_passing<R: Keyed, S: Sought<R>>(
    alloc: Global,
    table: &BTreeMap<R::Key, Option<R>>,
    low: Bound<R::Key>,
    high: Bound<R::Key>,
    sought: &S,
) -> Result<Vec<R>, AllocError>
    requires table { IsTable (record { compare = R.Key.cmp; key = R.key }) table.now.entries }
    requires forward { IsForward (IsLeBy R.Key.cmp) (IsLtBy R.Key.cmp) low high }
    ensures { IfOk result (λ v. v.items ≡ filter (S.passes sought.now) (filter (λ r. range_contains R.Key.cmp low high (R.key r)) (rows_of table.now.entries))) }
{
    let mut rows = Vec::new(alloc);
    let mut entries = table.range((low, high));
    while let Some((_, held)) = entries.next() {
        copy_sought(&mut rows, held, sought)?;
    }
    Ok(rows)
}

// Adds a row to a table.
fn add_row<R: Keyed>(table: &mut BTreeMap<R::Key, Option<R>>, row: R) -> Result<(), AllocError>
    requires { IsTable (record { compare = R.Key.cmp; key = R.key }) table.old.entries }
    ensures table { IsTable (record { compare = R.Key.cmp; key = R.key }) table.new.entries }
    ensures rows { OnOk result (rows_of table.new.entries ≡ put (record { compare = R.Key.cmp; key = R.key }) row (rows_of table.old.entries)) }
{
    hold_place(table, row.key())?;
    let _ = put_in(table, row);
    Ok(())
}

/// A table of copies of these rows.
pub(crate) fn table_of<R: Keyed>(
    alloc: Global,
    rows: &[R],
) -> Result<BTreeMap<R::Key, Option<R>>, AllocError>
    requires { IsTrue (rises (record { compare = R.Key.cmp; key = R.key }) rows.now) }
    ensures table { IfOk result (λ t. IsTable (record { compare = R.Key.cmp; key = R.key }) t.entries) }
    ensures rows { IfOk result (λ t. rows_of t.entries ≡ rows.now) }
{
    let mut table = BTreeMap::new(alloc);
    let mut left = rows.len();
    while left > 0 {
        left -= 1;
        add_row(&mut table, rows[left].copy()?)?;
    }
    Ok(table)
}

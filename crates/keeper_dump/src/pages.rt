//! Rows of one table, read from a keeper page by page.
ghost use Rattle.std.specs.Prelude.{◌≡◌, ◌++◌, ℕ, length, Some, IfOk, OnOk, IsTrue};
ghost use Rattle.std.specs.List.{filter_map};
ghost use Rattle.s3_base.specs.Faults.{HasCause};
ghost use Rattle.s3_rows.specs.Told.{Told, IfTold, has_failed};
ghost use Rattle.keeper_dump.specs.Part.{keys_rise};
ghost use Rattle.keeper_dump.specs.Kept.{IsKept, IsStart, IsReadPage, last_key};

use crate::kept_rows::KeptRow;
use s3_base::Sequence;
use s3_rows::{Keeper, KeeperFault, RowKey, RowList};
use std::alloc::{AllocError, Global};

/// How many rows are asked for at once.
const PAGE: u32 = 256;

/// The key of the last row, or the start.
fn key_of_last<T: KeptRow>(rows: &[T]) -> RowKey
    ensures { result ≡ last_key T.format.key rows.now }
{
    match rows.last() {
        Some(row) => row.key(),
        None => RowKey::Start,
    }
}

/// Appends the rows of a page.
fn keep_rows<T: KeptRow>(rows: &mut Sequence<T>, page: RowList) -> Result<(), AllocError>
    ensures { OnOk result (rows.new ≡ rows.old ++ filter_map T.kept.unwrap page) }
{
    for row in page.into_vec() {
        if let Some(row) = T::from_row(row) {
            rows.push(row)?;
        }
    }
    Ok(())
}

/// Appends the next page of rows, and says whether it was the last one.
fn read_page<K: Keeper, T: KeptRow>(
    keeper: &mut K,
    rows: &mut Sequence<T>,
) -> Result<bool, KeeperFault>
    requires { IsKept T.format.key T.kept }
    ensures order { OnOk result (IsTrue (keys_rise T.format.key rows.old) → IsTrue (keys_rise T.format.key rows.new)) }
    ensures read { IfOk result (λ last. IfTold (K.told keeper.old) (λ t. IsTrue (keys_rise T.format.key (T.kept.listed t))
        → IsStart rows.old (T.kept.listed t) → IsReadPage last rows.new (T.kept.listed t))) }
    ensures same { K.told keeper.new ≡ K.told keeper.old }
    ensures cause { HasCause (K.faults keeper.old) (K.faults keeper.new) (has_failed result) }
{
    let after = key_of_last(rows.as_slice());
    let page = keeper.page(T::table(), &after, PAGE)?;
    let last = page.len() == 0;
    keep_rows(rows, page)?;
    Ok(last)
}

/// All rows of a table.
pub fn read_rows<K: Keeper, T: KeptRow>(
    alloc: Global,
    keeper: &mut K,
) -> Result<Sequence<T>, KeeperFault>
    requires { IsKept T.format.key T.kept }
    ensures order { IfOk result (λ l. IsTrue (keys_rise T.format.key l)) }
    ensures read { (s : Told) → K.told keeper.old ≡ Some s → IsTrue (keys_rise T.format.key (T.kept.listed s.tables)) → IfOk result (λ l. l ≡ T.kept.listed s.tables) }
    ensures same { K.told keeper.new ≡ K.told keeper.old }
    ensures cause { HasCause (K.faults keeper.old) (K.faults keeper.new) (has_failed result) }
{
    let mut rows = Sequence::new(alloc);
    for _page in 0..u64::MAX {
        if read_page(keeper, &mut rows)? {
            return Ok(rows);
        }
    }
    Err(KeeperFault::Memory)
}

//! Tables: a number of rows, and the rows, whose keys rise.
ghost use Rattle.std.specs.Prelude.{◌≡◌, ◌++◌, ◌≤◌, ◌<◌, ◌^◌, flat_map, length, Result, IfOk, OnOk, IsTrue};
ghost use Rattle.frame_fields.specs.declared.fault.FrameFault.{FrameFault};
ghost use Rattle.frame_fields.specs.Format.{Rest, Fails, Gives};
ghost use Rattle.frame_fields.specs.Unread.{rest_of};
ghost use Rattle.keeper_dump.specs.Part.{RowFormat, Answers, Refuses, is_key_past, judged, keys_rise, row_after, rows_after, table, unless_low};

use crate::DumpFault;
use frame_fields::FrameFault;
use frame_fields::fields::{Found, Unread, u64_of};
use frame_fields::writers::{Put, put_u64};
use s3_base::{ByteList, Sequence};
use s3_rows::RowKey;
use std::alloc::Global;

/// A row of one of the tables, as a dump has it.
pub trait TableRow: Drop {
    /// Its fields and its key.
    ghost format: { RowFormat Self };

    fn key(&self) -> RowKey
        ensures { result ≡ format.key self.now };

    /// The key in front, without the rules of its fields.
    fn front(unread: Unread<'_>) -> Found<'_, RowKey>
        ensures { Gives (λ x. (x.0, rest_of x.1)) result (format.front (rest_of unread.entry)) };

    fn read(alloc: Global, unread: Unread<'_>) -> Found<'_, Self>
        ensures { Gives (λ x. (x.0, rest_of x.1)) result (format.fields.read (rest_of unread.entry)) };

    fn put(&self, out: &mut ByteList) -> Put
        ensures { OnOk result (out.new ≡ out.old ++ format.fields.spell self.now) };
}

/// A value and where the reader stands behind it, or the first fault of the dump.
pub type Read<'a, T> = Result<(T, Unread<'a>), DumpFault>;

/// Whether a key comes after the one before.
fn comes_past(before: RowKey, key: RowKey) -> bool
    ensures { result ≡ is_key_past before key }
{
    match (before, key) {
        (RowKey::Start, _) => true,
        (RowKey::One(a), RowKey::One(b)) => a < b,
        (RowKey::Two(a, b), RowKey::Two(c, d)) => (a, b) < (c, d),
        _ => false,
    }
}

/// A fault of the row that begins here, unless its key is all there and does not come after the one before.
fn fault_unless_low<T: TableRow>(before: RowKey, unread: Unread<'_>, fault: DumpFault) -> DumpFault
    ensures { Refuses result (unless_low {A = T × Rest} before (T.format.front (rest_of unread.entry)) unread.entry.place fault) }
{
    match T::front(unread) {
        Ok((key, _)) => {
            if comes_past(before, key) {
                return fault;
            }
            DumpFault::OutOfOrder(unread.place)
        }
        Err(FrameFault::Memory) => DumpFault::Memory,
        Err(_) => fault,
    }
}

/// The fault of the row that begins here, whose fields cannot be read.
fn fault_of<T: TableRow>(before: RowKey, unread: Unread<'_>, fault: FrameFault) -> DumpFault
    ensures { (read : Result (T × Rest) FrameFault) → Fails fault read → Refuses result (judged T.format before (rest_of unread.entry) read) }
{
    match fault {
        FrameFault::Short => fault_unless_low::<T>(before, unread, DumpFault::Short),
        FrameFault::Bad(place) => {
            if place == unread.place {
                return DumpFault::Bad(place);
            }
            fault_unless_low::<T>(before, unread, DumpFault::Bad(place))
        }
        FrameFault::Memory => DumpFault::Memory,
    }
}

/// The row in front, behind one with the key before.
fn row_of<T: TableRow>(alloc: Global, before: RowKey, unread: Unread<'_>) -> Read<'_, T>
    ensures { Answers (λ x. (x.0, rest_of x.1)) result (row_after T.format before (rest_of unread.entry)) }
{
    match T::read(alloc, unread) {
        Ok((row, after)) => {
            if !comes_past(before, row.key()) {
                return Err(DumpFault::OutOfOrder(unread.place));
            }
            Ok((row, after))
        }
        Err(fault) => Err(fault_of::<T>(before, unread, fault)),
    }
}

/// So many rows, whose keys rise.
fn rows_of<T: TableRow>(alloc: Global, count: u64, unread: Unread<'_>) -> Read<'_, Sequence<T>>
    ensures read { Answers (λ x. (x.0, rest_of x.1)) result (rows_after T.format count RowKey.Start (rest_of unread.entry)) }
    ensures order { IfOk result (λ x. IsTrue (keys_rise T.format.key x.0)) }
{
    let mut rows = Sequence::new(alloc);
    let mut rest = unread;
    let mut before = RowKey::Start;
    for _taken in 0..count {
        let (row, after) = row_of::<T>(alloc, before, rest)?;
        before = row.key();
        rows.push(row)?;
        rest = after;
    }
    Ok((rows, rest))
}

/// A number of rows, and the rows, whose keys rise.
#[tactic(auto, unfolding(crate::specs::Part::table))]
pub fn table_of<T: TableRow>(alloc: Global, unread: Unread<'_>) -> Read<'_, Sequence<T>>
    ensures read { Answers (λ x. (x.0, rest_of x.1)) result ((table T.format).read (rest_of unread.entry)) }
    ensures order { IfOk result (λ x. IsTrue (keys_rise T.format.key x.0)) }
{
    let (count, unread) = u64_of(unread)?;
    rows_of(alloc, count, unread)
}

/// Writes the number of the rows, and the rows.
#[tactic(auto, unfolding(crate::specs::Part::table))]
pub fn put_table<T: TableRow>(out: &mut ByteList, rows: &Sequence<T>) -> Put
    ensures { OnOk result (out.new ≡ out.old ++ (table T.format).spell rows.now) }
{
    put_u64(out, rows.len() as u64)?;
    for row in rows.as_slice() {
        row.put(out)?;
    }
    Ok(())
}

//! The columns of a row of the file, each with the range that its field has.
ghost use Rattle.std.specs.Prelude.{◌≡◌, ◌≢◌, ◌↔◌, ℕ, List, ◌≤◌, ◌<◌, ◌^◌, length, IfOk, IfErr, OnOk, OnErr, All, IsTrue};
ghost use Rattle.sqlite_value.specs.declared.value.Value.TheVariants.{Blob};
ghost use Rattle.sqlite_value.specs.Order.{column};
ghost use Rattle.s3_rows.specs.Rows.{IsId, IsNext, IsText};
ghost use Rattle.sqlite_rows.specs.Values.{number};

use crate::faults::fault_of;
use s3_base::{ByteList, LIMIT};
use s3_rows::KeeperFault;
use sqlite::Row;

/// A number from `low` to `high`.
pub fn number_in(row: &Row, at: usize, low: u64, high: u64) -> Result<u64, KeeperFault>
    ensures read { IfOk result (λ n. column row.now at ≡ number n) }
    ensures least { IfOk result (λ n. low ≤ n) }
    ensures most { IfOk result (λ n. n ≤ high) }
    ensures refused { result ≡ Err KeeperFault.Failed → (n : ℕ) → low ≤ n → n ≤ high → at < length row.now → column row.now at ≢ number n }
{
    match row.get::<u64>(at) {
        Ok(number) if low <= number && number <= high => Ok(number),
        Ok(_) => Err(KeeperFault::Failed),
        Err(error) => Err(fault_of(error)),
    }
}

/// A number from `low` to `high` that four bytes have room for.
pub(crate) fn small_in(row: &Row, at: usize, low: u32, high: u32) -> Result<u32, KeeperFault>
    ensures read { IfOk result (λ n. column row.now at ≡ number n) }
    ensures least { IfOk result (λ n. low ≤ n) }
    ensures most { IfOk result (λ n. n ≤ high) }
    ensures refused { result ≡ Err KeeperFault.Failed → (n : ℕ) → low ≤ n → n ≤ high → at < length row.now → column row.now at ≢ number n }
{
    let number = number_in(row, at, low as u64, high as u64)?;
    Ok(number as u32)
}

/// Bytes, at most `limit` of them.
pub fn bytes_in(row: &Row, at: usize, limit: usize) -> Result<ByteList, KeeperFault>
    ensures read { IfOk result (λ b. column row.now at ≡ Blob b) }
    ensures most { IfOk result (λ b. length b ≤ limit) }
    ensures refused { result ≡ Err KeeperFault.Failed → (b : List ℕ) → length b ≤ limit → at < length row.now → column row.now at ≢ Blob b }
{
    match row.get::<Vec<u8>>(at) {
        Ok(bytes) if bytes.len() <= limit => Ok(ByteList::from(bytes)),
        Ok(_) => Err(KeeperFault::Failed),
        Err(error) => Err(fault_of(error)),
    }
}

// Whether no byte is 0.
fn has_no_zero(bytes: &[u8]) -> bool
    ensures { IsTrue result ↔ All (λ b. b ≢ 0) bytes.now }
{
    bytes.iter().all(|byte| *byte != 0)
}

/// Between one and `limit` bytes, none of them 0.
pub fn text_in(row: &Row, at: usize, limit: usize) -> Result<ByteList, KeeperFault>
    ensures read { IfOk result (λ b. column row.now at ≡ Blob b) }
    ensures text { IfOk result (IsText limit) }
    ensures refused { result ≡ Err KeeperFault.Failed → (b : List ℕ) → IsText limit b → at < length row.now → column row.now at ≢ Blob b }
{
    let bytes = bytes_in(row, at, limit)?;
    if bytes.is_empty() || !has_no_zero(bytes.as_slice()) {
        return Err(KeeperFault::Failed);
    }
    Ok(bytes)
}

/// The number of an inode, a name, a block or an object.
pub(crate) fn id_in(row: &Row, at: usize) -> Result<u64, KeeperFault>
    ensures read { IfOk result (λ n. column row.now at ≡ number n) }
    ensures range { IfOk result IsId }
    ensures refused { result ≡ Err KeeperFault.Failed → (n : ℕ) → IsId n → at < length row.now → column row.now at ≢ number n }
{
    number_in(row, at, 1, LIMIT - 1)
}

/// A time, a count or a generation.
pub(crate) fn count_in(row: &Row, at: usize) -> Result<u64, KeeperFault>
    ensures read { IfOk result (λ n. column row.now at ≡ number n) }
    ensures range { IfOk result (λ n. n < 2 ^ 62) }
    ensures refused { result ≡ Err KeeperFault.Failed → (n : ℕ) → n < 2 ^ 62 → at < length row.now → column row.now at ≢ number n }
{
    number_in(row, at, 0, LIMIT - 1)
}

/// A number that comes next, or a version.
pub(crate) fn next_in(row: &Row, at: usize) -> Result<u64, KeeperFault>
    ensures read { IfOk result (λ n. column row.now at ≡ number n) }
    ensures range { IfOk result IsNext }
    ensures refused { result ≡ Err KeeperFault.Failed → (n : ℕ) → IsNext n → at < length row.now → column row.now at ≢ number n }
{
    number_in(row, at, 1, LIMIT)
}

/// The number of a block in its file.
pub(crate) fn blockno_in(row: &Row, at: usize) -> Result<u64, KeeperFault>
    ensures read { IfOk result (λ n. column row.now at ≡ number n) }
    ensures range { IfOk result (λ n. n < 2 ^ 38) }
    ensures refused { result ≡ Err KeeperFault.Failed → (n : ℕ) → n < 2 ^ 38 → at < length row.now → column row.now at ≢ number n }
{
    number_in(row, at, 0, (1 << 38) - 1)
}

/// A row of so many columns.
pub(crate) fn check_width(row: &Row, width: usize) -> Result<(), KeeperFault>
    ensures ok { OnOk result (length row.now ≡ width) }
    ensures err { OnErr result (length row.now ≢ width) }
    ensures kind { IfErr result (λ e. e ≡ KeeperFault.Failed) }
{
    if row.column_count() == width {
        Ok(())
    } else {
        Err(KeeperFault::Failed)
    }
}

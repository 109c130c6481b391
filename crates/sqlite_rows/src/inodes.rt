//! Inodes.
ghost use Rattle.std.specs.Prelude.{◌≡◌, ◌≢◌, ℕ, ◌≤◌, ◌<◌, ◌^◌, length, IfOk, map};
ghost use Rattle.sqlite_value.specs.Value.{owned};
ghost use Rattle.sqlite_value.specs.Order.{column};
ghost use Rattle.s3_base.specs.declared.node_kind.Kind.{Kind};
ghost use Rattle.s3_rows.specs.Rows.{Inode, IsInode};
ghost use Rattle.sqlite_rows.specs.Values.{IsInodeRow, number, file_mode};

use crate::fields::{check_width, count_in, id_in, number_in, small_in};
use s3_base::Kind;
use s3_rows::{InodeRow, KeeperFault};
use sqlite::Row;
use sqlite_value::value::ValueRef;

/// The greatest type and mode.
const MAX_MODE: u64 = 0o127777;

/// The longest file, in bytes.
const MAX_FILE: u64 = 1 << 50;

/// The type and the permission bits, as `stat` has them.
fn file_mode(kind: Kind, mode: u16) -> u64
    requires { mode ≤ 4095 }
    ensures { result ≡ file_mode kind mode }
{
    let bits = match kind {
        Kind::Directory => 0o040000,
        Kind::Regular => 0o100000,
        Kind::Link => 0o120000,
    };
    bits + mode as u64
}

/// The kind and the permission bits of a type and mode.
fn kind_and_mode(number: u64) -> Result<(Kind, u16), KeeperFault>
    ensures read { IfOk result (λ x. number ≡ file_mode x.0 x.1) }
    ensures range { IfOk result (λ x. x.1 ≤ 4095) }
    ensures refused { result ≡ Err KeeperFault.Failed → (kind : Kind) (mode : ℕ) → mode ≤ 4095 → number ≢ file_mode kind mode }
{
    let mode = (number % 4096) as u16;
    match number / 4096 {
        4 => Ok((Kind::Directory, mode)),
        8 => Ok((Kind::Regular, mode)),
        10 => Ok((Kind::Link, mode)),
        _ => Err(KeeperFault::Failed),
    }
}

// The kind and the permission bits of a type and mode.
fn mode_in(row: &Row, at: usize) -> Result<(Kind, u16), KeeperFault>
    ensures read { IfOk result (λ x. column row.now at ≡ number (file_mode x.0 x.1)) }
    ensures range { IfOk result (λ x. x.1 ≤ 4095) }
    ensures refused { result ≡ Err KeeperFault.Failed → (kind : Kind) (mode : ℕ) → mode ≤ 4095 → at < length row.now → column row.now at ≢ number (file_mode kind mode) }
{
    let bits = number_in(row, at, 0, MAX_MODE)?;
    kind_and_mode(bits)
}

/// The values of an inode.
pub fn inode_values(row: &InodeRow) -> [ValueRef<'static>; 9]
    ensures { IsInodeRow (map owned result) row.now }
{
    [
        ValueRef::Int(row.id as i64),
        ValueRef::Int(file_mode(row.kind, row.mode) as i64),
        ValueRef::Int(row.uid as i64),
        ValueRef::Int(row.gid as i64),
        ValueRef::Int(row.mtime as i64),
        ValueRef::Int(row.ctime as i64),
        ValueRef::Int(row.refcount as i64),
        ValueRef::Int(row.size as i64),
        ValueRef::Int(if row.locked { 1 } else { 0 }),
    ]
}

/// The inode that has these values.
pub fn inode_of(row: &Row) -> Result<InodeRow, KeeperFault>
    ensures read { IfOk result (IsInodeRow row.now) }
    ensures refused { result ≡ Err KeeperFault.Failed → (r : Inode) → IsInode r → r.uid < 2 ^ 32 → r.gid < 2 ^ 32 → IsInodeRow row.now r → ⊥ }
{
    check_width(row, 9)?;
    let (kind, mode) = mode_in(row, 1)?;
    Ok(InodeRow {
        id: id_in(row, 0)?,
        kind,
        mode,
        uid: small_in(row, 2, 0, u32::MAX)?,
        gid: small_in(row, 3, 0, u32::MAX)?,
        mtime: count_in(row, 4)?,
        ctime: count_in(row, 5)?,
        refcount: count_in(row, 6)?,
        size: number_in(row, 7, 0, MAX_FILE)?,
        locked: number_in(row, 8, 0, 1)? == 1,
    })
}

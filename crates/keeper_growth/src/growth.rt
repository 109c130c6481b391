//! Commits of one row each, and a look-up of each row by its key.
ghost use Rattle.std.specs.Prelude.{◌≡◌, ◌<◌, ◌≤◌, ◌^◌, ℕ, true, IsSome, IfOk, OnOk, All, length, option_map, ◌∷◌, []};
ghost use Rattle.s3_rows.specs.Told.{with_batch};
ghost use Rattle.keeper_growth.specs.Letters.{IsLetter};

use s3_base::{ByteList, Kind};
use s3_rows::{Batch, Change, InodeRow, Keeper, KeeperFault, NameRow};
use std::alloc::{AllocError, Global};

/// A number that is odd, by which the order of names is not that of their ids.
const SCATTER: u64 = 0x9e37_79b9_7f4a_7c15;

/// The greatest number of rows.
pub const MOST: u64 = 1 << 61;

fn empty_file(id: u64) -> InodeRow
    requires positive { 0 < id }
    requires below { id < 2 ^ 62 }
    ensures { result.id ≡ id }
{
    InodeRow {
        id,
        kind: Kind::Regular,
        mode: 0o644,
        uid: 0,
        gid: 0,
        mtime: 0,
        ctime: 0,
        refcount: 0,
        size: 0,
        locked: false,
    }
}

/// Sixteen letters from a to p, which scatter with the number.
fn scattered(alloc: Global, id: u64) -> Result<ByteList, AllocError>
    ensures length { IfOk result (λ b. length b ≡ 16) }
    ensures letters { IfOk result (λ b. All IsLetter b) }
{
    let mut bytes = ByteList::new(alloc);
    let mut rest = id.wrapping_mul(SCATTER);
    for _ in 0..16u8 {
        bytes.push(b'a' + (rest % 16) as u8)?;
        rest /= 16;
    }
    Ok(bytes)
}

fn name_row(alloc: Global, id: u64) -> Result<NameRow, AllocError>
    requires positive { 0 < id }
    requires below { id < 2 ^ 62 }
    ensures { IfOk result (λ r. r.id ≡ id) }
{
    let name = scattered(alloc, id)?;
    Ok(NameRow {
        id,
        refcount: 1,
        name,
    })
}

/// Commits one change.
fn commit_one<K: Keeper>(alloc: Global, keeper: &mut K, change: Change) -> Result<(), KeeperFault>
    ensures { OnOk result (K.told keeper.new ≡ option_map (with_batch (change ∷ [])) (K.told keeper.old)) }
{
    let mut batch = Batch::new(alloc);
    batch.push(change)?;
    keeper.commit(&batch)
}

/// Adds an inode, and says whether it is found.
fn add_file<K: Keeper>(alloc: Global, keeper: &mut K, id: u64) -> Result<bool, KeeperFault>
    requires positive { 0 < id }
    requires below { id < 2 ^ 62 }
    ensures found { IfOk result (λ found. IsSome (K.told keeper.old) → found ≡ true) }
    ensures told { OnOk result (IsSome (K.told keeper.old) → IsSome (K.told keeper.new)) }
{
    commit_one(alloc, keeper, Change::PutInode(empty_file(id)))?;
    Ok(keeper.inode(id)?.is_some())
}

/// Adds a name, and says whether it is found by its bytes.
fn add_name<K: Keeper>(alloc: Global, keeper: &mut K, id: u64) -> Result<bool, KeeperFault>
    requires positive { 0 < id }
    requires below { id < 2 ^ 62 }
    ensures found { IfOk result (λ found. IsSome (K.told keeper.old) → found ≡ true) }
    ensures told { OnOk result (IsSome (K.told keeper.old) → IsSome (K.told keeper.new)) }
{
    let row = name_row(alloc, id)?;
    let name = row.name.clone()?;
    commit_one(alloc, keeper, Change::PutName(row))?;
    Ok(keeper.name_id(&name)?.is_some())
}

/// Adds a row, in turn an inode and a name, and says whether it is found.
fn add_row<K: Keeper>(alloc: Global, keeper: &mut K, turn: u64) -> Result<bool, KeeperFault>
    requires { turn < 2 ^ 61 }
    ensures found { IfOk result (λ found. IsSome (K.told keeper.old) → found ≡ true) }
    ensures told { OnOk result (IsSome (K.told keeper.old) → IsSome (K.told keeper.new)) }
{
    let id = turn / 2 + 1;
    if turn % 2 == 0 {
        add_file(alloc, keeper, id)
    } else {
        add_name(alloc, keeper, id)
    }
}

/// Adds so many rows, and says how many were found: all of them, where the keeper tells its tables.
pub fn grow<K: Keeper>(alloc: Global, keeper: &mut K, rows: u64) -> Result<u64, KeeperFault>
    requires { rows ≤ 2 ^ 61 }
    ensures { IfOk result (λ found. IsSome (K.told keeper.old) → found ≡ rows) }
{
    let mut found = 0;
    for turn in 0..rows {
        if add_row(alloc, keeper, turn)? {
            found += 1;
        }
    }
    Ok(found)
}

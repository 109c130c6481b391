//! What is counted over all rows of a table.
ghost use Rattle.std.specs.Prelude.{◌≡◌, IsTrue, IfOk};
ghost use Rattle.std.specs.List.{list_all};
ghost use Rattle.s3_base.specs.Faults.{HasCause};
ghost use Rattle.s3_rows.specs.Tables.{IsOrdered};
ghost use Rattle.s3_rows.specs.Selections.{rows_of};
ghost use Rattle.s3_rows.specs.Told.{IfTold, has_failed, key_of_row};
ghost use Rattle.inode_ops.specs.Tallies.{IsCounted, has_short_key, weight_of_row, with_row, with_rows};

use s3_base::Kind;
use s3_rows::{Keeper, KeeperFault, Row, RowKey, TableName};

/// How many rows are read at a time.
const PAGE: u32 = 256;

/// How many rows were counted, the sum of their weights, and the key of the last row. Numbers stand still at the end of their type.
#[derive(Clone, Copy, Debug)]
pub(crate) struct Tally {
    pub(crate) rows: u64,
    pub(crate) weight: u64,
    pub(crate) after: RowKey,
}

/// The key of a row.
fn key_of(row: &Row) -> RowKey
    ensures key { result ≡ key_of_row row.now }
    ensures short { IsTrue (has_short_key row.now) }
{
    match row {
        Row::Inode(r) => RowKey::One(r.id),
        Row::Name(r) => RowKey::One(r.id),
        Row::Content(r) => RowKey::Two(r.parent, r.name_id),
        Row::InodeBlock(r) => RowKey::Two(r.inode, r.blockno),
        Row::Block(r) => RowKey::One(r.id),
        Row::Object(r) => RowKey::One(r.id),
        Row::Target(r) => RowKey::One(r.inode),
        Row::Attr(r) => RowKey::Two(r.inode, r.name_id),
        Row::Slot(r) => RowKey::One(u64::from(r.slot)),
    }
}

/// What a row weighs: the bytes of a regular file, and 1 for an object that no block has.
fn weight_of(row: &Row) -> u64
    ensures { result ≡ weight_of_row row.now }
{
    match row {
        Row::Inode(r) => { if r.kind == Kind::Regular { r.size } else { 0 } }
        Row::Object(r) => { if r.refcount == 0 { 1 } else { 0 } }
        _ => 0,
    }
}

/// One more row is counted.
fn add_row(tally: Tally, row: &Row) -> Tally
    ensures added { result ≡ with_row tally row.now }
    ensures short { IsTrue (has_short_key row.now) }
{
    Tally {
        rows: tally.rows.saturating_add(1),
        weight: tally.weight.saturating_add(weight_of(row)),
        after: key_of(row),
    }
}

/// The rows of a page are counted.
fn add_page(tally: Tally, rows: &[Row]) -> Tally
    ensures added { result ≡ with_rows tally rows.now }
    ensures short { IsTrue (list_all has_short_key rows.now) }
{
    let mut tally = tally;
    for row in rows {
        tally = add_row(tally, row);
    }
    tally
}

/// All rows of a table are counted, page by page.
pub(crate) fn count<K: Keeper>(keeper: &mut K, table: TableName) -> Result<Tally, KeeperFault>
    ensures counted { IfOk result (λ c. IfTold (K.told keeper.old) (λ t. IsOrdered t → IsCounted (rows_of t table) c)) }
    ensures same { K.told keeper.new ≡ K.told keeper.old }
    ensures cause { HasCause (K.faults keeper.old) (K.faults keeper.new) (has_failed result) }
{
    let mut tally = Tally {
        rows: 0,
        weight: 0,
        after: RowKey::Start,
    };
    'pages: loop {
        let page = keeper.page(table, &tally.after, PAGE)?;
        if page.len() == 0 {
            return Ok(tally);
        }
        tally = add_page(tally, page.as_slice());
    }
}

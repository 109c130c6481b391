//! What goes with an inode.
ghost use Rattle.std.specs.Prelude.{◌≡◌, ◌<◌, ◌^◌, ◌++◌, IsTrue, IfOk, OnOk};
ghost use Rattle.std.specs.Option.{ForSome};
ghost use Rattle.s3_base.specs.Faults.{HasCause};
ghost use Rattle.s3_rows.specs.Tables.{IsOrdered};
ghost use Rattle.s3_rows.specs.Batches.{tables_after};
ghost use Rattle.s3_rows.specs.Selections.{is_pair_past};
ghost use Rattle.s3_rows.specs.declared.table_rows.RowKey.TheVariants as keys;
ghost use Rattle.s3_rows.specs.Told.{IfTold, has_failed};
ghost use Rattle.ref_counts.specs.Removals.{attr_dropped, attr_key_of, attrs_dropped, attrs_of, next_attr_key, removal};

use crate::lowered::name_down;
use s3_rows::{Batch, Change, Keeper, KeeperFault, Row, RowKey, TableName};

/// The inode and the name of an attribute's row.
fn attr_key(row: &Row) -> Option<(u64, u64)>
    ensures key { result ≡ attr_key_of row.now }
    ensures short { ForSome result (λ k. k.1 < 2 ^ 62) }
{
    match row {
        Row::Attr(attr) => Some((attr.inode, attr.name_id)),
        _ => None,
    }
}

/// The inode and the name of the first attribute past a key.
fn next_attr<K: Keeper>(keeper: &mut K, last: (u64, u64)) -> Result<Option<(u64, u64)>, KeeperFault>
    ensures next { IfOk result (λ found. IfTold (K.told keeper.old) (λ t. found ≡ next_attr_key t last)) }
    ensures past { IfOk result (λ found. ForSome found (λ k. IsTrue (is_pair_past (keys.Two last.0 last.1) k))) }
    ensures short { IfOk result (λ found. ForSome found (λ k. k.1 < 2 ^ 62)) }
    ensures same { K.told keeper.new ≡ K.told keeper.old }
    ensures cause { HasCause (K.faults keeper.old) (K.faults keeper.new) (has_failed result) }
{
    let page = keeper.page(TableName::Attrs, &RowKey::Two(last.0, last.1), 1)?;
    match page.as_slice().first() {
        Some(row) => Ok(attr_key(row)),
        None => Ok(None),
    }
}

/// Deletes an attribute, and takes the use of its name away.
fn drop_attr<K: Keeper>(
    keeper: &mut K,
    batch: &mut Batch,
    inode: u64,
    name_id: u64,
) -> Result<(), KeeperFault>
    ensures dropped { OnOk result (IfTold (K.told keeper.old) (λ t. batch.new ≡ batch.old ++ attr_dropped inode name_id (tables_after batch.old t))) }
    ensures same { K.told keeper.new ≡ K.told keeper.old }
    ensures cause { HasCause (K.faults keeper.old) (K.faults keeper.new) (has_failed result) }
{
    batch.push(Change::DeleteAttr(inode, name_id))?;
    name_down(keeper, batch, name_id)
}

/// Deletes all attributes of an inode, in the order of the numbers of their names.
fn drop_attrs<K: Keeper>(keeper: &mut K, batch: &mut Batch, inode: u64) -> Result<(), KeeperFault>
    requires { 0 < inode }
    ensures dropped { OnOk result (IfTold (K.told keeper.old) (λ t. IsOrdered t → batch.new ≡ batch.old ++ attrs_dropped (attrs_of t inode) (tables_after batch.old t))) }
    ensures same { K.told keeper.new ≡ K.told keeper.old }
    ensures cause { HasCause (K.faults keeper.old) (K.faults keeper.new) (has_failed result) }
{
    // The greatest key before those of the inode.
    let mut last = (inode - 1, u64::MAX);
    'attrs: loop {
        let Some(key) = next_attr(keeper, last)? else {
            return Ok(());
        };
        if key.0 != inode {
            return Ok(());
        }
        drop_attr(keeper, batch, key.0, key.1)?;
        last = key;
    }
}

/// Adds the changes by which an inode goes that no entry names: its attributes with the uses of their names, the target of a
/// symbolic link, and its row. A refused call leaves a batch that is to be dropped.
pub fn drop_file<K: Keeper>(
    keeper: &mut K,
    batch: &mut Batch,
    inode: u64,
) -> Result<(), KeeperFault>
    requires { 0 < inode }
    ensures dropped { OnOk result (IfTold (K.told keeper.old) (λ t. IsOrdered t → batch.new ≡ batch.old ++ removal t inode (tables_after batch.old t))) }
    ensures same { K.told keeper.new ≡ K.told keeper.old }
    ensures cause { HasCause (K.faults keeper.old) (K.faults keeper.new) (has_failed result) }
{
    drop_attrs(keeper, batch, inode)?;
    if keeper.target(inode)?.is_some() {
        batch.push(Change::DeleteTarget(inode))?;
    }
    batch.push(Change::DeleteInode(inode))?;
    Ok(())
}

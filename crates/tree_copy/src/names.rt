//! The attributes of the copy of a node, and the uses of names.
ghost use Rattle.std.specs.List.{slice_get};
ghost use Rattle.std.specs.Prelude.{◌≡◌, ◌++◌, ◌∷◌, [], true, is_some, None, IfOk, IfSome, OnOk};
ghost use Rattle.s3_base.specs.Faults.{HasCause};
ghost use Rattle.plain_tree.specs.Checks.{attribute_name_check};
ghost use Rattle.s3_rows.specs.declared.change.Change.TheVariants as changes;
ghost use Rattle.s3_rows.specs.Batches.{tables_after};
ghost use Rattle.s3_rows.specs.Rows.{IsId};
ghost use Rattle.s3_rows.specs.Selections.{attrs_listed, named_attrs};
ghost use Rattle.s3_rows.specs.Tables.{IsOrdered};
ghost use Rattle.s3_rows.specs.Told.{IfTold, has_failed};
ghost use Rattle.ref_counts.specs.Names.{IsRaised, raised, StaysUnique};
ghost use Rattle.tree_copy.specs.CopiedNames.{AreAttrNames};
ghost use Rattle.tree_copy.specs.CopiedRows.{attr_copied, attrs_copied, attrs_fit};

use op_checks::check_attribute_name;
use ref_counts::name_up;
use s3_base::ByteList;
use s3_rows::{AttrRow, Batch, Change, Keeper, KeeperFault, NamedAttr};
use std::alloc::{AllocError, Global};

/// Adds one more use of a name, and answers its id. None where it may not be used once more, or where no name has such bytes.
pub(crate) fn use_name<K: Keeper>(
    keeper: &mut K,
    batch: &mut Batch,
    name: &ByteList,
) -> Result<Option<u64>, KeeperFault>
    ensures used { IfOk result (λ id. IfTold (K.told keeper.old) (λ t. IsOrdered t → StaysUnique batch.old t → attribute_name_check name.now ≡ None
        → IsRaised (raised (tables_after batch.old t) name.now) batch.old id batch.new)) }
    ensures id { IfOk result (λ id. IfSome id IsId) }
    ensures same { K.told keeper.new ≡ K.told keeper.old }
    ensures cause { HasCause (K.faults keeper.old) (K.faults keeper.new) (has_failed result) }
{
    match check_attribute_name(name) {
        Ok(()) => name_up(keeper, batch, name),
        Err(_) => Ok(None),
    }
}

/// The attribute behind a name.
fn next_attr<K: Keeper>(
    keeper: &mut K,
    inode: u64,
    last: &ByteList,
) -> Result<Option<NamedAttr>, KeeperFault>
    ensures next { IfOk result (λ found. IfTold (K.told keeper.old) (λ t. found ≡ slice_get (attrs_listed t inode last.now 1) 0)) }
    ensures same { K.told keeper.new ≡ K.told keeper.old }
    ensures cause { HasCause (K.faults keeper.old) (K.faults keeper.new) (has_failed result) }
{
    let page = keeper.attrs(inode, last, 1)?;
    match page.as_slice().first() {
        Some(attr) => Ok(Some(attr.clone()?)),
        None => Ok(None),
    }
}

/// Puts an attribute of the copy.
fn put_attr(batch: &mut Batch, attr: &NamedAttr, copy: u64, name_id: u64) -> Result<(), AllocError>
    requires copy { IsId copy }
    requires name { IsId name_id }
    ensures { OnOk result (batch.new ≡ batch.old ++ changes.PutAttr (record { inode = copy; name_id = name_id; value = attr.now.row.value }) ∷ []) }
{
    batch.push(Change::PutAttr(AttrRow {
        inode: copy,
        name_id,
        value: attr.row.value.clone()?,
    }))?;
    Ok(())
}

/// Adds the changes by which an attribute comes with the copy. False where its name may not be used once more; the batch is to be
/// dropped then.
fn copy_attr<K: Keeper>(
    keeper: &mut K,
    batch: &mut Batch,
    attr: &NamedAttr,
    copy: u64,
) -> Result<bool, KeeperFault>
    requires { IsId copy }
    ensures fits { IfOk result (λ fits. IfTold (K.told keeper.old) (λ t. IsOrdered t → StaysUnique batch.old t → attribute_name_check attr.now.name ≡ None
        → fits ≡ is_some (raised (tables_after batch.old t) attr.now.name))) }
    ensures copied { IfOk result (λ fits. IfTold (K.told keeper.old) (λ t. IsOrdered t → StaysUnique batch.old t → attribute_name_check attr.now.name ≡ None
        → fits ≡ true → batch.new ≡ batch.old ++ attr_copied copy attr.now (tables_after batch.old t))) }
    ensures same { K.told keeper.new ≡ K.told keeper.old }
    ensures cause { HasCause (K.faults keeper.old) (K.faults keeper.new) (has_failed result) }
{
    let Some(name_id) = use_name(keeper, batch, &attr.name)? else {
        return Ok(false);
    };
    put_attr(batch, attr, copy, name_id)?;
    Ok(true)
}

/// Adds the changes by which all attributes of a node come with its copy, in the order of their names. False where a name may not be
/// used once more; the batch is to be dropped then.
pub fn copy_attrs<K: Keeper>(
    alloc: Global,
    keeper: &mut K,
    batch: &mut Batch,
    node: u64,
    copy: u64,
) -> Result<bool, KeeperFault>
    requires { IsId copy }
    ensures fits { IfOk result (λ fits. IfTold (K.told keeper.old) (λ t. IsOrdered t → StaysUnique batch.old t → AreAttrNames t node
        → fits ≡ attrs_fit copy (named_attrs t node) (tables_after batch.old t))) }
    ensures copied { IfOk result (λ fits. IfTold (K.told keeper.old) (λ t. IsOrdered t → StaysUnique batch.old t → AreAttrNames t node → fits ≡ true
        → batch.new ≡ batch.old ++ attrs_copied copy (named_attrs t node) (tables_after batch.old t))) }
    ensures unique { IfOk result (λ fits. IfTold (K.told keeper.old) (λ t. IsOrdered t → StaysUnique batch.old t → AreAttrNames t node → fits ≡ true
        → StaysUnique batch.new t)) }
    ensures same { K.told keeper.new ≡ K.told keeper.old }
    ensures cause { HasCause (K.faults keeper.old) (K.faults keeper.new) (has_failed result) }
{
    let mut last = ByteList::new(alloc);
    'attrs: for _turn in 0..u64::MAX {
        let Some(attr) = next_attr(keeper, node, &last)? else {
            return Ok(true);
        };
        if !copy_attr(keeper, batch, &attr, copy)? {
            return Ok(false);
        }
        last = attr.name;
    }
    Err(KeeperFault::Memory)
}

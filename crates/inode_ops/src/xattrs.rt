//! Plans of Setxattr and Removexattr.
ghost use Rattle.std.specs.Prelude.{◌≡◌, ◌<◌, ◌≤◌, ◌^◌, ◌++◌, ℕ, [], ◌∷◌, length, Some, is_some, option_map, IfOk, OnOk};
ghost use Rattle.s3_base.specs.Faults.{HasCause};
ghost use Rattle.op_frames.specs.declared.operation.Op.TheVariants as ops;
ghost use Rattle.op_frames.specs.declared.reply.Reply.TheVariants as replies;
ghost use Rattle.plain_tree.specs.Tree.{Tree};
ghost use Rattle.plain_tree.specs.WellFormed.{IsWellFormed};
ghost use Rattle.plain_tree.specs.Checks.{first_failure, attribute_check, attribute_name_check, flag_check, value_check};
ghost use Rattle.s3_rows.specs.Rows.{IsId, IsText, Name};
ghost use Rattle.s3_rows.specs.Tables.{IsOrdered};
ghost use Rattle.s3_rows.specs.Selections.{name_at};
ghost use Rattle.s3_rows.specs.Told.{IfTold, has_failed};
ghost use Rattle.s3_rows.specs.Validity.{IsValid, HasUniqueNames};
ghost use Rattle.tree_rows.specs.NamedAttrs.{attr_of_name};
ghost use Rattle.tree_rows.specs.Shapes.{Represents};
ghost use Rattle.op_checks.specs.Checks.{Checks};
ghost use Rattle.op_checks.specs.Rows.{row_check, lock_row_check};
ghost use Rattle.ref_counts.specs.Names.{lowered, raised};
ghost use Rattle.ref_counts.specs.Plans.{IsPlanOf, HasFitReply};
ghost use Rattle.row_steps.specs.RowChanges.{removing_attr, setting_attr};
ghost use Rattle.inode_ops.specs.SetAttrs.{IsAdding, IsSetting};

use crate::answers::done;
use op_checks::{
    check_attribute, check_attribute_name, check_flag, check_node, check_unlocked, check_value,
};
use op_frames::SetFlag;
use ref_counts::{Plan, name_up};
use s3_base::{ByteList, Errno};
use s3_rows::{AttrRow, Batch, Change, InodeRow, Keeper, KeeperFault, NameRow};
use std::alloc::{AllocError, Global};

/// The attribute of an inode that has this name.
fn find_attr<K: Keeper>(
    keeper: &mut K,
    inode: u64,
    name: &ByteList,
) -> Result<Option<AttrRow>, KeeperFault>
    ensures found { IfOk result (λ a. IfTold (K.told keeper.old) (λ t. a ≡ attr_of_name t inode name.now)) }
    ensures same { K.told keeper.new ≡ K.told keeper.old }
    ensures cause { HasCause (K.faults keeper.old) (K.faults keeper.new) (has_failed result) }
{
    match keeper.name_id(name)? {
        Some(id) => keeper.attr(inode, id),
        None => Ok(None),
    }
}

/// Stamps an inode.
fn stamp(batch: &mut Batch, row: &InodeRow, now: u64) -> Result<(), AllocError>
    requires { now < 2 ^ 62 }
    ensures { OnOk result (batch.new ≡ batch.old ++ Change.PutInode (record row.now { ctime = now }) ∷ []) }
{
    batch.push(Change::PutInode(InodeRow { ctime: now, ..*row }))
}

/// Puts an attribute of an inode, and stamps the inode.
fn put_attr(
    batch: &mut Batch,
    row: &InodeRow,
    name_id: u64,
    value: &ByteList,
    now: u64,
) -> Result<(), AllocError>
    requires id { IsId name_id }
    requires value { length value.now ≤ 65536 }
    requires now { now < 2 ^ 62 }
    ensures { OnOk result (batch.new ≡ batch.old ++ setting_attr row.now name_id value.now now) }
{
    batch.push(Change::PutAttr(AttrRow {
        inode: row.id,
        name_id,
        value: value.clone()?,
    }))?;
    stamp(batch, row, now)
}

// ---- set

/// The row of the inode, where no check of a Setxattr fails: `present` says that it has such an attribute already.
fn check_setting(
    found: Option<InodeRow>,
    present: bool,
    name: &ByteList,
    flag: SetFlag,
    value: &ByteList,
) -> Result<InodeRow, Errno>
    ensures check { Checks result (first_failure (attribute_name_check name.now ∷ value_check value.now ∷ row_check found ∷ lock_row_check found ∷ flag_check flag present ∷ [])) }
    ensures row { IfOk result (λ r. found ≡ Some r) }
    ensures name { IfOk result (λ _. attribute_name_check name.now ≡ None) }
    ensures value { IfOk result (λ _. value_check value.now ≡ None) }
{
    check_attribute_name(name)?;
    check_value(value)?;
    let row = check_node(found)?;
    check_unlocked(&row)?;
    check_flag(flag, present)?;
    Ok(row)
}

/// An attribute that is there gets another value.
fn replace(
    alloc: Global,
    row: &InodeRow,
    name_id: u64,
    value: &ByteList,
    now: u64,
) -> Result<Plan, AllocError>
    requires id { IsId name_id }
    requires value { value_check value.now ≡ None }
    requires now { now < 2 ^ 62 }
    ensures plan { IfOk result (λ p. p ≡ Plan.Commit (setting_attr row.now name_id value.now now) replies.Done []) }
    ensures fit { IfOk result HasFitReply }
{
    let mut batch = Batch::new(alloc);
    put_attr(&mut batch, row, name_id, value, now)?;
    Ok(done(alloc, batch))
}

/// An attribute that is new uses its name once more.
fn add<K: Keeper>(
    alloc: Global,
    keeper: &mut K,
    row: &InodeRow,
    name: &ByteList,
    value: &ByteList,
    now: u64,
) -> Result<Plan, KeeperFault>
    requires name { attribute_name_check name.now ≡ None }
    requires value { value_check value.now ≡ None }
    requires now { now < 2 ^ 62 }
    ensures plan { IfOk result (λ p. IfTold (K.told keeper.old) (λ t. IsOrdered t → HasUniqueNames t → IsAdding (raised t name.now) row.now value.now now p)) }
    ensures same { K.told keeper.new ≡ K.told keeper.old }
    ensures cause { HasCause (K.faults keeper.old) (K.faults keeper.new) (has_failed result) }
    ensures fit { IfOk result HasFitReply }
{
    let mut batch = Batch::new(alloc);
    let Some(name_id) = name_up(keeper, &mut batch, name)? else {
        return Ok(Plan::Worn);
    };
    put_attr(&mut batch, row, name_id, value, now)?;
    Ok(done(alloc, batch))
}

/// The attribute that was found gets another value, or else it is new.
fn set<K: Keeper>(
    alloc: Global,
    keeper: &mut K,
    row: &InodeRow,
    old: Option<AttrRow>,
    name: &ByteList,
    value: &ByteList,
    now: u64,
) -> Result<Plan, KeeperFault>
    requires name { attribute_name_check name.now ≡ None }
    requires value { value_check value.now ≡ None }
    requires now { now < 2 ^ 62 }
    ensures plan { IfOk result (λ p. IfTold (K.told keeper.old) (λ t. IsOrdered t → HasUniqueNames t → IsSetting old (raised t name.now) row.now value.now now p)) }
    ensures same { K.told keeper.new ≡ K.told keeper.old }
    ensures cause { HasCause (K.faults keeper.old) (K.faults keeper.new) (has_failed result) }
    ensures fit { IfOk result HasFitReply }
{
    match old {
        Some(attr) => Ok(replace(alloc, row, attr.name_id, value, now)?),
        None => add(alloc, keeper, row, name, value, now),
    }
}

/// The plan of a Setxattr.
pub fn setxattr<K: Keeper>(
    alloc: Global,
    keeper: &mut K,
    inode: u64,
    name: &ByteList,
    flag: SetFlag,
    value: &ByteList,
    now: u64,
) -> Result<Plan, KeeperFault>
    requires { now < 2 ^ 62 }
    ensures plan { IfOk result (λ p. IfTold (K.told keeper.old) (λ t. IsValid t → HasUniqueNames t → (whole : Tree) (pass : ℕ) → Represents t whole → IsWellFormed whole
        → IsPlanOf t whole pass (ops.Setxattr inode name.now flag value.now) now p)) }
    ensures same { K.told keeper.new ≡ K.told keeper.old }
    ensures cause { HasCause (K.faults keeper.old) (K.faults keeper.new) (has_failed result) }
    ensures fit { IfOk result HasFitReply }
{
    let found = keeper.inode(inode)?;
    let old = find_attr(keeper, inode, name)?;
    match check_setting(found, old.is_some(), name, flag, value) {
        Ok(row) => set(alloc, keeper, &row, old, name, value, now),
        Err(errno) => Ok(Plan::Refuse(errno)),
    }
}

// ---- removed

/// The rows of the inode and of its attribute, where no check of a Removexattr fails.
fn check_removal(
    found: Option<InodeRow>,
    attr: Option<AttrRow>,
    name: &ByteList,
) -> Result<(InodeRow, AttrRow), Errno>
    ensures check { Checks result (first_failure (attribute_name_check name.now ∷ row_check found ∷ lock_row_check found ∷ attribute_check (option_map (λ a. a.value) attr) ∷ [])) }
    ensures row { IfOk result (λ rows. found ≡ Some rows.0) }
    ensures attr { IfOk result (λ rows. attr ≡ Some rows.1) }
{
    check_attribute_name(name)?;
    let row = check_node(found)?;
    check_unlocked(&row)?;
    let attr = check_attribute(attr)?;
    Ok((row, attr))
}

/// Takes one use of a name away: its row goes with the last.
fn lower(batch: &mut Batch, name: NameRow) -> Result<(), AllocError>
    ensures { OnOk result (batch.new ≡ batch.old ++ lowered name) }
{
    if name.refcount == 1 {
        return batch.push(Change::DeleteName(name.id));
    }
    batch.push(Change::PutName(NameRow {
        refcount: name.refcount.saturating_sub(1),
        ..name
    }))
}

/// The batch by which an attribute goes, with the use of its name.
fn remove(
    alloc: Global,
    row: &InodeRow,
    attr: &AttrRow,
    name: NameRow,
    now: u64,
) -> Result<Plan, AllocError>
    requires { now < 2 ^ 62 }
    ensures plan { IfOk result (λ p. p ≡ Plan.Commit (removing_attr row.now attr.now name now) replies.Done []) }
    ensures fit { IfOk result HasFitReply }
{
    let mut batch = Batch::new(alloc);
    batch.push(Change::DeleteAttr(attr.inode, attr.name_id))?;
    stamp(&mut batch, row, now)?;
    lower(&mut batch, name)?;
    Ok(done(alloc, batch))
}

/// The same, where the name of the attribute has a row.
fn remove_named<K: Keeper>(
    alloc: Global,
    keeper: &mut K,
    row: &InodeRow,
    attr: &AttrRow,
    now: u64,
) -> Result<Plan, KeeperFault>
    requires { now < 2 ^ 62 }
    ensures plan { IfOk result (λ p. IfTold (K.told keeper.old) (λ t. (n : Name) → name_at t attr.now.name_id ≡ Some n → p ≡ Plan.Commit (removing_attr row.now attr.now n now) replies.Done [])) }
    ensures same { K.told keeper.new ≡ K.told keeper.old }
    ensures cause { HasCause (K.faults keeper.old) (K.faults keeper.new) (has_failed result) }
    ensures fit { IfOk result HasFitReply }
{
    match keeper.name(attr.name_id)? {
        Some(name) => Ok(remove(alloc, row, attr, name, now)?),
        None => Ok(Plan::Refuse(Errno::ENODATA)),
    }
}

/// The plan of a Removexattr.
pub fn removexattr<K: Keeper>(
    alloc: Global,
    keeper: &mut K,
    inode: u64,
    name: &ByteList,
    now: u64,
) -> Result<Plan, KeeperFault>
    requires { now < 2 ^ 62 }
    ensures plan { IfOk result (λ p. IfTold (K.told keeper.old) (λ t. IsValid t → HasUniqueNames t → (whole : Tree) (pass : ℕ) → Represents t whole → IsWellFormed whole
        → IsPlanOf t whole pass (ops.Removexattr inode name.now) now p)) }
    ensures same { K.told keeper.new ≡ K.told keeper.old }
    ensures cause { HasCause (K.faults keeper.old) (K.faults keeper.new) (has_failed result) }
    ensures fit { IfOk result HasFitReply }
{
    let found = keeper.inode(inode)?;
    let attr = find_attr(keeper, inode, name)?;
    match check_removal(found, attr, name) {
        Ok((row, attr)) => remove_named(alloc, keeper, &row, &attr, now),
        Err(errno) => Ok(Plan::Refuse(errno)),
    }
}

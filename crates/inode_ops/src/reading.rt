//! Plans of Readlink, Getxattr and Listxattr.
ghost use Rattle.std.specs.Prelude.{◌≡◌, ℕ, List, [], ◌∷◌, map, IsTrue, IfOk, option_map, unwrap_or};
ghost use Rattle.s3_base.specs.Faults.{HasCause};
ghost use Rattle.op_frames.specs.declared.operation.Op.TheVariants as ops;
ghost use Rattle.op_frames.specs.declared.reply.Reply.TheVariants as replies;
ghost use Rattle.op_frames.specs.Answers.{has_short_data};
ghost use Rattle.plain_tree.specs.Tree.{Tree};
ghost use Rattle.plain_tree.specs.Checks.{first_failure, attribute_check};
ghost use Rattle.s3_rows.specs.Told.{IfTold, has_failed};
ghost use Rattle.s3_rows.specs.Validity.{IsValid, HasUniqueNames};
ghost use Rattle.tree_rows.specs.Listings.{attr_named};
ghost use Rattle.tree_rows.specs.Shapes.{Represents};
ghost use Rattle.op_checks.specs.Checks.{Checks};
ghost use Rattle.op_checks.specs.Rows.{row_check, link_row_check};
ghost use Rattle.ref_counts.specs.Plans.{IsPlanOf, HasFitReply, is_fit};

use op_checks::{check_attribute, check_attribute_name, check_link, check_node, check_page};
use op_frames::{NameList, Reply};
use ref_counts::{Plan, answer};
use s3_base::{ByteList, Errno};
use s3_rows::{AttrRow, InodeRow, Keeper, KeeperFault, NamedAttr, TargetRow};
use std::alloc::{AllocError, Global};

/// The bytes of a target; none where it has no row.
fn target_bytes(alloc: Global, target: Option<TargetRow>) -> ByteList
    ensures bytes { result ≡ unwrap_or (option_map (λ x. x.target) target) [] }
    ensures short { IsTrue (has_short_data (replies.Bytes result)) }
{
    match target {
        Some(row) => row.target,
        None => ByteList::new(alloc),
    }
}

/// The target of a symbolic link.
fn target_reply(found: Option<InodeRow>, target: ByteList) -> Result<Reply, Errno>
    requires short { IsTrue (has_short_data (replies.Bytes target)) }
    ensures check { Checks result (first_failure (row_check found ∷ link_row_check found ∷ [])) }
    ensures reply { IfOk result (λ reply. reply ≡ replies.Bytes target) }
    ensures fit { IfOk result (λ reply. IsTrue (is_fit reply)) }
{
    let row = check_node(found)?;
    check_link(&row)?;
    Ok(Reply::Bytes(target))
}

/// The plan of a Readlink.
pub fn readlink<K: Keeper>(alloc: Global, keeper: &mut K, inode: u64) -> Result<Plan, KeeperFault>
    ensures plan { IfOk result (λ p. IfTold (K.told keeper.old) (λ t. IsValid t → (whole : Tree) (pass now : ℕ) → Represents t whole → IsPlanOf t whole pass (ops.Readlink inode) now p)) }
    ensures same { K.told keeper.new ≡ K.told keeper.old }
    ensures cause { HasCause (K.faults keeper.old) (K.faults keeper.new) (has_failed result) }
    ensures fit { IfOk result HasFitReply }
{
    let found = keeper.inode(inode)?;
    let target = target_bytes(alloc, keeper.target(inode)?);
    Ok(answer(alloc, target_reply(found, target)))
}

/// The attribute of an inode that has this name.
pub fn find_attr<K: Keeper>(
    keeper: &mut K,
    inode: u64,
    name: &ByteList,
) -> Result<Option<AttrRow>, KeeperFault>
    ensures found { IfOk result (λ a. IfTold (K.told keeper.old) (λ t. IsValid t → HasUniqueNames t → a ≡ attr_named t inode name.now)) }
    ensures same { K.told keeper.new ≡ K.told keeper.old }
    ensures cause { HasCause (K.faults keeper.old) (K.faults keeper.new) (has_failed result) }
{
    match keeper.name_id(name)? {
        Some(id) => keeper.attr(inode, id),
        None => Ok(None),
    }
}

/// The value of an attribute.
fn value_reply(found: Option<InodeRow>, attr: Option<AttrRow>) -> Result<Reply, Errno>
    ensures check { Checks result (first_failure (row_check found ∷ attribute_check (option_map (λ a. a.value) attr) ∷ [])) }
    ensures reply { IfOk result (λ reply. reply ≡ replies.Bytes (unwrap_or (option_map (λ a. a.value) attr) [])) }
    ensures fit { IfOk result (λ reply. IsTrue (is_fit reply)) }
{
    check_node(found)?;
    let row = check_attribute(attr)?;
    Ok(Reply::Bytes(row.value))
}

/// The plan of a Getxattr.
pub fn getxattr<K: Keeper>(
    alloc: Global,
    keeper: &mut K,
    inode: u64,
    name: &ByteList,
) -> Result<Plan, KeeperFault>
    ensures plan { IfOk result (λ p. IfTold (K.told keeper.old) (λ t. IsValid t → HasUniqueNames t → (whole : Tree) (pass now : ℕ) → Represents t whole → IsPlanOf t whole pass (ops.Getxattr inode name.now) now p)) }
    ensures same { K.told keeper.new ≡ K.told keeper.old }
    ensures cause { HasCause (K.faults keeper.old) (K.faults keeper.new) (has_failed result) }
    ensures fit { IfOk result HasFitReply }
{
    if let Err(errno) = check_attribute_name(name) {
        return Ok(Plan::Refuse(errno));
    }
    let found = keeper.inode(inode)?;
    let attr = find_attr(keeper, inode, name)?;
    Ok(answer(alloc, value_reply(found, attr)))
}

/// The names of attributes, in order.
fn names_of(alloc: Global, attrs: &[NamedAttr]) -> Result<NameList, AllocError>
    ensures { IfOk result (λ l. l ≡ map (λ a. a.name) attrs.now) }
{
    let mut names = NameList::new(alloc);
    for attr in attrs {
        names.push(attr.name.clone()?)?;
    }
    Ok(names)
}

/// A page of the names of an inode's attributes.
fn names_reply(found: Option<InodeRow>, names: NameList) -> Result<Reply, Errno>
    requires short { IsTrue (has_short_data (replies.Names names)) }
    ensures check { Checks result (first_failure (row_check found ∷ [])) }
    ensures reply { IfOk result (λ reply. reply ≡ replies.Names names) }
    ensures fit { IfOk result (λ reply. IsTrue (is_fit reply)) }
{
    check_node(found)?;
    Ok(Reply::Names(names))
}

/// The plan of a Listxattr: at most `max` names past the name `after`.
pub fn listxattr<K: Keeper>(
    alloc: Global,
    keeper: &mut K,
    inode: u64,
    after: &ByteList,
    max: u16,
) -> Result<Plan, KeeperFault>
    ensures plan { IfOk result (λ p. IfTold (K.told keeper.old) (λ t. IsValid t → (whole : Tree) (pass now : ℕ) → Represents t whole → IsPlanOf t whole pass (ops.Listxattr inode after.now max) now p)) }
    ensures same { K.told keeper.new ≡ K.told keeper.old }
    ensures cause { HasCause (K.faults keeper.old) (K.faults keeper.new) (has_failed result) }
    ensures fit { IfOk result HasFitReply }
{
    if let Err(errno) = check_page(max) {
        return Ok(Plan::Refuse(errno));
    }
    let found = keeper.inode(inode)?;
    let listed = keeper.attrs(inode, after, max as u32)?;
    let names = names_of(alloc, listed.as_slice())?;
    Ok(answer(alloc, names_reply(found, names)))
}

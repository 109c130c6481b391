//! Whether a keeper or a store has a file system already.
ghost use Rattle.std.specs.Prelude.{◌≡◌, ◌||◌, Some, is_some, IfOk};
ghost use Rattle.std.specs.List.{list_any};
ghost use Rattle.s3_base.specs.Faults.{HasCause};
ghost use Rattle.s3_rows.specs.Told as keeper_told;
ghost use Rattle.s3_rows.specs.Told.{Told};
ghost use Rattle.s3_devices.specs.LinkAnswers as link_answers;
ghost use Rattle.s3_devices.specs.Objects.{Objects, AreOrdered};
ghost use Rattle.s3_devices.specs.Told.{IfTold};
ghost use Rattle.mkfs_ops.specs.Making as making;
ghost use Rattle.mkfs_ops.specs.Making.{is_own, IsRightOfTables, IsRightOfStore, IsRightOfBoth, keeper_has_failed, link_has_failed};

use crate::MakeFault;
use s3_base::ByteList;
use s3_devices::{KeyItem, Link, LinkFault};
use s3_rows::Keeper;
use std::alloc::Global;

/// Whether any of the keys is one of a file system.
fn any_own(items: &[KeyItem]) -> bool
    ensures { result ≡ list_any (λ i. is_own i.key) items.now }
{
    items
        .iter()
        .any(|item| item.key.as_slice().starts_with(b"s3ql_"))
}

/// Whether the store has a key of a file system. All but `s3ql_` itself come past it, before all other keys past it.
fn has_own_key<L: Link>(alloc: Global, link: &mut L) -> Result<bool, LinkFault>
    ensures found { IfOk result (λ found. IfTold (L.told link.old) (λ o. AreOrdered o → found ≡ making.has_own_key o)) }
    ensures same { L.told link.new ≡ L.told link.old }
    ensures cause { HasCause (L.faults link.old) (L.faults link.new) (link_answers.has_failed result) }
{
    let start = ByteList::from_slice(alloc, b"s3ql_")?;
    let held = link.get(&start)?;
    if held.is_some() {
        return Ok(true);
    }
    let page = link.list(&start, 1)?;
    Ok(any_own(page.as_slice()))
}

/// Refuses where the keeper has parameters or the store has a key of a file system. Nothing is changed.
pub(crate) fn refuse_existing<K: Keeper, L: Link>(
    alloc: Global,
    keeper: &mut K,
    link: &mut L,
) -> Result<(), MakeFault>
    ensures tables { keeper_told.IfTold (K.told keeper.old) (λ t. IsRightOfTables (is_some t.params) result) }
    ensures store { IfTold (L.told link.old) (λ o. AreOrdered o → IsRightOfStore (making.has_own_key o) result) }
    ensures exists { (s : Told) (o : Objects) → K.told keeper.old ≡ Some s → L.told link.old ≡ Some o → AreOrdered o
        → IsRightOfBoth (is_some s.tables.params || making.has_own_key o) result }
    ensures keeper_same { K.told keeper.new ≡ K.told keeper.old }
    ensures link_same { L.told link.new ≡ L.told link.old }
    ensures keeper_cause { HasCause (K.faults keeper.old) (K.faults keeper.new) (keeper_has_failed result) }
    ensures link_cause { HasCause (L.faults link.old) (L.faults link.new) (link_has_failed result) }
{
    let params = keeper.params()?;
    if params.is_some() {
        return Err(MakeFault::Exists);
    }
    if has_own_key(alloc, link)? {
        return Err(MakeFault::Exists);
    }
    Ok(())
}

//! A file system, made over a keeper and a store.
ghost use Rattle.std.specs.Prelude.{◌≡◌, ◌||◌, Some, is_some, option_map, IsTrue, IsSomeAnd, IfErr, OnOk, OnErr};
ghost use Rattle.s3_base.specs.Faults.{HasCause};
ghost use Rattle.s3_rows.specs.Tables.{IsOrdered};
ghost use Rattle.s3_rows.specs.Told as keeper_told;
ghost use Rattle.s3_rows.specs.Told.{Told, one_more};
ghost use Rattle.s3_devices.specs.Keys.{generation_key};
ghost use Rattle.s3_devices.specs.LinkAnswers as link_answers;
ghost use Rattle.s3_devices.specs.Objects.{Objects, AreOrdered, with_object, KeepsOthers};
ghost use Rattle.s3_devices.specs.Told.{IfTold, Becomes};
ghost use Rattle.keeper_dump.specs.Dump.{dump_of};
ghost use Rattle.mkfs_ops.specs.Making as making;
ghost use Rattle.mkfs_ops.specs.Making.{AreSettings, made_with, has_own_key, IsRightOfTables, IsRightOfStore, IsRightOfBoth, IsExists, IsOfDevices, keeper_has_failed, link_has_failed};

use crate::existing::refuse_existing;
use crate::first_tables::{first_tables, parameters};
use crate::{MakeFault, Settings};
use metadata_backup::{replace_tables, store_generation, take_dump};
use s3_devices::{Link, LinkFault};
use s3_rows::{Keeper, Tables};
use std::alloc::Global;

/// Stores tables as the first generation. Where it is refused only its key may have changed.
fn store_first<L: Link>(alloc: Global, link: &mut L, tables: &Tables) -> Result<(), LinkFault>
    requires { IsSomeAnd tables.now.params (λ p. p.generation ≡ 1) }
    ensures stored { OnOk result (L.told link.new ≡ option_map (with_object (generation_key 1) (dump_of tables.now)) (L.told link.old)) }
    ensures others { OnErr result (Becomes (KeepsOthers (generation_key 1)) (L.told link.old) (L.told link.new)) }
    ensures cause { HasCause (L.faults link.old) (L.faults link.new) (link_answers.has_failed result) }
{
    let dump = take_dump(alloc, tables)?;
    match store_generation(alloc, link, dump) {
        Ok(_receipt) => Ok(()),
        Err((_dump, fault)) => Err(fault),
    }
}

/// Makes a file system where none is: the first generation is stored, and then all tables are committed by one batch.
fn make_first<K: Keeper, L: Link>(
    alloc: Global,
    keeper: &mut K,
    link: &mut L,
    settings: Settings,
) -> Result<(), MakeFault>
    requires { AreSettings settings }
    ensures made { OnOk result ((s : Told) → K.told keeper.old ≡ Some s → IsOrdered s.tables
        → K.told keeper.new ≡ Some (record { tables = made_with settings; commits = one_more s.commits })) }
    ensures stored { OnOk result (L.told link.new ≡ option_map (with_object (generation_key 1) (dump_of (making.first_tables settings))) (L.told link.old)) }
    ensures refused { OnErr result (K.told keeper.new ≡ K.told keeper.old) }
    ensures others { OnErr result (Becomes (KeepsOthers (generation_key 1)) (L.told link.old) (L.told link.new)) }
    ensures fresh { IfErr result IsOfDevices }
    ensures keeper_cause { HasCause (K.faults keeper.old) (K.faults keeper.new) (keeper_has_failed result) }
    ensures link_cause { HasCause (L.faults link.old) (L.faults link.new) (link_has_failed result) }
{
    let tables = first_tables(alloc, settings)?;
    store_first(alloc, link, &tables)?;
    replace_tables(alloc, keeper, tables, parameters(settings, 1))?;
    Ok(())
}

/// Makes a file system. Where one exists nothing is changed. Where it is refused the tables are as before, and of the store only the
/// key of the first generation may have changed.
pub fn make<K: Keeper, L: Link>(
    alloc: Global,
    keeper: &mut K,
    link: &mut L,
    settings: &Settings,
) -> Result<(), MakeFault>
    requires { AreSettings settings.now }
    ensures tables { keeper_told.IfTold (K.told keeper.old) (λ t. IsRightOfTables (is_some t.params) result) }
    ensures store { IfTold (L.told link.old) (λ o. AreOrdered o → IsRightOfStore (has_own_key o) result) }
    ensures exists { (s : Told) (o : Objects) → K.told keeper.old ≡ Some s → L.told link.old ≡ Some o → AreOrdered o
        → IsRightOfBoth (is_some s.tables.params || has_own_key o) result }
    ensures made { OnOk result ((s : Told) → K.told keeper.old ≡ Some s → IsOrdered s.tables
        → K.told keeper.new ≡ Some (record { tables = made_with settings.entry.now; commits = one_more s.commits })) }
    ensures stored { OnOk result (L.told link.new ≡ option_map (with_object (generation_key 1) (dump_of (making.first_tables settings.entry.now))) (L.told link.old)) }
    ensures refused { OnErr result (K.told keeper.new ≡ K.told keeper.old) }
    ensures others { OnErr result (Becomes (KeepsOthers (generation_key 1)) (L.told link.old) (L.told link.new)) }
    ensures unchanged { IfErr result (λ e. IsExists e → L.told link.new ≡ L.told link.old) }
    ensures kept_by_tables { keeper_told.IfTold (K.told keeper.old) (λ t. IsTrue (is_some t.params) → L.told link.new ≡ L.told link.old) }
    ensures kept_by_keys { IfTold (L.told link.old) (λ o. AreOrdered o → IsTrue (has_own_key o) → L.told link.new ≡ L.told link.old) }
    ensures keeper_cause { HasCause (K.faults keeper.old) (K.faults keeper.new) (keeper_has_failed result) }
    ensures link_cause { HasCause (L.faults link.old) (L.faults link.new) (link_has_failed result) }
{
    refuse_existing(alloc, keeper, link)?;
    make_first(alloc, keeper, link, *settings)
}

//! What a check does before its passes: refusals, and the mark that it has begun.
ghost use Rattle.std.specs.Prelude.{◌≡◌, ◌<◌, ◌^◌, [], ◌∷◌, false, option_map, Some, Ok, IfOk, IfErr, OnOk, OnErr};
ghost use Rattle.s3_base.specs.Faults.{HasCause};
ghost use Rattle.s3_rows.specs.Told.{Told, with_batch};
ghost use Rattle.fsck_run.specs.Faults.{IsOfDevice, IsRefusal, keeper_has_failed, link_has_failed};
ghost use Rattle.fsck_run.specs.Listing as listing;
ghost use Rattle.fsck_run.specs.Passes.{committed, is_some_batch, mark_of, state_change};
ghost use Rattle.fsck_run.specs.Refusals as refusals;
ghost use Rattle.fsck_run.specs.Refusals.{admitted, admitted_beside, newer_refusal, newest, parameters_of, slots_refusal};
ghost use Rattle.fsck_run.specs.Starts.{IsFinished, IsStarted, OverTold};

use crate::FsckFault;
use crate::listing::own_keys;
use crate::pass_steps::tables_of;
use metadata_backup::generation_of;
use s3_devices::{KeyItem, KeyList, Link};
use s3_rows::{Batch, Change, Keeper, Params, SlotRow, State, Tables};
use std::alloc::Global;

/// The generation that a key names, or 0.
fn generation_or_zero(item: &KeyItem) -> u64
    ensures { result ≡ refusals.generation_or_zero item.now }
{
    match generation_of(item.key.as_slice()) {
        Some(number) => number,
        None => 0,
    }
}

/// The greatest generation that keys name, or 0.
fn newest_in(keys: &[KeyItem]) -> u64
    ensures { result ≡ newest keys.now }
{
    let mut newest = 0u64;
    for item in keys {
        newest = newest.max(generation_or_zero(item));
    }
    newest
}

/// Refuses a store that is newer than the keeper.
fn refuse_newer(keys: &KeyList, params: Params) -> Result<(), FsckFault>
    ensures { result ≡ newer_refusal (newest keys.now) params.generation }
{
    let store = newest_in(keys.as_slice());
    let keeper = params.generation;
    if store > keeper {
        return Err(FsckFault::Newer { store, keeper });
    }
    Ok(())
}

/// Refuses tables with a block on the cache disk.
fn refuse_slots(rows: &[SlotRow]) -> Result<(), FsckFault>
    ensures slot { result ≡ slots_refusal rows.now }
    ensures of_tables { keeper_has_failed result ≡ false }
    ensures of_no_link { link_has_failed result ≡ false }
{
    match rows.first() {
        Some(row) => Err(FsckFault::Slots(row.slot)),
        None => Ok(()),
    }
}

/// Sets the state of the file system.
fn set_state<K: Keeper>(
    alloc: Global,
    keeper: &mut K,
    params: Params,
    state: State,
) -> Result<(), FsckFault>
    ensures set { OnOk result (K.told keeper.new ≡ option_map (with_batch (state_change params state ∷ [])) (K.told keeper.old)) }
    ensures of_device { IfErr result IsOfDevice }
    ensures refused { OnErr result (K.told keeper.new ≡ K.told keeper.old) }
    ensures keeper_cause { HasCause (K.faults keeper.old) (K.faults keeper.new) (keeper_has_failed result) }
    ensures of_keeper { link_has_failed result ≡ false }
{
    let mut batch = Batch::new(alloc);
    batch.push(Change::SetParams(Params { state, ..params }))?;
    keeper.commit(&batch)?;
    Ok(())
}

/// Marks a clean file system as one that is not, and says whether it was clean.
fn mark<K: Keeper>(alloc: Global, keeper: &mut K, params: Params) -> Result<bool, FsckFault>
    ensures set { OnOk result (K.told keeper.new ≡ option_map (committed (mark_of params)) (K.told keeper.old)) }
    ensures made { IfOk result (λ made. made ≡ is_some_batch (mark_of params)) }
    ensures of_device { IfErr result IsOfDevice }
    ensures refused { OnErr result (K.told keeper.new ≡ K.told keeper.old) }
    ensures keeper_cause { HasCause (K.faults keeper.old) (K.faults keeper.new) (keeper_has_failed result) }
    ensures of_keeper { link_has_failed result ≡ false }
{
    match params.state {
        State::Clean => {
            set_state(alloc, keeper, params, State::Restored)?;
            Ok(true)
        }
        State::Mounted | State::Restored => Ok(false),
    }
}

/// What a check begins with: the keys of the store, and whether a mark was made.
#[derive(Drop)]
pub(crate) struct Started {
    pub(crate) keys: KeyList,
    pub(crate) marked: bool,
}

/// The parameters of tables that are not refused beside these keys.
fn admit(tables: &Tables, keys: &KeyList) -> Result<Params, FsckFault>
    ensures admitted { result ≡ admitted_beside keys.now tables.now }
    ensures of_tables { keeper_has_failed result ≡ false }
    ensures of_no_link { link_has_failed result ≡ false }
{
    refuse_newer(keys, tables.params)?;
    refuse_slots(tables.slots.as_slice())?;
    Ok(tables.params)
}

/// The parameters and the keys of the store, or a refusal by what these and the tables are.
fn look<K: Keeper, L: Link>(
    alloc: Global,
    keeper: &mut K,
    link: &mut L,
) -> Result<(Params, KeyList), FsckFault>
    ensures admitted { IfOk result (λ r. OverTold (K.told keeper.old) (L.told link.old) (λ t o. admitted t.tables o ≡ Ok r.0)) }
    ensures keys { IfOk result (λ r. OverTold (K.told keeper.old) (L.told link.old) (λ t o. r.1 ≡ listing.own_keys o)) }
    ensures refusal { IfErr result (λ e. OverTold (K.told keeper.old) (L.told link.old) (λ t o. IsRefusal (admitted t.tables o) e)) }
    ensures tables { K.told keeper.new ≡ K.told keeper.old }
    ensures store { L.told link.new ≡ L.told link.old }
    ensures keeper_cause { HasCause (K.faults keeper.old) (K.faults keeper.new) (keeper_has_failed result) }
    ensures link_cause { HasCause (L.faults link.old) (L.faults link.new) (link_has_failed result) }
{
    let tables = tables_of(alloc, keeper)?;
    let keys = own_keys(alloc, link)?;
    let params = admit(&tables, &keys)?;
    Ok((params, keys))
}

/// Lists the store, and marks a clean file system as one that is not. A refusal changes nothing.
pub(crate) fn begin_check<K: Keeper, L: Link>(
    alloc: Global,
    keeper: &mut K,
    link: &mut L,
) -> Result<Started, FsckFault>
    ensures started { IfOk result (λ r. OverTold (K.told keeper.old) (L.told link.old) (λ t o. IsStarted t o r.keys r.marked (K.told keeper.new))) }
    ensures refusal { IfErr result (λ e. OverTold (K.told keeper.old) (L.told link.old) (λ t o. IsRefusal (admitted t.tables o) e)) }
    ensures refused { OnErr result (K.told keeper.new ≡ K.told keeper.old) }
    ensures store { L.told link.new ≡ L.told link.old }
    ensures keeper_cause { HasCause (K.faults keeper.old) (K.faults keeper.new) (keeper_has_failed result) }
    ensures link_cause { HasCause (L.faults link.old) (L.faults link.new) (link_has_failed result) }
{
    let (params, keys) = look(alloc, keeper, link)?;
    let marked = mark(alloc, keeper, params)?;
    Ok(Started { keys, marked })
}

/// Marks the file system as clean.
pub(crate) fn finish<K: Keeper>(alloc: Global, keeper: &mut K) -> Result<(), FsckFault>
    ensures finished { OnOk result ((t : Told) → K.told keeper.old ≡ Some t → IsFinished t (K.told keeper.new)) }
    ensures refusal { IfErr result (λ e. (t : Told) → K.told keeper.old ≡ Some t → IsRefusal (parameters_of t.tables.params) e) }
    ensures refused { OnErr result (K.told keeper.new ≡ K.told keeper.old) }
    ensures keeper_cause { HasCause (K.faults keeper.old) (K.faults keeper.new) (keeper_has_failed result) }
    ensures of_keeper { link_has_failed result ≡ false }
{
    let Some(params) = keeper.params()? else {
        return Err(FsckFault::NoFileSystem);
    };
    set_state(alloc, keeper, params, State::Clean)
}

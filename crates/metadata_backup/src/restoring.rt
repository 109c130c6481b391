//! A generation of the store, restored into a keeper.
ghost use Rattle.std.specs.Prelude.{◌≡◌, Some, Ok, false, option_map, IfOk, IfErr, OnOk, OnErr};
ghost use Rattle.s3_base.specs.Faults.{HasCause};
ghost use Rattle.s3_rows.specs.Rows.{IsId, IsNext};
ghost use Rattle.s3_rows.specs.Tables.{IsOrdered};
ghost use Rattle.s3_rows.specs.Told as keeper_told;
ghost use Rattle.s3_rows.specs.Told.{Told, one_more};
ghost use Rattle.s3_devices.specs.LinkAnswers as link_answers;
ghost use Rattle.s3_devices.specs.Objects.{Objects, AreOrdered};
ghost use Rattle.s3_devices.specs.Told.{IfTold};
ghost use Rattle.metadata_backup.specs.Restores as restores;
ghost use Rattle.metadata_backup.specs.Restores.{generation_in, dumped_in, source_of, IsFoundIn, IsRefusal, IsRestored, IsRightOfSource, IsRightOfState, IsNoWantOfMemory, IsOfStore, keeper_has_failed, link_has_failed};

use crate::RestoreFault;
use crate::generations::greatest;
use crate::replacing::replacing_batch;
use crate::survey::read_keys;
use keeper_dump::{DumpFault, read_dump, read_rows_beside};
use s3_base::{ByteList, LIMIT};
use s3_devices::{Link, LinkFault, generation_key};
use s3_rows::{Keeper, KeeperFault, Params, State, Tables};
use std::alloc::Global;

/// What the store has of a generation: its tables, the newest generation, and one more than the greatest data object.
#[derive(Drop)]
struct Found {
    tables: Tables,
    newest: u64,
    next_object: u64,
}

/// Whether the tables are served, or were when their server ended without closing them.
fn is_mounted(params: &Option<Params>) -> bool
    ensures { result ≡ restores.is_mounted params.now }
{
    match params {
        Some(params) => matches!(params.state, State::Mounted),
        None => false,
    }
}

/// The bytes of a generation.
fn generation_bytes<L: Link>(
    alloc: Global,
    link: &mut L,
    generation: u64,
) -> Result<Option<ByteList>, LinkFault>
    ensures held { IfOk result (λ r. IfTold (L.told link.old) (λ o. r ≡ generation_in o generation)) }
    ensures same { L.told link.new ≡ L.told link.old }
    ensures cause { HasCause (L.faults link.old) (L.faults link.new) (link_answers.has_failed result) }
{
    if generation == 0 || generation >= LIMIT {
        return Ok(None);
    }
    let key = generation_key(alloc, generation)?;
    link.get(&key)
}

/// The tables whose dump the bytes are.
fn dumped_tables(alloc: Global, bytes: Option<ByteList>) -> Result<Tables, RestoreFault>
    ensures found { IfOk result (λ t. dumped_in bytes ≡ Ok t) }
    ensures refused { IfErr result (IsRefusal (dumped_in bytes)) }
    ensures memory { IfErr result IsNoWantOfMemory }
    ensures store { IfErr result IsOfStore }
    ensures unfailed { link_has_failed result ≡ false }
{
    let Some(bytes) = bytes else {
        return Err(RestoreFault::NoGeneration);
    };
    match read_dump(alloc, bytes.as_slice()) {
        Ok(tables) => Ok(tables),
        Err(DumpFault::Memory) => Err(RestoreFault::Memory),
        Err(fault) => Err(RestoreFault::Dump(fault)),
    }
}

/// What the store has of a generation.
fn find_generation<L: Link>(
    alloc: Global,
    link: &mut L,
    generation: u64,
) -> Result<Found, RestoreFault>
    ensures found { IfOk result (λ f. IfTold (L.told link.old) (λ o. AreOrdered o → IsFoundIn o generation f.tables f.newest f.next_object)) }
    ensures refused { IfErr result (λ e. IfTold (L.told link.old) (λ o. AreOrdered o → IsRefusal (source_of o generation) e)) }
    ensures newest { IfOk result (λ f. IsId f.newest) }
    ensures next { IfOk result (λ f. IsNext f.next_object) }
    ensures memory { IfErr result IsNoWantOfMemory }
    ensures store { IfErr result IsOfStore }
    ensures same { L.told link.new ≡ L.told link.old }
    ensures cause { HasCause (L.faults link.old) (L.faults link.new) (link_has_failed result) }
{
    let keys = read_keys(alloc, link, b"s3ql_")?;
    let Some(newest) = greatest(keys.generations.as_slice()) else {
        return Err(RestoreFault::NoFileSystem);
    };
    let bytes = generation_bytes(alloc, link, generation)?;
    let tables = dumped_tables(alloc, bytes)?;
    Ok(Found {
        tables,
        newest,
        next_object: keys.next_object,
    })
}

/// The parameters of a dump's tables, restored over those of the keeper.
fn restored_parameters(
    tables: &Tables,
    before: Option<Params>,
    newest: u64,
    next_object: u64,
) -> Params
    requires newest { IsId newest }
    requires next { IsNext next_object }
    ensures { Some result ≡ option_map (λ p. restores.restored_parameters p before newest next_object) tables.now.params }
{
    let params = &tables.params;
    let own = match before {
        Some(before) => before.generation,
        None => 0,
    };
    Params {
        revision: params.revision,
        block_size: params.block_size,
        slots: params.slots,
        state: State::Restored,
        next_inode: params.next_inode,
        next_name: params.next_name,
        next_block: params.next_block,
        next_object: params.next_object.max(next_object),
        generation: newest.max(own),
        last_done: newest,
    }
}

/// Puts tables in place of those of the keeper, with these parameters, by one batch. Where it is refused they are as before.
pub fn replace_tables<K: Keeper>(
    alloc: Global,
    keeper: &mut K,
    tables: Tables,
    params: Params,
) -> Result<(), KeeperFault>
    ensures ok { OnOk result ((s : Told) → K.told keeper.old ≡ Some s → IsOrdered s.tables
        → K.told keeper.new ≡ Some (record { tables = record tables { params = Some params }; commits = one_more s.commits })) }
    ensures err { OnErr result (K.told keeper.new ≡ K.told keeper.old) }
    ensures cause { HasCause (K.faults keeper.old) (K.faults keeper.new) (keeper_told.has_failed result) }
{
    let old = read_rows_beside(alloc, keeper, params)?;
    let batch = replacing_batch(alloc, &old, tables, params)?;
    keeper.commit(&batch)
}

/// Restores a generation over tables with these parameters, whose state is not looked at.
fn restore_over<K: Keeper, L: Link>(
    alloc: Global,
    keeper: &mut K,
    link: &mut L,
    before: Option<Params>,
    generation: u64,
) -> Result<(), RestoreFault>
    ensures mounted { IsRightOfState false result }
    ensures source { IfTold (L.told link.old) (λ o. AreOrdered o → IsRightOfSource (source_of o generation) result) }
    ensures restored { OnOk result ((s : Told) (o : Objects) → K.told keeper.old ≡ Some s → L.told link.old ≡ Some o → IsOrdered s.tables → AreOrdered o
        → before ≡ s.tables.params → IsRestored generation s o (K.told keeper.new)) }
    ensures refused { OnErr result (K.told keeper.new ≡ K.told keeper.old) }
    ensures memory { IfErr result IsNoWantOfMemory }
    ensures store { L.told link.new ≡ L.told link.old }
    ensures keeper_cause { HasCause (K.faults keeper.old) (K.faults keeper.new) (keeper_has_failed result) }
    ensures link_cause { HasCause (L.faults link.old) (L.faults link.new) (link_has_failed result) }
{
    let found = find_generation(alloc, link, generation)?;
    let params = restored_parameters(&found.tables, before, found.newest, found.next_object);
    replace_tables(alloc, keeper, found.tables, params)?;
    Ok(())
}

/// Restores a generation over the tables of the keeper. Where it is refused they are as before.
pub fn restore<K: Keeper, L: Link>(
    alloc: Global,
    keeper: &mut K,
    link: &mut L,
    generation: u64,
) -> Result<(), RestoreFault>
    ensures mounted { keeper_told.IfTold (K.told keeper.old) (λ t. IsRightOfState (restores.is_mounted t.params) result) }
    ensures source { IfTold (L.told link.old) (λ o. AreOrdered o → IsRightOfSource (source_of o generation) result) }
    ensures restored { OnOk result ((s : Told) (o : Objects) → K.told keeper.old ≡ Some s → L.told link.old ≡ Some o → IsOrdered s.tables → AreOrdered o
        → IsRestored generation s o (K.told keeper.new)) }
    ensures refused { OnErr result (K.told keeper.new ≡ K.told keeper.old) }
    ensures memory { IfErr result IsNoWantOfMemory }
    ensures store { L.told link.new ≡ L.told link.old }
    ensures keeper_cause { HasCause (K.faults keeper.old) (K.faults keeper.new) (keeper_has_failed result) }
    ensures link_cause { HasCause (L.faults link.old) (L.faults link.new) (link_has_failed result) }
{
    let before = keeper.params()?;
    if is_mounted(&before) {
        return Err(RestoreFault::Mounted);
    }
    restore_over(alloc, keeper, link, before, generation)
}

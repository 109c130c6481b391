//! A pass over the tables of a keeper.
ghost use Rattle.std.specs.Prelude.{◌≡◌, ◌++◌, true, false, option_map, map, is_some, None, Some, IfOk, IfErr, OnOk, OnErr};
ghost use Rattle.s3_base.specs.Faults.{HasCause};
ghost use Rattle.s3_rows.specs.Tables.{IsOrdered};
ghost use Rattle.s3_rows.specs.Told.{IfTold, Told};
ghost use Rattle.fsck_findings.specs.Line.{line_of};
ghost use Rattle.fsck_run.specs.Faults.{IsOfDevice, IsRefusal, keeper_has_failed, link_has_failed};
ghost use Rattle.fsck_run.specs.Passes.{IsTaken, committed, found_by, found_in, is_some_batch};
ghost use Rattle.fsck_run.specs.Refusals.{parameters_of};

use crate::FsckFault;
use crate::passes::{Counts, Losses, Names, Objects, Pass, Rows};
use crate::stage::Batched;
use fsck_findings::Findings;
use keeper_dump::read_tables;
use s3_devices::KeyList;
use s3_rows::{Batch, Keeper, Tables};
use std::alloc::{AllocError, Global};

/// The tables of a keeper that has some.
pub(crate) fn tables_of<K: Keeper>(alloc: Global, keeper: &mut K) -> Result<Tables, FsckFault>
    ensures tables { IfOk result (λ t. IfTold (K.told keeper.old) (λ u. IsOrdered u → t ≡ u)) }
    ensures made { IfOk result (λ _. IfTold (K.told keeper.old) (λ u. is_some u.params ≡ true)) }
    ensures refusal { IfErr result (λ e. IfTold (K.told keeper.old) (λ u. IsRefusal (parameters_of u.params) e)) }
    ensures same { K.told keeper.new ≡ K.told keeper.old }
    ensures keeper_cause { HasCause (K.faults keeper.old) (K.faults keeper.new) (keeper_has_failed result) }
    ensures of_keeper { link_has_failed result ≡ false }
{
    match read_tables(alloc, keeper)? {
        Some(tables) => Ok(tables),
        None => Err(FsckFault::NoFileSystem),
    }
}

/// Commits a batch that is not empty, and says whether it was one.
pub(crate) fn commit_some<K: Keeper>(keeper: &mut K, batch: &Batch) -> Result<bool, FsckFault>
    ensures ok { OnOk result (K.told keeper.new ≡ option_map (committed batch.now) (K.told keeper.old)) }
    ensures made { IfOk result (λ made. made ≡ is_some_batch batch.now) }
    ensures of_device { IfErr result IsOfDevice }
    ensures err { OnErr result (K.told keeper.new ≡ K.told keeper.old) }
    ensures keeper_cause { HasCause (K.faults keeper.old) (K.faults keeper.new) (keeper_has_failed result) }
    ensures of_keeper { link_has_failed result ≡ false }
{
    if batch.as_slice().is_empty() {
        return Ok(false);
    }
    keeper.commit(batch)?;
    Ok(true)
}

/// Adds lines at the end.
pub(crate) fn add_lines(findings: &mut Findings, lines: Findings) -> Result<(), AllocError>
    ensures { OnOk result (findings.new ≡ findings.old ++ lines) }
{
    for line in lines.into_vec() {
        findings.push(line)?;
    }
    Ok(())
}

/// Makes a pass, and says whether it changed anything.
pub(crate) fn take_pass<K: Keeper, P: Pass>(
    alloc: Global,
    keeper: &mut K,
    keys: &KeyList,
    findings: &mut Findings,
) -> Result<bool, FsckFault>
    ensures taken { IfOk result (λ made. (s : Told) → K.told keeper.old ≡ Some s → IsOrdered s.tables
        → IsTaken (found_in (P.found keys.now) s.tables) s (K.told keeper.new) findings.old findings.new made) }
    ensures refusal { IfErr result (λ e. (s : Told) → K.told keeper.old ≡ Some s → IsOrdered s.tables → IsRefusal (found_in (P.found keys.now) s.tables) e) }
    ensures refused { OnErr result (K.told keeper.new ≡ K.told keeper.old) }
    ensures keeper_cause { HasCause (K.faults keeper.old) (K.faults keeper.new) (keeper_has_failed result) }
    ensures of_keeper { link_has_failed result ≡ false }
{
    let tables = tables_of(alloc, keeper)?;
    let repair = P::repair(alloc, tables, keys)?;
    add_lines(findings, repair.findings)?;
    commit_some(keeper, &repair.batch)
}

/// Makes one of the passes, and says whether it changed anything.
pub(crate) fn take_batch<K: Keeper>(
    alloc: Global,
    keeper: &mut K,
    keys: &KeyList,
    findings: &mut Findings,
    pass: Batched,
) -> Result<bool, FsckFault>
    ensures taken { IfOk result (λ made. (s : Told) → K.told keeper.old ≡ Some s → IsOrdered s.tables
        → IsTaken (found_in (found_by pass keys.now) s.tables) s (K.told keeper.new) findings.old findings.new made) }
    ensures refusal { IfErr result (λ e. (s : Told) → K.told keeper.old ≡ Some s → IsOrdered s.tables → IsRefusal (found_in (found_by pass keys.now) s.tables) e) }
    ensures refused { OnErr result (K.told keeper.new ≡ K.told keeper.old) }
    ensures keeper_cause { HasCause (K.faults keeper.old) (K.faults keeper.new) (keeper_has_failed result) }
    ensures of_keeper { link_has_failed result ≡ false }
{
    match pass {
        Batched::Names => take_pass::<K, Names>(alloc, keeper, keys, findings),
        Batched::Rows => take_pass::<K, Rows>(alloc, keeper, keys, findings),
        Batched::Objects => take_pass::<K, Objects>(alloc, keeper, keys, findings),
        Batched::Losses => take_pass::<K, Losses>(alloc, keeper, keys, findings),
        Batched::Counts => take_pass::<K, Counts>(alloc, keeper, keys, findings),
    }
}

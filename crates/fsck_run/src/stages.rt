//! A check, one changing call at a time.
ghost use Rattle.std.specs.Prelude.{◌≡◌, ◌++◌, [], false, Option, Some, IfOk, IfErr, OnOk, OnErr};
ghost use Rattle.s3_base.specs.Faults.{HasCause};
ghost use Rattle.s3_rows.specs.Tables.{IsOrdered};
ghost use Rattle.s3_rows.specs.Told.{Told};
ghost use Rattle.s3_devices.specs.Objects.{Objects};
ghost use Rattle.fsck_run.specs.declared.stage.Stage.TheVariants as stages;
ghost use Rattle.fsck_run.specs.Check.{step_after};
ghost use Rattle.fsck_run.specs.Faults.{IsRefusal, keeper_has_failed, link_has_failed};
ghost use Rattle.fsck_run.specs.Progress.{begun, progress_of};
ghost use Rattle.fsck_run.specs.Refusals.{parameters_of};
ghost use Rattle.fsck_run.specs.Starts.{OverTold, IsStoreFound};
ghost use Rattle.fsck_run.specs.Steps.{IsStagedTo, IsStep, IsStopped};

use crate::FsckFault;
use crate::doomed_keys::DoomedKeys;
use crate::pass_steps::{add_lines, commit_some, tables_of, take_batch};
use crate::stage::{Batched, Stage, behind};
use crate::start::{begin_check, finish};
use fsck_findings::{Findings, Repair};
use fsck_objects::{StoreRepair, store};
use s3_base::Sequence;
use s3_devices::{KeyList, Link};
use s3_rows::{Batch, Keeper};
use std::alloc::{AllocError, Global};
use std::mem;

/// A check that has begun: the keys of the store as it began, the lines so far, and what is to go from the store and the tables.
#[derive(Drop)]
pub struct Check {
    stage: Stage,
    keys: KeyList,
    findings: Findings,
    unused: DoomedKeys,
    rows: Batch,
    strays: DoomedKeys,
}

/// What a step of a check answers.
#[derive(Drop)]
pub enum Stepped {
    /// It made a change.
    More,
    /// No change was left to be made. The lines are all that the check found.
    Done(Findings),
}

/// What is to go from the store and the tables. Nothing is changed.
fn store_of<K: Keeper>(
    alloc: Global,
    keeper: &mut K,
    keys: &KeyList,
) -> Result<StoreRepair, FsckFault>
    ensures found { IfOk result (λ r. (t : Told) → K.told keeper.old ≡ Some t → IsOrdered t.tables → IsStoreFound keys.now t.tables r) }
    ensures refusal { IfErr result (λ e. (t : Told) → K.told keeper.old ≡ Some t → IsRefusal (parameters_of t.tables.params) e) }
    ensures same { K.told keeper.new ≡ K.told keeper.old }
    ensures keeper_cause { HasCause (K.faults keeper.old) (K.faults keeper.new) (keeper_has_failed result) }
    ensures of_keeper { link_has_failed result ≡ false }
{
    let tables = tables_of(alloc, keeper)?;
    Ok(store(alloc, &tables, keys)?)
}

impl Check {
    /// A check that has done nothing yet.
    pub fn begin(alloc: Global) -> Self
        ensures { (t : Told) (o : Objects) → progress_of result t o ≡ begun t o }
    {
        Check {
            stage: Stage::Start,
            keys: KeyList::new(alloc),
            findings: Findings::new(alloc),
            unused: DoomedKeys::new(Sequence::new(alloc)),
            rows: Batch::new(alloc),
            strays: DoomedKeys::new(Sequence::new(alloc)),
        }
    }

    /// Lists the store, and marks the file system.
    fn take_start<K: Keeper, L: Link>(
        &mut self,
        alloc: Global,
        keeper: &mut K,
        link: &mut L,
    ) -> Result<bool, FsckFault>
        requires { self.old.stage ≡ stages.Start }
        ensures staged { IfOk result (λ made. OverTold (K.told keeper.old) (L.told link.old)
            (λ t o. IsStagedTo made (progress_of self.old t o) self.new (K.told keeper.new) (L.told link.new))) }
        ensures stopped { IfErr result (λ e. OverTold (K.told keeper.old) (L.told link.old)
            (λ t o. IsStopped e (progress_of self.old t o) (K.told keeper.new) (L.told link.new))) }
        ensures keeper_cause { HasCause (K.faults keeper.old) (K.faults keeper.new) (keeper_has_failed result) }
        ensures link_cause { HasCause (L.faults link.old) (L.faults link.new) (link_has_failed result) }
    {
        let started = begin_check(alloc, keeper, link)?;
        self.keys = started.keys;
        self.stage = Stage::Batch(Batched::Names);
        Ok(started.marked)
    }

    /// Makes a pass that is one batch, and goes on.
    fn take_batch_stage<K: Keeper>(
        &mut self,
        alloc: Global,
        keeper: &mut K,
        pass: Batched,
    ) -> Result<bool, FsckFault>
        requires { self.old.stage ≡ stages.Batch pass }
        ensures staged { IfOk result (λ made. (store : Option Objects) → OverTold (K.told keeper.old) store
            (λ t o. IsStagedTo made (progress_of self.old t o) self.new (K.told keeper.new) store)) }
        ensures stopped { IfErr result (λ e. (store : Option Objects) → OverTold (K.told keeper.old) store
            (λ t o. IsStopped e (progress_of self.old t o) (K.told keeper.new) store)) }
        ensures keeper_cause { HasCause (K.faults keeper.old) (K.faults keeper.new) (keeper_has_failed result) }
        ensures of_keeper { link_has_failed result ≡ false }
    {
        let made = take_batch(alloc, keeper, &self.keys, &mut self.findings, pass)?;
        self.stage = behind(pass);
        Ok(made)
    }

    /// Notes what is to go from the store.
    fn note_store(&mut self, found: StoreRepair) -> Result<(), AllocError>
        ensures noted { OnOk result ((t : Told) (o : Objects) → progress_of self.new t o ≡ record (progress_of self.old t o) {
          stage = stages.UnusedKeys;
          lines = self.old.findings ++ found.repair.findings;
          unused = found.unused;
          rows = found.repair.batch;
          strays = found.strays;
        }) }
    {
        let StoreRepair {
            unused,
            repair,
            strays,
        } = found;
        let Repair { batch, findings } = repair;
        add_lines(&mut self.findings, findings)?;
        self.unused = DoomedKeys::new(unused);
        self.rows = batch;
        self.strays = DoomedKeys::new(strays);
        self.stage = Stage::UnusedKeys;
        Ok(())
    }

    /// Looks at the store, where no change is made.
    fn take_store<K: Keeper>(&mut self, alloc: Global, keeper: &mut K) -> Result<bool, FsckFault>
        requires { self.old.stage ≡ stages.Store }
        ensures staged { IfOk result (λ made. (store : Option Objects) → OverTold (K.told keeper.old) store
            (λ t o. IsStagedTo made (progress_of self.old t o) self.new (K.told keeper.new) store)) }
        ensures stopped { IfErr result (λ e. (store : Option Objects) → OverTold (K.told keeper.old) store
            (λ t o. IsStopped e (progress_of self.old t o) (K.told keeper.new) store)) }
        ensures keeper_cause { HasCause (K.faults keeper.old) (K.faults keeper.new) (keeper_has_failed result) }
        ensures of_keeper { link_has_failed result ≡ false }
    {
        let found = store_of(alloc, keeper, &self.keys)?;
        self.note_store(found)?;
        Ok(false)
    }

    /// Deletes the next key of an object that no block has.
    fn delete_unused<L: Link>(&mut self, link: &mut L) -> Result<bool, FsckFault>
        requires { self.old.stage ≡ stages.UnusedKeys }
        ensures staged { IfOk result (λ made. (tables : Option Told) → OverTold tables (L.told link.old)
            (λ t o. IsStagedTo made (progress_of self.old t o) self.new tables (L.told link.new))) }
        ensures stopped { IfErr result (λ e. (tables : Option Told) → OverTold tables (L.told link.old)
            (λ t o. IsStopped e (progress_of self.old t o) tables (L.told link.new))) }
        ensures link_cause { HasCause (L.faults link.old) (L.faults link.new) (link_has_failed result) }
        ensures of_link { keeper_has_failed result ≡ false }
    {
        if self.unused.delete_first(link)? {
            return Ok(true);
        }
        self.stage = Stage::UnusedRows;
        Ok(false)
    }

    /// Deletes the rows of these objects.
    fn delete_rows<K: Keeper>(&mut self, keeper: &mut K) -> Result<bool, FsckFault>
        requires { self.old.stage ≡ stages.UnusedRows }
        ensures staged { IfOk result (λ made. (store : Option Objects) → OverTold (K.told keeper.old) store
            (λ t o. IsStagedTo made (progress_of self.old t o) self.new (K.told keeper.new) store)) }
        ensures stopped { IfErr result (λ e. (store : Option Objects) → OverTold (K.told keeper.old) store
            (λ t o. IsStopped e (progress_of self.old t o) (K.told keeper.new) store)) }
        ensures keeper_cause { HasCause (K.faults keeper.old) (K.faults keeper.new) (keeper_has_failed result) }
        ensures of_keeper { link_has_failed result ≡ false }
    {
        let made = commit_some(keeper, &self.rows)?;
        self.stage = Stage::StrayKeys;
        Ok(made)
    }

    /// Deletes the next key that no row has.
    fn delete_stray<L: Link>(&mut self, link: &mut L) -> Result<bool, FsckFault>
        requires { self.old.stage ≡ stages.StrayKeys }
        ensures staged { IfOk result (λ made. (tables : Option Told) → OverTold tables (L.told link.old)
            (λ t o. IsStagedTo made (progress_of self.old t o) self.new tables (L.told link.new))) }
        ensures stopped { IfErr result (λ e. (tables : Option Told) → OverTold tables (L.told link.old)
            (λ t o. IsStopped e (progress_of self.old t o) tables (L.told link.new))) }
        ensures link_cause { HasCause (L.faults link.old) (L.faults link.new) (link_has_failed result) }
        ensures of_link { keeper_has_failed result ≡ false }
    {
        if self.strays.delete_first(link)? {
            return Ok(true);
        }
        self.stage = Stage::Finish;
        Ok(false)
    }

    /// Marks the file system as clean.
    fn take_finish<K: Keeper>(&mut self, alloc: Global, keeper: &mut K) -> Result<bool, FsckFault>
        requires { self.old.stage ≡ stages.Finish }
        ensures staged { IfOk result (λ made. (store : Option Objects) → OverTold (K.told keeper.old) store
            (λ t o. IsStagedTo made (progress_of self.old t o) self.new (K.told keeper.new) store)) }
        ensures stopped { IfErr result (λ e. (store : Option Objects) → OverTold (K.told keeper.old) store
            (λ t o. IsStopped e (progress_of self.old t o) (K.told keeper.new) store)) }
        ensures keeper_cause { HasCause (K.faults keeper.old) (K.faults keeper.new) (keeper_has_failed result) }
        ensures of_keeper { link_has_failed result ≡ false }
    {
        finish(alloc, keeper)?;
        self.stage = Stage::Over;
        Ok(true)
    }

    /// Does what a stage does, and says whether it changed anything.
    fn take_stage<K: Keeper, L: Link>(
        &mut self,
        alloc: Global,
        keeper: &mut K,
        link: &mut L,
    ) -> Result<bool, FsckFault>
        ensures staged { IfOk result (λ made. OverTold (K.told keeper.old) (L.told link.old)
            (λ t o. IsStagedTo made (progress_of self.old t o) self.new (K.told keeper.new) (L.told link.new))) }
        ensures stopped { IfErr result (λ e. OverTold (K.told keeper.old) (L.told link.old)
            (λ t o. IsStopped e (progress_of self.old t o) (K.told keeper.new) (L.told link.new))) }
        ensures keeper_cause { HasCause (K.faults keeper.old) (K.faults keeper.new) (keeper_has_failed result) }
        ensures link_cause { HasCause (L.faults link.old) (L.faults link.new) (link_has_failed result) }
    {
        match self.stage {
            Stage::Start => self.take_start(alloc, keeper, link),
            Stage::Batch(pass) => self.take_batch_stage(alloc, keeper, pass),
            Stage::Store => self.take_store(alloc, keeper),
            Stage::UnusedKeys => self.delete_unused(link),
            Stage::UnusedRows => self.delete_rows(keeper),
            Stage::StrayKeys => self.delete_stray(link),
            Stage::Finish => self.take_finish(alloc, keeper),
            Stage::Over => Ok(false),
        }
    }

    /// Makes the next change, if one is left.
    pub fn step<K: Keeper, L: Link>(
        &mut self,
        alloc: Global,
        keeper: &mut K,
        link: &mut L,
    ) -> Result<Stepped, FsckFault>
        // Exactly the change of its definition, or the end with all lines where none was left.
        ensures step { IfOk result (λ r. OverTold (K.told keeper.old) (L.told link.old)
            (λ t o. IsStep (step_after (progress_of self.old t o)) r self.new (K.told keeper.new) (L.told link.new))) }
        // A refusal is that of the definition, or of a device, and changes nothing but that a key may be gone.
        ensures stopped { IfErr result (λ e. OverTold (K.told keeper.old) (L.told link.old)
            (λ t o. IsStopped e (progress_of self.old t o) (K.told keeper.new) (L.told link.new))) }
        ensures keeper_cause { HasCause (K.faults keeper.old) (K.faults keeper.new) (keeper_has_failed result) }
        ensures link_cause { HasCause (L.faults link.old) (L.faults link.new) (link_has_failed result) }
    {
        for _stage in 0..u64::MAX {
            if matches!(self.stage, Stage::Over) {
                let findings = mem::replace(&mut self.findings, Findings::new(alloc));
                return Ok(Stepped::Done(findings));
            }
            if self.take_stage(alloc, keeper, link)? {
                return Ok(Stepped::More);
            }
        }
        Err(FsckFault::Memory)
    }
}

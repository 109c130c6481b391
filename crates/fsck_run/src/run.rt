//! A whole check.
ghost use Rattle.std.specs.Prelude.{IfOk, IfErr};
ghost use Rattle.s3_base.specs.Faults.{HasCause};
ghost use Rattle.fsck_run.specs.Check.{check_after};
ghost use Rattle.fsck_run.specs.Faults.{keeper_has_failed, link_has_failed};
ghost use Rattle.fsck_run.specs.Starts.{OverTold};
ghost use Rattle.fsck_run.specs.Steps.{IsBrokenOff, IsChecked, IsUnchanged};

use crate::{Check, FsckFault, Stepped};
use fsck_findings::Findings;
use s3_devices::Link;
use s3_rows::Keeper;
use std::alloc::Global;

/// Checks and mends the tables of a keeper and the keys of a store, and says what it found, a line each.
pub fn check<K: Keeper, L: Link>(
    alloc: Global,
    keeper: &mut K,
    link: &mut L,
) -> Result<Findings, FsckFault>
    // Exactly the tables, the store and the lines of its definition.
    ensures checked { IfOk result (λ lines. OverTold (K.told keeper.old) (L.told link.old)
        (λ t o. IsChecked (check_after t o) lines (K.told keeper.new) (L.told link.new))) }
    // A refusal is that of the definition, or of a device. So many steps were made, and the next one was refused.
    ensures broken_off { IfErr result (λ e. OverTold (K.told keeper.old) (L.told link.old)
        (λ t o. IsBrokenOff e t o (K.told keeper.new) (L.told link.new))) }
    ensures unchanged { IfErr result (λ e. OverTold (K.told keeper.old) (L.told link.old)
        (λ t o. IsUnchanged e t o (K.told keeper.new) (L.told link.new))) }
    ensures keeper_cause { HasCause (K.faults keeper.old) (K.faults keeper.new) (keeper_has_failed result) }
    ensures link_cause { HasCause (L.faults link.old) (L.faults link.new) (link_has_failed result) }
{
    let mut check = Check::begin(alloc);
    for _step in 0..u64::MAX {
        if let Stepped::Done(findings) = check.step(alloc, keeper, link)? {
            return Ok(findings);
        }
    }
    Err(FsckFault::Memory)
}

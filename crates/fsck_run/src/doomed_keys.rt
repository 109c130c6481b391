//! Keys that are to go from a store, one after the other.
ghost use Rattle.std.specs.Prelude.{◌≡◌, ◌+◌, ◌≤◌, ◌<◌, ◌^◌, ◌-◌, false, true, length, drop, Some, None, option_map, OnOk, IfOk, IfErr, OnErr};
ghost use Rattle.s3_base.specs.Faults.{HasCause};
ghost use Rattle.s3_devices.specs.Objects.{Objects};
ghost use Rattle.s3_devices.specs.Told.{Becomes};
ghost use Rattle.fsck_run.specs.Faults.{IsOfDevice, keeper_has_failed, link_has_failed};
ghost use Rattle.fsck_run.specs.DoomedKeys.{left, IsFirstGone, IsFirstKeptOrGone};

use crate::FsckFault;
use s3_base::{ByteList, Sequence};
use s3_devices::Link;

/// Keys in order, of which some are gone.
#[derive(Drop)]
pub(crate) struct DoomedKeys {
    keys: Sequence<ByteList>,
    gone: usize,
}

impl DoomedKeys {
    /// None is gone yet.
    pub(crate) fn new(keys: Sequence<ByteList>) -> Self
        ensures { left result ≡ keys }
    {
        DoomedKeys { keys, gone: 0 }
    }

    /// Deletes the first key that is left, and says whether there is one.
    pub(crate) fn delete_first<L: Link>(&mut self, link: &mut L) -> Result<bool, FsckFault>
        ensures gone { IfOk result (λ made. (o : Objects) → L.told link.old ≡ Some o → IsFirstGone made (left self.old) o (left self.new) (L.told link.new)) }
        ensures refused { OnErr result (Becomes (IsFirstKeptOrGone (left self.old)) (L.told link.old) (L.told link.new)) }
        ensures of_device { IfErr result IsOfDevice }
        ensures of_link { keeper_has_failed result ≡ false }
        ensures cause { HasCause (L.faults link.old) (L.faults link.new) (link_has_failed result) }
    {
        let count = self.keys.len();
        if self.gone >= count {
            return Ok(false);
        }
        link.delete(&self.keys.as_slice()[self.gone])?;
        self.gone += 1;
        Ok(true)
    }
}

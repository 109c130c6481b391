ghost use Rattle.std.specs.Prelude.{◌≡◌, [], OnErr, IsTrue};
ghost use Rattle.s3_base.specs.Faults.{HasCause};
ghost use Rattle.s3_devices.specs.DiskAnswers.{has_failed};
ghost use Rattle.mem_disk.specs.Memory.{IsCall};

use s3_base::NumberList;
use s3_devices::DiskFault;
use std::alloc::Global;
use std::marker::Model;

/// A cache disk in memory, whose calls of stated numbers fail. It tells its bytes.
#[derive(Debug, Drop)]
pub struct MemDisk {
    pub(crate) bytes: Vec<u8>,
    pub(crate) calls: u64,
    pub(crate) fails: NumberList,
    pub(crate) faults: u64,
}

impl Model for MemDisk {
    ghost use Rattle.mem_disk.specs.Memory.{DiskState};

    ghost Value = { DiskState };

    ghost view = { λ d. record { bytes = d.bytes.items; calls = d.calls; fails = d.fails; faults = d.faults } };
}

impl MemDisk {
    /// An empty disk that never fails, which takes no memory.
    pub fn new(alloc: Global) -> Self
        ensures { result ≡ record { bytes = []; calls = 0; fails = []; faults = 0 } }
    {
        MemDisk::with_fails(alloc, NumberList::new(alloc))
    }

    /// An empty disk. `fails` has the numbers of the calls that fail, counted from 0.
    pub fn with_fails(alloc: Global, fails: NumberList) -> Self
        ensures { result ≡ record { bytes = []; calls = 0; fails = fails; faults = 0 } }
    {
        MemDisk {
            bytes: Vec::new(alloc),
            calls: 0,
            fails,
            faults: 0,
        }
    }

    /// Counts a call, and fails where its number is listed.
    pub(crate) fn begin(&mut self) -> Result<(), DiskFault>
        ensures call { IsCall result self.old self.new }
        ensures cause { HasCause self.old.faults self.new.faults (has_failed result) }
        ensures same { self.new.bytes ≡ self.old.bytes }
        ensures failed { OnErr result (IsTrue (has_failed result)) }
    {
        let call = self.calls;
        self.calls = call.saturating_add(1);
        if self.fails.contains(call) {
            self.faults = self.faults.saturating_add(1);
            return Err(DiskFault::Failed);
        }
        Ok(())
    }
}

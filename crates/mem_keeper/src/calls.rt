ghost use Rattle.std.specs.Prelude.{◌≡◌, IsTrue, OnErr};
ghost use Rattle.s3_base.specs.Faults.{HasCause};
ghost use Rattle.s3_rows.specs.Told.{has_failed};
ghost use Rattle.mem_keeper.specs.Memory.{IsCall};

use crate::MemKeeper;
use s3_rows::KeeperFault;

impl MemKeeper {
    /// Counts a call, and fails where its number is listed.
    pub(crate) fn begin(&mut self) -> Result<(), KeeperFault>
        ensures call { IsCall result self.old self.new }
        ensures cause { HasCause self.old.faults self.new.faults (has_failed result) }
        ensures same { self.new.told ≡ self.old.told }
        ensures failed { OnErr result (IsTrue (has_failed result)) }
    {
        let call = self.calls;
        self.calls = call.saturating_add(1);
        if self.fails.contains(call) {
            self.faults = self.faults.saturating_add(1);
            return Err(KeeperFault::Failed);
        }
        Ok(())
    }
}

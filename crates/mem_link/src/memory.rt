ghost use Rattle.std.specs.Prelude.{◌≡◌, ◌≤◌, [], length, OnOk, OnErr, min, IsTrue};
ghost use Rattle.s3_base.specs.Faults.{HasCause};
ghost use Rattle.s3_devices.specs.Objects.{with_object};
ghost use Rattle.s3_devices.specs.LinkAnswers.{key_limit, has_failed};
ghost use Rattle.mem_link.specs.Memory.{IsCall};

use crate::objects::put_object;
use s3_base::{ByteList, NumberList};
use s3_devices::LinkFault;
use std::alloc::{AllocError, Global};
use std::collections::BTreeMap;
use std::marker::Model;

/// A store of objects in memory, whose calls of stated numbers fail. It tells its objects.
#[derive(Debug, Drop)]
pub struct MemLink {
    pub(crate) objects: BTreeMap<ByteList, ByteList>,
    pub(crate) calls: u64,
    pub(crate) fails: NumberList,
    pub(crate) faults: u64,
    pub(crate) alloc: Global,
}

impl Model for MemLink {
    ghost use Rattle.mem_link.specs.Memory.{AreStored, LinkState};

    ghost Value = { LinkState };

    ghost view = { λ l. record { objects = l.objects.entries; calls = l.calls; fails = l.fails; faults = l.faults } };

    ghost invariant = { λ l. AreStored l.objects.entries };
}

impl MemLink {
    /// An empty store that never fails, which takes no memory.
    pub fn new(alloc: Global) -> Self
        ensures { result ≡ record { objects = []; calls = 0; fails = []; faults = 0 } }
    {
        MemLink::with_fails(alloc, NumberList::new(alloc))
    }

    /// An empty store. `fails` has the numbers of the calls that fail, counted from 0.
    pub fn with_fails(alloc: Global, fails: NumberList) -> Self
        ensures { result ≡ record { objects = []; calls = 0; fails = fails; faults = 0 } }
    {
        MemLink {
            objects: BTreeMap::new(alloc),
            calls: 0,
            fails,
            faults: 0,
            alloc,
        }
    }

    /// Stores the bytes under the key. This is no call of the link.
    pub fn hold(&mut self, key: ByteList, bytes: ByteList) -> Result<(), AllocError>
        requires { length key ≤ key_limit }
        ensures ok { OnOk result (self.new ≡ record self.old { objects = with_object key bytes self.old.objects }) }
        ensures err { OnErr result (self.new ≡ self.old) }
    {
        put_object(&mut self.objects, key, bytes)
    }

    /// Counts a call, and fails where its number is listed.
    pub(crate) fn begin(&mut self) -> Result<(), LinkFault>
        ensures call { IsCall result self.old self.new }
        ensures cause { HasCause self.old.faults self.new.faults (has_failed result) }
        ensures same { self.new.objects ≡ self.old.objects }
        ensures failed { OnErr result (IsTrue (has_failed result)) }
    {
        let call = self.calls;
        self.calls = call.saturating_add(1);
        if self.fails.contains(call) {
            self.faults = self.faults.saturating_add(1);
            return Err(LinkFault::Failed);
        }
        Ok(())
    }
}

//! A source and a sink in memory, whose calls of stated numbers fail.
ghost use Rattle.std.specs.Prelude.{◌≡◌, ◌≢◌, ◌+◌, ◌-◌, ◌^◌, min, ◌<◌, ◌≤◌, ◌↔◌, ℕ, List, [], Option, Some, length, take, drop, IsTrue, IfOk, OnOk, OnErr, is_err, Contains};
ghost use Rattle.s3_base.specs.Stream.{Stream, Takes, Appends, AppendsFront};
ghost use Rattle.s3_base.specs.Faults.{HasCause};
ghost use Rattle.s3_base.specs.Memory.{SourceState, SinkState};

use crate::{ByteList, Failed, NumberList, Sink, Source};
use std::alloc::Global;
use std::marker::Model;

/// A source over bytes in memory. It tells its bytes, and gives as many at once as fit.
#[derive(Debug, Drop)]
pub struct MemSource {
    bytes: ByteList,
    at: usize,
    calls: u64,
    fails: NumberList,
    faults: u64,
}

impl Model for MemSource {
    ghost Value = { SourceState };

    ghost view = { λ s. record { stream = record { taken = take s.at s.bytes; left = drop s.at s.bytes }; calls = s.calls; fails = s.fails; faults = s.faults } };

    ghost invariant = { λ s. s.at ≤ length s.bytes };
}

impl MemSource {
    /// A source of these bytes. `fails` has the numbers of the calls that fail, counted from 0.
    pub fn new(bytes: ByteList, fails: NumberList) -> Self
        ensures { result ≡ record { stream = record { taken = []; left = bytes }; calls = 0; fails = fails; faults = 0 } }
    {
        MemSource {
            bytes,
            at: 0,
            calls: 0,
            fails,
            faults: 0,
        }
    }
}

impl Source for MemSource {
    ghost told = { λ s. Some s.stream };

    ghost faults = { λ s. s.faults };

    fn next(&mut self, buf: &mut [u8]) -> Result<usize, Failed>
        requires { 0 < length buf.old }
        ensures within { IfOk result (λ n. n ≤ length buf.old) }
        ensures taken { IfOk result (λ n. Takes n buf.new (Some self.old.stream) (Some self.new.stream)) }
        ensures err { OnErr result (self.new.stream ≡ self.old.stream) }
        ensures cause { HasCause self.old.faults self.new.faults (is_err result) }
        ensures fails { IsTrue (is_err result) ↔ Contains self.old.fails self.old.calls }
        ensures calls { self.new.calls ≡ min (self.old.calls + 1) (2 ^ 64 - 1) }
        ensures kept { self.new.fails ≡ self.old.fails }
    {
        let call = self.calls;
        self.calls = call.saturating_add(1);
        if self.fails.contains(call) {
            self.faults = self.faults.saturating_add(1);
            return Err(Failed);
        }
        let left = &self.bytes.as_slice()[self.at..];
        let n = left.len().min(buf.len());
        buf[..n].copy_from_slice(&left[..n]);
        self.at += n;
        Ok(n)
    }
}

/// A sink that keeps its bytes in memory, and tells them.
#[derive(Debug, Drop)]
pub struct MemSink {
    bytes: ByteList,
    calls: u64,
    fails: NumberList,
    faults: u64,
}

impl Model for MemSink {
    ghost Value = { SinkState };

    ghost view = { λ s. record { bytes = s.bytes; calls = s.calls; fails = s.fails; faults = s.faults } };
}

impl MemSink {
    /// An empty sink. `fails` has the numbers of the calls that fail, counted from 0.
    pub fn new(alloc: Global, fails: NumberList) -> Self
        ensures { result ≡ record { bytes = []; calls = 0; fails = fails; faults = 0 } }
    {
        MemSink {
            bytes: ByteList::new(alloc),
            calls: 0,
            fails,
            faults: 0,
        }
    }

    /// All that was written.
    pub fn bytes(&self) -> &[u8]
        ensures { result.now ≡ self.now.bytes }
    {
        self.bytes.as_slice()
    }
}

impl Sink for MemSink {
    ghost written = { λ s. Some s.bytes };

    ghost faults = { λ s. s.faults };

    /// A call that fails appends nothing, and so does one for which there is no memory.
    fn put(&mut self, bytes: &[u8]) -> Result<(), Failed>
        ensures ok { OnOk result (Appends bytes.now (Some self.old.bytes) (Some self.new.bytes)) }
        ensures err { OnErr result (AppendsFront bytes.now (Some self.old.bytes) (Some self.new.bytes)) }
        ensures cause { HasCause self.old.faults self.new.faults (is_err result) }
        ensures fails { Contains self.old.fails self.old.calls → IsTrue (is_err result) }
        ensures nothing { OnErr result (self.new.bytes ≡ self.old.bytes) }
        ensures calls { self.new.calls ≡ min (self.old.calls + 1) (2 ^ 64 - 1) }
        ensures kept { self.new.fails ≡ self.old.fails }
    {
        let call = self.calls;
        self.calls = call.saturating_add(1);
        if self.fails.contains(call) || self.bytes.extend_from_slice(bytes).is_err() {
            self.faults = self.faults.saturating_add(1);
            return Err(Failed);
        }
        Ok(())
    }
}

//! Sources, sinks and clocks over those of std. As sources and sinks they tell no bytes; their own clauses say what they
//! do to a reader or a writer that tells its bytes.
ghost use Rattle.std.specs.Prelude.{◌≡◌, ℕ, ◌<◌, ◌≤◌, ◌^◌, Option, None, length, IfOk, is_err};
ghost use Rattle.std.specs.Io.KnownBytes.{ReadConsumes};
ghost use Rattle.s3_base.specs.Faults.{HasCause};
ghost use Rattle.s3_base.specs.Writer.{WritesAll};

use crate::{Clock, Failed, Sink, Source};
use std::io::{Read, Write};
use std::rt;
use std::time::SystemTime;

/// The last time that a clock can tell.
const LAST_TIME: u64 = (1 << 62) - 1;

/// A source over a reader. A reader that gives no byte is at its end.
#[derive(Debug, Drop)]
pub struct StdSource<R> {
    inner: R,
    faults: u64,
}

impl<R: Read> StdSource<R> {
    pub fn new(inner: R) -> Self
        ensures inner { result.inner ≡ inner }
        ensures faults { result.faults ≡ 0 }
    {
        StdSource { inner, faults: 0 }
    }
}

impl<R: Read> Source for StdSource<R> {
    ghost told = { λ _. None };

    ghost faults = { λ s. s.faults };

    fn next(&mut self, buf: &mut [u8]) -> Result<usize, Failed>
        requires { 0 < length buf.old }
        ensures within { IfOk result (λ n. n ≤ length buf.old) }
        ensures cause { HasCause self.old.faults self.new.faults (is_err result) }
        ensures bytes { ReadConsumes (R.remaining self.old.inner) (R.remaining self.new.inner) result buf.new }
    {
        match self.inner.read(buf) {
            Ok(n) => Ok(n),
            Err(_) => {
                self.faults = self.faults.saturating_add(1);
                Err(Failed)
            }
        }
    }
}

/// A sink over a writer, which is flushed at each call. A writer that takes no byte has failed.
#[derive(Debug, Drop)]
pub struct StdSink<W> {
    inner: W,
    faults: u64,
}

impl<W: Write> StdSink<W> {
    pub fn new(inner: W) -> Self
        ensures inner { result.inner ≡ inner }
        ensures faults { result.faults ≡ 0 }
    {
        StdSink { inner, faults: 0 }
    }
}

impl<W: Write> Sink for StdSink<W> {
    ghost written = { λ _. None };

    ghost faults = { λ s. s.faults };

    fn put(&mut self, bytes: &[u8]) -> Result<(), Failed>
        ensures cause { HasCause self.old.faults self.new.faults (is_err result) }
        ensures bytes { WritesAll (W.contents self.old.inner) (W.contents self.new.inner) result bytes.now }
    {
        match write_all(&mut self.inner, bytes) {
            Ok(()) => Ok(()),
            Err(Failed) => {
                self.faults = self.faults.saturating_add(1);
                Err(Failed)
            }
        }
    }
}

/// Hands all of the bytes on.
fn write_all<W: Write>(writer: &mut W, bytes: &[u8]) -> Result<(), Failed>
    ensures { WritesAll (W.contents writer.old) (W.contents writer.new) result bytes.now }
{
    let mut rest = bytes;
    while !rest.is_empty() {
        match writer.write(rest) {
            Ok(0) | Err(_) => return Err(Failed),
            Ok(n) => rest = &rest[n..],
        }
    }
    match writer.flush() {
        Ok(()) => Ok(()),
        Err(_) => Err(Failed),
    }
}

/// The system's clock. Where it fails, and before the first time, its last number comes again, 0 at first.
#[derive(Debug, Drop)]
pub struct StdClock<R> {
    rt: R,
    last: u64,
    ghost in_range: { last < 2 ^ 62 },
}

impl<R: rt::Clock> StdClock<R> {
    pub fn new(rt: R) -> Self
        ensures { result.last ≡ 0 }
    {
        StdClock { rt, last: 0 }
    }
}

impl<R: rt::Clock> Clock for StdClock<R> {
    fn now(&mut self) -> u64
        ensures in_range { result < 2 ^ 62 }
        ensures kept { result ≡ self.new.last }
    {
        if let Ok(time) = SystemTime::now(&self.rt)
            && let Ok(since) = time.duration_since(SystemTime::UNIX_EPOCH)
        {
            self.last = match u64::try_from(since.as_nanos()) {
                Ok(nanos) => nanos.min(LAST_TIME),
                Err(_) => LAST_TIME,
            };
        }
        self.last
    }
}

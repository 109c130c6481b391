//! Bytes in and bytes out, as every layer sees them.
ghost use Rattle.std.specs.Prelude.{◌≡◌, ◌<◌, ◌≤◌, ℕ, List, Option, length, IfOk, OnOk, OnErr, is_err};
ghost use Rattle.s3_base.specs.Stream.{Stream, Takes, Appends, AppendsFront};
ghost use Rattle.s3_base.specs.Faults.{HasCause};

use crate::Failed;

/// Where bytes come from, in pieces of any length.
pub trait Source {
    /// The bytes taken so far and those that are left, where the source tells them.
    ghost told: { Self → Option Stream };

    /// How often the source has failed.
    ghost faults: { Self → ℕ };

    /// Gives the next bytes in the front of `buf`, and how many. 0 is the end of the input. A refused call takes no
    /// byte, and leaves anything in `buf`.
    fn next(&mut self, buf: &mut [u8]) -> Result<usize, Failed>
        requires { 0 < length buf.old }
        ensures within { IfOk result (λ n. n ≤ length buf.old) }
        ensures taken { IfOk result (λ n. Takes n buf.new (told self.old) (told self.new)) }
        ensures err { OnErr result (told self.new ≡ told self.old) }
        ensures cause { HasCause (faults self.old) (faults self.new) (is_err result) };
}

/// Where bytes go. What `put` has answered Ok to has left the program.
pub trait Sink {
    /// All bytes written so far, where the sink tells them.
    ghost written: { Self → Option (List ℕ) };

    /// How often the sink has failed.
    ghost faults: { Self → ℕ };

    /// Appends all of the bytes. A refused call has appended a front of them.
    fn put(&mut self, bytes: &[u8]) -> Result<(), Failed>
        ensures ok { OnOk result (Appends bytes.now (written self.old) (written self.new)) }
        ensures err { OnErr result (AppendsFront bytes.now (written self.old) (written self.new)) }
        ensures cause { HasCause (faults self.old) (faults self.new) (is_err result) };
}

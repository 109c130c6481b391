ghost use Rattle.std.specs.Prelude.{◌≡◌, ◌<◌, ◌^◌, ℕ};

use std::marker::Model;

/// The time, in nanoseconds since 1970-01-01 00:00 UTC.
pub trait Clock {
    fn now(&mut self) -> u64
        ensures { result < 2 ^ 62 };
}

/// A clock that stands still at its number, which is below 2^62.
#[derive(Clone, Copy, Debug)]
pub struct FixedClock(pub u64);

impl Model for FixedClock {
    ghost Value = { ℕ };

    ghost view = { λ c. c.0 };

    ghost invariant = { λ c. c.0 < 2 ^ 62 };

    ghost inverse = { λ n. record { 0 = n } };
}

impl Clock for FixedClock {
    fn now(&mut self) -> u64
        ensures in_range { result < 2 ^ 62 }
        ensures value { result ≡ self.old }
        ensures same { self.new ≡ self.old }
    {
        self.0
    }
}

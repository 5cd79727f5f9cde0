//! Moments of whole seconds.
ghost use Rattle.std.specs.Prelude.{◌≡◌, ◌≤◌, ◌+◌, min, nat_le, if◌then◌else◌, Some, None};

use std::marker::Model;

/// The seconds of the last moment.
pub const LAST: u64 = 253402300799;

/// Seconds since 1970-01-01 00:00:00 UTC.
#[derive(Clone, Copy, Debug, PartialEq, Eq, PartialOrd, Ord)]
pub struct Moment {
    seconds: u64,
}

impl Model for Moment {
    ghost use Rattle.std.specs.Prelude.{ℕ, ◌≤◌};

    ghost Value = { ℕ };

    ghost view = { λ m. m.seconds };

    ghost invariant = { λ m. m.seconds ≤ 253402300799 };

    ghost inverse = { λ n. record { seconds = n } };
}

impl Moment {
    /// 1970-01-01 00:00:00 UTC.
    pub const FIRST: Moment = Moment { seconds: 0 };

    /// The moment with these seconds, unless they are out of range.
    pub fn new(seconds: u64) -> Option<Moment>
        ensures { result ≡ (if nat_le seconds 253402300799 then Some seconds else None) }
    {
        if seconds <= LAST {
            Some(Moment { seconds })
        } else {
            None
        }
    }

    /// The moment after a delay, or the last one.
    pub fn plus(self, delay: u64) -> Moment
        ensures { result ≡ min (self + delay) 253402300799 }
    {
        let seconds = self.seconds.saturating_add(delay).min(LAST);
        Moment { seconds }
    }

    /// The seconds.
    pub fn seconds(self) -> u64
        ensures value { result ≡ self }
        ensures range { result ≤ 253402300799 }
    {
        self.seconds
    }
}

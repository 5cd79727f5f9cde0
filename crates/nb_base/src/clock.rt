//! A clock.

use crate::moment::Moment;

/// A clock, by the moment that it answers next, where it tells that.
pub trait Clock {
    ghost use Rattle.std.specs.Prelude.{ℕ, Option};
    ghost use Rattle.nb_base.specs.Told.{IsTold};

    ghost next: { Self → Option ℕ };

    /// The moment.
    fn now(&mut self) -> Moment
        ensures { IsTold (next self.old) result };
}

/// A clock that stands still.
#[derive(Clone, Copy, Debug)]
pub struct FixedClock(pub Moment);

impl Clock for FixedClock {
    ghost use Rattle.std.specs.Prelude.{Some};

    ghost next = { λ c. Some c.0 };

    fn now(&mut self) -> Moment {
        self.0
    }
}

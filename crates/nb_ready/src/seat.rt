//! What is known of a number.
ghost use Rattle.std.specs.Prelude.{◌≡◌};
ghost use Rattle.nb_ready.specs.Seats.{fresh, is_free};

use nb_base::Moment;

/// What is known of a number.
#[derive(Clone, Copy, Debug)]
pub(crate) struct Seat {
    pub due: Option<Moment>,
    pub held: bool,
    pub count: u32,
}

impl Seat {
    /// Of a number that was just added.
    pub fn new(due: Option<Moment>) -> Seat
        ensures { result ≡ fresh due }
    {
        Seat {
            due,
            held: false,
            count: 0,
        }
    }

    /// Whether it has no due and isn't held.
    pub fn is_free(&self) -> bool
        ensures { result ≡ is_free self.now }
    {
        self.due.is_none() && !self.held
    }
}

//! The first of some numbers.
ghost use Rattle.std.specs.Prelude.{◌≡◌};
ghost use Rattle.nb_ready.specs.First.{first_of, both_first, earlier};

use crate::seat::Seat;
use nb_base::Waiting;

/// The least free one of some numbers, and the one that comes due first.
#[derive(Clone, Copy, Debug)]
pub(crate) struct First {
    pub free: Option<u64>,
    pub due: Option<Waiting>,
}

/// The one that comes due first, and the left one of two that come due together.
fn earlier(low: Option<Waiting>, high: Option<Waiting>) -> Option<Waiting>
    ensures { result ≡ earlier low high }
{
    let (Some(l), Some(h)) = (low, high) else {
        return low.or(high);
    };
    Some(if h.due < l.due { h } else { l })
}

impl First {
    /// Of no number.
    pub const NONE: First = First {
        free: None,
        due: None,
    };

    /// Of one number.
    pub fn of(number: u64, seat: Seat) -> First
        ensures { result ≡ first_of number seat }
    {
        First {
            free: if seat.is_free() { Some(number) } else { None },
            due: match seat.due {
                Some(due) => Some(Waiting { number, due }),
                None => None,
            },
        }
    }

    /// Of some numbers and of greater ones.
    pub fn before(self, high: First) -> First
        ensures { result ≡ both_first self high }
    {
        First {
            free: self.free.or(high.free),
            due: earlier(self.due, high.due),
        }
    }
}

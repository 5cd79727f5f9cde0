//! Why the handling of a message stops.

use nb_base::{NoMemory, Text};
use nb_script::stmt::Refusal;
use std::alloc::{AllocError, AllocFailed};

/// A limit that a message passed.
#[derive(Clone, Copy, Debug, PartialEq, Eq)]
pub enum Limit {
    /// A number left the range of 64 bits.
    Overflow,
    /// A text became longer than 65,536 bytes.
    TooLong,
    /// The outgoing bodies together passed 1,048,576 bytes.
    TooLarge,
    /// The 257th outgoing message.
    TooMany,
    /// A delay outside 0 to 31,536,000 seconds.
    BadDelay,
    /// There is no address to reply to.
    NoReplyAddress,
}

/// Why the handling of a message stops.
#[derive(Debug, Drop)]
pub enum Stop {
    /// A limit was passed.
    Passed(Limit),
    /// The script refuses the message.
    Refused {
        refusal: Refusal,
        name: Text,
        text: Text,
    },
    /// A value of a wrong kind, or a name that isn't there. No checked script comes to this.
    Wrong,
    NoMemory,
}

impl From<NoMemory> for Stop {
    ghost use Rattle.std.specs.Prelude.{◌≡◌};
    ghost use Rattle.nb_eval.specs.declared.stop.Stop.TheVariants.{NoMemory};

    ghost from_gives = { λ _ e. e ≡ NoMemory };

    fn from(_refused: NoMemory) -> Stop {
        Stop::NoMemory
    }
}

impl From<AllocError> for Stop {
    ghost use Rattle.std.specs.Prelude.{◌≡◌};
    ghost use Rattle.nb_eval.specs.declared.stop.Stop.TheVariants.{NoMemory};

    ghost from_gives = { λ _ e. e ≡ NoMemory };

    fn from(_refused: AllocError) -> Stop {
        Stop::NoMemory
    }
}

impl<T: Drop> From<AllocFailed<T>> for Stop {
    ghost use Rattle.std.specs.Prelude.{◌≡◌};
    ghost use Rattle.nb_eval.specs.declared.stop.Stop.TheVariants.{NoMemory};

    ghost from_gives = { λ _ e. e ≡ NoMemory };

    fn from(_refused: AllocFailed<T>) -> Stop {
        Stop::NoMemory
    }
}

//! Why a text is no script.
ghost use Rattle.std.specs.Prelude.{◌≡◌};
ghost use Rattle.nb_script.specs.declared.fault.Halt.TheVariants.{Memory};

use nb_base::NoMemory;
use std::alloc::{AllocError, AllocFailed};

/// Why a script can't go on with a token.
#[derive(Clone, Copy, Debug, PartialEq, Eq)]
pub enum Fault {
    /// The token opens the 101st level, or is the 1001st operator of an expression.
    TooDeep,
    /// No script goes on with this token.
    Expected,
}

/// Why reading stopped: memory ran out, or a fault stands at the token with this number.
#[derive(Clone, Copy, Debug)]
pub enum Halt {
    Memory,
    Stopped(Fault, usize),
}

impl From<AllocError> for Halt {
    ghost from_gives = { λ _ e. e ≡ Memory };

    fn from(_e: AllocError) -> Halt {
        Halt::Memory
    }
}

impl<T: Drop> From<AllocFailed<T>> for Halt {
    ghost from_gives = { λ _ e. e ≡ Memory };

    fn from(_e: AllocFailed<T>) -> Halt {
        Halt::Memory
    }
}

impl From<NoMemory> for Halt {
    ghost from_gives = { λ _ e. e ≡ Memory };

    fn from(_e: NoMemory) -> Halt {
        Halt::Memory
    }
}

//! Why a cell can't be read.

use nb_base::NoMemory;
use thiserror::Error;

/// Why bytes gave no value.
#[derive(Clone, Copy, Debug, Drop, PartialEq, Eq, Error)]
pub enum FormatFault {
    /// They aren't the one spelling of a value.
    #[error("damaged")]
    Damaged,
    #[error("no memory")]
    NoMemory,
}

impl From<NoMemory> for FormatFault {
    ghost use Rattle.std.specs.Prelude.{◌≡◌};
    ghost use Rattle.nb_envelope.specs.declared.fault.FormatFault.TheVariants.{NoMemory};

    ghost from_gives = { λ _ e. e ≡ NoMemory };

    fn from(_refused: NoMemory) -> FormatFault {
        FormatFault::NoMemory
    }
}

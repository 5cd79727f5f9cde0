//! Why a call at a stage came to nothing.

use nb_base::NoMemory;
use nb_core::DeskFault;
use thiserror::Error;

/// Why a call at a stage came to nothing.
#[derive(Clone, Copy, Debug, Drop, PartialEq, Eq, Error)]
pub enum Slip {
    /// The call may not come now, and wasn't made.
    #[error("the call may not come now")]
    OutOfTurn,
    /// The hub refused it.
    #[error("the hub refused the call")]
    Refused(DeskFault),
    /// There was no memory to tell of it.
    #[error("no memory")]
    NoMemory,
}

impl From<NoMemory> for Slip {
    fn from(_refused: NoMemory) -> Slip {
        Slip::NoMemory
    }
}

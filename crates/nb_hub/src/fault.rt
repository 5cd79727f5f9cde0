//! Why a hub can't be started.

use nb_base::{Bytes, NoMemory, Which};
use thiserror::Error;

/// Why a hub can't be started.
#[derive(Debug, Drop, Error)]
pub enum StartFault {
    /// The store of sagas, rows and records failed, and counted it.
    #[error("the store of sagas, rows and records failed")]
    StoreFailed,
    /// The store of queues failed, and counted it.
    #[error("the store of queues failed")]
    PostFailed,
    /// The least cell of a store that is none of its grammar and bounds, or the saga that doesn't fit the script.
    #[error("damaged cell in space {space}")]
    Damaged { store: Which, space: u8, key: Bytes },
    /// There was no memory.
    #[error("no memory")]
    NoMemory,
}

impl From<NoMemory> for StartFault {
    ghost use Rattle.std.specs.Prelude.{◌≡◌};
    ghost use Rattle.nb_hub.specs.declared.fault.StartFault.TheVariants.{NoMemory};

    ghost from_gives = { λ _ e. e ≡ NoMemory };

    fn from(_refused: NoMemory) -> StartFault {
        StartFault::NoMemory
    }
}

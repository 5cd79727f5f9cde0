//! Why a call on the tables was refused.

use nb_base::{Bytes, NoMemory};
use thiserror::Error;

/// Why a call on the tables was refused.
#[derive(Debug, Drop, Error)]
pub enum StoreFault {
    /// The cells' call failed, and was counted.
    #[error("failed")]
    Failed,
    /// The least cell that is outside the grammar and the bounds.
    #[error("damaged cell in space {space}")]
    Damaged { space: u8, key: Bytes },
    /// The numbers of commits are used up.
    #[error("spent")]
    Spent,
    #[error("no memory")]
    NoMemory,
}

impl From<NoMemory> for StoreFault {
    ghost use Rattle.std.specs.Prelude.{◌≡◌};
    ghost use Rattle.nb_store.specs.declared.fault.StoreFault.TheVariants.{NoMemory};

    ghost from_gives = { λ _ e. e ≡ NoMemory };

    fn from(_refused: NoMemory) -> StoreFault {
        StoreFault::NoMemory
    }
}

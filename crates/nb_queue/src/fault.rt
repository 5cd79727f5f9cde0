//! Why a call on a post was refused.

use nb_base::{Bytes, NoMemory};
use thiserror::Error;

/// Why a call on a post was refused.
#[derive(Debug, Drop, Error)]
pub enum PostFault {
    /// The store of cells failed, and counted a fault.
    #[error("failed")]
    Failed,
    /// The least cell that is no cell of a post.
    #[error("damaged")]
    Damaged { space: u8, key: Bytes },
    /// No number is left for an entry.
    #[error("numbers spent")]
    Spent,
    #[error("no memory")]
    NoMemory,
}

impl From<NoMemory> for PostFault {
    ghost use Rattle.std.specs.Prelude.{◌≡◌};
    ghost use Rattle.nb_queue.specs.declared.fault.PostFault.TheVariants.{NoMemory};

    ghost from_gives = { λ _ e. e ≡ NoMemory };

    fn from(_refused: NoMemory) -> PostFault {
        PostFault::NoMemory
    }
}

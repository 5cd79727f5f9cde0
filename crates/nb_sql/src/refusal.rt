//! Why a read was refused.
ghost use Rattle.std.specs.Prelude.{◌≡◌, ◌↔◌, IsTrue};

use nb_base::NoMemory;
use sqlite::{Error, ErrorCode};

/// Why a read was refused: by the database, or for want of memory for what it gave.
#[derive(Clone, Copy, Debug)]
pub(crate) enum Refusal {
    Database(Error),
    NoMemory,
}

impl From<Error> for Refusal {
    fn from(error: Error) -> Refusal {
        Refusal::Database(error)
    }
}

impl From<NoMemory> for Refusal {
    fn from(_refused: NoMemory) -> Refusal {
        Refusal::NoMemory
    }
}

/// Whether the database found no memory.
pub(crate) fn is_memory(error: Error) -> bool
    ensures { IsTrue result ↔ (error ≡ Error.SqliteFailure ErrorCode.OutOfMemory) }
{
    error == Error::SqliteFailure(ErrorCode::OutOfMemory)
}

//! What the calls of a desk answer.

use nb_base::{Copied, Envelope, NoMemory, Reads};
use nb_recover::Fail;
use std::alloc::AllocError;
use thiserror::Error;

/// What `take` answers.
#[derive(Drop)]
pub enum Taken {
    /// The message of the entry that was taken.
    Got(Envelope),
    /// No entry of the own queue is free.
    Nothing,
    /// The history has as many Takes as it may have.
    Limit,
}

/// What `look` answers.
#[derive(Debug, Drop)]
pub enum Look {
    /// The message is new, and this is what stands at its keys.
    Fresh(Reads),
    /// The message is recorded.
    Known { sent: bool },
}

/// What `settle` answers.
#[derive(Debug, Drop)]
pub enum Settled {
    /// The changes were committed, under this number.
    Committed(u64),
    /// The message was recorded meanwhile.
    Twin { sent: bool },
    /// The message failed, and is free again.
    Again(Fail),
    /// The message failed, and its copy is to be put for later.
    Later(Fail),
    /// The message failed, and its copy is to be put into the error queue.
    Error(Fail),
    /// The message failed, and is given up.
    Discarded(Fail),
}

impl Copied for Taken {
    fn copy(&self) -> Result<Taken, NoMemory> {
        match self {
            Taken::Got(envelope) => Ok(Taken::Got(envelope.copy()?)),
            Taken::Nothing => Ok(Taken::Nothing),
            Taken::Limit => Ok(Taken::Limit),
        }
    }
}

impl Copied for Look {
    fn copy(&self) -> Result<Look, NoMemory> {
        match self {
            Look::Fresh(reads) => Ok(Look::Fresh(reads.copy()?)),
            Look::Known { sent } => Ok(Look::Known { sent: *sent }),
        }
    }
}

impl Copied for Settled {
    fn copy(&self) -> Result<Settled, NoMemory> {
        match self {
            Settled::Committed(number) => Ok(Settled::Committed(*number)),
            Settled::Twin { sent } => Ok(Settled::Twin { sent: *sent }),
            Settled::Again(why) => Ok(Settled::Again(why.copy()?)),
            Settled::Later(why) => Ok(Settled::Later(why.copy()?)),
            Settled::Error(why) => Ok(Settled::Error(why.copy()?)),
            Settled::Discarded(why) => Ok(Settled::Discarded(why.copy()?)),
        }
    }
}

/// Why a call of a desk was refused.
#[derive(Clone, Copy, Debug, Drop, PartialEq, Eq, Error)]
pub enum DeskFault {
    /// A call of the store of sagas, rows and records failed. The history ends with the Halt of it.
    #[error("the store of sagas, rows and records failed")]
    StoreFailed,
    /// A call of the store of queues failed. The history ends with the Halt of it.
    #[error("the store of queues failed")]
    PostFailed,
    /// The number that is needed stands at its end.
    #[error("the numbers are spent")]
    Spent,
    /// A store failed before, and the history has a Halt.
    #[error("a store failed before")]
    Halted,
    /// There was no memory, and nothing changed.
    #[error("no memory")]
    NoMemory,
}

impl From<NoMemory> for DeskFault {
    ghost use Rattle.std.specs.Prelude.{◌≡◌};
    ghost use Rattle.nb_core.specs.declared.answers.DeskFault.TheVariants.{NoMemory};

    ghost from_gives = { λ _ e. e ≡ NoMemory };

    fn from(_refused: NoMemory) -> DeskFault {
        DeskFault::NoMemory
    }
}

impl From<AllocError> for DeskFault {
    fn from(_refused: AllocError) -> DeskFault {
        DeskFault::NoMemory
    }
}

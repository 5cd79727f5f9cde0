//! What a worker is at.

use nb_base::{Copied, Envelope, Moment, NoMemory, Ops, Reads, Text};

/// What a worker is at. All but an idle one hold an entry of the own queue, by its number.
#[derive(Drop)]
pub enum Phase {
    Idle,
    /// It took the entry.
    Held {
        number: u64,
    },
    /// The message is new, and this was read for it.
    Looked {
        number: u64,
        reads: Reads,
    },
    /// The message is recorded, and the first `k` of the ops were put.
    Sending {
        number: u64,
        id: Text,
        ops: Ops,
        k: u32,
    },
    /// The message failed, and this copy is to be put.
    Leaving {
        number: u64,
        queue: Text,
        due: Option<Moment>,
        copy: Envelope,
    },
    /// Nothing is left but to remove the entry.
    Done {
        number: u64,
    },
}

impl Copied for Phase {
    fn copy(&self) -> Result<Phase, NoMemory> {
        match self {
            Phase::Idle => Ok(Phase::Idle),
            Phase::Held { number } => Ok(Phase::Held { number: *number }),
            Phase::Looked { number, reads } => Ok(Phase::Looked {
                number: *number,
                reads: reads.copy()?,
            }),
            Phase::Sending { number, id, ops, k } => Ok(Phase::Sending {
                number: *number,
                id: id.copy()?,
                ops: ops.copy()?,
                k: *k,
            }),
            Phase::Leaving {
                number,
                queue,
                due,
                copy,
            } => Ok(Phase::Leaving {
                number: *number,
                queue: queue.copy()?,
                due: *due,
                copy: copy.copy()?,
            }),
            Phase::Done { number } => Ok(Phase::Done { number: *number }),
        }
    }
}

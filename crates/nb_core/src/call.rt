//! The calls of a desk and their answers, as values.

use crate::answers::{DeskFault, Look, Settled, Taken};
use nb_base::{Envelope, Moment, Outcome, Text, Waiting};

/// A call of a desk.
#[derive(Drop)]
pub enum Call {
    Load { envelope: Envelope },
    Take { w: u32 },
    Look { w: u32 },
    Settle { w: u32, outcome: Outcome },
    Send { w: u32 },
    Mark { w: u32 },
    Aside { w: u32 },
    Remove { w: u32 },
    Tick { to: Moment },
    Release { number: u64 },
    Purge { id: Text },
    PutBack { number: u64 },
    DropBack { number: u64 },
    Unsent { w: u32 },
    NextDue,
    IsDrained { until: Moment },
}

/// An answer of a desk.
#[derive(Drop)]
pub enum Answer {
    Plain(Result<(), DeskFault>),
    Took(Result<Taken, DeskFault>),
    Saw(Result<Look, DeskFault>),
    Settled(Result<Settled, DeskFault>),
    Unsent(Result<u32, DeskFault>),
    Due(Result<Option<Waiting>, DeskFault>),
    IsDrained(Result<bool, DeskFault>),
}

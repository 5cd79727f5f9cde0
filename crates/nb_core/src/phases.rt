//! The phases to which records and failures lead.
ghost use Rattle.std.specs.Prelude.{◌≡◌, IfOk};
ghost use Rattle.nb_core.specs.State.{phase_by, phase_after, move_after};

use crate::phase::Phase;
use nb_base::{Copied, Envelope, Moment, NoMemory, OutboxRow, Settings, Text};
use nb_headers::round;
use nb_recover::{Fail, Move, decide, error_copy, later_copy};
use std::alloc::Global;

/// The phase to which the record of a message leads: its ops are to be sent, unless they were.
pub fn phase_by(number: u64, id: &Text, row: &OutboxRow) -> Result<Phase, NoMemory>
    ensures { IfOk result (λ p. p ≡ phase_by row.now.sent number id.now row.now.ops) }
{
    if row.sent {
        return Ok(Phase::Done { number });
    }
    let id = id.copy()?;
    let ops = row.ops.copy()?;
    Ok(Phase::Sending {
        number,
        id,
        ops,
        k: 0,
    })
}

/// What is done after so many failures of an entry with this message, the last one by this failure.
pub fn move_after(settings: &Settings, count: u32, envelope: &Envelope, fail: &Fail) -> Move
    ensures { result ≡ move_after settings.now count envelope.now fail.now }
{
    decide(
        settings,
        fail.name(),
        count,
        round(envelope),
        fail.is_unrecoverable(),
    )
}

/// The phase of a worker whose message failed at this moment, where this is done with it.
pub fn phase_after(
    alloc: Global,
    settings: &Settings,
    moment: Moment,
    number: u64,
    envelope: &Envelope,
    fail: &Fail,
    next: Move,
) -> Result<Phase, NoMemory>
    ensures { IfOk result (λ p. p ≡ phase_after settings.now moment number envelope.now fail.now next) }
{
    match next {
        Move::Again => Ok(Phase::Idle),
        Move::Later { round, delay } => {
            let queue = settings.endpoint.copy()?;
            let copy = later_copy(alloc, envelope, round, moment)?;
            Ok(Phase::Leaving {
                number,
                queue,
                due: Some(moment.plus(delay)),
                copy,
            })
        }
        Move::Error => {
            let queue = settings.error.copy()?;
            let copy = error_copy(alloc, settings, envelope, fail, moment)?;
            Ok(Phase::Leaving {
                number,
                queue,
                due: None,
                copy,
            })
        }
        Move::Discard => Ok(Phase::Done { number }),
    }
}

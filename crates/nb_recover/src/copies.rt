//! The copies of a message that failed.
ghost use Rattle.std.specs.Prelude.{◌≡◌, IfOk, OnOk, unwrap_or, option_copied, []};
ghost use Rattle.nb_headers.specs.Faults.{with_headers};
ghost use Rattle.nb_recover.specs.Copies.{retry_pairs, later_copy, error_copy, returned_to, return_copy};

use crate::fail::Fail;
use crate::returned::Returned;
use nb_base::{Copied, Envelope, Moment, NoMemory, Settings, Text};
use nb_headers::names::{FAILED_Q, RETRIES, RETRIES_TIMESTAMP};
use nb_headers::{moment_text, strip_fault, with_fault};
use std::alloc::Global;

/// Sets the two headers of a round of delayed retries.
fn set_round(
    alloc: Global,
    envelope: &mut Envelope,
    round: Text,
    time: Text,
) -> Result<(), NoMemory>
    ensures { OnOk result (envelope.new ≡ record envelope.old { headers = with_headers envelope.old.headers (retry_pairs round time) }) }
{
    envelope.set_header(alloc, RETRIES, round)?;
    envelope.set_header(alloc, RETRIES_TIMESTAMP, time)
}

/// The copy that is tried again in this round of delayed retries, which begins at this moment.
#[tactic(auto, unfolding(crate::specs::Copies::later_copy))]
pub fn later_copy(
    alloc: Global,
    envelope: &Envelope,
    round: u32,
    moment: Moment,
) -> Result<Envelope, NoMemory>
    ensures { IfOk result (λ e. e ≡ later_copy envelope.now round moment) }
{
    let round = Text::of_string(format!(in alloc; "{round}")?)?;
    let time = moment_text(alloc, moment)?;
    let mut copy = envelope.copy()?;
    set_round(alloc, &mut copy, round, time)?;
    Ok(copy)
}

/// The copy for the error queue of a message that failed at this moment.
#[tactic(auto, unfolding(crate::specs::Copies::error_copy))]
pub fn error_copy(
    alloc: Global,
    settings: &Settings,
    envelope: &Envelope,
    fail: &Fail,
    moment: Moment,
) -> Result<Envelope, NoMemory>
    ensures { IfOk result (λ e. e ≡ error_copy settings.now envelope.now fail.now moment) }
{
    let name = Text::new(alloc, fail.name())?;
    let text = fail.text(alloc)?;
    with_fault(alloc, envelope, settings, &name, &text, moment)
}

/// The message as if it had never failed, for a queue that is named.
fn returned_to(queue: &Text, envelope: &Envelope) -> Result<Option<Returned>, NoMemory>
    ensures { IfOk result (λ r. r ≡ returned_to queue.now envelope.now) }
{
    if queue.is_empty() {
        return Ok(None);
    }
    let queue = queue.copy()?;
    let mut envelope = envelope.copy()?;
    strip_fault(&mut envelope);
    Ok(Some(Returned { queue, envelope }))
}

/// The message as if it had never failed, for a queue that may be named.
fn returned_by(queue: Option<&Text>, envelope: &Envelope) -> Result<Option<Returned>, NoMemory>
    ensures { IfOk result (λ r. r ≡ returned_to (unwrap_or (option_copied queue.entry) []) envelope.now) }
{
    match queue {
        Some(queue) => returned_to(queue, envelope),
        None => Ok(None),
    }
}

/// The copy that goes back to the queue in which the message failed. None where the message names no such queue.
#[tactic(auto, unfolding(crate::specs::Copies::return_copy, nb_headers::specs::Reads::failed_queue))]
pub fn return_copy(envelope: &Envelope) -> Result<Option<Returned>, NoMemory>
    ensures { IfOk result (λ r. r ≡ return_copy envelope.now) }
{
    returned_by(envelope.header(FAILED_Q), envelope)
}

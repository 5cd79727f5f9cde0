//! Texts of messages.
ghost use Rattle.std.specs.Prelude.{◌≡◌, string_bytes, IfOk};
ghost use Rattle.json.specs.Print.{quoted};
ghost use Rattle.nb_headers.specs.HeaderNames.{enclosed_message_types, failed_q, exception_type, exception_message, time_of_failure, processing_endpoint};
ghost use Rattle.nb_headers.specs.Reads.{id_of};
ghost use Rattle.nb_report.specs.Lines.{header_text, message_part, fault_line};

use nb_base::{Envelope, NoMemory, Text};
use nb_headers::names::{
    ENCLOSED_MESSAGE_TYPES, EXCEPTION_MESSAGE, EXCEPTION_TYPE, FAILED_Q, PROCESSING_ENDPOINT,
    TIME_OF_FAILURE,
};
use nb_headers::{message_id, round};
use nb_recover::json_text;
use std::alloc::Global;

/// The text of a header as JSON text, the empty one where the header is absent.
#[tactic(auto, unfolding(crate::specs::Lines::header_text))]
fn header_text(alloc: Global, envelope: &Envelope, name: &str) -> Result<String, NoMemory>
    ensures { IfOk result (λ s. string_bytes s ≡ header_text envelope.now name.now) }
{
    match envelope.header(name) {
        Some(text) => json_text(alloc, text),
        None => json_text(alloc, &Text::new(alloc, "")?),
    }
}

/// The message's id as JSON text.
fn id_text(alloc: Global, envelope: &Envelope) -> Result<String, NoMemory>
    ensures { IfOk result (λ s. string_bytes s ≡ quoted (id_of envelope.now)) }
{
    json_text(alloc, message_id(envelope))
}

/// The message's types as JSON text.
fn types_text(alloc: Global, envelope: &Envelope) -> Result<String, NoMemory>
    ensures { IfOk result (λ s. string_bytes s ≡ header_text envelope.now enclosed_message_types) }
{
    header_text(alloc, envelope, ENCLOSED_MESSAGE_TYPES)
}

/// The message's body as JSON text.
fn body_text(alloc: Global, envelope: &Envelope) -> Result<String, NoMemory>
    ensures { IfOk result (λ s. string_bytes s ≡ quoted envelope.now.body) }
{
    json_text(alloc, envelope.body())
}

/// A message's id, types, round and body.
pub(crate) fn message_part(alloc: Global, envelope: &Envelope) -> Result<String, NoMemory>
    ensures { IfOk result (λ s. string_bytes s ≡ message_part envelope.now) }
{
    let id = id_text(alloc, envelope)?;
    let types = types_text(alloc, envelope)?;
    let round = round(envelope);
    let body = body_text(alloc, envelope)?;
    Ok(format!(in alloc; "{id} {types} {round} {body}")?)
}

/// The queue in which the message failed.
fn failed_queue_text(alloc: Global, envelope: &Envelope) -> Result<String, NoMemory>
    ensures { IfOk result (λ s. string_bytes s ≡ header_text envelope.now failed_q) }
{
    header_text(alloc, envelope, FAILED_Q)
}

/// The name of the fault.
fn fault_name_text(alloc: Global, envelope: &Envelope) -> Result<String, NoMemory>
    ensures { IfOk result (λ s. string_bytes s ≡ header_text envelope.now exception_type) }
{
    header_text(alloc, envelope, EXCEPTION_TYPE)
}

/// The text of the fault.
fn fault_text(alloc: Global, envelope: &Envelope) -> Result<String, NoMemory>
    ensures { IfOk result (λ s. string_bytes s ≡ header_text envelope.now exception_message) }
{
    header_text(alloc, envelope, EXCEPTION_MESSAGE)
}

/// The moment of the failure.
fn failure_time_text(alloc: Global, envelope: &Envelope) -> Result<String, NoMemory>
    ensures { IfOk result (λ s. string_bytes s ≡ header_text envelope.now time_of_failure) }
{
    header_text(alloc, envelope, TIME_OF_FAILURE)
}

/// The endpoint that failed.
fn failing_endpoint_text(alloc: Global, envelope: &Envelope) -> Result<String, NoMemory>
    ensures { IfOk result (λ s. string_bytes s ≡ header_text envelope.now processing_endpoint) }
{
    header_text(alloc, envelope, PROCESSING_ENDPOINT)
}

/// Where a message failed, and why.
pub(crate) fn fault_line(alloc: Global, envelope: &Envelope) -> Result<String, NoMemory>
    ensures { IfOk result (λ s. string_bytes s ≡ fault_line envelope.now) }
{
    let queue = failed_queue_text(alloc, envelope)?;
    let name = fault_name_text(alloc, envelope)?;
    let text = fault_text(alloc, envelope)?;
    let time = failure_time_text(alloc, envelope)?;
    let endpoint = failing_endpoint_text(alloc, envelope)?;
    Ok(format!(in alloc; "fault {queue} {name} {text} {time} {endpoint}\n")?)
}

//! The headers of messages that failed.
ghost use Rattle.std.specs.Prelude.{◌≡◌, IfOk, OnOk, OnErr};
ghost use Rattle.nb_headers.specs.Faults.{with_all, fault_pairs, with_fault, stripped};

use crate::moments::moment_text;
use crate::names::{
    EXCEPTION_MESSAGE, EXCEPTION_TYPE, FAILED_Q, PROCESSING_ENDPOINT, RETRIES, RETRIES_TIMESTAMP,
    TIME_OF_FAILURE,
};
use crate::setting::set;
use nb_base::{Copied, Envelope, Moment, NoMemory, Settings, Text};
use std::alloc::Global;

/// Sets the five headers of a failure.
fn set_fault(
    alloc: Global,
    envelope: &mut Envelope,
    endpoint: &str,
    time: &str,
    name: &str,
    text: &str,
) -> Result<(), NoMemory>
    ensures { OnOk result (envelope.new
        ≡ with_all envelope.old (fault_pairs endpoint.now time.now name.now text.now)) }
{
    set(alloc, envelope, FAILED_Q, endpoint)?;
    set(alloc, envelope, TIME_OF_FAILURE, time)?;
    set(alloc, envelope, PROCESSING_ENDPOINT, endpoint)?;
    set(alloc, envelope, EXCEPTION_TYPE, name)?;
    set(alloc, envelope, EXCEPTION_MESSAGE, text)
}

/// A copy of the message with the headers that say where and when it failed, and by which fault.
#[tactic(auto, unfolding(crate::specs::Faults::with_fault))]
pub fn with_fault(
    alloc: Global,
    envelope: &Envelope,
    settings: &Settings,
    name: &Text,
    text: &Text,
    moment: Moment,
) -> Result<Envelope, NoMemory>
    ensures { IfOk result (λ e. e ≡ with_fault settings.now name.now text.now moment envelope.now) }
{
    let time = moment_text(alloc, moment)?;
    let mut copy = envelope.copy()?;
    set_fault(
        alloc,
        &mut copy,
        settings.endpoint.as_str(),
        time.as_str(),
        name.as_str(),
        text.as_str(),
    )?;
    Ok(copy)
}

/// Sets the headers that say where and when the message failed, and by which fault.
pub fn fault_headers(
    alloc: Global,
    envelope: &mut Envelope,
    settings: &Settings,
    name: &Text,
    text: &Text,
    moment: Moment,
) -> Result<(), NoMemory>
    ensures ok { OnOk result (envelope.new
        ≡ with_fault settings.now name.now text.now moment envelope.old) }
    ensures err { OnErr result (envelope.new ≡ envelope.old) }
{
    *envelope = with_fault(alloc, envelope, settings, name, text, moment)?;
    Ok(())
}

/// Takes out what a message got when it failed and when it was retried.
#[tactic(auto, unfolding(crate::specs::Faults::stripped))]
pub fn strip_fault(envelope: &mut Envelope)
    ensures { envelope.new ≡ stripped envelope.old }
{
    envelope.without(FAILED_Q);
    envelope.without(TIME_OF_FAILURE);
    envelope.without(PROCESSING_ENDPOINT);
    envelope.without(EXCEPTION_TYPE);
    envelope.without(EXCEPTION_MESSAGE);
    envelope.without(RETRIES);
    envelope.without(RETRIES_TIMESTAMP);
}

//! The headers of outgoing messages.
ghost use Rattle.std.specs.Prelude.{◌≡◌, ◌≢◌, ◌<◌, ◌++◌, length, IsSome, IfOk, OnOk, option_copied};
ghost use Rattle.nb_base.specs.Messages.{header};
ghost use Rattle.nb_headers.specs.Faults.{with_all};
ghost use Rattle.nb_headers.specs.Reads.{id_of, header_or};
ghost use Rattle.nb_headers.specs.Outgoing.{intent_text, conversation, correlation, relations, origin, contents, common, from_saga, timeout_mark, to_saga, to_saga_of, to_own, to_sender, addressee, outgoing};

use crate::made::{Made, SagaName};
use crate::moments::moment_text;
use crate::names::{
    CONTENT_TYPE, CONVERSATION_ID, CORRELATION_ID, ENCLOSED_MESSAGE_TYPES, IS_SAGA_TIMEOUT_MESSAGE,
    MESSAGE_INTENT, ORIGINATING_ENDPOINT, ORIGINATING_SAGA_ID, ORIGINATING_SAGA_TYPE, RELATED_TO,
    REPLY_TO_ADDRESS, SAGA_ID, SAGA_TYPE, TIME_SENT,
};
use crate::reads::message_id;
use crate::setting::set;
use nb_base::{Copied, Envelope, NoMemory, Target, Text};
use std::alloc::Global;

/// Whether the message is sent, published or a reply.
fn intent_text(target: &Target) -> &'static str
    ensures { result.now ≡ intent_text target.now }
{
    match target {
        Target::Publish => "Publish",
        Target::Reply { to: _ } => "Reply",
        Target::Originator { to: _, original: _ } => "Reply",
        Target::Send | Target::Local | Target::Timeout => "Send",
    }
}

/// The text of a header, or another one where it is absent.
fn header_or<'a>(envelope: &'a Envelope, name: &str, otherwise: &'a Text) -> &'a Text
    ensures { result.now ≡ header_or envelope.now name.now otherwise.now }
{
    envelope.header(name).unwrap_or(otherwise)
}

/// What ties the outgoing message to the one that it answers.
fn correlation<'a>(incoming: &'a Envelope, made: &'a Made) -> &'a Text
    ensures { result.now ≡ correlation incoming.now made.now.target made.now.id }
{
    match &made.target {
        Target::Reply { to: _ } => header_or(incoming, CORRELATION_ID, message_id(incoming)),
        Target::Originator { to: _, original } => original,
        Target::Send | Target::Local | Target::Publish | Target::Timeout => &made.id,
    }
}

/// Says how the message hangs together with others.
fn relate(
    alloc: Global,
    envelope: &mut Envelope,
    incoming: &Envelope,
    made: &Made,
) -> Result<(), NoMemory>
    ensures { OnOk result (envelope.new ≡ with_all envelope.old (relations incoming.now made.now)) }
{
    let id = message_id(incoming);
    let conversation = header_or(incoming, CONVERSATION_ID, id);
    let correlation = correlation(incoming, made);
    set(alloc, envelope, CONVERSATION_ID, conversation.as_str())?;
    set(alloc, envelope, CORRELATION_ID, correlation.as_str())?;
    set(alloc, envelope, RELATED_TO, id.as_str())
}

/// Names the endpoint that sends the message.
fn name_origin(alloc: Global, envelope: &mut Envelope, endpoint: &str) -> Result<(), NoMemory>
    ensures { OnOk result (envelope.new ≡ with_all envelope.old (origin endpoint.now)) }
{
    set(alloc, envelope, ORIGINATING_ENDPOINT, endpoint)?;
    set(alloc, envelope, REPLY_TO_ADDRESS, endpoint)
}

/// Says what the body is, and when it was sent.
fn describe(alloc: Global, envelope: &mut Envelope, name: &str, time: &str) -> Result<(), NoMemory>
    ensures { OnOk result (envelope.new ≡ with_all envelope.old (contents name.now time.now)) }
{
    set(alloc, envelope, CONTENT_TYPE, "application/json")?;
    set(alloc, envelope, ENCLOSED_MESSAGE_TYPES, name)?;
    set(alloc, envelope, TIME_SENT, time)
}

/// The message with the headers that each outgoing message has.
fn common(alloc: Global, incoming: &Envelope, made: &Made) -> Result<Envelope, NoMemory>
    requires { 0 < length made.now.id }
    ensures { IfOk result (λ e. e
        ≡ record { headers = common incoming.now made.now; body = made.now.body }) }
{
    let time = moment_text(alloc, made.moment)?;
    let body = made.body.copy()?;
    let mut envelope = Envelope::new(alloc, &made.id, body)?;
    set(
        alloc,
        &mut envelope,
        MESSAGE_INTENT,
        intent_text(&made.target),
    )?;
    relate(alloc, &mut envelope, incoming, made)?;
    name_origin(alloc, &mut envelope, made.endpoint.as_str())?;
    describe(alloc, &mut envelope, made.name.as_str(), time.as_str())?;
    Ok(envelope)
}

/// Names the saga that sends the message.
fn name_sender(
    alloc: Global,
    envelope: &mut Envelope,
    saga: &Option<SagaName>,
) -> Result<(), NoMemory>
    ensures { OnOk result (envelope.new ≡ with_all envelope.old (from_saga saga.now)) }
{
    match saga {
        Some(saga) => {
            set(alloc, envelope, ORIGINATING_SAGA_ID, saga.id.as_str())?;
            set(alloc, envelope, ORIGINATING_SAGA_TYPE, saga.saga.as_str())
        }
        None => Ok(()),
    }
}

/// Names the saga to which the message goes.
fn name_addressee(
    alloc: Global,
    envelope: &mut Envelope,
    saga: &str,
    id: &str,
) -> Result<(), NoMemory>
    ensures { OnOk result (envelope.new ≡ with_all envelope.old (to_saga saga.now id.now)) }
{
    set(alloc, envelope, SAGA_ID, id)?;
    set(alloc, envelope, SAGA_TYPE, saga)
}

/// Names the saga to which the message goes, where both its type and its id are there.
fn name_both(
    alloc: Global,
    envelope: &mut Envelope,
    saga: Option<&Text>,
    id: Option<&Text>,
) -> Result<(), NoMemory>
    ensures { OnOk result (envelope.new
        ≡ with_all envelope.old
        (to_saga_of (option_copied saga.entry) (option_copied id.entry))) }
{
    match (saga, id) {
        (Some(saga), Some(id)) => name_addressee(alloc, envelope, saga.as_str(), id.as_str()),
        _ => Ok(()),
    }
}

/// Names the saga that sent the incoming message, where that says both its type and its id.
fn answer_sender(
    alloc: Global,
    envelope: &mut Envelope,
    incoming: &Envelope,
) -> Result<(), NoMemory>
    ensures { OnOk result (envelope.new ≡ with_all envelope.old (to_sender incoming.now)) }
{
    let saga = incoming.header(ORIGINATING_SAGA_TYPE);
    let id = incoming.header(ORIGINATING_SAGA_ID);
    name_both(alloc, envelope, saga, id)
}

/// Marks a timeout, and names the saga that asked for it.
fn mark_timeout(alloc: Global, envelope: &mut Envelope, saga: &SagaName) -> Result<(), NoMemory>
    ensures { OnOk result (envelope.new
        ≡ with_all envelope.old (timeout_mark Target.Timeout ++ to_own (Some saga.now))) }
{
    set(alloc, envelope, IS_SAGA_TIMEOUT_MESSAGE, "True")?;
    name_addressee(alloc, envelope, saga.saga.as_str(), saga.id.as_str())
}

/// Says to which saga the message goes, and that it is a timeout.
fn address(
    alloc: Global,
    envelope: &mut Envelope,
    incoming: &Envelope,
    made: &Made,
) -> Result<(), NoMemory>
    requires { made.now.target ≡ Target.Timeout → IsSome made.now.saga }
    ensures { OnOk result (envelope.new
        ≡ with_all envelope.old
        (timeout_mark made.now.target
        ++ addressee incoming.now made.now.target made.now.saga)) }
{
    match (&made.target, &made.saga) {
        (Target::Timeout, Some(saga)) => mark_timeout(alloc, envelope, saga),
        (Target::Timeout, None) => unreachable!(),
        (Target::Reply { to: _ }, _) => answer_sender(alloc, envelope, incoming),
        _ => Ok(()),
    }
}

/// The outgoing message, tied to the one during whose handling it is sent.
pub fn causation(alloc: Global, incoming: &Envelope, made: &Made) -> Result<Envelope, NoMemory>
    requires named { 0 < length made.now.id }
    requires asked { made.now.target ≡ Target.Timeout → IsSome made.now.saga }
    ensures { IfOk result (λ e. e ≡ outgoing incoming.now made.now) }
{
    let mut envelope = common(alloc, incoming, made)?;
    name_sender(alloc, &mut envelope, &made.saga)?;
    address(alloc, &mut envelope, incoming, made)?;
    Ok(envelope)
}

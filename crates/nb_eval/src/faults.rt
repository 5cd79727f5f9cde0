//! Faults, with the names and the texts under which they are reported.
ghost use Rattle.std.specs.Prelude.{◌≡◌, ◌++◌, [], IfOk, string_bytes};
ghost use Rattle.json.specs.Print.{quoted};
ghost use Rattle.nb_headers.specs.HeaderNames.{enclosed_message_types};
ghost use Rattle.nb_headers.specs.Reads.{header_or};
ghost use Rattle.nb_eval.specs.Faults as spec;
ghost use Rattle.nb_eval.specs.Faults.{limit_fault, refusal_fault};

use crate::stop::Limit;
use nb_base::{Copied, Envelope, Fault, FaultKind, NoMemory, Text};
use nb_headers::names::ENCLOSED_MESSAGE_TYPES;
use nb_script::stmt::Refusal;
use serde_json::Value as Json;
use std::alloc::Global;

fn fault(
    alloc: Global,
    kind: FaultKind,
    name: &str,
    text: &str,
    unrecoverable: bool,
) -> Result<Fault, NoMemory>
    ensures { IfOk result (λ f. f ≡ spec.fault kind name.now text.now unrecoverable) }
{
    let name = Text::new(alloc, name)?;
    let text = Text::new(alloc, text)?;
    Ok(Fault {
        kind,
        name,
        text,
        unrecoverable,
    })
}

/// The fault of a limit that was passed.
pub(crate) fn limit_fault(alloc: Global, limit: Limit) -> Result<Fault, NoMemory>
    ensures { IfOk result (λ f. f ≡ limit_fault limit) }
{
    let (kind, name, text) = match limit {
        Limit::Overflow => (
            FaultKind::Overflow,
            "Overflow",
            "a number left the range of 64 bits",
        ),
        Limit::TooLong => (
            FaultKind::TooLong,
            "TooLong",
            "a text became longer than 65536 bytes",
        ),
        Limit::TooLarge => (
            FaultKind::TooLarge,
            "TooLarge",
            "the outgoing bodies together passed 1048576 bytes",
        ),
        Limit::TooMany => (
            FaultKind::TooMany,
            "TooMany",
            "more than 256 outgoing messages",
        ),
        Limit::BadDelay => (
            FaultKind::BadDelay,
            "BadDelay",
            "a delay lies outside 0 to 31536000",
        ),
        Limit::NoReplyAddress => (
            FaultKind::NoReplyAddress,
            "NoReplyAddress",
            "there is no address to reply to",
        ),
    };
    fault(alloc, kind, name, text, false)
}

/// The fault of a script that refuses the message.
pub(crate) fn refusal_fault(refusal: Refusal, name: Text, text: Text) -> Fault
    ensures { result ≡ refusal_fault refusal name text }
{
    match refusal {
        Refusal::Fail => Fault {
            kind: FaultKind::Fail,
            name,
            text,
            unrecoverable: false,
        },
        Refusal::Reject => Fault {
            kind: FaultKind::Reject,
            name,
            text,
            unrecoverable: true,
        },
    }
}

/// What no checked script comes to.
pub(crate) fn no_fault(alloc: Global) -> Result<Fault, NoMemory>
    ensures { IfOk result (λ f. f ≡ spec.no_fault) }
{
    fault(alloc, FaultKind::Undecodable, "", "", true)
}

/// A text as JSON text.
fn json_text(alloc: Global, text: &str) -> Result<String, NoMemory>
    ensures { IfOk result (λ s. string_bytes s ≡ quoted text.now) }
{
    let copy = String::from_str(alloc, text)?;
    let value = Json::String(copy);
    Ok(value.to_string(alloc)?)
}

/// The types that the headers give, or the empty text.
fn types_of(e: &Envelope) -> &str
    ensures { result.now ≡ header_or e.now enclosed_message_types [] }
{
    match e.header(ENCLOSED_MESSAGE_TYPES) {
        Some(text) => text.as_str(),
        None => "",
    }
}

pub(crate) fn undeclared(alloc: Global, e: &Envelope) -> Result<Fault, NoMemory>
    ensures { IfOk result (λ f. f ≡ spec.undeclared e.now) }
{
    let types = json_text(alloc, types_of(e))?;
    let mut text = String::from_str(alloc, "no declared message in ")?;
    text.push_str(types.as_str())?;
    fault(
        alloc,
        FaultKind::Undeclared,
        "Undeclared",
        text.as_str(),
        true,
    )
}

pub(crate) fn no_handler(alloc: Global, name: &Text) -> Result<Fault, NoMemory>
    ensures { IfOk result (λ f. f ≡ spec.no_handler name.now) }
{
    let mut text = String::from_str(alloc, "no block meets ")?;
    text.push_str(name.as_str())?;
    fault(
        alloc,
        FaultKind::NoHandler,
        "NoHandler",
        text.as_str(),
        true,
    )
}

pub(crate) fn undecodable(alloc: Global, name: &Text) -> Result<Fault, NoMemory>
    ensures { IfOk result (λ f. f ≡ spec.undecodable name.now) }
{
    let mut text = String::from_str(alloc, "the body is not an object with the fields of ")?;
    text.push_str(name.as_str())?;
    fault(
        alloc,
        FaultKind::Undecodable,
        "Undecodable",
        text.as_str(),
        true,
    )
}

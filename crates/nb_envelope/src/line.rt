//! A line of JSON, read as an envelope: an object with the member `headers`, an object of texts, and the member
//! `body`, a text.
ghost use Rattle.std.specs.Prelude.{◌≡◌, Some, MatchResult, codes};
ghost use Rattle.serde_json.specs.View.{view, members_view};
ghost use Rattle.serde_json.specs.Find.{get, get_member};
ghost use Rattle.nb_envelope.specs.Lines.{json_of, headers_of, body_of, headers_in, message_of, line_of, Gives, IsNotJsonUnless};

use nb_base::{Copied, Envelope, Headers, NoMemory, Text};
use serde_json::{Map, Value};
use std::alloc::Global;
use thiserror::Error;

/// The most bytes that a line has.
const MAX_LINE: usize = 262144;

/// Where a line is no envelope.
#[derive(Debug, Drop)]
pub enum Place {
    /// The value is no object.
    Root,
    /// The member `headers` is absent or no object.
    Headers,
    /// The header with this name, the least one, is neither a text nor null.
    Header(Text),
    /// The member `body` is there, and is neither a text nor null.
    Body,
}

/// Why a line is no envelope: the first cause in this order.
#[derive(Debug, Drop, Error)]
pub enum LineFault {
    #[error("longer than 262144 bytes")]
    TooLong,
    /// `serde_json` refuses the bytes.
    #[error("no JSON")]
    NotJson,
    #[error("no envelope")]
    NotEnvelope(Place),
    /// The header `NServiceBus.MessageId` is absent, null or empty.
    #[error("no id")]
    NoId,
    #[error("no memory")]
    NoMemory,
}

impl Copied for Place {
    fn copy(&self) -> Result<Place, NoMemory> {
        match self {
            Place::Root => Ok(Place::Root),
            Place::Headers => Ok(Place::Headers),
            Place::Header(name) => Ok(Place::Header(name.copy()?)),
            Place::Body => Ok(Place::Body),
        }
    }
}

impl Copied for LineFault {
    fn copy(&self) -> Result<LineFault, NoMemory> {
        match self {
            LineFault::TooLong => Ok(LineFault::TooLong),
            LineFault::NotJson => Ok(LineFault::NotJson),
            LineFault::NotEnvelope(place) => Ok(LineFault::NotEnvelope(place.copy()?)),
            LineFault::NoId => Ok(LineFault::NoId),
            LineFault::NoMemory => Ok(LineFault::NoMemory),
        }
    }
}

impl From<NoMemory> for LineFault {
    ghost use Rattle.std.specs.Prelude.{◌≡◌};
    ghost use Rattle.nb_envelope.specs.declared.line.LineFault.TheVariants.{NoMemory};

    ghost from_gives = { λ _ e. e ≡ NoMemory };

    fn from(_refused: NoMemory) -> LineFault {
        LineFault::NoMemory
    }
}

/// The value that the bytes are.
fn value_of(alloc: Global, line: &[u8]) -> Result<Value, LineFault>
    ensures { MatchResult result
        (λ v. json_of line.now ≡ Some (view v))
        (λ e. IsNotJsonUnless (json_of line.now) e) }
{
    match Value::from_slice(alloc, line) {
        Ok(value) => Ok(value),
        Err(e) if e.is_memory() => Err(LineFault::NoMemory),
        Err(_) => Err(LineFault::NotJson),
    }
}

/// The text of the body.
fn body_in(alloc: Global, value: &Value) -> Result<Text, LineFault>
    ensures { Gives result (body_of (get (codes "body") (view value.now))) }
{
    match value.get("body") {
        None => Ok(Text::new(alloc, "")?),
        Some(Value::Null) => Ok(Text::new(alloc, "")?),
        Some(Value::String(s)) => Ok(Text::new(alloc, s.as_str())?),
        Some(_) => Err(LineFault::NotEnvelope(Place::Body)),
    }
}

/// The headers of an object's members, in byte order of their names. A null is no header.
fn headers_from(alloc: Global, members: &Map<String, Value>) -> Result<Headers, LineFault>
    ensures { Gives result (headers_in (members_view members.now.entries)) }
{
    let mut headers = Headers::new(alloc);
    for (name, value) in members.iter() {
        match value {
            Value::Null => {}
            Value::String(text) => {
                let text = Text::new(alloc, text.as_str())?;
                headers.set(alloc, name.as_str(), text)?;
            }
            _ => {
                let name = Text::new(alloc, name.as_str())?;
                return Err(LineFault::NotEnvelope(Place::Header(name)));
            }
        }
    }
    Ok(headers)
}

/// The headers of a line's value.
fn headers_at(alloc: Global, value: &Value) -> Result<Headers, LineFault>
    ensures { Gives result (headers_of (get (codes "headers") (view value.now))) }
{
    match value.get("headers") {
        Some(Value::Object(members)) => headers_from(alloc, members),
        _ => Err(LineFault::NotEnvelope(Place::Headers)),
    }
}

/// The envelope of a line's value. Other members are ignored.
fn envelope_of(alloc: Global, value: &Value) -> Result<Envelope, LineFault>
    ensures { Gives result (message_of (Some (view value.now))) }
{
    if !value.is_object() {
        return Err(LineFault::NotEnvelope(Place::Root));
    }
    let headers = headers_at(alloc, value)?;
    let body = body_in(alloc, value)?;
    match Envelope::of_headers(headers, body) {
        Some(envelope) => Ok(envelope),
        None => Err(LineFault::NoId),
    }
}

/// The envelope that a line is, or the first cause for which it is none. A null body is the empty text.
pub fn read_line(alloc: Global, line: &[u8]) -> Result<Envelope, LineFault>
    ensures { Gives result (line_of line.now) }
{
    if line.len() > MAX_LINE {
        return Err(LineFault::TooLong);
    }
    let value = value_of(alloc, line)?;
    envelope_of(alloc, &value)
}

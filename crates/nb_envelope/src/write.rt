//! An envelope, written as a line of JSON.
ghost use Rattle.std.specs.Prelude.{◌≡◌, ◌≤◌, length, Ok, IfOk};
ghost use Rattle.nb_envelope.specs.Lines.{line_of, most_line_bytes};
ghost use Rattle.serde_json.specs.Data.{object, string};
ghost use Rattle.serde_json.specs.View.{view};
ghost use Rattle.nb_envelope.specs.Written.{as_members, by_name, data_of, line_text};

use nb_base::{Bytes, Envelope, Headers, NoMemory};
use serde_json::{Map, Value};
use std::alloc::Global;

/// A text as a value.
fn text_value(alloc: Global, text: &str) -> Result<Value, NoMemory>
    ensures { IfOk result (λ v. view v ≡ string text.now) }
{
    let copy = String::from_str(alloc, text)?;
    Ok(Value::String(copy))
}

/// The headers as an object.
fn headers_value(alloc: Global, headers: &Headers) -> Result<Value, NoMemory>
    ensures { IfOk result (λ v. view v ≡ object (as_members (by_name headers.now))) }
{
    let mut members = Map::new(alloc);
    for i in 0..headers.len() {
        let (name, text) = headers.at(i);
        let value = text_value(alloc, text.as_str())?;
        let key = String::from_str(alloc, name)?;
        members.insert(key, value)?;
    }
    Ok(Value::Object(members))
}

/// The value of an envelope.
fn value_of(alloc: Global, envelope: &Envelope) -> Result<Value, NoMemory>
    ensures { IfOk result (λ v. view v ≡ data_of envelope.now) }
{
    let body = text_value(alloc, envelope.body().as_str())?;
    let headers = headers_value(alloc, envelope.headers())?;
    let mut members = Map::new(alloc);
    let body_name = String::from_str(alloc, "body")?;
    members.insert(body_name, body)?;
    let headers_name = String::from_str(alloc, "headers")?;
    members.insert(headers_name, headers)?;
    Ok(Value::Object(members))
}

/// The line of an envelope, as compact JSON with no line feed: the body, and the headers in byte order of their names.
pub fn write_line(alloc: Global, envelope: &Envelope) -> Result<Bytes, NoMemory>
    ensures text { IfOk result (λ t. t ≡ line_text envelope.now) }
    // It is read again, its headers in byte order, where it isn't too long.
    ensures again { IfOk result (λ t. length t ≤ most_line_bytes → line_of t ≡ Ok (record {
      headers = by_name envelope.now.headers;
      body = envelope.now.body;
    })) }
{
    let _sound = envelope.body();
    let value = value_of(alloc, envelope)?;
    let text = value.to_string(alloc)?;
    let _utf8 = text.as_str();
    Bytes::of_vec(text.into_bytes())
}

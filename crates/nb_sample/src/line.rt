//! The lines of the sample's input.
ghost use Rattle.std.specs.Prelude.{◌≡◌, ◌<◌, IfOk};
ghost use Rattle.nb_sample.specs.Sample.{sample_message, message_number, sample_line};

use crate::body::body_of;
use crate::id::sample_id;
use crate::kind::{kind_of, type_name};
use nb_base::{Bytes, Envelope, NoMemory, Text};
use nb_envelope::write_line;
use nb_headers::names::ENCLOSED_MESSAGE_TYPES;
use std::alloc::Global;

/// The message with this number.
fn sample_message(alloc: Global, seed: u64, i: u64) -> Result<Envelope, NoMemory>
    requires { 0 < i }
    ensures { IfOk result (λ e. e ≡ sample_message seed i) }
{
    let k = seed as u128 + i as u128;
    let kind = kind_of(k);
    let id = sample_id(alloc, seed, i)?;
    let name = Text::new(alloc, type_name(kind))?;
    let body = body_of(alloc, kind, k)?;
    let mut envelope = Envelope::new(alloc, &id, body)?;
    envelope.set_header(alloc, ENCLOSED_MESSAGE_TYPES, name)?;
    Ok(envelope)
}

/// The number of the message in the line with this number.
fn message_number(i: u64) -> u64
    requires { 0 < i }
    ensures value { result ≡ message_number i }
    ensures counted { 0 < result }
{
    if i % 10 == 0 { i - 1 } else { i }
}

/// The line with this number, counted from 1, without its line feed. Each tenth line repeats the one before it.
pub fn sample_line(alloc: Global, seed: u64, i: u64) -> Result<Bytes, NoMemory>
    requires { 0 < i }
    ensures { IfOk result (λ b. b ≡ sample_line seed i) }
{
    let number = message_number(i);
    let envelope = sample_message(alloc, seed, number)?;
    write_line(alloc, &envelope)
}

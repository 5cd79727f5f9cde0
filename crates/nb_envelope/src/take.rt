//! Values read at the front of a cell, each with the bytes after it.
ghost use Rattle.std.specs.Prelude.{◌≡◌, ◌++◌, ◌<◌, ◌^◌, length, IfErr};
ghost use Rattle.std.specs.Int.{w32, w64};
ghost use Rattle.nb_envelope.specs.Cells.{u32_in, u64_in, int_in, flag_in, text_of, text_in, value_of, value_in, moment_in, due_in, added_in, headers_of, headers_in, envelope_in, Gives};
ghost use Rattle.nb_envelope.specs.declared.fault.FormatFault.TheVariants.{Damaged};

use crate::fault::FormatFault;
use nb_base::{Envelope, Headers, Moment, Text, Value};
use std::alloc::Global;

/// A number in four bytes, the high one first.
#[tactic(auto, unfolding(crate::specs::Cells::number_in))]
pub fn take_u32(bytes: &[u8]) -> Result<(u32, &[u8]), FormatFault>
    ensures value { Gives (λ x. (x.0, x.1.now)) result (u32_in bytes.now) }
    ensures needs_no_memory { IfErr result (λ e. e ≡ Damaged) }
{
    if bytes.len() < 4 {
        return Err(FormatFault::Damaged);
    }
    let (front, rest) = bytes.split_at(4);
    let number = u32::from_be_bytes([front[0], front[1], front[2], front[3]]);
    Ok((number, rest))
}

/// A number in eight bytes, the high one first.
#[tactic(auto, unfolding(crate::specs::Cells::number_in))]
pub fn take_u64(bytes: &[u8]) -> Result<(u64, &[u8]), FormatFault>
    ensures value { Gives (λ x. (x.0, x.1.now)) result (u64_in bytes.now) }
    ensures needs_no_memory { IfErr result (λ e. e ≡ Damaged) }
{
    if bytes.len() < 8 {
        return Err(FormatFault::Damaged);
    }
    let (front, rest) = bytes.split_at(8);
    let number = u64::from_be_bytes([
        front[0], front[1], front[2], front[3], front[4], front[5], front[6], front[7],
    ]);
    Ok((number, rest))
}

/// A number in eight bytes of two's complement, the high one first.
#[tactic(auto, unfolding(crate::specs::Cells::int_in))]
pub fn take_int(bytes: &[u8]) -> Result<(i64, &[u8]), FormatFault>
    ensures value { Gives (λ x. (x.0, x.1.now)) result (int_in bytes.now) }
    ensures needs_no_memory { IfErr result (λ e. e ≡ Damaged) }
{
    let (number, rest) = take_u64(bytes)?;
    Ok((number.cast_signed(), rest))
}

/// One byte, 0 or 1.
#[tactic(auto, unfolding(crate::specs::Cells::flag_in))]
pub fn take_flag(bytes: &[u8]) -> Result<(bool, &[u8]), FormatFault>
    ensures value { Gives (λ x. (x.0, x.1.now)) result (flag_in bytes.now) }
    ensures needs_no_memory { IfErr result (λ e. e ≡ Damaged) }
{
    match bytes {
        [0, rest @ ..] => Ok((false, rest)),
        [1, rest @ ..] => Ok((true, rest)),
        _ => Err(FormatFault::Damaged),
    }
}

/// So many bytes of text.
#[tactic(auto, unfolding(crate::specs::Cells::text_of))]
fn take_utf8(len: usize, bytes: &[u8]) -> Result<(&str, &[u8]), FormatFault>
    ensures value { Gives (λ x. (x.0.now, x.1.now)) result (text_of len bytes.now) }
    ensures needs_no_memory { IfErr result (λ e. e ≡ Damaged) }
{
    if bytes.len() < len {
        return Err(FormatFault::Damaged);
    }
    let (front, rest) = bytes.split_at(len);
    match std::str::from_utf8(front) {
        Ok(text) => Ok((text, rest)),
        Err(_) => Err(FormatFault::Damaged),
    }
}

/// A text that stays where it is.
#[tactic(auto, unfolding(crate::specs::Cells::text_in))]
pub fn take_str(bytes: &[u8]) -> Result<(&str, &[u8]), FormatFault>
    ensures value { Gives (λ x. (x.0.now, x.1.now)) result (text_in bytes.now) }
    ensures needs_no_memory { IfErr result (λ e. e ≡ Damaged) }
{
    let (len, rest) = take_u32(bytes)?;
    take_utf8(len as usize, rest)
}

/// A copy of a text.
pub fn take_text(alloc: Global, bytes: &[u8]) -> Result<(Text, &[u8]), FormatFault>
    ensures { Gives (λ x. (x.0, x.1.now)) result (text_in bytes.now) }
{
    let (text, rest) = take_str(bytes)?;
    Ok((Text::new(alloc, text)?, rest))
}

/// The content of a value of a kind.
#[tactic(auto, unfolding(crate::specs::Cells::value_of))]
fn take_content(alloc: Global, kind: u8, bytes: &[u8]) -> Result<(Value, &[u8]), FormatFault>
    ensures { Gives (λ x. (x.0, x.1.now)) result (value_of kind bytes.now) }
{
    match kind {
        1 => {
            let (n, rest) = take_int(bytes)?;
            Ok((Value::Int(n), rest))
        }
        2 => {
            let (text, rest) = take_text(alloc, bytes)?;
            Ok((Value::Text(text), rest))
        }
        3 => {
            let (flag, rest) = take_flag(bytes)?;
            Ok((Value::Bool(flag), rest))
        }
        _ => Err(FormatFault::Damaged),
    }
}

/// The kind of a value, and its content.
#[tactic(auto, unfolding(crate::specs::Cells::value_in))]
pub fn take_value(alloc: Global, bytes: &[u8]) -> Result<(Value, &[u8]), FormatFault>
    ensures { Gives (λ x. (x.0, x.1.now)) result (value_in bytes.now) }
{
    match bytes {
        [kind, rest @ ..] => take_content(alloc, *kind, rest),
        [] => Err(FormatFault::Damaged),
    }
}

/// The seconds of a moment.
#[tactic(auto, unfolding(crate::specs::Cells::moment_in))]
pub fn take_moment(bytes: &[u8]) -> Result<(Moment, &[u8]), FormatFault>
    ensures value { Gives (λ x. (x.0, x.1.now)) result (moment_in bytes.now) }
    ensures needs_no_memory { IfErr result (λ e. e ≡ Damaged) }
{
    let (seconds, rest) = take_u64(bytes)?;
    match Moment::new(seconds) {
        Some(moment) => Ok((moment, rest)),
        None => Err(FormatFault::Damaged),
    }
}

/// A flag, and the moment where there is one.
#[tactic(auto, unfolding(crate::specs::Cells::due_in))]
pub fn take_due(bytes: &[u8]) -> Result<(Option<Moment>, &[u8]), FormatFault>
    ensures value { Gives (λ x. (x.0, x.1.now)) result (due_in bytes.now) }
    ensures needs_no_memory { IfErr result (λ e. e ≡ Damaged) }
{
    let (there, rest) = take_flag(bytes)?;
    if !there {
        return Ok((None, rest));
    }
    match take_moment(rest) {
        Ok((moment, rest)) => Ok((Some(moment), rest)),
        Err(e) => Err(e),
    }
}

/// Reads a header, and adds it where its name is new.
#[tactic(auto, unfolding(crate::specs::Cells::added_in, crate::specs::Cells::header_in))]
fn add_header<'a>(
    alloc: Global,
    headers: &mut Headers,
    bytes: &'a [u8],
) -> Result<&'a [u8], FormatFault>
    ensures { Gives (λ rest. (headers.new, rest.now)) result (added_in headers.old bytes.now) }
{
    let (name, rest) = take_str(bytes)?;
    let (text, rest) = take_text(alloc, rest)?;
    if headers.get(name).is_some() {
        return Err(FormatFault::Damaged);
    }
    headers.set(alloc, name, text)?;
    Ok(rest)
}

/// So many headers, each name once.
fn take_headers(alloc: Global, count: u32, bytes: &[u8]) -> Result<(Headers, &[u8]), FormatFault>
    ensures { Gives (λ x. (x.0, x.1.now)) result (headers_of count bytes.now) }
{
    let mut headers = Headers::new(alloc);
    let mut rest = bytes;
    for _ in 0..count {
        rest = add_header(alloc, &mut headers, rest)?;
    }
    Ok((headers, rest))
}

/// The headers in their order, each name once and the id among them, and the body.
#[tactic(auto, unfolding(crate::specs::Cells::envelope_in, crate::specs::Cells::headers_in, crate::specs::Cells::list_in, crate::specs::Cells::headers_of))]
pub fn take_envelope(alloc: Global, bytes: &[u8]) -> Result<(Envelope, &[u8]), FormatFault>
    ensures { Gives (λ x. (x.0, x.1.now)) result (envelope_in bytes.now) }
{
    let (count, rest) = take_u32(bytes)?;
    let (headers, rest) = take_headers(alloc, count, rest)?;
    let (body, rest) = take_text(alloc, rest)?;
    match Envelope::of_headers(headers, body) {
        Some(envelope) => Ok((envelope, rest)),
        None => Err(FormatFault::Damaged),
    }
}

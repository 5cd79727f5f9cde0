//! Values written at the end of a cell. A text or a list with a count that four bytes don't hold has no spelling,
//! and is refused as want of memory.
ghost use Rattle.std.specs.Prelude.{◌≡◌, ◌++◌, ◌<◌, ◌^◌, length, OnOk};
ghost use Rattle.std.specs.List.{flat_map, AllByRecursion};
ghost use Rattle.nb_envelope.specs.Spelling.{spelled_u32, spelled_u64, spelled_int, spelled_flag, spelled_text, spelled_value, spelled_due, spelled_header, spelled_envelope};
ghost use Rattle.nb_envelope.specs.Spelling.{IsText, IsValue, IsDue, IsHeader, IsEnvelope};

use nb_base::{Envelope, Headers, Moment, NoMemory, Value};

/// A number in four bytes, the high one first.
#[tactic(auto, unfolding(crate::specs::Spelling::spelled_u32))]
pub fn put_u32(out: &mut Vec<u8>, n: u32) -> Result<(), NoMemory>
    ensures { OnOk result (out.new.items ≡ out.old.items ++ spelled_u32 n) }
{
    out.extend_from_slice(&n.to_be_bytes())?;
    Ok(())
}

/// A number in eight bytes, the high one first.
#[tactic(auto, unfolding(crate::specs::Spelling::spelled_u64))]
pub fn put_u64(out: &mut Vec<u8>, n: u64) -> Result<(), NoMemory>
    ensures { OnOk result (out.new.items ≡ out.old.items ++ spelled_u64 n) }
{
    out.extend_from_slice(&n.to_be_bytes())?;
    Ok(())
}

/// A number in eight bytes of two's complement, the high one first.
#[tactic(auto, unfolding(crate::specs::Spelling::spelled_u64))]
pub fn put_int(out: &mut Vec<u8>, n: i64) -> Result<(), NoMemory>
    ensures { OnOk result (out.new.items ≡ out.old.items ++ spelled_int n) }
{
    out.extend_from_slice(&n.to_be_bytes())?;
    Ok(())
}

/// One byte, 0 or 1.
pub fn put_flag(out: &mut Vec<u8>, flag: bool) -> Result<(), NoMemory>
    ensures { OnOk result (out.new.items ≡ out.old.items ++ spelled_flag flag) }
{
    match flag {
        false => out.push(0)?,
        true => out.push(1)?,
    }
    Ok(())
}

/// The count of a list, in four bytes.
pub fn put_count(out: &mut Vec<u8>, count: usize) -> Result<(), NoMemory>
    ensures bytes { OnOk result (out.new.items ≡ out.old.items ++ spelled_u32 count) }
    ensures fits { OnOk result (count < 2 ^ 32) }
{
    if count >= 1 << 32 {
        return Err(NoMemory);
    }
    put_u32(out, count as u32)
}

/// The count of a text's bytes, and the bytes.
pub fn put_text(out: &mut Vec<u8>, text: &str) -> Result<(), NoMemory>
    ensures bytes { OnOk result (out.new.items ≡ out.old.items ++ spelled_text text.now) }
    ensures fits { OnOk result (IsText text.now) }
{
    put_count(out, text.len())?;
    out.extend_from_slice(text.as_bytes())?;
    Ok(())
}

/// The kind of a value, and its content.
pub fn put_value(out: &mut Vec<u8>, value: &Value) -> Result<(), NoMemory>
    ensures bytes { OnOk result (out.new.items ≡ out.old.items ++ spelled_value value.now) }
    ensures fits { OnOk result (IsValue value.now) }
{
    match value {
        Value::Int(n) => {
            out.push(1)?;
            put_int(out, *n)
        }
        Value::Text(text) => {
            out.push(2)?;
            put_text(out, text.as_str())
        }
        Value::Bool(flag) => {
            out.push(3)?;
            put_flag(out, *flag)
        }
    }
}

/// A flag, and the moment where there is one.
pub fn put_due(out: &mut Vec<u8>, due: Option<Moment>) -> Result<(), NoMemory>
    ensures bytes { OnOk result (out.new.items ≡ out.old.items ++ spelled_due due) }
    ensures fits { OnOk result (IsDue due) }
{
    match due {
        None => put_flag(out, false),
        Some(moment) => {
            put_flag(out, true)?;
            put_u64(out, moment.seconds())
        }
    }
}

/// The headers, one after the other.
fn put_headers(out: &mut Vec<u8>, headers: &Headers) -> Result<(), NoMemory>
    ensures bytes { OnOk result
        (out.new.items ≡ out.old.items ++ flat_map spelled_header headers.now) }
    ensures fits { OnOk result (AllByRecursion IsHeader headers.now) }
{
    for i in 0..headers.len() {
        let (name, text) = headers.at(i);
        put_text(out, name)?;
        put_text(out, text.as_str())?;
    }
    Ok(())
}

/// The count of an envelope's headers, these in their order, and the body.
pub fn put_envelope(out: &mut Vec<u8>, envelope: &Envelope) -> Result<(), NoMemory>
    ensures bytes { OnOk result (out.new.items ≡ out.old.items ++ spelled_envelope envelope.now) }
    ensures fits { OnOk result (IsEnvelope envelope.now) }
{
    let headers = envelope.headers();
    put_count(out, headers.len())?;
    put_headers(out, headers)?;
    put_text(out, envelope.body().as_str())
}

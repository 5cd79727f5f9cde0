//! Sagas and rows read at the front of bytes.
ghost use Rattle.std.specs.Prelude.{◌≡◌, ◌↔◌, IsTrue, IfOk};
ghost use Rattle.nb_envelope.specs.Cells.{items_in, Gives};
ghost use Rattle.nb_saga_store.specs.Read.{place_in, field_in, fields_in, later_in, revision_in, saga_in, row_in, have_distinct_names};

use nb_base::{ByName, Copied, Field, Fields, Items, NoMemory, Row, SagaKey, SagaRow, Value};
use nb_envelope::FormatFault;
use nb_envelope::wire::{take_int, take_text, take_u32, take_u64, take_value};
use std::alloc::Global;

/// A saga's type, and a number or a text.
#[tactic(auto, unfolding(crate::specs::Read::place_in))]
pub(crate) fn take_place(alloc: Global, bytes: &[u8]) -> Result<(SagaKey, &[u8]), FormatFault>
    ensures { Gives (λ x. (x.0, x.1.now)) result (place_in bytes.now) }
{
    let (saga, rest) = take_text(alloc, bytes)?;
    let (corr, rest) = take_value(alloc, rest)?;
    match corr {
        Value::Bool(_) => Err(FormatFault::Damaged),
        corr => Ok((SagaKey { saga, corr }, rest)),
    }
}

/// The name and the value of a field.
#[tactic(auto, unfolding(crate::specs::Read::field_in))]
fn take_field(alloc: Global, bytes: &[u8]) -> Result<(Field, &[u8]), FormatFault>
    ensures { Gives (λ x. (x.0, x.1.now)) result (field_in bytes.now) }
{
    let (name, rest) = take_text(alloc, bytes)?;
    let (value, rest) = take_value(alloc, rest)?;
    Ok((Field { name, value }, rest))
}

/// So many fields.
fn take_each(alloc: Global, count: u32, bytes: &[u8]) -> Result<(Fields, &[u8]), FormatFault>
    ensures { Gives (λ x. (x.0, x.1.now)) result (items_in field_in count bytes.now) }
{
    let mut fields = Items::new(alloc);
    let mut rest = bytes;
    for _ in 0..count {
        let (field, after) = take_field(alloc, rest)?;
        fields.push(field)?;
        rest = after;
    }
    Ok((fields, rest))
}

/// Whether each name is there once.
fn have_distinct_names(alloc: Global, fields: &Fields) -> Result<bool, NoMemory>
    ensures { IfOk result (λ b. b ≡ have_distinct_names fields.now) }
{
    let mut names = ByName::new(alloc);
    for i in 0..fields.len() {
        let name = &fields.at(i).name;
        if names.get(name).is_some() {
            return Ok(false);
        }
        names.insert(name.copy()?, i)?;
    }
    Ok(true)
}

/// The fields, each name once.
#[tactic(auto, unfolding(crate::specs::Read::fields_in, nb_envelope::specs::Cells::list_in))]
fn take_fields(alloc: Global, bytes: &[u8]) -> Result<(Fields, &[u8]), FormatFault>
    ensures { Gives (λ x. (x.0, x.1.now)) result (fields_in bytes.now) }
{
    let (count, rest) = take_u32(bytes)?;
    let (fields, rest) = take_each(alloc, count, rest)?;
    if !have_distinct_names(alloc, &fields)? {
        return Err(FormatFault::Damaged);
    }
    Ok((fields, rest))
}

/// A revision that isn't the first one.
#[tactic(auto, unfolding(crate::specs::Read::later_in))]
fn take_later(bytes: &[u8]) -> Result<(u32, &[u8]), FormatFault>
    ensures { Gives (λ x. (x.0, x.1.now)) result (later_in bytes.now) }
{
    let (revision, rest) = take_u32(bytes)?;
    if revision <= 1 {
        return Err(FormatFault::Damaged);
    }
    Ok((revision, rest))
}

/// The format, and the revision where it isn't the first one.
#[tactic(auto, unfolding(crate::specs::Read::revision_in))]
fn take_revision(bytes: &[u8]) -> Result<(u32, &[u8]), FormatFault>
    ensures { Gives (λ x. (x.0, x.1.now)) result (revision_in bytes.now) }
{
    match bytes {
        [1, rest @ ..] => Ok((1, rest)),
        [2, rest @ ..] => take_later(rest),
        _ => Err(FormatFault::Damaged),
    }
}

/// The row of the saga with this correlation value.
#[tactic(auto, unfolding(crate::specs::Read::saga_in))]
pub(crate) fn take_saga(
    alloc: Global,
    corr: Value,
    bytes: &[u8],
) -> Result<(SagaRow, &[u8]), FormatFault>
    ensures { Gives (λ x. (x.0, x.1.now)) result (saga_in corr bytes.now) }
{
    let (revision, rest) = take_revision(bytes)?;
    let (id, rest) = take_text(alloc, rest)?;
    let (version, rest) = take_u64(rest)?;
    let (originator, rest) = take_text(alloc, rest)?;
    let (original, rest) = take_text(alloc, rest)?;
    let (fields, rest) = take_fields(alloc, rest)?;
    let row = SagaRow {
        corr,
        id,
        version,
        revision,
        originator,
        original,
        fields,
    };
    Ok((row, rest))
}

/// The format, the version and the number of a row.
#[tactic(auto, unfolding(crate::specs::Read::row_in))]
pub(crate) fn take_row(bytes: &[u8]) -> Result<(Row, &[u8]), FormatFault>
    ensures { Gives (λ x. (x.0, x.1.now)) result (row_in bytes.now) }
{
    match bytes {
        [1, rest @ ..] => {
            let (version, rest) = take_u64(rest)?;
            let (value, rest) = take_int(rest)?;
            Ok((Row { version, value }, rest))
        }
        _ => Err(FormatFault::Damaged),
    }
}

//! Stored sagas against what the script declares of their type.
ghost use Rattle.std.specs.Prelude.{◌≡◌, true, Some, IfOk, option_copied};
ghost use Rattle.nb_check.specs.Fits as spec;

use crate::sight::is_kind;
use crate::types::{SagaType, StateField};
use nb_base::{Copied, Field, Fields, Items, NoMemory, SagaRow, Text, Value};
use nb_script::item::FieldKind;
use std::alloc::Global;

fn kind_of(value: &Value) -> FieldKind
    ensures { result ≡ spec.kind_of value.now }
{
    match value {
        Value::Int(_) => FieldKind::Int,
        Value::Text(_) => FieldKind::Text,
        Value::Bool(_) => FieldKind::Bool,
    }
}

/// The first declared saga of this name.
pub(crate) fn saga_named<'a>(name: &Text, kinds: &'a [SagaType]) -> Option<&'a SagaType>
    ensures { option_copied result ≡ spec.saga_named name.now kinds.now }
{
    for s in kinds {
        if s.name == *name {
            return Some(s);
        }
    }
    None
}

/// Whether a row of this revision has the field.
fn is_there(revision: u32, field: &StateField) -> bool
    ensures { result ≡ spec.is_there revision field.now }
{
    field.since <= revision as i64
}

fn is_field(declared: &StateField, stored: &Field) -> bool
    ensures { result ≡ spec.is_field declared.now stored.now }
{
    declared.name == stored.name && is_kind(kind_of(&stored.value), declared.kind)
}

/// Exactly the fields that a row of this revision has, in order with their kinds.
fn fits_fields(revision: u32, declared: &[StateField], stored: &[Field]) -> bool
    ensures { result ≡ spec.fits_fields revision declared.now stored.now }
{
    let mut left = stored;
    for f in declared {
        if is_there(revision, f) {
            match left {
                [v, others @ ..] if is_field(f, v) => left = others,
                _ => return false,
            }
        }
    }
    left.is_empty()
}

/// Whether the row fits its type.
pub(crate) fn fits_type(saga: &SagaType, row: &SagaRow) -> bool
    ensures { result ≡ spec.fits_type saga.now row.now }
{
    1 <= row.revision
        && row.revision as i64 <= saga.revision
        && is_kind(kind_of(&row.corr), saga.correlation.kind)
        && fits_fields(row.revision, saga.fields.as_slice(), row.fields.as_slice())
}

fn first_field(field: &StateField) -> Result<Field, NoMemory>
    ensures { IfOk result (λ f. f ≡ spec.first_field field.now) }
{
    let name = field.name.copy()?;
    let value = field.first.copy()?;
    Ok(Field { name, value })
}

/// The declared fields: those that the row has with their stored values, the others with their first ones.
fn lifted_fields(
    alloc: Global,
    revision: u32,
    declared: &[StateField],
    stored: &[Field],
) -> Result<Fields, NoMemory>
    ensures { IfOk result (λ fs. fs ≡ spec.lifted_fields revision declared.now stored.now) }
{
    let mut fields = Items::new(alloc);
    let mut left = stored;
    for f in declared {
        match left {
            [v, others @ ..] if is_there(revision, f) => {
                fields.push(v.copy()?)?;
                left = others;
            }
            _ => fields.push(first_field(f)?)?,
        }
    }
    Ok(fields)
}

/// The row with the declared revision and fields.
pub(crate) fn lifted(alloc: Global, saga: &SagaType, row: &SagaRow) -> Result<SagaRow, NoMemory>
    ensures { IfOk result (λ r. r ≡ spec.lifted saga.now row.now) }
{
    let fields = lifted_fields(
        alloc,
        row.revision,
        saga.fields.as_slice(),
        row.fields.as_slice(),
    )?;
    let corr = row.corr.copy()?;
    let id = row.id.copy()?;
    let originator = row.originator.copy()?;
    let original = row.original.copy()?;
    // A declared revision is at most 1000.
    let revision = u32::try_from(saga.revision.unsigned_abs()).map_err(|_| NoMemory)?;
    Ok(SagaRow {
        corr,
        id,
        version: row.version,
        revision,
        originator,
        original,
        fields,
    })
}

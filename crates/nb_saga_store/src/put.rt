//! Sagas and rows written as the bytes of cells.
ghost use Rattle.std.specs.Prelude.{◌≡◌, ◌≤◌, ◌<◌, ◌^◌, ◌++◌, IfOk, OnOk};
ghost use Rattle.std.specs.List.{flat_map, AllByRecursion};
ghost use Rattle.nb_base.specs.Sound.{CanCorrelate, HaveDistinctNames};
ghost use Rattle.nb_envelope.specs.Spelling.{spelled_list, IsText, IsValue, IsList};
ghost use Rattle.nb_saga_store.specs.Spelled.{spelled_place, spelled_field, spelled_revision, spelled_saga, spelled_row, IsPlace, IsField, IsRevision, IsSagaRow, IsRow};

use nb_base::{Bytes, Field, Fields, NoMemory, SagaRow, Text, Value};
use nb_envelope::wire::{put_count, put_int, put_text, put_u32, put_u64, put_value};
use std::alloc::Global;

/// The bytes of the key of a saga.
pub(crate) fn place_bytes(alloc: Global, saga: &Text, corr: &Value) -> Result<Bytes, NoMemory>
    ensures bytes { IfOk result (λ b. b ≡ spelled_place (record { saga = saga.now; corr = corr.now })) }
    ensures fits { OnOk result (IsText saga.now × IsValue corr.now) }
{
    let mut out = Vec::new(alloc);
    put_text(&mut out, saga.as_str())?;
    put_value(&mut out, corr)?;
    Bytes::of_vec(out)
}

/// The name and the value of a field.
fn put_field(out: &mut Vec<u8>, field: &Field) -> Result<(), NoMemory>
    ensures bytes { OnOk result (out.new.items ≡ out.old.items ++ spelled_field field.now) }
    ensures fits { OnOk result (IsField field.now) }
{
    put_text(out, field.name.as_str())?;
    put_value(out, &field.value)
}

/// The fields, one after the other.
fn put_each(out: &mut Vec<u8>, fields: &Fields) -> Result<(), NoMemory>
    ensures bytes { OnOk result (out.new.items ≡ out.old.items ++ flat_map spelled_field fields.now) }
    ensures fits { OnOk result (AllByRecursion IsField fields.now) }
{
    for i in 0..fields.len() {
        put_field(out, fields.at(i))?;
    }
    Ok(())
}

/// The count of the fields, and the fields.
fn put_fields(out: &mut Vec<u8>, fields: &Fields) -> Result<(), NoMemory>
    ensures bytes { OnOk result (out.new.items ≡ out.old.items ++ spelled_list spelled_field fields.now) }
    ensures fits { OnOk result (IsList IsField fields.now) }
{
    put_count(out, fields.len())?;
    put_each(out, fields)
}

/// The format, and the revision where it isn't the first one.
fn put_revision(out: &mut Vec<u8>, revision: u32) -> Result<(), NoMemory>
    ensures { OnOk result (out.new.items ≡ out.old.items ++ spelled_revision revision) }
{
    if revision == 1 {
        out.push(1)?;
        return Ok(());
    }
    out.push(2)?;
    put_u32(out, revision)
}

/// The bytes of a saga.
pub(crate) fn saga_bytes(alloc: Global, row: &SagaRow) -> Result<Bytes, NoMemory>
    requires revision { 1 ≤ row.now.revision }
    requires names { HaveDistinctNames row.now.fields }
    ensures bytes { IfOk result (λ b. b ≡ spelled_saga row.now) }
    ensures fits { OnOk result (IsSagaRow row.now) }
{
    let mut out = Vec::new(alloc);
    put_revision(&mut out, row.revision)?;
    put_text(&mut out, row.id.as_str())?;
    put_u64(&mut out, row.version)?;
    put_text(&mut out, row.originator.as_str())?;
    put_text(&mut out, row.original.as_str())?;
    put_fields(&mut out, &row.fields)?;
    Bytes::of_vec(out)
}

/// A name as the bytes of a key.
pub(crate) fn name_bytes(alloc: Global, name: &Text) -> Result<Bytes, NoMemory>
    ensures bytes { IfOk result (λ b. b ≡ name.now) }
    ensures fits { OnOk result (IsText name.now) }
{
    Bytes::new(alloc, name.as_str().as_bytes())
}

/// The bytes of a row.
pub(crate) fn row_bytes(alloc: Global, version: u64, value: i64) -> Result<Bytes, NoMemory>
    ensures bytes { IfOk result (λ b. b ≡ spelled_row (record { version = version; value = value })) }
    ensures fits { IsRow (record { version = version; value = value }) }
{
    let mut out = Vec::new(alloc);
    out.push(1)?;
    put_u64(&mut out, version)?;
    put_int(&mut out, value)?;
    Bytes::of_vec(out)
}

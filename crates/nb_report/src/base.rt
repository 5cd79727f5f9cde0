//! The lines on sagas, rows and records.
ghost use Rattle.std.specs.Prelude.{◌≡◌, ◌++◌, string_bytes, length, IfOk, OnOk};
ghost use Rattle.std.specs.FinMap as map;
ghost use Rattle.std.specs.List.{flat_map};
ghost use Rattle.nb_report.specs.Lines.{field_part, instance_part, saga_line, row_line, sending, record_line};
ghost use Rattle.nb_report.specs.Reports.{base_lines};

use nb_base::{
    ByName, BySaga, Field, Fields, NoMemory, OutboxRow, Row, SagaKey, SagaRow, Tables, Text,
};
use nb_recover::{json_text, value_text};
use std::alloc::Global;

/// A field behind a space.
fn field_part(alloc: Global, field: &Field) -> Result<String, NoMemory>
    ensures { IfOk result (λ s. string_bytes s ≡ field_part field.now) }
{
    let name = field.name.as_str();
    let value = value_text(alloc, &field.value)?;
    Ok(format!(in alloc; " {name}={value}")?)
}

/// The fields in order, each behind a space.
#[tactic(auto, using(crate::proofs::PieceLaws::one_more))]
fn field_parts(alloc: Global, fields: &Fields) -> Result<String, NoMemory>
    ensures { IfOk result (λ s. string_bytes s ≡ flat_map field_part fields.now) }
{
    let mut out = String::new(alloc);
    for field in fields.as_slice() {
        let part = field_part(alloc, field)?;
        out.push_str(part.as_str())?;
    }
    Ok(out)
}

/// A saga's id and version, and what is kept of the message that started it.
fn instance_part(alloc: Global, row: &SagaRow) -> Result<String, NoMemory>
    ensures { IfOk result (λ s. string_bytes s ≡ instance_part row.now) }
{
    let id = json_text(alloc, &row.id)?;
    let version = row.version;
    let originator = json_text(alloc, &row.originator)?;
    let original = json_text(alloc, &row.original)?;
    Ok(format!(in alloc; "{id} {version} {originator} {original}")?)
}

/// The line of a saga.
fn saga_line(alloc: Global, place: &SagaKey, row: &SagaRow) -> Result<String, NoMemory>
    ensures { IfOk result (λ s. string_bytes s ≡ saga_line (place.now, row.now)) }
{
    let saga = place.saga.as_str();
    let corr = value_text(alloc, &place.corr)?;
    let instance = instance_part(alloc, row)?;
    let fields = field_parts(alloc, &row.fields)?;
    Ok(format!(in alloc; "saga {saga} {corr} {instance}{fields}\n")?)
}

/// The line of a row.
fn row_line(alloc: Global, name: &Text, row: &Row) -> Result<String, NoMemory>
    ensures { IfOk result (λ s. string_bytes s ≡ row_line (name.now, row.now)) }
{
    let name = json_text(alloc, name)?;
    let version = row.version;
    let value = row.value;
    Ok(format!(in alloc; "row {name} {version} {value}\n")?)
}

/// Whether the messages of a record were sent, or how many are to be sent.
fn sending(alloc: Global, row: &OutboxRow) -> Result<String, NoMemory>
    ensures { IfOk result (λ s. string_bytes s ≡ sending row.now.sent (length row.now.ops)) }
{
    if row.sent {
        return Ok(String::from_str(alloc, "sent")?);
    }
    let count = row.ops.len();
    Ok(format!(in alloc; "pending {count}")?)
}

/// The line of a record.
fn record_line(alloc: Global, id: &Text, row: &OutboxRow) -> Result<String, NoMemory>
    ensures { IfOk result (λ s. string_bytes s ≡ record_line (id.now, row.now)) }
{
    let id = json_text(alloc, id)?;
    let n = row.n;
    let at = row.at.seconds();
    let sending = sending(alloc, row)?;
    Ok(format!(in alloc; "outbox {id} {n} {at} {sending}\n")?)
}

/// Adds the lines of the sagas, by their places.
fn push_sagas(alloc: Global, out: &mut String, sagas: &BySaga<SagaRow>) -> Result<(), NoMemory>
    ensures { OnOk result (string_bytes out.new ≡ string_bytes out.old ++ flat_map saga_line (map.entries sagas.now)) }
{
    for (place, row) in sagas.iter() {
        let line = saga_line(alloc, place, row)?;
        out.push_str(line.as_str())?;
    }
    Ok(())
}

/// Adds the lines of the rows, by their names.
fn push_rows(alloc: Global, out: &mut String, rows: &ByName<Row>) -> Result<(), NoMemory>
    ensures { OnOk result (string_bytes out.new ≡ string_bytes out.old ++ flat_map row_line (map.entries rows.now)) }
{
    for (name, row) in rows.iter() {
        let line = row_line(alloc, name, row)?;
        out.push_str(line.as_str())?;
    }
    Ok(())
}

/// Adds the lines of the records, by their ids.
fn push_records(
    alloc: Global,
    out: &mut String,
    records: &ByName<OutboxRow>,
) -> Result<(), NoMemory>
    ensures { OnOk result (string_bytes out.new ≡ string_bytes out.old ++ flat_map record_line (map.entries records.now)) }
{
    for (id, row) in records.iter() {
        let line = record_line(alloc, id, row)?;
        out.push_str(line.as_str())?;
    }
    Ok(())
}

/// Adds the lines on the base.
pub(crate) fn push_base(alloc: Global, out: &mut String, tables: &Tables) -> Result<(), NoMemory>
    ensures { OnOk result (string_bytes out.new ≡ string_bytes out.old ++ base_lines tables.now) }
{
    push_sagas(alloc, out, &tables.sagas)?;
    push_rows(alloc, out, &tables.rows)?;
    push_records(alloc, out, &tables.outbox)
}

//! What tables show at keys.
ghost use Rattle.std.specs.Prelude.{◌≡◌, IfOk, map as map_list};
ghost use Rattle.std.specs.FinMap as map;
ghost use Rattle.nb_base.specs.Shown.{stored, shown, seen, saga_seen, row_seen, with_id};
ghost use Rattle.nb_base.specs.declared.saga_row.Read.{Read};

use nb_base::{
    Copied, Items, Key, Keys, NoMemory, Read, Reads, Row, SagaKey, SagaRow, Seen, Tables, Text,
    Value,
};
use std::alloc::Global;

/// The saga at a place.
fn saga_at(tables: &Tables, saga: &Text, corr: &Value) -> Result<Seen, NoMemory>
    ensures { IfOk result (λ x. x ≡ saga_seen (map.get tables.now.sagas (record { saga = saga.now; corr = corr.now }))) }
{
    let place = SagaKey {
        saga: saga.copy()?,
        corr: corr.copy()?,
    };
    match tables.sagas.get(&place) {
        Some(row) => Ok(Seen::Saga(row.copy()?)),
        None => Ok(Seen::Absent),
    }
}

/// The saga of a type that has an id.
fn saga_with(tables: &Tables, saga: &Text, id: &Text) -> Result<Seen, NoMemory>
    ensures { IfOk result (λ x. x ≡ saga_seen (with_id saga.now id.now (map.entries tables.now.sagas))) }
{
    for (place, row) in tables.sagas.iter() {
        if place.saga == *saga && row.id == *id {
            return Ok(Seen::Saga(row.copy()?));
        }
    }
    Ok(Seen::Absent)
}

/// The row of a name.
fn row_at(tables: &Tables, name: &Text) -> Seen
    ensures { result ≡ row_seen (map.get tables.now.rows name.now) }
{
    match tables.rows.get(name) {
        Some(row) => Seen::Row {
            version: row.version,
            value: row.value,
        },
        None => Seen::Absent,
    }
}

/// What stands at a key.
fn shown(tables: &Tables, key: &Key) -> Result<Seen, NoMemory>
    ensures { IfOk result (λ x. x ≡ shown (stored tables.now) key.now) }
{
    match key {
        Key::ByCorr { saga, corr } => saga_at(tables, saga, corr),
        Key::ById { saga, id } => saga_with(tables, saga, id),
        Key::Row { name } => Ok(row_at(tables, name)),
    }
}

/// A key with what stands there.
fn read(tables: &Tables, key: &Key) -> Result<Read, NoMemory>
    ensures { IfOk result (λ r. r ≡ record { key = key.now; seen = shown (stored tables.now) key.now }) }
{
    let seen = shown(tables, key)?;
    let key = key.copy()?;
    Ok(Read { key, seen })
}

/// Each key with what stands there.
pub fn seen(alloc: Global, tables: &Tables, keys: &Keys) -> Result<Reads, NoMemory>
    ensures { IfOk result (λ reads. reads ≡ seen (stored tables.now) keys.now) }
{
    let mut reads: Reads = Items::new(alloc);
    for i in 0..keys.len() {
        let read = read(tables, keys.at(i))?;
        reads.push(read)?;
    }
    Ok(reads)
}

/// The keys of what was read, with what stands there now.
pub fn seen_again(alloc: Global, tables: &Tables, before: &Reads) -> Result<Reads, NoMemory>
    ensures { IfOk result (λ reads. reads ≡ seen (stored tables.now) (map_list (λ (r : Read). r.key) before.now)) }
{
    let mut reads: Reads = Items::new(alloc);
    for i in 0..before.len() {
        let read = read(tables, &before.at(i).key)?;
        reads.push(read)?;
    }
    Ok(reads)
}

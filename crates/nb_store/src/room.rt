//! Sagas and rows in memory while a commit is made: room for what is new before the change of the cells, and the writes
//! after it, which take no memory then.
ghost use Rattle.std.specs.Prelude.{◌≡◌, ◌≢◌, ◌∷◌, fold, None, OnOk};
ghost use Rattle.std.specs.FinMap as map;
ghost use Rattle.nb_base.specs.Shown.{Stored, stored};
ghost use Rattle.nb_base.specs.declared.saga_row.SagaRow.{SagaRow};
ghost use Rattle.nb_base.specs.declared.tables.Row.{Row};
ghost use Rattle.nb_saga_store.specs.Writes.{with_written};
ghost use Rattle.nb_store.specs.Batches.{MakesRoom, Widens, HasRoom, HaveRoom, IsWider, IsOlder, ClearsAt, Clears, AreOf, AreApart, place_of};

use nb_base::{ByName, BySaga, Copied, Items, NoMemory, Row, SagaKey, SagaRow, Tables, Text};
use nb_saga_store::Written;

/// Puts a saga where there is none.
fn make_saga_room(
    sagas: &mut BySaga<SagaRow>,
    place: &SagaKey,
    row: &SagaRow,
) -> Result<(), NoMemory>
    ensures room { MakesRoom sagas.old place.now row.now sagas.new }
    ensures there { OnOk result (map.get sagas.new place.now ≢ None) }
{
    if sagas.get(place).is_none() {
        sagas.insert(place.copy()?, row.copy()?)?;
    }
    Ok(())
}

/// Puts a row where there is none.
fn make_row_room(rows: &mut ByName<Row>, name: &Text, row: &Row) -> Result<(), NoMemory>
    ensures room { MakesRoom rows.old name.now row.now rows.new }
    ensures there { OnOk result (map.get rows.new name.now ≢ None) }
{
    if rows.get(name).is_none() {
        rows.insert(name.copy()?, *row)?;
    }
    Ok(())
}

/// Makes room for a write.
fn make_one_room(tables: &mut Tables, write: &Written) -> Result<(), NoMemory>
    ensures room { Widens write.now (stored tables.old) (stored tables.new) }
    ensures there { OnOk result (HasRoom (stored tables.new) write.now) }
    ensures outbox { tables.new.outbox ≡ tables.old.outbox }
{
    match write {
        Written::Saga { place, row } => make_saga_room(&mut tables.sagas, place, row),
        Written::SagaGone { .. } => Ok(()),
        Written::Row { name, row } => make_row_room(&mut tables.rows, name, row),
        Written::RowGone { .. } => Ok(()),
    }
}

/// Makes room for each of the writes.
pub(crate) fn make_room(tables: &mut Tables, writes: &Items<Written>) -> Result<(), NoMemory>
    ensures wider { IsWider writes.now (stored tables.old) (stored tables.new) }
    ensures there { OnOk result (HaveRoom (stored tables.new) writes.now) }
    ensures outbox { tables.new.outbox ≡ tables.old.outbox }
{
    for i in 0..writes.len() {
        make_one_room(tables, writes.at(i))?;
    }
    Ok(())
}

/// Takes a saga of this version away.
fn clear_saga(sagas: &mut BySaga<SagaRow>, place: &SagaKey, version: u64)
    ensures { ClearsAt (λ (row : SagaRow). row.version ≡ version) sagas.old place.now sagas.new }
{
    match sagas.get(place) {
        Some(row) if row.version == version => {}
        _ => return,
    }
    sagas.remove(place);
}

/// Takes a row of this version away.
fn clear_row(rows: &mut ByName<Row>, name: &Text, version: u64)
    ensures { ClearsAt (λ (row : Row). row.version ≡ version) rows.old name.now rows.new }
{
    match rows.get(name) {
        Some(row) if row.version == version => {}
        _ => return,
    }
    rows.remove(name);
}

/// Takes away what stands at the place of a write, where it is of this version.
fn clear_one(tables: &mut Tables, write: &Written, version: u64)
    ensures cleared { Clears version (place_of write.now) (stored tables.old) (stored tables.new) }
    ensures outbox { tables.new.outbox ≡ tables.old.outbox }
{
    match write {
        Written::Saga { place, .. } => clear_saga(&mut tables.sagas, place, version),
        Written::SagaGone { place } => clear_saga(&mut tables.sagas, place, version),
        Written::Row { name, .. } => clear_row(&mut tables.rows, name, version),
        Written::RowGone { name } => clear_row(&mut tables.rows, name, version),
    }
}

/// Takes the room for the writes away again. It is told by the version, which nothing had before.
pub(crate) fn clear(tables: &mut Tables, writes: &Items<Written>, version: u64)
    ensures before { (t : Stored) → IsWider writes.now t (stored tables.old) → AreOf version writes.now → IsOlder version t → stored tables.new ≡ t }
    ensures outbox { tables.new.outbox ≡ tables.old.outbox }
{
    for i in 0..writes.len() {
        clear_one(tables, writes.at(i), version);
    }
}

/// Puts a saga where one stands, which takes no memory.
fn put_saga(sagas: &mut BySaga<SagaRow>, place: SagaKey, row: SagaRow)
    requires { map.get sagas.old place ≢ None }
    ensures { sagas.new ≡ map.insert sagas.old place row }
{
    let _ = sagas.insert(place, row);
}

/// Puts a row where one stands, which takes no memory.
fn put_row(rows: &mut ByName<Row>, name: Text, row: Row)
    requires { map.get rows.old name ≢ None }
    ensures { rows.new ≡ map.insert rows.old name row }
{
    let _ = rows.insert(name, row);
}

/// Makes a write for which there is room.
fn write_one(tables: &mut Tables, write: Written)
    requires { HasRoom (stored tables.old) write }
    ensures written { stored tables.new ≡ with_written (stored tables.old) write }
    ensures outbox { tables.new.outbox ≡ tables.old.outbox }
{
    match write {
        Written::Saga { place, row } => put_saga(&mut tables.sagas, place, row),
        Written::SagaGone { place } => tables.sagas.remove(&place),
        Written::Row { name, row } => put_row(&mut tables.rows, name, row),
        Written::RowGone { name } => tables.rows.remove(&name),
    }
}

/// Makes the writes in turn.
pub(crate) fn write_all(tables: &mut Tables, writes: Items<Written>)
    requires room { HaveRoom (stored tables.old) writes }
    requires apart { AreApart writes }
    ensures written { stored tables.new ≡ fold with_written (stored tables.old) writes }
    ensures outbox { tables.new.outbox ≡ tables.old.outbox }
{
    for write in writes.into_vec() {
        write_one(tables, write);
    }
}

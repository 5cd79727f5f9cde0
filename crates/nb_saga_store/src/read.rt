//! Sagas and rows read from their cells.
ghost use Rattle.std.specs.Prelude.{◌≡◌, ◌≢◌, IfOk, Err, Some};
ghost use Rattle.nb_envelope.specs.Cells.{whole, Gives};
ghost use Rattle.nb_envelope.specs.Formats.{IsBytes};
ghost use Rattle.nb_envelope.specs.declared.fault.FormatFault.TheVariants.{Damaged};
ghost use Rattle.nb_saga_store.specs.Read.{place_in, saga_in, row_in, saga_of, row_of};
ghost use Rattle.nb_saga_store.specs.Spelled.{cell_of_saga, cell_of_row, IsStoredSaga, IsStoredRow};
ghost use Rattle.nb_saga_store.specs.declared.stored.StoredSaga.{StoredSaga};
ghost use Rattle.nb_saga_store.specs.declared.stored.StoredRow.{StoredRow};

use crate::stored::{StoredRow, StoredSaga};
use crate::take::{take_place, take_row, take_saga};
use nb_base::{Row, SagaKey, SagaRow, Text, Value};
use nb_cells::Cell;
use nb_envelope::FormatFault;
use std::alloc::Global;

/// The space of the cells of sagas.
pub const SAGAS: u8 = 2;

/// The space of the cells of rows.
pub const ROWS: u8 = 3;

/// The place that all of the bytes are.
#[tactic(auto, unfolding(nb_envelope::specs::Cells::whole))]
fn read_place(alloc: Global, key: &[u8]) -> Result<SagaKey, FormatFault>
    ensures { Gives (λ x. x) result (whole place_in key.now) }
{
    let (place, rest) = take_place(alloc, key)?;
    if !rest.is_empty() {
        return Err(FormatFault::Damaged);
    }
    Ok(place)
}

/// The row that all of the bytes are.
#[tactic(auto, unfolding(nb_envelope::specs::Cells::whole))]
fn read_content(alloc: Global, corr: Value, bytes: &[u8]) -> Result<SagaRow, FormatFault>
    ensures { Gives (λ x. x) result (whole (saga_in corr) bytes.now) }
{
    let (row, rest) = take_saga(alloc, corr, bytes)?;
    if !rest.is_empty() {
        return Err(FormatFault::Damaged);
    }
    Ok(row)
}

/// The saga under a key.
#[tactic(auto, unfolding(crate::specs::Read::saga_of))]
fn saga_under(alloc: Global, key: &[u8], bytes: &[u8]) -> Result<StoredSaga, FormatFault>
    ensures given { Gives (λ x. x) result (saga_of key.now bytes.now) }
    ensures bytes { IsBytes key.now × IsBytes bytes.now }
{
    let SagaKey { saga, corr } = read_place(alloc, key)?;
    let row = read_content(alloc, corr, bytes)?;
    Ok(StoredSaga { saga, row })
}

/// The version and the number that all of the bytes are.
#[tactic(auto, unfolding(nb_envelope::specs::Cells::whole))]
fn read_numbers(bytes: &[u8]) -> Result<Row, FormatFault>
    ensures { Gives (λ x. x) result (whole row_in bytes.now) }
{
    let (row, rest) = take_row(bytes)?;
    if !rest.is_empty() {
        return Err(FormatFault::Damaged);
    }
    Ok(row)
}

/// The row under a name.
#[tactic(auto, unfolding(crate::specs::Read::row_of))]
fn row_under(alloc: Global, key: &[u8], bytes: &[u8]) -> Result<StoredRow, FormatFault>
    ensures given { Gives (λ x. x) result (row_of key.now bytes.now) }
    ensures bytes { IsBytes key.now × IsBytes bytes.now }
{
    let Ok(name) = std::str::from_utf8(key) else {
        return Err(FormatFault::Damaged);
    };
    let row = read_numbers(bytes)?;
    let name = Text::new(alloc, name)?;
    Ok(StoredRow {
        name,
        version: row.version,
        value: row.value,
    })
}

/// The saga of which the cell is the one spelling.
pub fn read_saga(alloc: Global, cell: &Cell) -> Result<StoredSaga, FormatFault>
    // What is read is spelled so.
    ensures found { IfOk result (λ s. IsStoredSaga s × (cell.now ≡ cell_of_saga s)) }
    // What is spelled so is read, unless memory runs out.
    ensures only { (s : StoredSaga) → IsStoredSaga s → cell.now ≡ cell_of_saga s → Gives (λ x. x) result (Some s) }
    // A damaged cell is the spelling of no saga.
    ensures damaged { result ≡ Err Damaged → (s : StoredSaga) → IsStoredSaga s → cell.now ≢ cell_of_saga s }
{
    if cell.space != SAGAS {
        return Err(FormatFault::Damaged);
    }
    saga_under(alloc, cell.key.as_slice(), cell.bytes.as_slice())
}

/// The row of which the cell is the one spelling.
pub fn read_row(alloc: Global, cell: &Cell) -> Result<StoredRow, FormatFault>
    // What is read is spelled so.
    ensures found { IfOk result (λ r. IsStoredRow r × (cell.now ≡ cell_of_row r)) }
    // What is spelled so is read, unless memory runs out.
    ensures only { (r : StoredRow) → IsStoredRow r → cell.now ≡ cell_of_row r → Gives (λ x. x) result (Some r) }
    // A damaged cell is the spelling of no row.
    ensures damaged { result ≡ Err Damaged → (r : StoredRow) → IsStoredRow r → cell.now ≢ cell_of_row r }
{
    if cell.space != ROWS {
        return Err(FormatFault::Damaged);
    }
    row_under(alloc, cell.key.as_slice(), cell.bytes.as_slice())
}

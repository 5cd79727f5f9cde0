//! Sagas and rows as cells.
ghost use Rattle.std.specs.Prelude.{◌≡◌, ◌≤◌, IfOk, OnOk};
ghost use Rattle.nb_base.specs.Sound.{CanCorrelate, HaveDistinctNames};
ghost use Rattle.nb_saga_store.specs.Spelled.{cell_of_saga, cell_of_row, IsStoredSaga, IsStoredRow};

use crate::put::{name_bytes, place_bytes, row_bytes, saga_bytes};
use crate::read::{ROWS, SAGAS};
use nb_base::{NoMemory, SagaRow, Text};
use nb_cells::Cell;
use std::alloc::Global;

/// The one spelling of a saga: in format 1 where it is of the first revision, else in format 2.
pub fn saga_cell(alloc: Global, saga: &Text, row: &SagaRow) -> Result<Cell, NoMemory>
    requires kind { CanCorrelate row.now.corr }
    requires revision { 1 ≤ row.now.revision }
    requires names { HaveDistinctNames row.now.fields }
    ensures cell { IfOk result (λ c. c ≡ cell_of_saga (record { saga = saga.now; row = row.now })) }
    ensures fits { OnOk result (IsStoredSaga (record { saga = saga.now; row = row.now })) }
{
    let key = place_bytes(alloc, saga, &row.corr)?;
    let bytes = saga_bytes(alloc, row)?;
    Ok(Cell {
        space: SAGAS,
        key,
        bytes,
    })
}

/// The one spelling of a row.
pub fn row_cell(alloc: Global, name: &Text, version: u64, value: i64) -> Result<Cell, NoMemory>
    ensures cell { IfOk result (λ c. c ≡ cell_of_row (record { name = name.now; version = version; value = value })) }
    ensures fits { OnOk result (IsStoredRow (record { name = name.now; version = version; value = value })) }
{
    let key = name_bytes(alloc, name)?;
    let bytes = row_bytes(alloc, version, value)?;
    Ok(Cell {
        space: ROWS,
        key,
        bytes,
    })
}

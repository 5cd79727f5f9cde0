//! A saga and a row as their cells have them.

use nb_base::{Copied, NoMemory, SagaRow, Text};

/// A saga of a type.
#[derive(Debug, Drop)]
pub struct StoredSaga {
    /// The saga's type.
    pub saga: Text,
    pub row: SagaRow,
}

impl Copied for StoredSaga {
    fn copy(&self) -> Result<StoredSaga, NoMemory> {
        let saga = self.saga.copy()?;
        let row = self.row.copy()?;
        Ok(StoredSaga { saga, row })
    }
}

/// A row under its name.
#[derive(Debug, Drop)]
pub struct StoredRow {
    pub name: Text,
    /// The number of the commit that wrote it.
    pub version: u64,
    pub value: i64,
}

impl Copied for StoredRow {
    fn copy(&self) -> Result<StoredRow, NoMemory> {
        let name = self.name.copy()?;
        Ok(StoredRow {
            name,
            version: self.version,
            value: self.value,
        })
    }
}

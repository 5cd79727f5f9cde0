//! A cell, and lists of them.

use nb_base::{Bytes, Copied, Items, NoMemory};

/// Bytes under a key, in a space from 1 to 4.
#[derive(Debug, Drop)]
pub struct Cell {
    pub space: u8,
    pub key: Bytes,
    pub bytes: Bytes,
}

impl Copied for Cell {
    fn copy(&self) -> Result<Cell, NoMemory> {
        let key = self.key.copy()?;
        let bytes = self.bytes.copy()?;
        Ok(Cell {
            space: self.space,
            key,
            bytes,
        })
    }
}

/// A list of cells.
pub type CellList = Items<Cell>;

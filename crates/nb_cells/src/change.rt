//! A change of one cell, and lists of them.

use nb_base::{Bytes, Copied, Items, NoMemory};

/// A cell put in its place, or taken away. A cell that isn't there is taken away with no effect.
#[derive(Debug, Drop)]
pub enum Change {
    Put { space: u8, key: Bytes, bytes: Bytes },
    Erase { space: u8, key: Bytes },
}

impl Copied for Change {
    fn copy(&self) -> Result<Change, NoMemory> {
        match self {
            Change::Put { space, key, bytes } => Ok(Change::Put {
                space: *space,
                key: key.copy()?,
                bytes: bytes.copy()?,
            }),
            Change::Erase { space, key } => Ok(Change::Erase {
                space: *space,
                key: key.copy()?,
            }),
        }
    }
}

/// A list of changes.
pub type Changes = Items<Change>;

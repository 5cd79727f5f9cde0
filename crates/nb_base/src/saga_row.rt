//! A stored saga, and what is read of the tables.

use crate::items::{Copied, Items};
use crate::no_memory::NoMemory;
use crate::text::Text;
use crate::value::{Fields, Key, Value};

/// A saga as it is stored.
#[derive(Debug, Drop)]
pub struct SagaRow {
    /// The value of the correlation property, which no other instance of the type has.
    pub corr: Value,
    pub id: Text,
    /// The number of the commit that wrote it.
    pub version: u64,
    /// The revision of the saga's declaration with which it was written, from 1.
    pub revision: u32,
    /// The reply address of the message that started it, or the empty text.
    pub originator: Text,
    /// The id of the message that started it.
    pub original: Text,
    pub fields: Fields,
}

impl Copied for SagaRow {
    fn copy(&self) -> Result<SagaRow, NoMemory> {
        let corr = self.corr.copy()?;
        let id = self.id.copy()?;
        let originator = self.originator.copy()?;
        let original = self.original.copy()?;
        let fields = self.fields.copy()?;
        Ok(SagaRow {
            corr,
            id,
            version: self.version,
            revision: self.revision,
            originator,
            original,
            fields,
        })
    }
}

/// What stands at a key.
#[derive(Debug, Drop)]
pub enum Seen {
    Absent,
    Saga(SagaRow),
    Row { version: u64, value: i64 },
}

impl Copied for Seen {
    fn copy(&self) -> Result<Seen, NoMemory> {
        match self {
            Seen::Absent => Ok(Seen::Absent),
            Seen::Saga(row) => Ok(Seen::Saga(row.copy()?)),
            Seen::Row { version, value } => Ok(Seen::Row {
                version: *version,
                value: *value,
            }),
        }
    }
}

/// A key with what stood there.
#[derive(Debug, Drop)]
pub struct Read {
    pub key: Key,
    pub seen: Seen,
}

/// What was read for a message, each key once.
pub type Reads = Items<Read>;

impl Copied for Read {
    fn copy(&self) -> Result<Read, NoMemory> {
        let key = self.key.copy()?;
        let seen = self.seen.copy()?;
        Ok(Read { key, seen })
    }
}

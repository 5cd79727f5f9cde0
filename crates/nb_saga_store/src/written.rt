//! What a write of a plan leaves.
ghost use Rattle.std.specs.Prelude.{◌≡◌, ◌≤◌, IfOk, OnOk};
ghost use Rattle.nb_saga_store.specs.Writes.{given_id, id_of, written_of, change_of, CanWrite};
ghost use Rattle.nb_saga_store.specs.Written.{CanSpell, IsSpelled};

use crate::put::{name_bytes, place_bytes, row_bytes, saga_bytes};
use crate::read::{ROWS, SAGAS};
use nb_base::{
    Bytes, Copied, Fields, NoMemory, Row, SagaKey, SagaRef, SagaRow, Text, Value, Write,
};
use nb_cells::Change;
use std::alloc::Global;

/// What a write leaves: a saga or a row, or none at its place.
#[derive(Drop)]
pub enum Written {
    Saga { place: SagaKey, row: SagaRow },
    SagaGone { place: SagaKey },
    Row { name: Text, row: Row },
    RowGone { name: Text },
}

/// The id of a saga that a block made.
fn given_id(alloc: Global, endpoint: &Text, n: u64, block: u32) -> Result<Text, NoMemory>
    ensures { IfOk result (λ id. id ≡ given_id endpoint.now n block) }
{
    let endpoint = endpoint.as_str();
    let id = format!(in alloc; "{endpoint}/{n}/{block}")?;
    Text::of_string(id)
}

/// The id of a new saga, or the one that it has.
fn id_of(alloc: Global, endpoint: &Text, n: u64, which: &SagaRef) -> Result<Text, NoMemory>
    ensures { IfOk result (λ id. id ≡ id_of endpoint.now n which.now) }
{
    match which {
        SagaRef::New(block) => given_id(alloc, endpoint, n, *block),
        SagaRef::Stored(id) => id.copy(),
    }
}

impl Written {
    /// What a write of the commit with this number leaves.
    pub fn of(alloc: Global, write: &Write, endpoint: &Text, n: u64) -> Result<Written, NoMemory>
        ensures { IfOk result (λ w. w ≡ written_of endpoint.now n write.now) }
    {
        match write {
            Write::SagaPut {
                saga,
                corr,
                revision,
                which,
                originator,
                original,
                fields,
            } => {
                let saga = saga.copy()?;
                let place = SagaKey {
                    saga,
                    corr: corr.copy()?,
                };
                let row = SagaRow {
                    corr: corr.copy()?,
                    id: id_of(alloc, endpoint, n, which)?,
                    version: n,
                    revision: *revision,
                    originator: originator.copy()?,
                    original: original.copy()?,
                    fields: fields.copy()?,
                };
                Ok(Written::Saga { place, row })
            }
            Write::SagaErase { saga, corr } => {
                let saga = saga.copy()?;
                let corr = corr.copy()?;
                Ok(Written::SagaGone {
                    place: SagaKey { saga, corr },
                })
            }
            Write::RowPut { name, value } => {
                let name = name.copy()?;
                let row = Row {
                    version: n,
                    value: *value,
                };
                Ok(Written::Row { name, row })
            }
            Write::RowErase { name } => Ok(Written::RowGone { name: name.copy()? }),
        }
    }

    /// The change of its cell.
    pub fn change(&self, alloc: Global) -> Result<Change, NoMemory>
        requires { CanSpell self.now }
        ensures change { IfOk result (λ c. c ≡ change_of self.now) }
        ensures fits { OnOk result (IsSpelled self.now) }
    {
        match self {
            Written::Saga { place, row } => Ok(Change::Put {
                space: SAGAS,
                key: place_bytes(alloc, &place.saga, &place.corr)?,
                bytes: saga_bytes(alloc, row)?,
            }),
            Written::SagaGone { place } => Ok(Change::Erase {
                space: SAGAS,
                key: place_bytes(alloc, &place.saga, &place.corr)?,
            }),
            Written::Row { name, row } => Ok(Change::Put {
                space: ROWS,
                key: name_bytes(alloc, name)?,
                bytes: row_bytes(alloc, row.version, row.value)?,
            }),
            Written::RowGone { name } => Ok(Change::Erase {
                space: ROWS,
                key: name_bytes(alloc, name)?,
            }),
        }
    }
}

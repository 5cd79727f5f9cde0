//! The writes of a commit, in memory.
ghost use Rattle.std.specs.Prelude.{◌≡◌, OnOk};
ghost use Rattle.nb_base.specs.Shown.{stored};
ghost use Rattle.nb_core.specs.Serve.{written, written_all};
ghost use Rattle.nb_core.specs.Tried.{with_stored};

use nb_base::{Copied, NoMemory, Row, SagaKey, SagaRow, Tables, Text, Write, Writes};
use nb_dispatch::saga_id;
use std::alloc::Global;

/// Writes what commit `n` of the endpoint writes at one place.
fn write(
    alloc: Global,
    tables: &mut Tables,
    endpoint: &Text,
    n: u64,
    write: &Write,
) -> Result<(), NoMemory>
    ensures { OnOk result (tables.new ≡ with_stored tables.old (written endpoint.now n (stored tables.old) write.now)) }
{
    match write {
        Write::SagaPut {
            saga,
            corr,
            revision,
            which,
            originator,
            original,
            fields,
        } => {
            let place = SagaKey {
                saga: saga.copy()?,
                corr: corr.copy()?,
            };
            let row = SagaRow {
                corr: corr.copy()?,
                id: saga_id(alloc, endpoint.as_str(), n, which)?,
                version: n,
                revision: *revision,
                originator: originator.copy()?,
                original: original.copy()?,
                fields: fields.copy()?,
            };
            tables.sagas.insert(place, row)
        }
        Write::SagaErase { saga, corr } => {
            let place = SagaKey {
                saga: saga.copy()?,
                corr: corr.copy()?,
            };
            tables.sagas.remove(&place);
            Ok(())
        }
        Write::RowPut { name, value } => {
            let row = Row {
                version: n,
                value: *value,
            };
            tables.rows.insert(name.copy()?, row)
        }
        Write::RowErase { name } => {
            tables.rows.remove(name);
            Ok(())
        }
    }
}

/// Writes what commit `n` of the endpoint writes.
pub fn write_all(
    alloc: Global,
    tables: &mut Tables,
    endpoint: &Text,
    n: u64,
    writes: &Writes,
) -> Result<(), NoMemory>
    ensures { OnOk result (tables.new ≡ with_stored tables.old (written_all endpoint.now n (stored tables.old) writes.now)) }
{
    let mut left = writes.as_slice();
    while let [first, rest @ ..] = left {
        write(alloc, tables, endpoint, n, first)?;
        left = rest;
    }
    Ok(())
}

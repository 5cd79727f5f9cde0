//! Records as cells, and when one may go.
ghost use Rattle.std.specs.Prelude.{◌≡◌, ◌≢◌, ◌≤◌, ◌+◌, ◌↔◌, [], IfOk, OnOk, IsTrue, true};
ghost use Rattle.std.specs.List.{AllByRecursion};
ghost use Rattle.nb_base.specs.declared.entry.Op.{Op};
ghost use Rattle.nb_cells.specs.declared.change.Change.TheVariants.{Put};
ghost use Rattle.nb_outbox.specs.Spelled.{cell_of_record, spelled_record, sent_record, IsId, IsRecord};

use crate::put::record_bytes;
use crate::read::OUTBOX;
use nb_base::{Bytes, Items, Moment, NoMemory, OutboxRow, Text};
use nb_cells::{Cell, Change};
use std::alloc::Global;

/// The one spelling of a record.
pub fn outbox_cell(alloc: Global, id: &Text, row: &OutboxRow) -> Result<Cell, NoMemory>
    requires named { id.now ≢ [] }
    requires queues { AllByRecursion (λ (op : Op). op.queue ≢ []) row.now.ops }
    requires sent { row.now.sent ≡ true → row.now.ops ≡ [] }
    ensures cell { IfOk result (λ c. c ≡ cell_of_record id.now row.now) }
    ensures fits { OnOk result (IsId id.now × IsRecord row.now) }
{
    let key = Bytes::new(alloc, id.as_str().as_bytes())?;
    let bytes = record_bytes(alloc, row.n, row.at, row.sent, &row.ops)?;
    Ok(Cell {
        space: OUTBOX,
        key,
        bytes,
    })
}

/// The change that marks a record as sent, and takes its messages out.
pub fn mark_change(alloc: Global, id: &Text, row: &OutboxRow) -> Result<Change, NoMemory>
    ensures change { IfOk result (λ c. c ≡ Put 4 id.now (spelled_record (sent_record row.now))) }
    ensures fits { OnOk result (IsRecord (sent_record row.now)) }
{
    let key = Bytes::new(alloc, id.as_str().as_bytes())?;
    let bytes = record_bytes(alloc, row.n, row.at, true, &Items::new(alloc))?;
    Ok(Change::Put {
        space: OUTBOX,
        key,
        bytes,
    })
}

/// Whether the messages were sent, and the record has stood for `retention` seconds at the moment `m`.
pub fn is_purgeable(row: &OutboxRow, retention: u64, m: Moment) -> bool
    ensures { IsTrue result ↔ ((row.now.sent ≡ true) × (row.now.at + retention ≤ m)) }
{
    let at = row.at.seconds();
    let now = m.seconds();
    row.sent && at <= now && retention <= now - at
}

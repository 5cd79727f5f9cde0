//! The changes of the cells that the calls change.
ghost use Rattle.std.specs.Prelude.{◌≡◌, ◌≢◌, ◌∷◌, [], true, IfOk, OnOk};
ghost use Rattle.std.specs.List.{AllByRecursion};
ghost use Rattle.nb_base.specs.declared.entry.Op.{Op};
ghost use Rattle.nb_cells.specs.declared.change.Change.TheVariants.{Put, Erase};
ghost use Rattle.nb_cells.specs.Cells.{AreInSpaces, AreDistinct};
ghost use Rattle.nb_outbox.specs.Spelled.{spelled_record, sent_record, IsId, IsRecord};
ghost use Rattle.nb_saga_store.specs.Writes.{written_of, CanWrite};
ghost use Rattle.nb_saga_store.specs.Written.{IsSpelled};
ghost use Rattle.nb_store.specs.Calls.{commit_changes};
ghost use Rattle.nb_store.specs.CellMaps.{spelled_count};

use nb_base::{Bytes, Items, NoMemory, OutboxRow, Plan, Text};
use nb_cells::{Cell, Change, Changes};
use nb_envelope::wire::put_u64;
use nb_outbox::{OUTBOX, mark_change, outbox_cell};
use nb_saga_store::write_changes;
use std::alloc::Global;

/// The space of the cell with the number of commits.
const COUNTS: u8 = 1;

/// The bytes of the number of commits.
fn count_bytes(alloc: Global, n: u64) -> Result<Bytes, NoMemory>
    ensures { IfOk result (λ b. b ≡ spelled_count n) }
{
    let mut out = Vec::new(alloc);
    out.push(1)?;
    put_u64(&mut out, n)?;
    Bytes::of_vec(out)
}

/// The changes of a commit.
pub(crate) fn commit_changes(
    alloc: Global,
    plan: &Plan,
    endpoint: &Text,
    id: &Text,
    row: &OutboxRow,
) -> Result<Changes, NoMemory>
    requires writes { AllByRecursion CanWrite plan.now.writes }
    requires named { id.now ≢ [] }
    requires queues { AllByRecursion (λ (op : Op). op.queue ≢ []) row.now.ops }
    requires sent { row.now.sent ≡ true → row.now.ops ≡ [] }
    ensures changes { IfOk result (λ changes. changes ≡ commit_changes endpoint.now id.now plan.now.writes row.now) }
    ensures fits { OnOk result (AllByRecursion (λ w. IsSpelled (written_of endpoint.now row.now.n w)) plan.now.writes) }
    ensures handled { OnOk result (IsId id.now × IsRecord row.now) }
{
    let mut changes = write_changes(alloc, plan, endpoint, row.n)?;
    let Cell { space, key, bytes } = outbox_cell(alloc, id, row)?;
    changes.push(Change::Put { space, key, bytes })?;
    changes.push(Change::Put {
        space: COUNTS,
        key: Bytes::new(alloc, b"")?,
        bytes: count_bytes(alloc, row.n)?,
    })?;
    Ok(changes)
}

/// The changes that mark a record as sent.
#[tactic(auto, using(crate::proofs::ChangeLaws::one_in_space, crate::proofs::ChangeLaws::one_is_distinct))]
pub(crate) fn mark_changes(alloc: Global, id: &Text, row: &OutboxRow) -> Result<Changes, NoMemory>
    ensures changes { IfOk result (λ changes. changes ≡ Put 4 id.now (spelled_record (sent_record row.now)) ∷ []) }
    ensures fits { OnOk result (IsRecord (sent_record row.now)) }
    ensures spaces { IfOk result AreInSpaces }
    ensures distinct { IfOk result AreDistinct }
{
    let mut changes = Items::new(alloc);
    changes.push(mark_change(alloc, id, row)?)?;
    Ok(changes)
}

/// The changes that take a record out.
#[tactic(auto, using(crate::proofs::ChangeLaws::one_in_space, crate::proofs::ChangeLaws::one_is_distinct))]
pub(crate) fn erase_record(alloc: Global, id: &Text) -> Result<Changes, NoMemory>
    ensures changes { IfOk result (λ changes. changes ≡ Erase 4 id.now ∷ []) }
    ensures spaces { IfOk result AreInSpaces }
    ensures distinct { IfOk result AreDistinct }
{
    let key = Bytes::new(alloc, id.as_str().as_bytes())?;
    let mut changes = Items::new(alloc);
    changes.push(Change::Erase { space: OUTBOX, key })?;
    Ok(changes)
}

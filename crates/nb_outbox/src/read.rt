//! Records read from their cells.
ghost use Rattle.std.specs.Prelude.{◌≡◌, ◌≢◌, ℕ, List, IfOk, Err, Some};
ghost use Rattle.nb_base.specs.declared.entry.OutboxRow.{OutboxRow};
ghost use Rattle.nb_envelope.specs.Cells.{whole, Gives};
ghost use Rattle.nb_envelope.specs.Formats.{IsBytes};
ghost use Rattle.nb_envelope.specs.declared.fault.FormatFault.TheVariants.{Damaged};
ghost use Rattle.nb_outbox.specs.Read.{record_in, record_of};
ghost use Rattle.nb_outbox.specs.Spelled.{cell_of_record, IsId, IsRecord};

use crate::take::take_record;
use nb_base::OutboxRow;
use nb_cells::Cell;
use nb_envelope::FormatFault;
use std::alloc::Global;

/// The space of the cells of records.
pub const OUTBOX: u8 = 4;

/// The record that all of the bytes are.
#[tactic(auto, unfolding(nb_envelope::specs::Cells::whole))]
fn read_content(alloc: Global, bytes: &[u8]) -> Result<OutboxRow, FormatFault>
    ensures { Gives (λ x. x) result (whole record_in bytes.now) }
{
    let (row, rest) = take_record(alloc, bytes)?;
    if !rest.is_empty() {
        return Err(FormatFault::Damaged);
    }
    Ok(row)
}

/// The record under an id.
fn record_under(alloc: Global, id: &[u8], bytes: &[u8]) -> Result<OutboxRow, FormatFault>
    ensures given { Gives (λ x. x) result (record_of id.now bytes.now) }
    ensures bytes { IsBytes bytes.now }
{
    if id.is_empty() {
        return Err(FormatFault::Damaged);
    }
    match std::str::from_utf8(id) {
        Ok(_) => read_content(alloc, bytes),
        Err(_) => Err(FormatFault::Damaged),
    }
}

/// The record of which the cell is the one spelling; its id is the cell's key.
pub fn read_outbox(alloc: Global, cell: &Cell) -> Result<OutboxRow, FormatFault>
    // What is read is spelled so.
    ensures found { IfOk result (λ r. IsId cell.now.key × IsRecord r × (cell.now ≡ cell_of_record cell.now.key r)) }
    // What is spelled so is read, unless memory runs out.
    ensures only { (id : List ℕ) (r : OutboxRow) → IsId id → IsRecord r → cell.now ≡ cell_of_record id r → Gives (λ x. x) result (Some r) }
    // A damaged cell is the spelling of no record.
    ensures damaged { result ≡ Err Damaged → (id : List ℕ) (r : OutboxRow) → IsId id → IsRecord r → cell.now ≢ cell_of_record id r }
{
    if cell.space != OUTBOX {
        return Err(FormatFault::Damaged);
    }
    record_under(alloc, cell.key.as_slice(), cell.bytes.as_slice())
}

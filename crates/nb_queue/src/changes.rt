//! The changes of cells that changes of the post are.
ghost use Rattle.std.specs.Prelude.{◌≡◌, ◌≢◌, ◌+◌, ◌<◌, ◌^◌, [], ◌∷◌, IfOk, OnOk};
ghost use Rattle.nb_queue.specs.Changes.{change_of_entry, change_of_next, change_of_removal};
ghost use Rattle.nb_queue.specs.Spelled.{IsEntry};

use crate::put::{entry_bytes, next_bytes, number_bytes};
use nb_base::{Items, NoMemory, Queued};
use nb_cells::{Change, Changes};
use std::alloc::Global;

/// The space of the cell with the next number.
pub(crate) const NEXT: u8 = 1;

/// The space of the cells of entries.
pub(crate) const ENTRIES: u8 = 2;

/// A new entry under the next number.
pub(crate) fn put_changes(alloc: Global, number: u64, entry: &Queued) -> Result<Changes, NoMemory>
    requires named { entry.now.queue ≢ [] }
    requires fits { number + 1 < 2 ^ 64 }
    ensures changes { IfOk result (λ cs. cs ≡ change_of_entry number entry.now ∷ change_of_next (number + 1) ∷ []) }
    ensures spelled { OnOk result (IsEntry entry.now) }
{
    let mut changes = entry_changes(alloc, number, entry)?;
    changes.push(Change::Put {
        space: NEXT,
        key: nb_base::Bytes::new(alloc, &[])?,
        bytes: next_bytes(alloc, number + 1)?,
    })?;
    Ok(changes)
}

/// An entry under its number.
pub(crate) fn entry_changes(alloc: Global, number: u64, entry: &Queued) -> Result<Changes, NoMemory>
    requires { entry.now.queue ≢ [] }
    ensures changes { IfOk result (λ cs. cs ≡ change_of_entry number entry.now ∷ []) }
    ensures spelled { OnOk result (IsEntry entry.now) }
{
    let mut changes = Items::new(alloc);
    changes.push(Change::Put {
        space: ENTRIES,
        key: number_bytes(alloc, number)?,
        bytes: entry_bytes(alloc, entry)?,
    })?;
    Ok(changes)
}

/// An entry taken out.
pub(crate) fn remove_changes(alloc: Global, number: u64) -> Result<Changes, NoMemory>
    ensures { IfOk result (λ cs. cs ≡ change_of_removal number ∷ []) }
{
    let mut changes = Items::new(alloc);
    changes.push(Change::Erase {
        space: ENTRIES,
        key: number_bytes(alloc, number)?,
    })?;
    Ok(changes)
}

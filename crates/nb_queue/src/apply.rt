//! Changes applied to a store of cells, by the posts whose cells they change.
ghost use Rattle.std.specs.Prelude.{◌≡◌, MatchResult};
ghost use Rattle.nb_base.specs.declared.tables.PostState.{PostState};
ghost use Rattle.nb_cells.specs.Cells.{AreInSpaces, AreDistinct};
ghost use Rattle.nb_queue.specs.Applied.{Applied, IsCounted, IsOfApply, Leads};

use crate::fault::PostFault;
use nb_cells::{CellFault, Cells, Changes};
use std::alloc::Global;

/// Makes all of the changes, or none.
pub(crate) fn apply<P: Cells>(
    alloc: Global,
    cells: &mut P,
    changes: &Changes,
) -> Result<(), PostFault>
    requires spaces { AreInSpaces changes.now }
    requires distinct { AreDistinct changes.now }
    ensures applied { (before after : PostState) → Leads changes.now before after → Applied P.honest P.now P.images P.firm cells.old cells.new before after result }
    ensures answers { MatchResult result (λ x. Unit {0}) IsOfApply }
    ensures cause { IsCounted (P.count cells.old) (P.count cells.new) result }
{
    match cells.apply(alloc, changes) {
        Ok(()) => Ok(()),
        Err(CellFault::Failed) => Err(PostFault::Failed),
        Err(CellFault::NoMemory) => Err(PostFault::NoMemory),
    }
}

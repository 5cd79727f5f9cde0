//! Changes applied to a store of cells, by the tables whose cells they change.
ghost use Rattle.std.specs.Prelude.{◌≡◌, MatchResult};
ghost use Rattle.nb_base.specs.declared.tables.Tables.{Tables};
ghost use Rattle.nb_cells.specs.Cells.{AreInSpaces, AreDistinct};
ghost use Rattle.nb_store.specs.Applied.{Applied, IsCounted, IsOfApply, Leads};

use crate::fault::StoreFault;
use nb_cells::{CellFault, Cells, Changes};
use std::alloc::Global;

/// Makes all of the changes, or none.
pub(crate) fn apply<D: Cells>(
    alloc: Global,
    base: &mut D,
    changes: &Changes,
) -> Result<(), StoreFault>
    requires spaces { AreInSpaces changes.now }
    requires distinct { AreDistinct changes.now }
    ensures applied { (before after : Tables) → Leads changes.now before after → Applied D.honest D.now D.images D.firm base.old base.new before after result }
    ensures answers { MatchResult result (λ x. Unit {0}) IsOfApply }
    ensures cause { IsCounted (D.count base.old) (D.count base.new) result }
{
    match base.apply(alloc, changes) {
        Ok(()) => Ok(()),
        Err(CellFault::Failed) => Err(StoreFault::Failed),
        Err(CellFault::NoMemory) => Err(StoreFault::NoMemory),
    }
}

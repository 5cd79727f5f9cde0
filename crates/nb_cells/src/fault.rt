//! Why a call on a store of cells was refused.

use nb_base::NoMemory;
use thiserror::Error;

/// Why a call on a store of cells was refused. A `Failed` call was counted as a fault.
#[derive(Clone, Copy, Debug, Drop, PartialEq, Eq, Error)]
pub enum CellFault {
    #[error("failed")]
    Failed,
    #[error("no memory")]
    NoMemory,
}

impl From<NoMemory> for CellFault {
    ghost use Rattle.std.specs.Prelude.{◌≡◌};
    ghost use Rattle.nb_cells.specs.declared.fault.CellFault.TheVariants.{NoMemory};

    ghost from_gives = { λ _ e. e ≡ NoMemory };

    fn from(_refused: NoMemory) -> CellFault {
        CellFault::NoMemory
    }
}

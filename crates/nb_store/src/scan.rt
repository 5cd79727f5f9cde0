//! The cells of a store, scanned space by space.
ghost use Rattle.std.specs.Prelude.{◌≡◌, ◌++◌, IfOk, MatchResult};
ghost use Rattle.nb_base.specs.declared.tables.Tables.{Tables};
ghost use Rattle.nb_cells.specs.Cells.{CellMap, IsSpace, Scans};
ghost use Rattle.nb_store.specs.Applied.{IsCounted, IsOfApply};
ghost use Rattle.nb_store.specs.Scanning.{ScansAll};

use crate::fault::StoreFault;
use crate::parts::Scanned;
use nb_cells::{CellFault, CellList, Cells};
use std::alloc::Global;

/// The cells of a space.
fn scan<D: Cells>(alloc: Global, base: &mut D, space: u8) -> Result<CellList, StoreFault>
    requires { IsSpace space }
    ensures honest_before { D.honest base.new → D.honest base.old }
    ensures kept_firm { D.honest base.new → D.firm base.old → D.firm base.new }
    ensures kept { (m : CellMap) → D.honest base.new → D.firm base.old → D.now base.old m → D.now base.new m }
    ensures images { (n : CellMap) → D.honest base.new → D.images base.new n → D.images base.old n }
    ensures ok { (m : CellMap) → D.honest base.new → D.firm base.old → D.now base.old m → IfOk result (Scans m space) }
    ensures cause { IsCounted (D.count base.old) (D.count base.new) result }
    ensures answers { MatchResult result (λ x. Unit {0}) IsOfApply }
{
    match base.scan(alloc, space) {
        Ok(cells) => Ok(cells),
        Err(CellFault::Failed) => Err(StoreFault::Failed),
        Err(CellFault::NoMemory) => Err(StoreFault::NoMemory),
    }
}

/// The cells of the four spaces.
pub(crate) fn scan_all<D: Cells>(alloc: Global, base: &mut D) -> Result<Scanned, StoreFault>
    ensures honest_before { D.honest base.new → D.honest base.old }
    ensures kept_firm { D.honest base.new → D.firm base.old → D.firm base.new }
    ensures kept { (m : CellMap) → D.honest base.new → D.firm base.old → D.now base.old m → D.now base.new m }
    ensures images { (n : CellMap) → D.honest base.new → D.images base.new n → D.images base.old n }
    ensures ok { (m : CellMap) → D.honest base.new → D.firm base.old → D.now base.old m → IfOk result (ScansAll m) }
    ensures cause { IsCounted (D.count base.old) (D.count base.new) result }
    ensures answers { MatchResult result (λ x. Unit {0}) IsOfApply }
{
    let counts = scan(alloc, base, 1)?;
    let sagas = scan(alloc, base, 2)?;
    let rows = scan(alloc, base, 3)?;
    let records = scan(alloc, base, 4)?;
    Ok(Scanned {
        counts,
        sagas,
        rows,
        records,
    })
}

//! Cells in a database in memory.
ghost use Rattle.std.specs.Prelude.{◌≡◌, false, IfOk, None};
ghost use Rattle.nb_sql.specs.Held.{Tells, IsLasting};
ghost use Rattle.sqlite.specs.State.{HasCleanDisk};
ghost use Rattle.sqlite.specs.Held.{state};
ghost use Rattle.sqlite.specs.Steps.{over_memory};

use crate::sql_cells::SqlCells;
use nb_cells::CellFault;
use sqlite::{Connection, MemStore};
use std::alloc::Global;

impl SqlCells<MemStore> {
    /// No cells, in a new database in memory.
    pub fn in_memory(alloc: Global) -> Result<SqlCells<MemStore>, CellFault>
        ensures now { IfOk result (λ c. Tells (state over_memory c.conn) (λ _ _. None)) }
        ensures honest { IfOk result (λ c. HasCleanDisk (state over_memory c.conn)) }
        ensures new { IfOk result (λ c. (c.faults ≡ 0) × (c.in_doubt ≡ false)) }
        ensures lasting { IsLasting over_memory }
    {
        match Connection::open_in_memory(alloc) {
            Ok(conn) => SqlCells::adopt(conn),
            Err(_) => Err(CellFault::NoMemory),
        }
    }
}

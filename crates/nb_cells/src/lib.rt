//! Cells of bytes in four spaces: the trait of a store of them, and a store in memory whose faults are planned.
#![tactic(auto)]

mod cell;
mod cells;
mod change;
mod fault;
mod mem_cells;
mod place;
mod plan;
mod slots;
mod table;

pub use cell::{Cell, CellList};
pub use cells::Cells;
pub use change::{Change, Changes};
pub use fault::CellFault;
pub use mem_cells::MemCells;
pub use plan::{FaultPlan, Stop};

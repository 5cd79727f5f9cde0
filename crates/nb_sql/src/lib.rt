//! Cells in one table of an SQL database.
#![tactic(auto)]

mod files;
mod memory;
mod read;
mod refusal;
mod sql_cells;
mod statements;
mod table;
mod write;

pub use files::FileCells;
pub use sql_cells::SqlCells;

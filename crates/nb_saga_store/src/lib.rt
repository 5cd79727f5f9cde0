//! Sagas and rows as cells of bytes, and the changes of cells that the writes of a plan are.
#![tactic(auto)]

mod cells;
mod changes;
mod laws;
mod put;
mod read;
mod stored;
mod take;
mod written;

pub use cells::{row_cell, saga_cell};
pub use changes::write_changes;
pub use laws::{law_places, law_rows, law_sagas, law_writes};
pub use read::{ROWS, SAGAS, read_row, read_saga};
pub use stored::{StoredRow, StoredSaga};
pub use written::Written;

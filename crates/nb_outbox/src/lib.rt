//! The records of handled messages as cells of bytes.
#![tactic(auto)]

mod cell;
mod laws;
mod put;
mod read;
mod take;

pub use cell::{is_purgeable, mark_change, outbox_cell};
pub use laws::law_records;
pub use read::{OUTBOX, read_outbox};

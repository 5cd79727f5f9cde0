//! Envelopes as lines of JSON, and as cells of bytes.
#![tactic(auto)]

mod cell;
mod fault;
mod input;
mod laws;
mod line;
mod put;
mod take;
pub mod wire;
mod write;

pub use cell::{from_cell, to_cell};
pub use fault::FormatFault;
pub use input::{InputFault, InputKind, line_past, message_at, next_line, read_lines};
pub use laws::{law_dues, law_envelopes, law_numbers, law_texts, law_values};
pub use line::{LineFault, Place, read_line};
pub use nb_base::Envelopes;
pub use write::write_line;

//! The sample: an input of as many lines as are wanted, the same ones for each seed, and the script and the settings
//! with which its messages are handled.
#![tactic(auto)]

mod body;
mod id;
mod kind;
mod line;
mod texts;

pub use line::sample_line;
pub use texts::{script, settings};

//! The report of a state, the summary of a sample, and the replay of a history.
#![tactic(auto)]

mod base;
mod listed;
mod post;
mod reporting;
mod summing;
mod texts;

pub use nb_core::{ReplayFault, replay};
pub use reporting::report;
pub use summing::summary;

//! Leases of a worker and drains, at any desk.
#![tactic(auto)]

mod drain;
mod lease;
mod outcome;
mod plans;
mod releases;
mod rest;
mod turns;

pub use drain::drain_alone;
pub use lease::turn;
pub use outcome::Turn;
pub use plans::{load_all, purge_all, return_all};
pub use releases::{due_by, release_due, wind};
pub use turns::take_turns;

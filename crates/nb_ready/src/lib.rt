//! An index of numbers: which of them is the next to be leased, which is the next to come due, and how often each failed.
#![tactic(auto)]

mod first;
mod ready;
mod seat;
mod tree;

pub use ready::Ready;

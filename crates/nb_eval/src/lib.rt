//! What a checked script makes of a message: the verdict of its meaning, over what was read of the tables.
#![tactic(auto)]

mod blocks;
mod expr;
mod faults;
mod find;
mod handling;
mod instance;
pub mod laws;
mod lent;
mod make;
mod scene;
mod stmt;
mod stop;
mod values;
mod verdicts;

pub use handling::Handlers;
pub use lent::Lent;
pub use verdicts::evaluate;

//! A stage for schedules: a hub over two stores in memory, at which the calls of several workers are made one by one. Each
//! call is made only where it may come, which is tested when it is asked for.
#![tactic(auto)]

mod ended;
mod lent;
mod opening;
mod resting;
mod seat;
mod slip;
mod stage;
mod texts;
mod working;

pub use ended::Ended;
pub use lent::Lent;
pub use opening::{Refused, Terms, Unopened};
pub use slip::Slip;
pub use stage::Stage;
pub use texts::{SCRIPT, SETTINGS, Unread, handlers_of};

#[cfg(test)]
mod acting;
#[cfg(test)]
mod failure_tests;
#[cfg(test)]
mod pair_tests;
#[cfg(test)]
mod stop_tests;
#[cfg(test)]
mod upkeep_tests;

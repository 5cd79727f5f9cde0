//! The desk of one process: the queues and the tables over their stores, and the history of what was done with them.
#![tactic(auto)]

mod asking;
mod closing;
mod desk;
mod failing;
mod fault;
mod hub;
mod index;
mod lease;
mod ledger;
mod looking;
mod misfits;
mod parts;
mod phases;
mod settle;
mod start;
mod transport;
mod upkeep;

pub use closing::Closed;
pub use fault::StartFault;
pub use hub::Hub;
pub use start::StartRefusal;

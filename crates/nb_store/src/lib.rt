//! The tables of an endpoint over a store of cells, each change of which is one change of the cells.
#![tactic(auto)]

mod apply;
mod batch;
mod changes;
mod fault;
mod id;
mod kept;
mod links;
mod lookups;
mod parts;
mod room;
mod scan;
mod store;

pub use fault::StoreFault;
pub use store::{Store, StoreClosed, StoreRefusal};

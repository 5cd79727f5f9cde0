//! Entries of queues over a store of cells.
#![tactic(auto)]

mod apply;
mod changes;
mod dues;
mod fault;
mod listed;
mod opening;
mod post;
mod put;
mod queues;
mod read;
mod take;

pub use fault::PostFault;
pub use post::{LIMIT, Post, PostClosed, PostRefusal};

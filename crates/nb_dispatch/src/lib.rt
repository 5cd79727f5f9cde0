//! The messages that a commit records to be sent.
#![tactic(auto)]

mod batch;
mod ids;
mod laws;
mod ops;
mod queues;

pub use ids::saga_id;
pub use laws::{law_ids, law_ops};
pub use ops::ops_of;

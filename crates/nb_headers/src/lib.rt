//! The headers of messages: what they say, and which ones a message gets when it is sent, fails or is retried.
#![tactic(auto)]

mod faults;
mod made;
mod moments;
pub mod names;
mod outgoing;
mod reads;
mod setting;

pub use faults::{fault_headers, strip_fault, with_fault};
pub use made::{Made, SagaName};
pub use moments::{moment_text, read_moment};
pub use outgoing::causation;
pub use reads::{message_id, message_type, round, type_name};

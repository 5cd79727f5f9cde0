//! The rules that a script keeps, what it declares, and what a message has to do with it: its body by the declared
//! kinds, the blocks that it meets, and the keys that these read.
#![tactic(auto)]

mod bodies;
mod breach;
mod checked;
mod fault;
mod fits;
mod follow;
mod incoming;
mod judge;
mod key_set;
mod known;
mod locals;
mod met;
mod rules;
mod scope;
mod sends;
mod sight;
mod sites;
mod tables;
mod types;

pub use bodies::BodyFault;
pub use breach::{Breach, CheckKind, Placed};
pub use checked::{Checked, check, decode_body, keys, meets};
pub use fault::CheckFault;
pub use incoming::{Address, Incoming};
pub use known::Known;
pub use sight::{Judgement, Local, SagaSight, Sight, Taken};
pub use sites::{Blocks, Site};
pub use types::{Declared, MessageType, SagaType, StateField, first_value};

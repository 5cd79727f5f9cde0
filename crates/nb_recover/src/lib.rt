//! What is done with a message that failed: whether it is tried again, and its copies for later, for the error queue and
//! back from there.
#![tactic(auto)]

mod copies;
mod decision;
mod fail;
mod laws;
mod moves;
mod returned;
mod texts;

pub use copies::{error_copy, later_copy, return_copy};
pub use decision::decide;
pub use fail::Fail;
pub use laws::law_copies;
pub use moves::Move;
pub use returned::Returned;
pub use texts::{json_text, value_text};

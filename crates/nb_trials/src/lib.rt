//! Tests of the program's one call over memory: what it prints, what it leaves in its two stores, and how it ends, also where
//! a source, a store or the sink fails in the middle.
#![tactic(auto)]

#[cfg(test)]
mod lines;
#[cfg(test)]
mod runs;
#[cfg(test)]
mod seen;
#[cfg(test)]
mod stable;
#[cfg(test)]
mod stores;
#[cfg(test)]
mod texts;
#[cfg(test)]
mod trial;

#[cfg(test)]
pub use lines::messages;
#[cfg(test)]
pub use runs::{
    left, left_again, left_again_with, left_with, see, see_again, see_with, told, told_again,
    told_again_with, told_over, told_with,
};
#[cfg(test)]
pub use seen::{Seen, events_of, headers_of, left_over, see_over};
#[cfg(test)]
pub use stable::settled;
#[cfg(test)]
pub use stores::{Stores, both_failing, both_reopened, failing, holding, stopping, stopping_again};
#[cfg(test)]
pub use texts::{FEW_RETRIES, NO_RETRIES, SCRIPT, SETTINGS};
#[cfg(test)]
pub use trial::Trial;

#[cfg(test)]
mod command_tests;
#[cfg(test)]
mod commit_tests;
#[cfg(test)]
mod failure_tests;
#[cfg(test)]
mod header_tests;
#[cfg(test)]
mod input_tests;
#[cfg(test)]
mod policy_tests;
#[cfg(test)]
mod refusal_tests;
#[cfg(test)]
mod replay_tests;
#[cfg(test)]
mod replays;
#[cfg(test)]
mod retry_tests;
#[cfg(test)]
mod revision_tests;
#[cfg(test)]
mod sample_tests;
#[cfg(test)]
mod sending_tests;
#[cfg(test)]
mod stop_tests;
#[cfg(test)]
mod upkeep_tests;

//! Tests of header rules, retries, outgoing messages, moves and phases, replays of short histories, and reports.
#![tactic(auto)]

#[cfg(test)]
mod dispatch_tests;
#[cfg(test)]
mod header_tests;
#[cfg(test)]
mod phase_tests;
#[cfg(test)]
mod recover_tests;
#[cfg(test)]
mod replay_tests;
#[cfg(test)]
mod report_tests;

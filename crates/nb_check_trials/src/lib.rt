//! Tests of the rules of scripts, of bodies read by the declared kinds, of the keys that a message reads, and of settings.
#![tactic(auto)]

#[cfg(test)]
mod rule_tests;
#[cfg(test)]
mod settings_tests;

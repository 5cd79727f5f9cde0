//! Tests of what a checked script makes of a message: plans, and faults with their texts.
#![tactic(auto)]

#[cfg(test)]
mod tests;

//! Tests of cells in databases, and of the program's one call over them.
#![tactic(auto)]

#[cfg(test)]
mod call;
#[cfg(test)]
mod call_tests;
#[cfg(test)]
mod cell_tests;

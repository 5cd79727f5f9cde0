//! Tests of values, readers and writers, the words of the command line, envelope lines, and the lines of the sample.
#![tactic(auto)]

#[cfg(test)]
mod envelope_tests;
#[cfg(test)]
mod sample_tests;
#[cfg(test)]
mod value_tests;
#[cfg(test)]
mod word_tests;

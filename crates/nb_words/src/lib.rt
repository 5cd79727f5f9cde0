//! The words of the program: a command and its options, read by `clap`.
#![tactic(auto)]

mod command;
mod numbers;
mod words;

pub use command::read_words;
pub use words::{Command, Words};

//! Tests of scripts: their tokens, what is parsed, what is refused and where, and what is printed.
#![tactic(auto)]

#[cfg(test)]
mod tests;

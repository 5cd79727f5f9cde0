//! Calls as most tests make them.

use crate::seen::{Seen, left_over, see_over};
use crate::stores::Stores;
use crate::texts::SETTINGS;
use crate::trial::Trial;
use nb_base::NoMemory;
use std::alloc::Global;

/// What is seen of a call with these words and this input on empty stores.
pub fn see(alloc: Global, words: &str, input: &str) -> Result<Seen, NoMemory> {
    see_over(alloc, &Trial::new(words, input), Stores::empty(alloc))
}

/// What is seen of a call with this script and these settings on empty stores.
pub fn see_with(
    alloc: Global,
    script: &str,
    settings: &str,
    words: &str,
    input: &str,
) -> Result<Seen, NoMemory> {
    let trial = Trial::with(script, settings, words, input);
    see_over(alloc, &trial, Stores::empty(alloc))
}

/// What is seen of a call on the stores that an earlier call left.
pub fn see_again(
    alloc: Global,
    earlier: Stores,
    words: &str,
    input: &str,
) -> Result<Seen, NoMemory> {
    see_over(alloc, &Trial::new(words, input), earlier)
}

/// The status and the text alone.
fn told_in(seen: Seen) -> String {
    let Seen { told, .. } = seen;
    told
}

/// What a call over these stores comes to.
pub fn told_over(alloc: Global, trial: &Trial, stores: Stores) -> Result<String, NoMemory> {
    let seen = see_over(alloc, trial, stores)?;
    Ok(told_in(seen))
}

/// What a call with these words and this input on empty stores comes to.
pub fn told(alloc: Global, words: &str, input: &str) -> Result<String, NoMemory> {
    told_over(alloc, &Trial::new(words, input), Stores::empty(alloc))
}

/// What a call with this script and these settings on empty stores comes to.
pub fn told_with(
    alloc: Global,
    script: &str,
    settings: &str,
    words: &str,
    input: &str,
) -> Result<String, NoMemory> {
    let trial = Trial::with(script, settings, words, input);
    told_over(alloc, &trial, Stores::empty(alloc))
}

/// What a call on the stores that an earlier call left comes to.
pub fn told_again(
    alloc: Global,
    earlier: Stores,
    words: &str,
    input: &str,
) -> Result<String, NoMemory> {
    told_over(alloc, &Trial::new(words, input), earlier)
}

/// What a call with another script on the stores that an earlier call left comes to.
pub fn told_again_with(
    alloc: Global,
    earlier: Stores,
    script: &str,
    words: &str,
    input: &str,
) -> Result<String, NoMemory> {
    let trial = Trial::with(script, SETTINGS, words, input);
    told_over(alloc, &trial, earlier)
}

/// What a call with these words and this input leaves of empty stores.
pub fn left(alloc: Global, words: &str, input: &str) -> Result<Stores, NoMemory> {
    left_over(alloc, &Trial::new(words, input), Stores::empty(alloc))
}

/// What a call with this script and these settings leaves of empty stores.
pub fn left_with(
    alloc: Global,
    script: &str,
    settings: &str,
    words: &str,
    input: &str,
) -> Result<Stores, NoMemory> {
    let trial = Trial::with(script, settings, words, input);
    left_over(alloc, &trial, Stores::empty(alloc))
}

/// What a call leaves of the stores that an earlier call left.
pub fn left_again(
    alloc: Global,
    earlier: Stores,
    words: &str,
    input: &str,
) -> Result<Stores, NoMemory> {
    left_over(alloc, &Trial::new(words, input), earlier)
}

/// What a call with another script leaves of the stores that an earlier call left.
pub fn left_again_with(
    alloc: Global,
    earlier: Stores,
    script: &str,
    words: &str,
    input: &str,
) -> Result<Stores, NoMemory> {
    let trial = Trial::with(script, SETTINGS, words, input);
    left_over(alloc, &trial, earlier)
}

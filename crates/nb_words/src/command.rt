//! The command line, read by `clap`.
ghost use Rattle.std.specs.Prelude.{◌≡◌, IfOk, MatchOption, option_map, true, false};
ghost use Rattle.clap.specs.Words.{app_of, rule_of, found_of, first_of, rows_of, matches_of};
ghost use Rattle.nb_words.specs.Cli.{cli, word, option, is_refused, number_or, moment_or, words_in, words_of};

use crate::numbers::{command_named, number};
use crate::words::Words;
use clap::error::ErrorKind;
use clap::{Arg, ArgAction, ArgMatches};
use nb_base::{LAST, Moment, NoMemory, Text};
use std::alloc::Global;

/// The one word that is always there.
fn word_arg<'a>(alloc: Global, name: &'a str) -> Arg<'a>
    ensures rule { rule_of result ≡ word name.entry.now }
    ensures own { result.global ≡ false }
{
    Arg::new(alloc, name).required(true).action(ArgAction::Set)
}

/// An option with one value.
fn option_arg<'a>(alloc: Global, name: &'a str) -> Arg<'a>
    ensures rule { rule_of result ≡ option name.entry.now }
    ensures own { result.global ≡ false }
{
    Arg::new(alloc, name).long(name).action(ArgAction::Set)
}

/// The command.
fn command<'a>(alloc: Global) -> Result<clap::Command<'a>, NoMemory>
    ensures { IfOk result (λ c. app_of c ≡ cli) }
{
    let command = clap::Command::new(alloc, "endpoint")
        .no_binary_name(true)
        .arg(word_arg(alloc, "command"))?
        .arg(option_arg(alloc, "workers"))?
        .arg(option_arg(alloc, "at"))?
        .arg(option_arg(alloc, "horizon"))?
        .arg(option_arg(alloc, "turns"))?
        .arg(option_arg(alloc, "seed"))?
        .arg(option_arg(alloc, "count"))?;
    Ok(command)
}

/// The matches of the words, or nothing where they are refused.
fn matches_in<'a>(alloc: Global, words: &'a [Text]) -> Result<Option<ArgMatches<'a>>, NoMemory>
    ensures { IfOk result (λ o. MatchOption o (is_refused words.entry.now ≡ true)
        (λ m. (is_refused words.entry.now ≡ false)
        × (rows_of (found_of m) ≡ matches_of cli words.entry.now))) }
{
    let command = command(alloc)?;
    match command.try_get_matches_from(words) {
        Ok(matches) => Ok(Some(matches)),
        Err(e) => match e.kind() {
            ErrorKind::OutOfMemory => Err(NoMemory),
            _ => Ok(None),
        },
    }
}

/// The value of an argument.
fn text_of<'a>(matches: &ArgMatches<'a>, id: &str) -> Option<&'a str>
    ensures { option_map (λ s. s.now) result ≡ first_of id.now (rows_of (found_of matches.now)) }
{
    matches.get_str(id)
}

/// The number of an option, or what stands for an option that wasn't given.
fn number_of(matches: &ArgMatches, id: &str, low: u64, high: u64, missing: u64) -> Option<u64>
    ensures { result ≡ number_or low high missing
        (first_of id.now (rows_of (found_of matches.now))) }
{
    match text_of(matches, id) {
        None => Some(missing),
        Some(text) => number(text, low, high),
    }
}

/// The moment of an option, if it was given.
fn moment_of(matches: &ArgMatches, id: &str) -> Option<Option<Moment>>
    ensures { result ≡ moment_or (first_of id.now (rows_of (found_of matches.now))) }
{
    match text_of(matches, id) {
        None => Some(None),
        Some(text) => Some(Some(Moment::new(number(text, 0, LAST)?)?)),
    }
}

/// What the matches say.
fn words_from(matches: &ArgMatches) -> Option<Words>
    ensures { result ≡ words_in (rows_of (found_of matches.now)) }
{
    let command = command_named(text_of(matches, "command")?)?;
    let workers = number_of(matches, "workers", 1, 16, 1)?;
    let at = moment_of(matches, "at")?;
    let horizon = number_of(matches, "horizon", 0, 31536000, 0)?;
    let turns = number_of(matches, "turns", 1, 200000, 100000)?;
    let seed = number_of(matches, "seed", 0, 1000000, 1)?;
    let count = number_of(matches, "count", 1, 20000, 1000)?;
    Some(Words {
        command,
        workers,
        at,
        horizon,
        turns,
        seed,
        count,
    })
}

/// What the words say: nothing where `clap` refuses them, or a word or a number is out of its range.
pub fn read_words(alloc: Global, words: &[Text]) -> Result<Option<Words>, NoMemory>
    ensures { IfOk result (λ o. o ≡ words_of words.now) }
{
    match matches_in(alloc, words)? {
        Some(matches) => Ok(words_from(&matches)),
        None => Ok(None),
    }
}

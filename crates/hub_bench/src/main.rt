//! Handles credits over a thousand accounts, by one worker at a hub over two stores in memory, so that `bench/hub` can
//! time it: its word is the number of messages.
#![tactic(auto)]

use nb_base::{Envelope, Items, Moment, NoMemory, Text};
use nb_cells::MemCells;
use nb_core::State;
use nb_headers::names::ENCLOSED_MESSAGE_TYPES;
use nb_schedule::{Ended, SCRIPT, SETTINGS, Slip, Stage, Terms, handlers_of};
use std::alloc::Global;
use std::process::ExitCode;
use std::{env, io};

/// How many accounts there are.
const ACCOUNTS: u64 = 1000;

/// A credit with this number.
fn credit(alloc: Global, i: u64) -> Result<Envelope, NoMemory> {
    let account = i % ACCOUNTS;
    let id = Text::of_string(format!(in alloc; "m{i}")?)?;
    if id.is_empty() {
        return Err(NoMemory);
    }
    let body = format!(in alloc; "{{\"account\":\"a{account}\",\"amount\":5}}")?;
    let mut envelope = Envelope::new(alloc, &id, Text::of_string(body)?)?;
    envelope.set_header(alloc, ENCLOSED_MESSAGE_TYPES, Text::new(alloc, "Credit")?)?;
    Ok(envelope)
}

/// So many credits.
fn credits(alloc: Global, count: u64) -> Result<Items<Envelope>, NoMemory> {
    let mut messages = Items::new(alloc);
    for i in 0..count {
        messages.push(credit(alloc, i)?)?;
    }
    Ok(messages)
}

/// The state when so many credits were handled.
fn handled(alloc: Global, count: u64) -> Result<State, Slip> {
    let Ok(handlers) = handlers_of(alloc, SCRIPT) else {
        return Err(Slip::NoMemory);
    };
    let messages = credits(alloc, count)?;
    let terms = Terms {
        settings: SETTINGS,
        moment: Moment::FIRST,
        workers: 1,
        turns: u64::MAX,
    };
    let post = MemCells::empty(alloc);
    let base = MemCells::empty(alloc);
    match Stage::open(alloc, &handlers, &terms, post, base) {
        Ok(stage) => {
            let Ended { done, state, .. } = stage.run(&messages, Moment::FIRST);
            match done {
                Ok(_) => Ok(state),
                Err(slip) => Err(slip),
            }
        }
        Err(_) => Err(Slip::NoMemory),
    }
}

/// The number that a word is, or 0.
fn number(word: Option<String>) -> u64 {
    match word {
        Some(word) => word.parse::<u64>().unwrap_or(0),
        None => 0,
    }
}

fn main(rt: HostRuntime) -> io::Result<ExitCode> {
    let Ok(args) = env::args(&rt) else {
        return Ok(ExitCode::from(2));
    };
    let mut words = args.skip(1);
    let count = number(words.next());
    match handled(rt.alloc(), count) {
        Ok(state) => {
            let commits = state.tables.commits;
            let next = state.post.next;
            println!(rt; "commits {commits}, next {next}")?;
            Ok(ExitCode::SUCCESS)
        }
        Err(_) => Ok(ExitCode::from(1)),
    }
}

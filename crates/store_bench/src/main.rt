//! Makes commits on tables over a store of cells in memory, so that `bench/store` can time them: its words are the number
//! of commits on one store, and the number of stores, one after the other.
#![tactic(auto)]

ghost use Rattle.std.specs.Prelude.{◌≡◌, ◌∷◌, [], IfOk};
ghost use Rattle.nb_base.specs.declared.plan.Write.TheVariants.{RowPut};

use nb_base::{Envelope, Items, Moment, NoMemory, Plan, Text, Write};
use nb_cells::MemCells;
use nb_store::{Store, StoreFault};
use std::alloc::Global;
use std::process::ExitCode;
use std::{env, io};

/// A letter with a number.
fn named(alloc: Global, letter: &str, number: u64) -> Result<Text, NoMemory> {
    let text = format!(in alloc; "{letter}{number}")?;
    Text::of_string(text)
}

/// A plan that puts one row.
fn one_row(alloc: Global, name: Text, value: i64) -> Result<Plan, NoMemory>
    ensures { IfOk result (λ p. p.writes ≡ RowPut name value ∷ []) }
{
    let mut writes = Items::new(alloc);
    writes.push(Write::RowPut { name, value })?;
    Ok(Plan {
        writes,
        intents: Items::new(alloc),
    })
}

/// Commits a plan that puts one row, for a message that wasn't handled yet. 0 where it was.
fn commit_row(
    alloc: Global,
    store: &mut Store<MemCells>,
    id: &Text,
    name: Text,
    value: i64,
) -> Result<u64, StoreFault> {
    if id.is_empty() || store.record(id).is_some() {
        return Ok(0);
    }
    let incoming = Envelope::new(alloc, id, Text::new(alloc, "")?)?;
    let plan = one_row(alloc, name, value)?;
    let ops = Items::new(alloc);
    let endpoint = Text::new(alloc, "Sales")?;
    store.commit(alloc, &incoming, &plan, &ops, &endpoint, Moment::FIRST)
}

/// The commit with this number: a message of its own, and one of a thousand rows.
fn commit_one(alloc: Global, store: &mut Store<MemCells>, i: u64) -> Result<u64, StoreFault> {
    let id = named(alloc, "m", i)?;
    let name = named(alloc, "a", i % 1000)?;
    commit_row(alloc, store, &id, name, 5)
}

/// So many commits on a new store.
fn commits(alloc: Global, count: u64) -> Result<u64, StoreFault> {
    let mut store = match Store::start(alloc, MemCells::empty(alloc)) {
        Ok(store) => store,
        Err(refusal) => return Err(refusal.fault),
    };
    for i in 0..count {
        commit_one(alloc, &mut store, i)?;
    }
    Ok(store.commits())
}

/// So many stores, one after the other; the number of commits on the last one.
fn stores(alloc: Global, count: u64, stores: u64) -> Result<u64, StoreFault> {
    let mut last = 0;
    for _ in 0..stores {
        last = commits(alloc, count)?;
    }
    Ok(last)
}

/// The number that a word is, or 0.
fn number(word: Option<String>) -> u64 {
    match word {
        Some(word) => word.parse::<u64>().unwrap_or(0),
        None => 0,
    }
}

fn main(rt: HostRuntime) -> io::Result<ExitCode> {
    let Ok(args) = env::args(&rt) else {
        return Ok(ExitCode::from(2));
    };
    let mut words = args.skip(1);
    let count = number(words.next());
    let rounds = number(words.next());
    match stores(rt.alloc(), count, rounds) {
        Ok(last) => {
            println!(rt; "commits {last}")?;
            Ok(ExitCode::SUCCESS)
        }
        Err(_) => Ok(ExitCode::from(1)),
    }
}

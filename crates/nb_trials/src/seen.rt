//! What is seen of a call, as plain texts and numbers.

use crate::stores::{Stores, both_reopened};
use crate::trial::{Given, Trial, call, given_of};
use nb_base::{Copied, Items, NoMemory};
use nb_cells::{Cells, MemCells};
use nb_core::{Event, Events, History};
use nb_endpoint::Ended;
use std::alloc::Global;

/// What is seen of a call.
#[derive(Drop)]
pub struct Seen {
    /// The code of the status.
    pub code: u8,
    /// The code and the text of the status on a line, and then what was printed.
    pub told: String,
    /// The names of the events, parted by blanks; `none` where there is no history.
    pub events: String,
    /// How many Takes there are.
    pub takes: usize,
    /// How many reads of the sources failed.
    pub read_faults: u64,
    /// How many calls of the stores failed.
    pub store_faults: u64,
}

/// The name of an event.
fn name_of(event: &Event) -> &'static str {
    match event {
        Event::Load { .. } => "Load",
        Event::Take { .. } => "Take",
        Event::Look { .. } => "Look",
        Event::Settle { .. } => "Settle",
        Event::Send { .. } => "Send",
        Event::Mark { .. } => "Mark",
        Event::Aside { .. } => "Aside",
        Event::Remove { .. } => "Remove",
        Event::Tick { .. } => "Tick",
        Event::Release { .. } => "Release",
        Event::Purge { .. } => "Purge",
        Event::PutBack { .. } => "PutBack",
        Event::DropBack { .. } => "DropBack",
        Event::Stop { .. } => "Stop",
        Event::Halt { .. } => "Halt",
    }
}

/// The names of the events of a history, parted by blanks; `none` where there is no history.
fn names_in(alloc: Global, history: &Option<History>) -> Result<String, NoMemory> {
    let Some(history) = history else {
        return Ok(String::from_str(alloc, "none")?);
    };
    let mut out = String::new(alloc);
    for event in history.events.as_slice() {
        if !out.is_empty() {
            out.push(' ')?;
        }
        out.push_str(name_of(event))?;
    }
    Ok(out)
}

/// How many Takes a history has.
fn takes_in(history: &Option<History>) -> usize {
    let Some(history) = history else {
        return 0;
    };
    let events = history.events.as_slice();
    events
        .iter()
        .filter(|e| matches!(e, Event::Take { .. }))
        .count()
}

/// The code and the text of the status on a line, then what the sink holds, and last how many bytes were printed, where that
/// is another number than what the sink holds.
fn told_of(
    alloc: Global,
    ended: &Ended<MemCells, MemCells>,
    given: &Given,
) -> Result<String, NoMemory> {
    let held = given.out.held();
    let Ok(text) = str::from_utf8(held) else {
        return Err(NoMemory);
    };
    let code = ended.status.code();
    let status = &ended.status;
    let printed = ended.printed;
    if printed == held.len() as u64 {
        return Ok(format!(in alloc; "{code} {status}\n{text}")?);
    }
    Ok(format!(in alloc; "{code} {status}\n{text}printed {printed}")?)
}

/// What is seen of a call that ended so.
fn seen_of(
    alloc: Global,
    ended: &Ended<MemCells, MemCells>,
    given: &Given,
) -> Result<Seen, NoMemory> {
    let told = told_of(alloc, ended, given)?;
    let events = names_in(alloc, &ended.history)?;
    let store_faults = ended.post.faults().saturating_add(ended.base.faults());
    Ok(Seen {
        code: ended.status.code(),
        told,
        events,
        takes: takes_in(&ended.history),
        read_faults: given.faults(),
        store_faults,
    })
}

/// What is seen of a call over these stores.
pub fn see_over(alloc: Global, trial: &Trial, stores: Stores) -> Result<Seen, NoMemory> {
    let mut given = given_of(alloc, trial)?;
    let ended = call(alloc, &mut given, stores);
    seen_of(alloc, &ended, &given)
}

/// The stores that a call leaves, as the program finds them when it starts again.
pub fn left_over(alloc: Global, trial: &Trial, stores: Stores) -> Result<Stores, NoMemory> {
    let mut given = given_of(alloc, trial)?;
    let Ended { post, base, .. } = call(alloc, &mut given, stores);
    both_reopened(alloc, Stores { post, base })
}

/// The events of a history; none where there is none.
fn events_in(alloc: Global, history: &Option<History>) -> Result<Events, NoMemory> {
    match history {
        Some(history) => history.events.copy(),
        None => Ok(Items::new(alloc)),
    }
}

/// The events of a call on empty stores.
pub fn events_of(alloc: Global, trial: &Trial) -> Result<Events, NoMemory> {
    let mut given = given_of(alloc, trial)?;
    let ended = call(alloc, &mut given, Stores::empty(alloc));
    events_in(alloc, &ended.history)
}

/// The headers, each on a line, of an entry that a history opens with; none where it isn't there.
fn opened_with(alloc: Global, history: &Option<History>, number: u64) -> Result<String, NoMemory> {
    let mut out = String::new(alloc);
    let Some(history) = history else {
        return Ok(out);
    };
    let Some(entry) = history.opening.post.entries.get(number) else {
        return Ok(out);
    };
    let headers = entry.envelope.headers();
    for i in 0..headers.len() {
        let (name, text) = headers.at(i);
        out.push_str(name)?;
        out.push_str(": ")?;
        out.push_str(text.as_str())?;
        out.push('\n')?;
    }
    Ok(out)
}

/// The headers, each on a line, of an entry of these stores.
pub fn headers_of(alloc: Global, stores: Stores, number: u64) -> Result<String, NoMemory> {
    let mut given = given_of(alloc, &Trial::new("show --at 0", ""))?;
    let ended = call(alloc, &mut given, stores);
    opened_with(alloc, &ended.history, number)
}

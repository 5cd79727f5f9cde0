//! Replays of histories that begin with empty stores.
ghost use Rattle.std.specs.Prelude.{◌≡◌};
ghost use Rattle.nb_core.specs.Samples.{nothing};

use nb_base::{ByName, ByNumber, BySaga, Copied, Items, Moment, NoMemory, PostState, Tables};
use nb_check::check;
use nb_core::{Event, Events, History, Opening, ReplayFault, State, replay};
use nb_eval::Handlers;
use nb_report::report;
use nb_script::parse;
use nb_settings::read_settings;
use std::alloc::Global;

/// Empty stores, at the first moment, with one worker.
fn nothing(alloc: Global) -> Opening
    ensures { result ≡ nothing }
{
    Opening {
        tables: Tables {
            sagas: BySaga::new(alloc),
            rows: ByName::new(alloc),
            outbox: ByName::new(alloc),
            commits: 0,
        },
        post: PostState {
            entries: ByNumber::new(alloc),
            next: 1,
        },
        moment: Moment::FIRST,
        workers: 1,
    }
}

/// The state after these events, from empty stores at the first moment, with this script and these settings.
fn replayed(
    alloc: Global,
    script: &str,
    settings: &str,
    turns: u64,
    events: Events,
) -> Result<State, ReplayFault> {
    let Ok(script) = parse(alloc, script.as_bytes()) else {
        return Err(ReplayFault::NoMemory);
    };
    let Ok(checked) = check(alloc, script) else {
        return Err(ReplayFault::NoMemory);
    };
    let Ok(settings) = read_settings(alloc, settings.as_bytes(), &checked) else {
        return Err(ReplayFault::NoMemory);
    };
    let handlers = Handlers { checked };
    let opening = nothing(alloc);
    let history = History { opening, events };
    replay(alloc, &handlers, &settings, turns, &history)
}

/// The report of the state after these events, or at which of them they stop being legal.
pub fn replay_told(
    alloc: Global,
    script: &str,
    settings: &str,
    turns: u64,
    events: Events,
) -> Result<String, NoMemory> {
    match replayed(alloc, script, settings, turns, events) {
        Ok(state) => {
            let text = report(alloc, &state)?;
            Ok(text.into_string())
        }
        Err(ReplayFault::Illegal { index }) => Ok(format!(in alloc; "illegal at {index}")?),
        Err(ReplayFault::NoMemory) => Err(NoMemory),
    }
}

/// The events without the one with this index.
pub fn without(alloc: Global, events: &Events, index: usize) -> Result<Events, NoMemory> {
    let mut left: Events = Items::new(alloc);
    for i in 0..events.len() {
        if i != index {
            left.push(events.at(i).copy()?)?;
        }
    }
    Ok(left)
}

/// The events with a further one before the one with this index.
pub fn with(
    alloc: Global,
    events: &Events,
    index: usize,
    event: &Event,
) -> Result<Events, NoMemory> {
    let mut more: Events = Items::new(alloc);
    for i in 0..events.len() {
        if i == index {
            more.push(event.copy()?)?;
        }
        more.push(events.at(i).copy()?)?;
    }
    if index == events.len() {
        more.push(event.copy()?)?;
    }
    Ok(more)
}

/// The events with another one in place of the one with this index.
pub fn changed(
    alloc: Global,
    events: &Events,
    index: usize,
    event: &Event,
) -> Result<Events, NoMemory> {
    let left = without(alloc, events, index)?;
    with(alloc, &left, index, event)
}

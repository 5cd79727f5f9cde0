//! Histories are replayed.
ghost use Rattle.std.specs.Prelude.{◌≡◌, IfOk};
ghost use Rattle.nb_core.specs.History.{opened};
ghost use Rattle.nb_core.specs.Legal.{HasRoutes, IsSound};
ghost use Rattle.nb_core.specs.Replay.{constants_of, Replayed};
ghost use Rattle.nb_core.specs.Tried.{Tried, CanSettle};
ghost use Rattle.nb_core.specs.Advanced.{Advanced};

use crate::event::Event;
use crate::history::{History, Opening};
use crate::lease::{aside, mark, remove, send, take};
use crate::order::{has_turn, is_halt, is_of_worker, may_follow, taken_with};
use crate::settling::{look, settle};
use crate::state::State;
use crate::upkeep::{drop_back, load, purge, put_back, release, stop, tick};
use nb_base::{ByNumber, Copied, Handling, Items, NoMemory, Settings};
use std::alloc::Global;
use thiserror::Error;

/// Why a replay has no state.
#[derive(Clone, Copy, Debug, Drop, PartialEq, Eq, Error)]
pub enum ReplayFault {
    /// The event with this index, counted from 0, is the first with which the history stops being legal.
    #[error("the history stops being legal at event {index}")]
    Illegal { index: u64 },
    /// There was no memory.
    #[error("no memory")]
    NoMemory,
}

impl From<NoMemory> for ReplayFault {
    ghost use Rattle.std.specs.Prelude.{◌≡◌};
    ghost use Rattle.nb_core.specs.declared.replaying.ReplayFault.TheVariants.{NoMemory};

    ghost from_gives = { λ _ e. e ≡ NoMemory };

    fn from(_refused: NoMemory) -> ReplayFault {
        ReplayFault::NoMemory
    }
}

/// Makes an event, where it is possible.
#[tactic(auto, using(crate::specs::Step::halt))]
fn attempt<H: Handling>(
    alloc: Global,
    handling: &H,
    settings: &Settings,
    state: &mut State,
    event: &Event,
) -> Result<bool, NoMemory>
    requires { CanSettle (constants_of (H.meaning handling.now) settings.now) state.old }
    ensures { IfOk result (λ b. Tried (constants_of (H.meaning handling.now) settings.now) state.old event.now state.new b) }
{
    match event {
        Event::Load { envelope } => load(state, settings, envelope),
        Event::Take { w } => take(state, settings, *w),
        Event::Look { w } => look(alloc, handling, state, *w),
        Event::Settle { w } => settle(alloc, handling, settings, state, *w),
        Event::Send { w } => send(state, *w),
        Event::Mark { w } => mark(alloc, state, *w),
        Event::Aside { w } => aside(state, *w),
        Event::Remove { w } => remove(state, *w),
        Event::Tick { to } => Ok(tick(state, *to)),
        Event::Release { number } => release(state, *number),
        Event::Purge { id } => Ok(purge(state, settings, id)),
        Event::PutBack { number } => put_back(state, settings, *number),
        Event::DropBack { number } => Ok(drop_back(state, *number)),
        Event::Stop { moment } => {
            stop(alloc, state, *moment);
            Ok(true)
        }
        Event::Halt { store: _ } => Ok(true),
    }
}

/// How far a replay has come.
#[derive(Drop)]
struct Progress {
    state: State,
    /// Whether the last event was a Halt.
    halted: bool,
    /// The Takes since the last Stop.
    taken: u64,
}

/// Goes on by an event, where it may come.
fn advance<H: Handling>(
    alloc: Global,
    handling: &H,
    settings: &Settings,
    turns: u64,
    workers: u32,
    progress: &mut Progress,
    event: &Event,
) -> Result<bool, NoMemory>
    requires { CanSettle (constants_of (H.meaning handling.now) settings.now) progress.old.state }
    ensures { IfOk result (λ b. Advanced (constants_of (H.meaning handling.now) settings.now) turns workers progress.old event.now progress.new b) }
{
    if !is_of_worker(workers, event) {
        return Ok(false);
    }
    if !may_follow(progress.halted, event) {
        return Ok(false);
    }
    if !has_turn(turns, progress.taken, event) {
        return Ok(false);
    }
    if !attempt(alloc, handling, settings, &mut progress.state, event)? {
        return Ok(false);
    }
    progress.taken = taken_with(turns, progress.taken, event);
    progress.halted = is_halt(event);
    Ok(true)
}

/// The state of an opening.
fn opened(alloc: Global, opening: &Opening) -> Result<State, NoMemory>
    ensures { IfOk result (λ s. s ≡ opened opening.now) }
{
    let tables = opening.tables.copy()?;
    let post = opening.post.copy()?;
    Ok(State {
        tables,
        post,
        moment: opening.moment,
        phases: ByNumber::new(alloc),
        fails: ByNumber::new(alloc),
        back: ByNumber::new(alloc),
        discarded: Items::new(alloc),
    })
}

/// The state at the end of a history with at most so many Takes before the first Stop, between two Stops and after the
/// last.
pub fn replay<H: Handling>(
    alloc: Global,
    handling: &H,
    settings: &Settings,
    turns: u64,
    history: &History,
) -> Result<State, ReplayFault>
    requires routes { HasRoutes (constants_of (H.meaning handling.now) settings.now) }
    requires sound { IsSound (constants_of (H.meaning handling.now) settings.now) history.now.opening }
    ensures { Replayed (constants_of (H.meaning handling.now) settings.now) turns history.now result }
{
    handling.is_meaning();
    let workers = history.opening.workers;
    let state = opened(alloc, &history.opening)?;
    let mut progress = Progress {
        state,
        halted: false,
        taken: 0,
    };
    for index in 0..history.events.len() {
        let event = history.events.at(index);
        if !advance(
            alloc,
            handling,
            settings,
            turns,
            workers,
            &mut progress,
            event,
        )? {
            return Err(ReplayFault::Illegal {
                index: index as u64,
            });
        }
    }
    let Progress { state, .. } = progress;
    Ok(state)
}

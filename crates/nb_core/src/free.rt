//! Which entries are free, and which workers are busy.
ghost use Rattle.std.specs.Prelude.{◌≡◌, ◌↔◌, IsTrue, is_some};
ghost use Rattle.nb_core.specs.After.{is_number, is_named, is_free, least_free, are_busy};
ghost use Rattle.nb_core.specs.State.{Constants, number_of, phase};
ghost use Rattle.nb_core.specs.declared.phase.Phase.TheVariants.{Idle};

use crate::phase::Phase;
use crate::state::State;
use nb_base::{ByNumber, Queued, Settings};

/// The entry that a phase names.
fn number_of(phase: &Phase) -> Option<u64>
    ensures { result ≡ number_of phase.now }
{
    match phase {
        Phase::Idle => None,
        Phase::Held { number } => Some(*number),
        Phase::Looked { number, reads: _ } => Some(*number),
        Phase::Sending {
            number,
            id: _,
            ops: _,
            k: _,
        } => Some(*number),
        Phase::Leaving {
            number,
            queue: _,
            due: _,
            copy: _,
        } => Some(*number),
        Phase::Done { number } => Some(*number),
    }
}

/// Whether a phase names this entry.
fn names(phase: &Phase, number: u64) -> bool
    ensures { result ≡ is_number number (number_of phase.now) }
{
    match number_of(phase) {
        None => false,
        Some(named) => number == named,
    }
}

/// Whether some worker's phase names this entry.
fn is_named(phases: &ByNumber<Phase>, number: u64) -> bool
    ensures { result ≡ is_named phases.now number }
{
    for (_w, phase) in phases.iter() {
        if names(phase, number) {
            return true;
        }
    }
    false
}

/// Whether this entry is free.
fn is_free(state: &State, settings: &Settings, number: u64, entry: &Queued) -> bool
    ensures { (c : Constants) → c.settings ≡ settings.now → result ≡ is_free c state.now number entry.now }
{
    entry.queue == settings.endpoint && entry.due.is_none() && !is_named(&state.phases, number)
}

/// The least free entry.
pub fn least_free(state: &State, settings: &Settings) -> Option<u64>
    ensures { (c : Constants) → c.settings ≡ settings.now → result ≡ least_free c state.now }
{
    for (number, entry) in state.post.entries.iter() {
        if is_free(state, settings, *number, entry) {
            return Some(*number);
        }
    }
    None
}

/// Whether some worker holds an entry.
pub fn are_busy(phases: &ByNumber<Phase>) -> bool
    ensures { result ≡ are_busy phases.now }
{
    for (_w, phase) in phases.iter() {
        if number_of(phase).is_some() {
            return true;
        }
    }
    false
}

/// Whether the worker is idle.
pub fn is_idle(state: &State, w: u32) -> bool
    ensures { IsTrue result ↔ phase state.now w ≡ Idle }
{
    match state.phases.get(u64::from(w)) {
        None => true,
        Some(Phase::Idle) => true,
        _ => false,
    }
}

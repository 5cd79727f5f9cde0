//! The small changes of a state that steps are made of.
ghost use Rattle.std.specs.Prelude.{◌≡◌, OnOk};
ghost use Rattle.std.specs.FinMap as map;
ghost use Rattle.nb_core.specs.State.{HasRoom, put, put_phase, at_phase, removed};
ghost use Rattle.nb_core.specs.Tried.{without};

use crate::phase::Phase;
use crate::state::State;
use nb_base::{ByNumber, Envelope, Moment, NoMemory, Queued, Text};

/// The number at which entries, like commits, are spent.
pub const LIMIT: u64 = 4611686018427387904;

/// Puts one more entry.
pub fn put(
    state: &mut State,
    queue: Text,
    due: Option<Moment>,
    envelope: Envelope,
) -> Result<(), NoMemory>
    requires { HasRoom state.old }
    ensures { OnOk result (state.new ≡ put state.old queue due envelope) }
{
    let number = state.post.next;
    let entry = Queued {
        queue,
        due,
        envelope,
    };
    state.post.entries.insert(number, entry)?;
    state.post.next = number + 1;
    Ok(())
}

/// Sets a worker's phase; an idle one isn't there.
#[tactic(auto, unfolding(crate::specs::Changes::put_phase))]
fn put_phase(phases: &mut ByNumber<Phase>, w: u64, phase: Phase) -> Result<(), NoMemory>
    ensures { OnOk result (phases.new ≡ put_phase phases.old w phase) }
{
    if let Phase::Idle = phase {
        phases.remove(w);
        return Ok(());
    }
    phases.insert(w, phase)?;
    Ok(())
}

/// Sets what a worker is at.
pub fn set_phase(state: &mut State, w: u32, phase: Phase) -> Result<(), NoMemory>
    ensures { OnOk result (state.new ≡ at_phase state.old w phase) }
{
    put_phase(&mut state.phases, u64::from(w), phase)
}

/// Takes what a worker is at out of the state.
pub fn take_phase(state: &mut State, w: u32) -> Option<Phase>
    ensures phase { result ≡ map.get state.old.phases w }
    ensures rest { state.new ≡ without state.old w }
{
    state.phases.take(u64::from(w))
}

/// Removes an entry and its count of failures.
pub fn remove_entry(state: &mut State, number: u64)
    ensures { state.new ≡ removed state.old number }
{
    state.post.entries.remove(number);
    state.fails.remove(number);
}

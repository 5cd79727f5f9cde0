//! The events that no worker makes.
ghost use Rattle.std.specs.Prelude.{◌≡◌, ◌↔◌, ◌+◌, ◌≤◌, true, IfOk, IsTrue};
ghost use Rattle.nb_core.specs.Ready.{CanPurge};
ghost use Rattle.nb_core.specs.Tried.{Tried, Releases, Returns};
ghost use Rattle.nb_core.specs.State.{Constants};
ghost use Rattle.nb_core.specs.Step.{Event};

use crate::changes::{LIMIT, put, remove_entry};
use crate::free::are_busy;
use crate::state::State;
use nb_base::{
    ByNumber, Copied, Envelope, Items, Moment, NoMemory, OutboxRow, Queued, Settings, Text,
};
use nb_recover::{Returned, return_copy};
use std::alloc::Global;

/// Load.
#[tactic(auto, using(crate::proofs::Trying::load_made, crate::proofs::Trying::load_not))]
pub fn load(state: &mut State, settings: &Settings, envelope: &Envelope) -> Result<bool, NoMemory>
    ensures { (c : Constants) → c.settings ≡ settings.now →
        IfOk result (λ b. Tried c state.old (Event.Load envelope.now) state.new b) }
{
    if state.post.next >= LIMIT {
        return Ok(false);
    }
    // An envelope is a message.
    let _body = envelope.body();
    let queue = settings.endpoint.copy()?;
    let envelope = envelope.copy()?;
    put(state, queue, None, envelope)?;
    Ok(true)
}

/// Tick.
#[tactic(auto, using(crate::proofs::Trying::tick_made, crate::proofs::Trying::tick_not))]
pub fn tick(state: &mut State, to: Moment) -> bool
    ensures { (c : Constants) → Tried c state.old (Event.Tick to) state.new result }
{
    if are_busy(&state.phases) || to.seconds() < state.moment.seconds() {
        return false;
    }
    state.moment = to;
    true
}

/// The entry without its due, where it is due now.
fn released(state: &State, number: u64) -> Result<Option<Queued>, NoMemory>
    ensures { IfOk result (λ e. Releases state.now number e) }
{
    let Some(entry) = state.post.entries.get(number) else {
        return Ok(None);
    };
    let Some(due) = entry.due else {
        return Ok(None);
    };
    if state.moment.seconds() < due.seconds() {
        return Ok(None);
    }
    let mut entry = entry.copy()?;
    entry.due = None;
    Ok(Some(entry))
}

/// Release.
#[tactic(auto, using(crate::proofs::Trying::release_made, crate::proofs::Trying::release_busy, crate::proofs::Trying::release_not))]
pub fn release(state: &mut State, number: u64) -> Result<bool, NoMemory>
    ensures { (c : Constants) → IfOk result (λ b. Tried c state.old (Event.Release number) state.new b) }
{
    if are_busy(&state.phases) {
        return Ok(false);
    }
    let Some(entry) = released(state, number)? else {
        return Ok(false);
    };
    state.post.entries.insert(number, entry)?;
    Ok(true)
}

/// Whether the record is sent, and was kept long enough.
fn is_over(row: &OutboxRow, retention: u64, moment: Moment) -> bool
    ensures { IsTrue result ↔ (row.now.sent ≡ true) × (row.now.at + retention ≤ moment) }
{
    let now = moment.seconds();
    let at = row.at.seconds();
    row.sent && at <= now && retention <= now - at
}

/// Whether the record of this message may go.
fn can_purge(state: &State, settings: &Settings, id: &Text) -> bool
    ensures { (c : Constants) → c.settings ≡ settings.now → IsTrue result ↔ CanPurge c state.now id.now }
{
    match state.tables.outbox.get(id) {
        None => false,
        Some(row) => is_over(row, settings.retention, state.moment),
    }
}

/// Purge.
#[tactic(auto, using(crate::proofs::Trying::purge_made, crate::proofs::Trying::purge_busy, crate::proofs::Trying::purge_not))]
pub fn purge(state: &mut State, settings: &Settings, id: &Text) -> bool
    ensures { (c : Constants) → c.settings ≡ settings.now → Tried c state.old (Event.Purge id.now) state.new result }
{
    if are_busy(&state.phases) {
        return false;
    }
    if !can_purge(state, settings, id) {
        return false;
    }
    state.tables.outbox.remove(id);
    true
}

/// What goes back from the error queue, where something does.
fn returned(state: &State, settings: &Settings, number: u64) -> Result<Option<Returned>, NoMemory>
    ensures { (c : Constants) → c.settings ≡ settings.now → IfOk result (λ r. Returns c state.now number r) }
{
    let Some(entry) = state.post.entries.get(number) else {
        return Ok(None);
    };
    if entry.queue != settings.error {
        return Ok(None);
    }
    if entry.due.is_some() {
        return Ok(None);
    }
    return_copy(&entry.envelope)
}

/// PutBack.
#[tactic(auto, using(crate::proofs::Trying::put_back_made, crate::proofs::Trying::put_back_busy, crate::proofs::Trying::put_back_full, crate::proofs::Trying::put_back_not))]
pub fn put_back(state: &mut State, settings: &Settings, number: u64) -> Result<bool, NoMemory>
    ensures { (c : Constants) → c.settings ≡ settings.now →
        IfOk result (λ b. Tried c state.old (Event.PutBack number) state.new b) }
{
    if are_busy(&state.phases) {
        return Ok(false);
    }
    if state.post.next >= LIMIT {
        return Ok(false);
    }
    let Some(returned) = returned(state, settings, number)? else {
        return Ok(false);
    };
    let Returned { queue, envelope } = returned;
    put(state, queue, None, envelope)?;
    state.back.insert(number, ())?;
    Ok(true)
}

/// DropBack.
#[tactic(auto, using(crate::proofs::Trying::drop_back_made, crate::proofs::Trying::drop_back_busy, crate::proofs::Trying::drop_back_not))]
pub fn drop_back(state: &mut State, number: u64) -> bool
    ensures { (c : Constants) → Tried c state.old (Event.DropBack number) state.new result }
{
    if are_busy(&state.phases) {
        return false;
    }
    if state.back.get(number).is_none() {
        return false;
    }
    remove_entry(state, number);
    state.back.remove(number);
    true
}

/// Stop.
#[tactic(auto, using(crate::specs::Step::stop))]
pub fn stop(alloc: Global, state: &mut State, moment: Moment)
    ensures { (c : Constants) → Tried c state.old (Event.Stop moment) state.new true }
{
    state.phases = ByNumber::new(alloc);
    state.fails = ByNumber::new(alloc);
    state.back = ByNumber::new(alloc);
    state.discarded = Items::new(alloc);
    state.moment = moment;
}

//! The events of a worker with its entry, but for Look and Settle.
ghost use Rattle.std.specs.Prelude.{◌≡◌, IfOk};
ghost use Rattle.nb_core.specs.Tried.{Tried};
ghost use Rattle.nb_core.specs.State.{Constants};
ghost use Rattle.nb_core.specs.Step.{Event};

use crate::changes::{LIMIT, put, remove_entry, set_phase, take_phase};
use crate::free::{is_idle, least_free};
use crate::phase::Phase;
use crate::state::State;
use nb_base::{Copied, Items, NoMemory, Op, Settings};
use std::alloc::Global;

/// Take.
#[tactic(auto, using(crate::proofs::Leases::take_made, crate::proofs::Leases::take_busy, crate::proofs::Leases::take_not))]
pub fn take(state: &mut State, settings: &Settings, w: u32) -> Result<bool, NoMemory>
    ensures { (c : Constants) → c.settings ≡ settings.now →
        IfOk result (λ b. Tried c state.old (Event.Take w) state.new b) }
{
    if !is_idle(state, w) {
        return Ok(false);
    }
    let Some(number) = least_free(state, settings) else {
        return Ok(false);
    };
    set_phase(state, w, Phase::Held { number })?;
    Ok(true)
}

/// Send.
#[tactic(auto, using(crate::proofs::Leases::send_full, crate::proofs::Leases::send_not))]
pub fn send(state: &mut State, w: u32) -> Result<bool, NoMemory>
    ensures { (c : Constants) → IfOk result (λ b. Tried c state.old (Event.Send w) state.new b) }
{
    if state.post.next >= LIMIT {
        return Ok(false);
    }
    let Some(Phase::Sending { number, id, ops, k }) = take_phase(state, w) else {
        return Ok(false);
    };
    if k as usize >= ops.len() {
        return Ok(false);
    }
    let op = ops.at(k as usize).copy()?;
    let Op {
        queue,
        due,
        envelope,
    } = op;
    put(state, queue, due, envelope)?;
    let next = Phase::Sending {
        number,
        id,
        ops,
        k: k + 1,
    };
    set_phase(state, w, next)?;
    Ok(true)
}

/// Mark.
#[tactic(auto, using(crate::proofs::Leases::mark_not))]
pub fn mark(alloc: Global, state: &mut State, w: u32) -> Result<bool, NoMemory>
    ensures { (c : Constants) → IfOk result (λ b. Tried c state.old (Event.Mark w) state.new b) }
{
    let Some(Phase::Sending { number, id, ops, k }) = take_phase(state, w) else {
        return Ok(false);
    };
    if k as usize != ops.len() {
        return Ok(false);
    }
    let Some(mut row) = state.tables.outbox.take(&id) else {
        return Ok(false);
    };
    row.sent = true;
    row.ops = Items::new(alloc);
    state.tables.outbox.insert(id, row)?;
    set_phase(state, w, Phase::Done { number })?;
    Ok(true)
}

/// Aside.
#[tactic(auto, using(crate::proofs::Leases::aside_full, crate::proofs::Leases::aside_not))]
pub fn aside(state: &mut State, w: u32) -> Result<bool, NoMemory>
    ensures { (c : Constants) → IfOk result (λ b. Tried c state.old (Event.Aside w) state.new b) }
{
    if state.post.next >= LIMIT {
        return Ok(false);
    }
    let Some(
        Phase::Leaving {
            number,
            queue,
            due,
            copy,
        },
    ) = take_phase(state, w)
    else {
        return Ok(false);
    };
    put(state, queue, due, copy)?;
    set_phase(state, w, Phase::Done { number })?;
    Ok(true)
}

/// Remove.
#[tactic(auto, using(crate::proofs::Leases::remove_not))]
pub fn remove(state: &mut State, w: u32) -> Result<bool, NoMemory>
    ensures { (c : Constants) → IfOk result (λ b. Tried c state.old (Event.Remove w) state.new b) }
{
    let Some(Phase::Done { number }) = take_phase(state, w) else {
        return Ok(false);
    };
    remove_entry(state, number);
    set_phase(state, w, Phase::Idle)?;
    Ok(true)
}

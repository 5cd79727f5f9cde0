//! The events Look and Settle.
ghost use Rattle.std.specs.Prelude.{◌≡◌, ◌≤◌, ◌+◌, ◌++◌, IfOk, OnOk};
ghost use Rattle.std.specs.List.{AllByRecursion};
ghost use Rattle.nb_base.specs.declared.plan.Verdict.TheVariants as verdict;
ghost use Rattle.nb_dispatch.specs.Dispatches.{CanDispatch};
ghost use Rattle.nb_base.specs.declared.plan.Plan.{Plan};
ghost use Rattle.nb_headers.specs.Reads.{id_of};
ghost use Rattle.nb_core.specs.Replay.{constants_of};
ghost use Rattle.nb_core.specs.State.{Constants, recorded, fails, failed, given_up};
ghost use Rattle.nb_core.specs.Step.{Event};
ghost use Rattle.nb_core.specs.Tried.{Tried, CanSettle, CommitsBy, Holds, IsNewOutcome, LooksAt, phase_found, phase_known};

use crate::changes::{LIMIT, set_phase};
use crate::phase::Phase;
use crate::phases::{move_after, phase_after, phase_by};
use crate::showing::{seen, seen_again};
use crate::staleness::conflict;
use crate::state::State;
use crate::writes::write_all;
use nb_base::{
    Copied, Discard, Discards, Envelope, Handling, NoMemory, OutboxRow, Outcome, Plan, Reads,
    Settings, Text, Verdict,
};
use nb_dispatch::ops_of;
use nb_headers::message_id;
use nb_recover::{Fail, Move};
use std::alloc::Global;

/// The phase to which the record of a message leads, where there is one.
fn known(state: &State, number: u64, envelope: &Envelope) -> Result<Option<Phase>, NoMemory>
    ensures { IfOk result (λ p. p ≡ phase_known number envelope.now (recorded state.now (id_of envelope.now))) }
{
    let id = message_id(envelope);
    match state.tables.outbox.get(id) {
        Some(row) => Ok(Some(phase_by(number, id, row)?)),
        None => Ok(None),
    }
}

/// The phase of a worker after its look at an entry with this message.
fn found<H: Handling>(
    alloc: Global,
    handling: &H,
    state: &State,
    number: u64,
    envelope: &Envelope,
) -> Result<Phase, NoMemory>
    ensures { (c : Constants) → c.meaning ≡ H.meaning handling.now →
        IfOk result (λ p. p ≡ phase_found c state.now number envelope.now (recorded state.now (id_of envelope.now))) }
{
    match known(state, number, envelope)? {
        Some(phase) => Ok(phase),
        None => {
            let keys = handling.keys(alloc, envelope)?;
            let reads = seen(alloc, &state.tables, &keys)?;
            Ok(Phase::Looked { number, reads })
        }
    }
}

/// The entry that a worker took and didn't look for yet.
fn held(state: &State, w: u32) -> Option<u64>
    ensures { Holds state.now w result }
{
    match state.phases.get(u64::from(w)) {
        Some(Phase::Held { number }) => Some(*number),
        _ => None,
    }
}

/// Look.
pub fn look<H: Handling>(
    alloc: Global,
    handling: &H,
    state: &mut State,
    w: u32,
) -> Result<bool, NoMemory>
    ensures { (c : Constants) → c.meaning ≡ H.meaning handling.now →
        IfOk result (λ b. Tried c state.old (Event.Look w) state.new b) }
{
    let Some(number) = held(state, w) else {
        return Ok(false);
    };
    let Some(entry) = state.post.entries.get(number) else {
        return Ok(false);
    };
    let phase = found(alloc, handling, state, number, &entry.envelope)?;
    set_phase(state, w, phase)?;
    Ok(true)
}

/// What a worker looked for.
#[derive(Drop)]
pub struct LookedAt {
    pub number: u64,
    pub reads: Reads,
    pub envelope: Envelope,
}

/// What the worker looked for, with what it read.
fn looked_at(state: &State, w: u32) -> Result<Option<LookedAt>, NoMemory>
    ensures { IfOk result (λ x. LooksAt state.now w x) }
{
    let Some(Phase::Looked { number, reads }) = state.phases.get(u64::from(w)) else {
        return Ok(None);
    };
    let Some(entry) = state.post.entries.get(*number) else {
        return Ok(None);
    };
    let reads = reads.copy()?;
    let envelope = entry.envelope.copy()?;
    Ok(Some(LookedAt {
        number: *number,
        reads,
        envelope,
    }))
}

/// A worker's attempt on an entry.
#[derive(Clone, Copy)]
struct Attempt<'a> {
    w: u32,
    number: u64,
    envelope: &'a Envelope,
}

/// Notes a message that is given up.
fn note(
    alloc: Global,
    discarded: &mut Discards,
    envelope: &Envelope,
    why: &Fail,
    next: Move,
) -> Result<(), NoMemory>
    ensures { OnOk result (discarded.new ≡ discarded.old ++ given_up envelope.now why.now next) }
{
    match next {
        Move::Again => Ok(()),
        Move::Later { round: _, delay: _ } => Ok(()),
        Move::Error => Ok(()),
        Move::Discard => {
            let id = message_id(envelope).copy()?;
            let name = Text::new(alloc, why.name())?;
            discarded.push(Discard { id, name })
        }
    }
}

/// How often an entry has failed, this time included.
fn count_of(state: &State, number: u64) -> u32
    requires { fails state.now number ≤ 1001 }
    ensures { result ≡ fails state.now number + 1 }
{
    match state.fails.get(number) {
        Some(count) => *count + 1,
        None => 1,
    }
}

/// Counts a failure.
fn fail(
    alloc: Global,
    settings: &Settings,
    state: &mut State,
    attempt: &Attempt,
    why: &Fail,
) -> Result<(), NoMemory>
    requires { fails state.old attempt.now.number ≤ 1001 }
    ensures { (c : Constants) → c.settings ≡ settings.now →
        OnOk result (state.new ≡ failed c state.old attempt.now.w attempt.now.number attempt.now.envelope.now why.now) }
{
    let number = attempt.number;
    let envelope = attempt.envelope;
    let count = count_of(state, number);
    let next = move_after(settings, count, envelope, why);
    let phase = phase_after(alloc, settings, state.moment, number, envelope, why, next)?;
    note(alloc, &mut state.discarded, envelope, why, next)?;
    state.fails.insert(number, count)?;
    set_phase(state, attempt.w, phase)?;
    Ok(())
}

/// Commits a plan, where there is a number for it.
fn commit(
    alloc: Global,
    settings: &Settings,
    state: &mut State,
    attempt: &Attempt,
    plan: &Plan,
) -> Result<bool, NoMemory>
    requires { AllByRecursion (CanDispatch settings.now) plan.now.intents }
    ensures { (c : Constants) → c.settings ≡ settings.now →
        IfOk result (λ b. CommitsBy c state.old attempt.now.w attempt.now.number attempt.now.envelope.now plan.now state.new b) }
{
    if state.tables.commits >= LIMIT {
        return Ok(false);
    }
    let n = state.tables.commits + 1;
    let envelope = attempt.envelope;
    let id = message_id(envelope);
    let ops = ops_of(alloc, settings, envelope, n, state.moment, &plan.intents)?;
    let row = OutboxRow {
        n,
        at: state.moment,
        sent: false,
        ops: ops.copy()?,
    };
    write_all(
        alloc,
        &mut state.tables,
        &settings.endpoint,
        n,
        &plan.writes,
    )?;
    state.tables.outbox.insert(id.copy()?, row)?;
    state.tables.commits = n;
    let next = Phase::Sending {
        number: attempt.number,
        id: id.copy()?,
        ops,
        k: 0,
    };
    set_phase(state, attempt.w, next)?;
    Ok(true)
}

/// Settles by the verdict over what was read.
fn settle_by(
    alloc: Global,
    settings: &Settings,
    state: &mut State,
    attempt: &Attempt,
    outcome: Outcome,
) -> Result<bool, NoMemory>
    requires few { fails state.old attempt.now.number ≤ 1001 }
    requires can { (plan : Plan) → outcome.verdict ≡ verdict.Done plan → AllByRecursion (CanDispatch settings.now) plan.intents }
    ensures { (c : Constants) → c.settings ≡ settings.now →
        IsNewOutcome c state.old attempt.now.w attempt.now.number attempt.now.envelope.now outcome →
        IfOk result (λ b. Tried c state.old (Event.Settle attempt.now.w) state.new b) }
{
    let Outcome { reads, verdict } = outcome;
    match verdict {
        Verdict::Fault(fault) => {
            let why = Fail::Fault(fault);
            fail(alloc, settings, state, attempt, &why)?;
            Ok(true)
        }
        Verdict::Done(plan) => {
            let now = seen_again(alloc, &state.tables, &reads)?;
            match conflict(&reads, &now)? {
                Some(why) => {
                    fail(alloc, settings, state, attempt, &why)?;
                    Ok(true)
                }
                None => commit(alloc, settings, state, attempt, &plan),
            }
        }
    }
}

/// Settle.
pub fn settle<H: Handling>(
    alloc: Global,
    handling: &H,
    settings: &Settings,
    state: &mut State,
    w: u32,
) -> Result<bool, NoMemory>
    requires { CanSettle (constants_of (H.meaning handling.now) settings.now) state.old }
    ensures { IfOk result (λ b. Tried (constants_of (H.meaning handling.now) settings.now) state.old (Event.Settle w) state.new b) }
{
    let Some(looked) = looked_at(state, w)? else {
        return Ok(false);
    };
    let LookedAt {
        number,
        reads,
        envelope,
    } = looked;
    if let Some(phase) = known(state, number, &envelope)? {
        set_phase(state, w, phase)?;
        return Ok(true);
    }
    let outcome = handling.judge(alloc, &envelope, state.moment, reads)?;
    let attempt = Attempt {
        w,
        number,
        envelope: &envelope,
    };
    settle_by(alloc, settings, state, &attempt, outcome)
}

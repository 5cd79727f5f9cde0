//! What workers are at.
ghost use Rattle.std.specs.Prelude.{◌≡◌, ℕ, ◌+◌, ◌<◌, List, Option, IsSome, IsTrue, ◌↔◌, length, is_some};
ghost use Rattle.std.specs.FinMap as map;
ghost use Rattle.nb_base.specs.Messages.{Message};
ghost use Rattle.nb_base.specs.declared.entry.Op.{Op};
ghost use Rattle.nb_base.specs.declared.saga_row.Read.{Read};
ghost use Rattle.nb_core.specs.After.{are_busy};
ghost use Rattle.nb_core.specs.Changes.{put_phase};
ghost use Rattle.nb_core.specs.Standing.{number_of, phase_in};
ghost use Rattle.nb_core.specs.declared.phase.Phase.TheVariants as at;

use nb_base::{ByNumber, Envelope, Moment, Ops, Text};
use nb_core::Phase;

/// The entry that a worker took.
pub fn held(phases: &ByNumber<Phase>, w: u32) -> u64
    requires { (n : ℕ) × (phase_in phases.now w ≡ at.Held n) }
    ensures { phase_in phases.now w ≡ at.Held result }
{
    match phases.get(u64::from(w)) {
        Some(Phase::Held { number }) => *number,
        _ => unreachable!(),
    }
}

/// The entry for whose message a worker looked.
pub fn looked(phases: &ByNumber<Phase>, w: u32) -> u64
    requires { (n : ℕ) × (reads : List Read) × (phase_in phases.now w ≡ at.Looked n reads) }
    ensures { (reads : List Read) × (phase_in phases.now w ≡ at.Looked result reads) }
{
    match phases.get(u64::from(w)) {
        Some(Phase::Looked { number, reads: _ }) => *number,
        _ => unreachable!(),
    }
}

/// The entry with which a worker is done.
pub fn done(phases: &ByNumber<Phase>, w: u32) -> u64
    requires { (n : ℕ) × (phase_in phases.now w ≡ at.Done n) }
    ensures { phase_in phases.now w ≡ at.Done result }
{
    match phases.get(u64::from(w)) {
        Some(Phase::Done { number }) => *number,
        _ => unreachable!(),
    }
}

/// A worker's batch, of whose ops the first `k` were put.
#[derive(Drop)]
pub struct Batch<'a> {
    pub number: u64,
    pub id: &'a Text,
    pub ops: &'a Ops,
    pub k: u32,
}

/// The batch that a worker sends.
pub fn batch_of(phases: &ByNumber<Phase>, w: u32) -> Batch<'_>
    requires { (n : ℕ) × (id : List ℕ) × (ops : List Op) × (k : ℕ) × (phase_in phases.now w ≡ at.Sending n id ops k) }
    ensures { phase_in phases.now w ≡ at.Sending result.number result.id.now result.ops.now result.k }
{
    match phases.get(u64::from(w)) {
        Some(Phase::Sending { number, id, ops, k }) => Batch {
            number: *number,
            id,
            ops,
            k: *k,
        },
        _ => unreachable!(),
    }
}

/// A copy of a failed message, with where it goes.
#[derive(Drop)]
pub struct Leaving<'a> {
    pub number: u64,
    pub queue: &'a Text,
    pub due: Option<Moment>,
    pub copy: &'a Envelope,
}

/// The copy that a worker puts aside.
pub fn leaving_of(phases: &ByNumber<Phase>, w: u32) -> Leaving<'_>
    requires { (n : ℕ) × (queue : List ℕ) × (due : Option ℕ) × (copy : Message) × (phase_in phases.now w ≡ at.Leaving n queue due copy) }
    ensures { phase_in phases.now w ≡ at.Leaving result.number result.queue.now result.due result.copy.now }
{
    match phases.get(u64::from(w)) {
        Some(
            Phase::Leaving {
                number,
                queue,
                due,
                copy,
            },
        ) => Leaving {
            number: *number,
            queue,
            due: *due,
            copy,
        },
        _ => unreachable!(),
    }
}

/// Sets what a worker is at, which isn't idle. An idle one isn't there.
#[tactic(auto, unfolding(nb_core::specs::Changes::put_phase))]
pub fn set_phase(phases: &mut ByNumber<Phase>, w: u32, phase: Phase)
    requires { IsSome (map.get phases.old w) }
    ensures { phases.new ≡ put_phase phases.old w phase }
{
    if let Phase::Idle = phase {
        phases.remove(u64::from(w));
        return;
    }
    phases.replace(u64::from(w), phase);
}

/// One more op of a worker's batch was put.
#[tactic(auto, unfolding(nb_core::specs::Changes::put_phase))]
pub fn advance(phases: &mut ByNumber<Phase>, w: u32)
    requires { (n : ℕ) × (id : List ℕ) × (ops : List Op) × (k : ℕ) × (phase_in phases.old w ≡ at.Sending n id ops k) × (k < length ops) }
    ensures { (n k : ℕ) (id : List ℕ) (ops : List Op) → phase_in phases.old w ≡ at.Sending n id ops k → phases.new ≡ put_phase phases.old w (at.Sending n id ops (k + 1)) }
{
    let sending = phases.replace(u64::from(w), Phase::Idle);
    let Phase::Sending { number, id, ops, k } = sending else {
        unreachable!()
    };
    let next = Phase::Sending {
        number,
        id,
        ops,
        k: k + 1,
    };
    phases.replace(u64::from(w), next);
}

/// Whether a phase names an entry.
fn is_busy(phase: &Phase) -> bool
    ensures { result ≡ is_some (number_of phase.now) }
{
    match phase {
        Phase::Idle => false,
        Phase::Held { number: _ } => true,
        Phase::Looked {
            number: _,
            reads: _,
        } => true,
        Phase::Sending {
            number: _,
            id: _,
            ops: _,
            k: _,
        } => true,
        Phase::Leaving {
            number: _,
            queue: _,
            due: _,
            copy: _,
        } => true,
        Phase::Done { number: _ } => true,
    }
}

/// Whether some worker is at something.
fn are_busy(phases: &ByNumber<Phase>) -> bool
    ensures { result ≡ are_busy phases.now }
{
    for (_w, phase) in phases.iter() {
        if is_busy(phase) {
            return true;
        }
    }
    false
}

/// Whether no worker is at anything.
pub fn are_idle(phases: &ByNumber<Phase>) -> bool
    ensures { IsTrue result ↔ ((w : ℕ) → phase_in phases.now w ≡ at.Idle) }
{
    !are_busy(phases)
}

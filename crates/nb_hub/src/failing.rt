//! What the failure of a message comes to.
ghost use Rattle.std.specs.Prelude.{◌≡◌, ◌≤◌, ◌<◌, ◌+◌, ◌++◌, IfOk, vec_len, vec_capacity};
ghost use Rattle.nb_core.specs.Failing.{given_up};
ghost use Rattle.nb_core.specs.Standing.{fails_in};
ghost use Rattle.nb_hub.specs.Failures.{listed, settled_as, AmountsTo};

use nb_base::{ByNumber, Copied, Discard, Envelope, Moment, NoMemory, Settings, Text};
use nb_core::{Phase, Settled, move_after, phase_after};
use nb_headers::message_id;
use nb_recover::{Fail, Move};
use std::alloc::Global;

/// What the failure of a message comes to.
#[derive(Drop)]
pub struct Failure {
    /// How often the entry failed, this time included.
    pub count: u32,
    /// What is done with it.
    pub next: Move,
    /// What its worker is at then.
    pub phase: Phase,
    /// The message, where it is given up.
    pub given_up: Option<Discard>,
}

/// How often an entry has failed, this time included.
fn count_of(fails: &ByNumber<u32>, number: u64) -> u32
    requires { fails_in fails.now number ≤ 1001 }
    ensures { result ≡ fails_in fails.now number + 1 }
{
    match fails.get(number) {
        Some(count) => *count + 1,
        None => 1,
    }
}

/// The message, where it is given up.
fn give_up(
    alloc: Global,
    envelope: &Envelope,
    why: &Fail,
    next: Move,
) -> Result<Option<Discard>, NoMemory>
    ensures { IfOk result (λ d. listed d ≡ given_up envelope.now why.now next) }
{
    match next {
        Move::Again => Ok(None),
        Move::Later { round: _, delay: _ } => Ok(None),
        Move::Error => Ok(None),
        Move::Discard => {
            let id = message_id(envelope).copy()?;
            let name = Text::new(alloc, why.name())?;
            Ok(Some(Discard { id, name }))
        }
    }
}

/// What it comes to that an entry with this message fails at this moment.
pub fn failure_of(
    alloc: Global,
    settings: &Settings,
    moment: Moment,
    fails: &ByNumber<u32>,
    number: u64,
    envelope: &Envelope,
    why: &Fail,
) -> Result<Failure, NoMemory>
    requires { fails_in fails.now number ≤ 1001 }
    ensures { IfOk result (AmountsTo settings.now moment fails.now number envelope.now why.now) }
{
    let count = count_of(fails, number);
    let next = move_after(settings, count, envelope, why);
    let phase = phase_after(alloc, settings, moment, number, envelope, why, next)?;
    let given_up = give_up(alloc, envelope, why, next)?;
    Ok(Failure {
        count,
        next,
        phase,
        given_up,
    })
}

/// Notes the message that is given up, where one is.
pub fn add(discarded: &mut Vec<Discard>, given_up: Option<Discard>)
    requires { vec_len discarded.old < vec_capacity discarded.old }
    ensures { discarded.new.items ≡ discarded.old.items ++ listed given_up }
{
    if let Some(discard) = given_up {
        discarded.push_reserved(discard);
    }
}

/// The answer of a failure by this, after which this is done.
pub fn settled_by(next: Move, why: Fail) -> Settled
    ensures { result ≡ settled_as why next }
{
    match next {
        Move::Again => Settled::Again(why),
        Move::Later { round: _, delay: _ } => Settled::Later(why),
        Move::Error => Settled::Error(why),
        Move::Discard => Settled::Discarded(why),
    }
}

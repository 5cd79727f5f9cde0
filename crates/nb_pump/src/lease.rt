//! One lease of a worker.
ghost use Rattle.std.specs.Prelude.{◌≡◌};
ghost use Rattle.nb_core.specs.declared.call.Call.TheVariants as call;
ghost use Rattle.nb_core.specs.Calls.{Owns, Ready, state_of};
ghost use Rattle.nb_pump.specs.Leases.{Follows, HoldsMessage, MayJudge, TurnIs};

use crate::outcome::{Next, Turn};
use crate::rest::{follow, settle};
use nb_base::{Envelope, Gate, Handling, Moment, NoMemory, Point, Reads};
use nb_core::{Desk, DeskFault, Look, Taken};
use std::alloc::Global;

/// Judges the message over what was read for it, outside any lock, and settles it.
fn judge<M: Handling, D: Desk, G: Gate>(
    alloc: Global,
    handling: &M,
    moment: Moment,
    desk: &mut D,
    w: u32,
    gate: &G,
    envelope: &Envelope,
    reads: Reads,
) -> Result<(), DeskFault>
    requires judged { MayJudge (M.meaning handling.now) w envelope.now reads moment
        (D.view desk.old) }
    ensures follows { Follows w result (D.view desk.old) (D.view desk.new) }
    ensures stands { (start : D.Start) → D.stands start desk.old → D.stands start desk.new }
    ensures caused { D.caused desk.old → D.caused desk.new }
{
    gate.pass(w, Point::AfterLook);
    let outcome = match handling.judge(alloc, envelope, moment, reads) {
        Ok(outcome) => outcome,
        Err(NoMemory) => return Err(DeskFault::NoMemory),
    };
    gate.pass(w, Point::BeforeSettle);
    settle(desk, w, outcome)
}

/// Handles the message of the entry that the worker holds, to its end.
fn handle<M: Handling, D: Desk, G: Gate>(
    alloc: Global,
    handling: &M,
    moment: Moment,
    desk: &mut D,
    w: u32,
    gate: &G,
    envelope: &Envelope,
) -> Result<(), DeskFault>
    requires owns { Owns (D.view desk.old) w }
    requires holds { HoldsMessage (state_of (D.view desk.old)) w envelope.now }
    requires moment { (state_of (D.view desk.old)).moment ≡ moment }
    requires meaning { (D.view desk.old).fixed.meaning ≡ M.meaning handling.now }
    ensures follows { Follows w result (D.view desk.old) (D.view desk.new) }
    ensures stands { (start : D.Start) → D.stands start desk.old → D.stands start desk.new }
    ensures caused { D.caused desk.old → D.caused desk.new }
{
    handling.is_meaning();
    match desk.look(w)? {
        Look::Fresh(reads) => judge(alloc, handling, moment, desk, w, gate, envelope, reads),
        Look::Known { sent: true } => follow(desk, w, Next::Finish),
        Look::Known { sent: false } => follow(desk, w, Next::Dispatch),
    }
}

/// One lease of a worker, from the Take to its end. The gate is passed right after a look that
/// found the message new, and right after the evaluation.
pub fn turn<M: Handling, D: Desk, G: Gate>(
    alloc: Global,
    handling: &M,
    moment: Moment,
    desk: &mut D,
    w: u32,
    gate: &G,
) -> Result<Turn, DeskFault>
    requires idle { Ready (call.Take w) (D.view desk.old) }
    requires moment { (state_of (D.view desk.old)).moment ≡ moment }
    requires meaning { (D.view desk.old).fixed.meaning ≡ M.meaning handling.now }
    ensures turn { TurnIs w result (D.view desk.old) (D.view desk.new) }
    ensures stands { (start : D.Start) → D.stands start desk.old → D.stands start desk.new }
    ensures caused { D.caused desk.old → D.caused desk.new }
{
    match desk.take(w)? {
        Taken::Got(envelope) => {
            handle(alloc, handling, moment, desk, w, gate, &envelope)?;
            Ok(Turn::Ended)
        }
        Taken::Nothing => Ok(Turn::Nothing),
        Taken::Limit => Ok(Turn::Limit),
    }
}

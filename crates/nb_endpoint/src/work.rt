//! What is done at a desk.
ghost use Rattle.std.specs.Prelude.{◌≡◌, false};
ghost use Rattle.nb_core.specs.Calls.{state_of};
ghost use Rattle.nb_core.specs.Legal.{halted};
ghost use Rattle.nb_endpoint.specs.Works.{CanDo, Does, RunIs};
ghost use Rattle.nb_pump.specs.Drains.{Standing};

use crate::chore::Chore;
use nb_base::{Handling, Moment};
use nb_core::{Desk, DeskFault};
use nb_envelope::Envelopes;
use nb_pump::{drain_alone, load_all, purge_all, return_all};
use std::alloc::Global;

/// What is handled at a desk, and until when.
#[derive(Drop)]
pub struct Task {
    /// The messages to be loaded.
    pub messages: Envelopes,
    pub moment: Moment,
    /// The moment until which what is due is handled.
    pub until: Moment,
}

/// Loads the messages, and handles what is due.
fn run<H: Handling, D: Desk>(
    alloc: Global,
    handling: &H,
    task: &Task,
    desk: &mut D,
) -> Result<bool, DeskFault>
    requires standing { Standing (D.view desk.old) }
    requires on { halted (D.view desk.old).events ≡ false }
    requires moment { (state_of (D.view desk.old)).moment ≡ task.now.moment }
    requires meaning { (D.view desk.old).fixed.meaning ≡ H.meaning handling.now }
    ensures run { RunIs task.now.messages task.now.until result
        (D.view desk.old) (D.view desk.new) }
    ensures stands { (start : D.Start) → D.stands start desk.old → D.stands start desk.new }
    ensures caused { D.caused desk.old → D.caused desk.new }
{
    match load_all(desk, &task.messages) {
        Ok(()) => {}
        Err(fault) => return Err(fault),
    }
    drain_alone(alloc, handling, task.moment, desk, task.until)
}

/// Does what is to be done. It answers false where all Takes are made that are allowed, and
/// something is left.
pub fn serve<H: Handling, D: Desk>(
    alloc: Global,
    handling: &H,
    chore: &Chore,
    task: &Task,
    desk: &mut D,
) -> Result<bool, DeskFault>
    requires standing { Standing (D.view desk.old) }
    requires on { halted (D.view desk.old).events ≡ false }
    requires moment { (state_of (D.view desk.old)).moment ≡ task.now.moment }
    requires meaning { (D.view desk.old).fixed.meaning ≡ H.meaning handling.now }
    requires can { CanDo chore.now (D.view desk.old) }
    ensures does { Does chore.now task.now.messages task.now.until result
        (D.view desk.old) (D.view desk.new) }
    ensures stands { (start : D.Start) → D.stands start desk.old → D.stands start desk.new }
    ensures caused { D.caused desk.old → D.caused desk.new }
{
    match chore {
        Chore::Handle => run(alloc, handling, task, desk),
        Chore::Rest => Ok(true),
        Chore::Return(numbers) => match return_all(desk, numbers) {
            Ok(()) => Ok(true),
            Err(fault) => Err(fault),
        },
        Chore::Purge(ids) => match purge_all(desk, ids) {
            Ok(()) => Ok(true),
            Err(fault) => Err(fault),
        },
    }
}

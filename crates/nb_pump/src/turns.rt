//! Leases, one after another.
ghost use Rattle.std.specs.Prelude.{◌≡◌};
ghost use Rattle.nb_core.specs.Calls.{state_of};
ghost use Rattle.nb_pump.specs.Drains.{Standing, TurnsAre};

use crate::lease::turn;
use crate::outcome::Turn;
use nb_base::{Handling, Moment, OpenGate};
use nb_core::{Desk, DeskFault};
use std::alloc::Global;

/// Leases of worker 0 until nothing is free, which answers true, or no Take is left.
pub fn take_turns<M: Handling, D: Desk>(
    alloc: Global,
    handling: &M,
    moment: Moment,
    desk: &mut D,
) -> Result<bool, DeskFault>
    requires standing { Standing (D.view desk.old) }
    requires moment { (state_of (D.view desk.old)).moment ≡ moment }
    requires meaning { (D.view desk.old).fixed.meaning ≡ M.meaning handling.now }
    ensures turns { TurnsAre result (D.view desk.old) (D.view desk.new) }
    ensures stands { (start : D.Start) → D.stands start desk.old → D.stands start desk.new }
    ensures caused { D.caused desk.old → D.caused desk.new }
{
    loop {
        match turn(alloc, handling, moment, desk, 0, &OpenGate) {
            Ok(Turn::Ended) => {}
            Ok(Turn::Nothing) => return Ok(true),
            Ok(Turn::Limit) => return Ok(false),
            Err(fault) => return Err(fault),
        }
    }
}

//! A drain: releases, leases and ticks, until nothing is left to do.
ghost use Rattle.std.specs.Prelude.{◌≡◌};
ghost use Rattle.nb_core.specs.Calls.{state_of};
ghost use Rattle.nb_core.specs.Paced.{IsOwnEmpty, releasing, working};
ghost use Rattle.nb_core.specs.Past.{constants};
ghost use Rattle.nb_pump.specs.Drains.{DrainIs, Standing};

use crate::releases::{release_due, wind};
use crate::turns::take_turns;
use nb_base::{Handling, Moment};
use nb_core::{Desk, DeskFault};
use std::alloc::Global;

/// Lets time go on and makes leases, in turns, from where nothing stands in the own queue.
fn rounds<M: Handling, D: Desk>(
    alloc: Global,
    handling: &M,
    moment: Moment,
    desk: &mut D,
    until: Moment,
) -> Result<bool, DeskFault>
    requires standing { Standing (D.view desk.old) }
    requires moment { (state_of (D.view desk.old)).moment ≡ moment }
    requires meaning { (D.view desk.old).fixed.meaning ≡ M.meaning handling.now }
    requires empty { IsOwnEmpty (constants (D.view desk.old).fixed) (state_of (D.view desk.old)) }
    ensures drain { DrainIs until working result (D.view desk.old) (D.view desk.new) }
    ensures stands { (start : D.Start) → D.stands start desk.old → D.stands start desk.new }
    ensures caused { D.caused desk.old → D.caused desk.new }
{
    let mut now = moment;
    loop {
        match wind(desk, now, until) {
            Ok(Some(later)) => now = later,
            Ok(None) => return Ok(true),
            Err(fault) => return Err(fault),
        }
        match take_turns(alloc, handling, now, desk) {
            Ok(true) => {}
            Ok(false) => return desk.drained(until),
            Err(fault) => return Err(fault),
        }
    }
}

/// Works until nothing is left that is due at most `until`, which answers true, or until no Take is
/// left. It answers false only then, and only where something is left.
pub fn drain_alone<M: Handling, D: Desk>(
    alloc: Global,
    handling: &M,
    moment: Moment,
    desk: &mut D,
    until: Moment,
) -> Result<bool, DeskFault>
    requires standing { Standing (D.view desk.old) }
    requires moment { (state_of (D.view desk.old)).moment ≡ moment }
    requires meaning { (D.view desk.old).fixed.meaning ≡ M.meaning handling.now }
    ensures drain { DrainIs until releasing result (D.view desk.old) (D.view desk.new) }
    ensures stands { (start : D.Start) → D.stands start desk.old → D.stands start desk.new }
    ensures caused { D.caused desk.old → D.caused desk.new }
{
    match release_due(desk, moment) {
        Ok(()) => {}
        Err(fault) => return Err(fault),
    }
    match take_turns(alloc, handling, moment, desk) {
        Ok(true) => rounds(alloc, handling, moment, desk, until),
        Ok(false) => desk.drained(until),
        Err(fault) => Err(fault),
    }
}

//! What a worker does behind its Take, from the end back.
ghost use Rattle.nb_core.specs.declared.call.Call.TheVariants as call;
ghost use Rattle.nb_core.specs.Calls.{Ready};
ghost use Rattle.nb_pump.specs.Leases.{CanFollow, Follows};

use crate::outcome::{Next, next_after};
use nb_base::Outcome;
use nb_core::{Desk, DeskFault};

/// Removes the worker's entry.
pub fn finish<D: Desk>(desk: &mut D, w: u32) -> Result<(), DeskFault>
    requires { Ready (call.Remove w) (D.view desk.old) }
    ensures follows { Follows w result (D.view desk.old) (D.view desk.new) }
    ensures stands { (start : D.Start) → D.stands start desk.old → D.stands start desk.new }
    ensures caused { D.caused desk.old → D.caused desk.new }
{
    desk.remove(w)
}

/// Marks the record, and removes the entry.
pub fn mark<D: Desk>(desk: &mut D, w: u32) -> Result<(), DeskFault>
    requires { Ready (call.Mark w) (D.view desk.old) }
    ensures follows { Follows w result (D.view desk.old) (D.view desk.new) }
    ensures stands { (start : D.Start) → D.stands start desk.old → D.stands start desk.new }
    ensures caused { D.caused desk.old → D.caused desk.new }
{
    desk.mark(w)?;
    finish(desk, w)
}

/// Sends what is left of the batch, and marks the record.
pub fn dispatch<D: Desk>(desk: &mut D, w: u32) -> Result<(), DeskFault>
    requires { Ready (call.Unsent w) (D.view desk.old) }
    ensures follows { Follows w result (D.view desk.old) (D.view desk.new) }
    ensures stands { (start : D.Start) → D.stands start desk.old → D.stands start desk.new }
    ensures caused { D.caused desk.old → D.caused desk.new }
{
    let left = desk.unsent(w)?;
    for _ in 0..left {
        desk.send(w)?;
    }
    mark(desk, w)
}

/// Puts the copy of the failed message, and removes the entry.
pub fn put_aside<D: Desk>(desk: &mut D, w: u32) -> Result<(), DeskFault>
    requires { Ready (call.Aside w) (D.view desk.old) }
    ensures follows { Follows w result (D.view desk.old) (D.view desk.new) }
    ensures stands { (start : D.Start) → D.stands start desk.old → D.stands start desk.new }
    ensures caused { D.caused desk.old → D.caused desk.new }
{
    desk.aside(w)?;
    finish(desk, w)
}

/// Does what is left.
pub fn follow<D: Desk>(desk: &mut D, w: u32, next: Next) -> Result<(), DeskFault>
    requires { CanFollow next w (D.view desk.old) }
    ensures follows { Follows w result (D.view desk.old) (D.view desk.new) }
    ensures stands { (start : D.Start) → D.stands start desk.old → D.stands start desk.new }
    ensures caused { D.caused desk.old → D.caused desk.new }
{
    match next {
        Next::Dispatch => dispatch(desk, w),
        Next::PutAside => put_aside(desk, w),
        Next::Finish => finish(desk, w),
        Next::Leave => Ok(()),
    }
}

/// Settles the message, and does what is left then.
pub fn settle<D: Desk>(desk: &mut D, w: u32, outcome: Outcome) -> Result<(), DeskFault>
    requires { Ready (call.Settle w outcome) (D.view desk.old) }
    ensures follows { Follows w result (D.view desk.old) (D.view desk.new) }
    ensures stands { (start : D.Start) → D.stands start desk.old → D.stands start desk.new }
    ensures caused { D.caused desk.old → D.caused desk.new }
{
    let settled = desk.settle(w, outcome)?;
    follow(desk, w, next_after(&settled))
}

//! What ends a stage.
ghost use Rattle.std.specs.Prelude.{◌≡◌, OnOk};
ghost use Rattle.nb_core.specs.Calls.{state_of};
ghost use Rattle.nb_hub.specs.Kept.{seen};
ghost use Rattle.nb_hub.specs.Ledgers.{past_of};
ghost use Rattle.nb_pump.specs.Drains.{Standing};
ghost use Rattle.nb_schedule.specs.Seats.{IsOn};

use crate::lent::Lent;
use crate::seat::is_empty;
use crate::slip::Slip;
use crate::stage::Stage;
use nb_base::{Envelope, Handling, Items, Moment, NoMemory};
use nb_cells::{Cells, MemCells};
use nb_core::{Desk, DeskFault, History, State};
use nb_hub::{Closed, Hub};
use nb_pump::{drain_alone, load_all, purge_all, return_all};
use std::alloc::Global;

/// What is left of a stage, and how its last work ended.
#[derive(Drop)]
pub struct Ended {
    /// A drain answers false where no Take is left and something is.
    pub done: Result<bool, Slip>,
    pub post: MemCells,
    pub base: MemCells,
    pub history: History,
    pub state: State,
}

/// Asks a desk at rest whether it stopped, as it is before it begins.
fn ask<D: Desk>(desk: &mut D) -> Result<(), DeskFault>
    requires { Standing (D.view desk.old) }
    ensures { OnOk result (IsOn (D.view desk.old) (D.view desk.new)) }
{
    match desk.next_due() {
        Ok(_) => Ok(()),
        Err(fault) => Err(fault),
    }
}

/// Loads messages at a desk at rest, and handles what is due until a moment.
fn run_at<H: Handling, D: Desk>(
    alloc: Global,
    handling: &H,
    moment: Moment,
    desk: &mut D,
    messages: &Items<Envelope>,
    until: Moment,
) -> Result<bool, DeskFault>
    requires standing { Standing (D.view desk.old) }
    requires moment { (state_of (D.view desk.old)).moment ≡ moment }
    requires meaning { (D.view desk.old).fixed.meaning ≡ H.meaning handling.now }
{
    match ask(desk) {
        Ok(()) => {}
        Err(fault) => return Err(fault),
    }
    match load_all(desk, messages) {
        Ok(()) => {}
        Err(fault) => return Err(fault),
    }
    drain_alone(alloc, handling, moment, desk, until)
}

/// Puts all that can be put back at a hub at rest.
fn return_at<M: Handling + Drop, P: Cells, D: Cells>(
    hub: &mut Hub<M, P, D>,
) -> Result<(), DeskFault>
    requires { Standing (seen (past_of (M.meaning hub.old.handlers) hub.old.course)) }
{
    match ask(hub) {
        Ok(()) => {}
        Err(fault) => return Err(fault),
    }
    let numbers = match hub.returnable() {
        Ok(numbers) => numbers,
        Err(NoMemory) => return Err(DeskFault::NoMemory),
    };
    return_all(hub, &numbers)
}

/// Purges all that can be purged at a hub at rest.
fn purge_at<M: Handling + Drop, P: Cells, D: Cells>(hub: &mut Hub<M, P, D>) -> Result<(), DeskFault>
    requires { Standing (seen (past_of (M.meaning hub.old.handlers) hub.old.course)) }
{
    match ask(hub) {
        Ok(()) => {}
        Err(fault) => return Err(fault),
    }
    let ids = match hub.purgeable() {
        Ok(ids) => ids,
        Err(NoMemory) => return Err(DeskFault::NoMemory),
    };
    purge_all(hub, &ids)
}

/// How work ended that answers nothing.
fn done_by(answer: Result<(), DeskFault>) -> Result<bool, Slip> {
    match answer {
        Ok(()) => Ok(true),
        Err(fault) => Err(Slip::Refused(fault)),
    }
}

/// How a drain ended.
fn drained_by(answer: Result<bool, DeskFault>) -> Result<bool, Slip> {
    match answer {
        Ok(drained) => Ok(drained),
        Err(fault) => Err(Slip::Refused(fault)),
    }
}

/// What is left of a stage's hub.
fn left_of(done: Result<bool, Slip>, hub: Hub<Lent, MemCells, MemCells>) -> Ended {
    let Closed {
        post,
        base,
        history,
        state,
    } = hub.close();
    Ended {
        done,
        post,
        base,
        history,
        state,
    }
}

impl<'a> Stage<'a> {
    /// The stores, the history and its state.
    pub fn close(self) -> Ended {
        let Stage {
            alloc: _,
            handlers: _,
            hub,
            workers: _,
            moment: _,
            seats: _,
        } = self;
        left_of(Ok(true), hub)
    }

    /// Loads messages, and handles what is due until a moment.
    pub fn run(self, messages: &Items<Envelope>, until: Moment) -> Ended {
        let Stage {
            alloc,
            handlers,
            hub,
            workers,
            moment,
            seats,
        } = self;
        if workers == 0 || !is_empty(&seats) {
            return left_of(Err(Slip::OutOfTurn), hub);
        }
        let mut hub = hub;
        let answer = run_at(alloc, handlers, moment, &mut hub, messages, until);
        left_of(drained_by(answer), hub)
    }

    /// Puts all back that can be put back.
    pub fn give_back(self) -> Ended {
        let Stage {
            alloc: _,
            handlers: _,
            hub,
            workers,
            moment: _,
            seats,
        } = self;
        if workers == 0 || !is_empty(&seats) {
            return left_of(Err(Slip::OutOfTurn), hub);
        }
        let mut hub = hub;
        let answer = return_at(&mut hub);
        left_of(done_by(answer), hub)
    }

    /// Purges all that can be purged.
    pub fn purge(self) -> Ended {
        let Stage {
            alloc: _,
            handlers: _,
            hub,
            workers,
            moment: _,
            seats,
        } = self;
        if workers == 0 || !is_empty(&seats) {
            return left_of(Err(Slip::OutOfTurn), hub);
        }
        let mut hub = hub;
        let answer = purge_at(&mut hub);
        left_of(done_by(answer), hub)
    }
}

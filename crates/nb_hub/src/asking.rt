//! The calls that only ask.
ghost use Rattle.std.specs.Prelude.{◌↔◌, ◌<◌, IsTrue, MatchOption};
ghost use Rattle.nb_core.specs.Calls.{Ready};
ghost use Rattle.nb_core.specs.declared.call.Answer.TheVariants as answer;
ghost use Rattle.nb_core.specs.declared.call.Call.TheVariants as call;
ghost use Rattle.nb_hub.specs.Kept.{seen};
ghost use Rattle.nb_hub.specs.Ledgers.{past_of};
ghost use Rattle.nb_hub.specs.Served.{Served};

use crate::hub::Hub;
use crate::phases::{are_idle, batch_of};
use nb_base::{Handling, Moment, Waiting};
use nb_cells::Cells;
use nb_core::DeskFault;

/// Whether nothing is due until a moment.
fn is_later(next: Option<Waiting>, until: Moment) -> bool
    ensures { IsTrue result ↔ MatchOption next (Unit {0}) (λ x. until < x.due) }
{
    match next {
        Some(next) => next.due.seconds() > until.seconds(),
        None => true,
    }
}

impl<M: Handling, P: Cells, D: Cells> Hub<M, P, D> {
    /// Unsent.
    pub fn ask_unsent(&mut self, w: u32) -> Result<u32, DeskFault>
        requires { Ready (call.Unsent w) (seen (past_of (M.meaning self.old.handlers) self.old.course)) }
        ensures { Served D.honest D.now D.images D.firm D.count P.honest P.now P.images P.firm P.count (call.Unsent w) (answer.Unsent result) (past_of (M.meaning self.old.handlers) self.old.course) (past_of (M.meaning self.new.handlers) self.new.course) self.old.base self.new.base self.old.post self.new.post }
    {
        if self.ledger.is_halted() {
            return Err(DeskFault::Halted);
        }
        let batch = batch_of(&self.phases, w);
        Ok(batch.ops.len() as u32 - batch.k)
    }

    /// NextDue.
    pub fn ask_next_due(&mut self) -> Result<Option<Waiting>, DeskFault>
        ensures { Served D.honest D.now D.images D.firm D.count P.honest P.now P.images P.firm P.count (call.NextDue) (answer.Due result) (past_of (M.meaning self.old.handlers) self.old.course) (past_of (M.meaning self.new.handlers) self.new.course) self.old.base self.new.base self.old.post self.new.post }
    {
        if self.ledger.is_halted() {
            return Err(DeskFault::Halted);
        }
        Ok(self.transport.post.next_due())
    }

    /// IsDrained.
    pub fn ask_drained(&mut self, until: Moment) -> Result<bool, DeskFault>
        ensures { Served D.honest D.now D.images D.firm D.count P.honest P.now P.images P.firm P.count (call.IsDrained until) (answer.IsDrained result) (past_of (M.meaning self.old.handlers) self.old.course) (past_of (M.meaning self.new.handlers) self.new.course) self.old.base self.new.base self.old.post self.new.post }
    {
        if self.ledger.is_halted() {
            return Err(DeskFault::Halted);
        }
        if !are_idle(&self.phases) {
            return Ok(false);
        }
        if self.transport.least_free().is_some() {
            return Ok(false);
        }
        Ok(is_later(self.transport.post.next_due(), until))
    }
}

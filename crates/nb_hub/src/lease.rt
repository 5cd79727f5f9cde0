//! The calls of a worker with its entry, but for Look and Settle.
ghost use Rattle.nb_core.specs.Calls.{Ready};
ghost use Rattle.nb_core.specs.declared.call.Answer.TheVariants as answer;
ghost use Rattle.nb_core.specs.declared.call.Call.TheVariants as call;
ghost use Rattle.nb_hub.specs.Kept.{seen};
ghost use Rattle.nb_hub.specs.Ledgers.{past_of};
ghost use Rattle.nb_hub.specs.Served.{Served};

use crate::hub::Hub;
use crate::phases::{advance, batch_of, done, leaving_of, set_phase};
use nb_base::{Copied, Handling};
use nb_cells::Cells;
use nb_core::{DeskFault, Event, Phase, Taken};

impl<M: Handling, P: Cells, D: Cells> Hub<M, P, D> {
    /// Take.
    pub fn make_take(&mut self, w: u32) -> Result<Taken, DeskFault>
        requires { Ready (call.Take w) (seen (past_of (M.meaning self.old.handlers) self.old.course)) }
        ensures { Served D.honest D.now D.images D.firm D.count P.honest P.now P.images P.firm P.count (call.Take w) (answer.Took result) (past_of (M.meaning self.old.handlers) self.old.course) (past_of (M.meaning self.new.handlers) self.new.course) self.old.base self.new.base self.old.post self.new.post }
    {
        self.ledger.begin()?;
        if self.ledger.is_spent() {
            return Ok(Taken::Limit);
        }
        let Some(number) = self.transport.least_free() else {
            return Ok(Taken::Nothing);
        };
        let envelope = self.transport.post.entry(number).unwrap().envelope.copy()?;
        self.phases.insert(u64::from(w), Phase::Held { number })?;
        self.transport.hold(number);
        self.ledger.note_take(w);
        Ok(Taken::Got(envelope))
    }

    /// Send.
    pub fn make_send(&mut self, w: u32) -> Result<(), DeskFault>
        requires { Ready (call.Send w) (seen (past_of (M.meaning self.old.handlers) self.old.course)) }
        ensures { Served D.honest D.now D.images D.firm D.count P.honest P.now P.images P.firm P.count (call.Send w) (answer.Plain result) (past_of (M.meaning self.old.handlers) self.old.course) (past_of (M.meaning self.new.handlers) self.new.course) self.old.base self.new.base self.old.post self.new.post }
    {
        self.ledger.begin()?;
        let batch = batch_of(&self.phases, w);
        let op = batch.ops.at(batch.k as usize);
        match self
            .transport
            .put(self.alloc, &op.queue, op.due, &op.envelope)
        {
            Ok(()) => {
                advance(&mut self.phases, w);
                self.ledger.note(Event::Send { w });
                Ok(())
            }
            Err(fault) => Err(self.ledger.stop_post(fault)),
        }
    }

    /// Mark.
    pub fn make_mark(&mut self, w: u32) -> Result<(), DeskFault>
        requires { Ready (call.Mark w) (seen (past_of (M.meaning self.old.handlers) self.old.course)) }
        ensures { Served D.honest D.now D.images D.firm D.count P.honest P.now P.images P.firm P.count (call.Mark w) (answer.Plain result) (past_of (M.meaning self.old.handlers) self.old.course) (past_of (M.meaning self.new.handlers) self.new.course) self.old.base self.new.base self.old.post self.new.post }
    {
        self.ledger.begin()?;
        let batch = batch_of(&self.phases, w);
        let number = batch.number;
        match self.store.mark(self.alloc, batch.id) {
            Ok(()) => {
                set_phase(&mut self.phases, w, Phase::Done { number });
                self.ledger.note(Event::Mark { w });
                Ok(())
            }
            Err(fault) => Err(self.ledger.stop_base(fault)),
        }
    }

    /// Aside.
    pub fn make_aside(&mut self, w: u32) -> Result<(), DeskFault>
        requires { Ready (call.Aside w) (seen (past_of (M.meaning self.old.handlers) self.old.course)) }
        ensures { Served D.honest D.now D.images D.firm D.count P.honest P.now P.images P.firm P.count (call.Aside w) (answer.Plain result) (past_of (M.meaning self.old.handlers) self.old.course) (past_of (M.meaning self.new.handlers) self.new.course) self.old.base self.new.base self.old.post self.new.post }
    {
        self.ledger.begin()?;
        let leaving = leaving_of(&self.phases, w);
        let number = leaving.number;
        match self
            .transport
            .put(self.alloc, leaving.queue, leaving.due, leaving.copy)
        {
            Ok(()) => {
                set_phase(&mut self.phases, w, Phase::Done { number });
                self.ledger.note(Event::Aside { w });
                Ok(())
            }
            Err(fault) => Err(self.ledger.stop_post(fault)),
        }
    }

    /// Remove.
    pub fn make_remove(&mut self, w: u32) -> Result<(), DeskFault>
        requires { Ready (call.Remove w) (seen (past_of (M.meaning self.old.handlers) self.old.course)) }
        ensures { Served D.honest D.now D.images D.firm D.count P.honest P.now P.images P.firm P.count (call.Remove w) (answer.Plain result) (past_of (M.meaning self.old.handlers) self.old.course) (past_of (M.meaning self.new.handlers) self.new.course) self.old.base self.new.base self.old.post self.new.post }
    {
        self.ledger.begin()?;
        let number = done(&self.phases, w);
        match self.transport.remove(self.alloc, number) {
            Ok(()) => {
                self.fails.remove(number);
                self.phases.remove(u64::from(w));
                self.ledger.note(Event::Remove { w });
                Ok(())
            }
            Err(fault) => Err(self.ledger.stop_post(fault)),
        }
    }
}

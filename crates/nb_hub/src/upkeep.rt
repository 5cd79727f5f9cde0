//! The calls that no worker makes.
ghost use Rattle.nb_core.specs.Calls.{Ready};
ghost use Rattle.nb_core.specs.declared.call.Answer.TheVariants as answer;
ghost use Rattle.nb_core.specs.declared.call.Call.TheVariants as call;
ghost use Rattle.nb_hub.specs.Kept.{seen};
ghost use Rattle.nb_hub.specs.Ledgers.{past_of};
ghost use Rattle.nb_hub.specs.Served.{Served};

use crate::hub::Hub;
use crate::parts::unmark;
use nb_base::{Copied, Envelope, Handling, Moment, Text};
use nb_cells::Cells;
use nb_core::{DeskFault, Event};
use nb_recover::return_copy;

impl<M: Handling, P: Cells, D: Cells> Hub<M, P, D> {
    /// Load.
    pub fn make_load(&mut self, envelope: Envelope) -> Result<(), DeskFault>
        ensures { Served D.honest D.now D.images D.firm D.count P.honest P.now P.images P.firm P.count (call.Load envelope) (answer.Plain result) (past_of (M.meaning self.old.handlers) self.old.course) (past_of (M.meaning self.new.handlers) self.new.course) self.old.base self.new.base self.old.post self.new.post }
    {
        self.ledger.begin()?;
        // An envelope is a message.
        let _body = envelope.body();
        let own = &self.ledger.settings().endpoint;
        match self.transport.put(self.alloc, own, None, &envelope) {
            Ok(()) => {
                self.ledger.note(Event::Load { envelope });
                Ok(())
            }
            Err(fault) => Err(self.ledger.stop_post(fault)),
        }
    }

    /// Tick.
    pub fn make_tick(&mut self, to: Moment) -> Result<(), DeskFault>
        requires { Ready (call.Tick to) (seen (past_of (M.meaning self.old.handlers) self.old.course)) }
        ensures { Served D.honest D.now D.images D.firm D.count P.honest P.now P.images P.firm P.count (call.Tick to) (answer.Plain result) (past_of (M.meaning self.old.handlers) self.old.course) (past_of (M.meaning self.new.handlers) self.new.course) self.old.base self.new.base self.old.post self.new.post }
    {
        self.ledger.begin()?;
        self.moment = to;
        self.ledger.note(Event::Tick { to });
        Ok(())
    }

    /// Release.
    pub fn make_release(&mut self, number: u64) -> Result<(), DeskFault>
        requires { Ready (call.Release number) (seen (past_of (M.meaning self.old.handlers) self.old.course)) }
        ensures { Served D.honest D.now D.images D.firm D.count P.honest P.now P.images P.firm P.count (call.Release number) (answer.Plain result) (past_of (M.meaning self.old.handlers) self.old.course) (past_of (M.meaning self.new.handlers) self.new.course) self.old.base self.new.base self.old.post self.new.post }
    {
        self.ledger.begin()?;
        match self.transport.release(self.alloc, number) {
            Ok(()) => {
                self.ledger.note(Event::Release { number });
                Ok(())
            }
            Err(fault) => Err(self.ledger.stop_post(fault)),
        }
    }

    /// Purge.
    pub fn make_purge(&mut self, id: &Text) -> Result<(), DeskFault>
        requires { Ready (call.Purge id.now) (seen (past_of (M.meaning self.old.handlers) self.old.course)) }
        ensures { Served D.honest D.now D.images D.firm D.count P.honest P.now P.images P.firm P.count (call.Purge id.now) (answer.Plain result) (past_of (M.meaning self.old.handlers) self.old.course) (past_of (M.meaning self.new.handlers) self.new.course) self.old.base self.new.base self.old.post self.new.post }
    {
        self.ledger.begin()?;
        let copy = id.copy()?;
        match self.store.purge(self.alloc, id) {
            Ok(()) => {
                self.ledger.note(Event::Purge { id: copy });
                Ok(())
            }
            Err(fault) => Err(self.ledger.stop_base(fault)),
        }
    }

    /// PutBack.
    pub fn make_put_back(&mut self, number: u64) -> Result<(), DeskFault>
        requires { Ready (call.PutBack number) (seen (past_of (M.meaning self.old.handlers) self.old.course)) }
        ensures { Served D.honest D.now D.images D.firm D.count P.honest P.now P.images P.firm P.count (call.PutBack number) (answer.Plain result) (past_of (M.meaning self.old.handlers) self.old.course) (past_of (M.meaning self.new.handlers) self.new.course) self.old.base self.new.base self.old.post self.new.post }
    {
        self.ledger.begin()?;
        let entry = self.transport.post.entry(number).unwrap();
        let Some(returned) = return_copy(&entry.envelope)? else {
            unreachable!()
        };
        let was_back = self.back.get(number).is_some();
        self.back.insert(number, ())?;
        match self
            .transport
            .put(self.alloc, &returned.queue, None, &returned.envelope)
        {
            Ok(()) => {
                self.ledger.note(Event::PutBack { number });
                Ok(())
            }
            Err(fault) => {
                unmark(&mut self.back, number, was_back);
                Err(self.ledger.stop_post(fault))
            }
        }
    }

    /// DropBack.
    pub fn make_drop_back(&mut self, number: u64) -> Result<(), DeskFault>
        requires { Ready (call.DropBack number) (seen (past_of (M.meaning self.old.handlers) self.old.course)) }
        ensures { Served D.honest D.now D.images D.firm D.count P.honest P.now P.images P.firm P.count (call.DropBack number) (answer.Plain result) (past_of (M.meaning self.old.handlers) self.old.course) (past_of (M.meaning self.new.handlers) self.new.course) self.old.base self.new.base self.old.post self.new.post }
    {
        self.ledger.begin()?;
        match self.transport.remove(self.alloc, number) {
            Ok(()) => {
                self.fails.remove(number);
                self.back.remove(number);
                self.ledger.note(Event::DropBack { number });
                Ok(())
            }
            Err(fault) => Err(self.ledger.stop_post(fault)),
        }
    }
}

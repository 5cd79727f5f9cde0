//! The hub as a desk.
ghost use Rattle.nb_hub.specs.Kept.{Counted};
ghost use Rattle.nb_hub.specs.Ledgers.{past_of};

use crate::hub::Hub;
use nb_base::{Envelope, Handling, Moment, Outcome, Text, Waiting};
use nb_cells::Cells;
use nb_core::{Desk, DeskFault, Look, Settled, Taken};

impl<M: Handling, P: Cells, D: Cells> Hub<M, P, D> {
    /// Why a store may be said to have failed: its count of faults rose.
    fn cause(&self)
        ensures { Counted (past_of (M.meaning self.now.handlers) self.now.course).fixed self.now.course.events (D.count self.now.base) (P.count self.now.post) }
    {
        let _moment = self.moment;
    }
}

impl<M: Handling, P: Cells, D: Cells> Desk for Hub<M, P, D> {
    ghost use Rattle.nb_hub.specs.Kept.{Counted, seen};
    ghost use Rattle.nb_hub.specs.Ledgers.{past_of};
    ghost use Rattle.nb_hub.specs.Desks.{DeskStands, Started};

    // The one caller sees all.
    ghost view = { λ h. seen (past_of (M.meaning h.handlers) h.course) };

    // The maps that the two stores told.
    ghost Start = { Started };

    ghost stands = { λ start h. DeskStands D.honest D.now D.images D.firm P.honest P.now P.images P.firm start (past_of (M.meaning h.handlers) h.course) h.base h.post };

    ghost caused = { λ h. Counted (past_of (M.meaning h.handlers) h.course).fixed (past_of (M.meaning h.handlers) h.course).events (D.count h.base) (P.count h.post) };

    fn legal(&self) {
        let _moment = self.moment;
    }

    fn load(&mut self, envelope: Envelope) -> Result<(), DeskFault> {
        let answer = self.make_load(envelope);
        self.cause();
        answer
    }

    fn take(&mut self, w: u32) -> Result<Taken, DeskFault> {
        let answer = self.make_take(w);
        self.cause();
        answer
    }

    fn look(&mut self, w: u32) -> Result<Look, DeskFault> {
        let answer = self.make_look(w);
        self.cause();
        answer
    }

    fn settle(&mut self, w: u32, outcome: Outcome) -> Result<Settled, DeskFault> {
        let answer = self.make_settle(w, outcome);
        self.cause();
        answer
    }

    fn send(&mut self, w: u32) -> Result<(), DeskFault> {
        let answer = self.make_send(w);
        self.cause();
        answer
    }

    fn mark(&mut self, w: u32) -> Result<(), DeskFault> {
        let answer = self.make_mark(w);
        self.cause();
        answer
    }

    fn aside(&mut self, w: u32) -> Result<(), DeskFault> {
        let answer = self.make_aside(w);
        self.cause();
        answer
    }

    fn remove(&mut self, w: u32) -> Result<(), DeskFault> {
        let answer = self.make_remove(w);
        self.cause();
        answer
    }

    fn tick(&mut self, to: Moment) -> Result<(), DeskFault> {
        let answer = self.make_tick(to);
        self.cause();
        answer
    }

    fn release(&mut self, number: u64) -> Result<(), DeskFault> {
        let answer = self.make_release(number);
        self.cause();
        answer
    }

    fn purge(&mut self, id: &Text) -> Result<(), DeskFault> {
        let answer = self.make_purge(id);
        self.cause();
        answer
    }

    fn put_back(&mut self, number: u64) -> Result<(), DeskFault> {
        let answer = self.make_put_back(number);
        self.cause();
        answer
    }

    fn drop_back(&mut self, number: u64) -> Result<(), DeskFault> {
        let answer = self.make_drop_back(number);
        self.cause();
        answer
    }

    fn unsent(&mut self, w: u32) -> Result<u32, DeskFault> {
        let answer = self.ask_unsent(w);
        self.cause();
        answer
    }

    fn next_due(&mut self) -> Result<Option<Waiting>, DeskFault> {
        let answer = self.ask_next_due();
        self.cause();
        answer
    }

    fn drained(&mut self, until: Moment) -> Result<bool, DeskFault> {
        let answer = self.ask_drained(until);
        self.cause();
        answer
    }
}

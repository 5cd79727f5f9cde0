//! The calls that no worker makes.

use crate::seat::is_empty;
use crate::slip::Slip;
use crate::stage::Stage;
use nb_base::{Envelope, Moment, Waiting};
use nb_core::Desk;

impl<'a> Stage<'a> {
    /// Puts a message into the own queue.
    pub fn load(&mut self, envelope: Envelope) -> Result<(), Slip> {
        match self.hub.load(envelope) {
            Ok(()) => Ok(()),
            Err(fault) => Err(Slip::Refused(fault)),
        }
    }

    /// The delayed entry that is due first.
    pub fn next_due(&mut self) -> Result<Option<Waiting>, Slip> {
        match self.hub.next_due() {
            Ok(next) => Ok(next),
            Err(fault) => Err(Slip::Refused(fault)),
        }
    }

    /// Whether nothing is left to do until this moment.
    pub fn drained(&mut self, until: Moment) -> Result<bool, Slip> {
        match self.hub.drained(until) {
            Ok(drained) => Ok(drained),
            Err(fault) => Err(Slip::Refused(fault)),
        }
    }

    /// Lets time go on, where every worker is idle.
    pub fn tick(&mut self, to: Moment) -> Result<(), Slip> {
        if !is_empty(&self.seats) || to.seconds() < self.moment.seconds() {
            return Err(Slip::OutOfTurn);
        }
        match self.hub.tick(to) {
            Ok(()) => {
                self.moment = to;
                Ok(())
            }
            Err(fault) => Err(Slip::Refused(fault)),
        }
    }

    /// Takes the due of the first delayed entry away, where it is due and every worker is idle; its number.
    pub fn release(&mut self) -> Result<u64, Slip> {
        if !is_empty(&self.seats) {
            return Err(Slip::OutOfTurn);
        }
        let next = match self.hub.next_due() {
            Ok(Some(next)) => next,
            Ok(None) => return Err(Slip::OutOfTurn),
            Err(fault) => return Err(Slip::Refused(fault)),
        };
        if next.due.seconds() > self.moment.seconds() {
            return Err(Slip::OutOfTurn);
        }
        match self.hub.release(next.number) {
            Ok(()) => Ok(next.number),
            Err(fault) => Err(Slip::Refused(fault)),
        }
    }
}

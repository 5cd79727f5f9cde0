//! The calls of a worker.

use crate::seat::{Seat, forget, is_done, is_idle, is_leaving, is_sending, leave, seat_after, sit};
use crate::slip::Slip;
use crate::stage::Stage;
use nb_base::{Copied, Handling, NoMemory};
use nb_core::{Desk, Look, Settled, Taken};

impl<'a> Stage<'a> {
    /// Takes the free entry with the least number.
    pub fn take(&mut self, w: u32) -> Result<Taken, Slip> {
        if w >= self.workers || !is_idle(&self.seats, w) {
            return Err(Slip::OutOfTurn);
        }
        forget(&mut self.seats, w)?;
        match self.hub.take(w) {
            Ok(Taken::Got(envelope)) => {
                let copy = envelope.copy();
                sit(&mut self.seats, w, Some(Seat::Held(envelope)));
                Ok(Taken::Got(copy?))
            }
            Ok(Taken::Nothing) => {
                sit(&mut self.seats, w, None);
                Ok(Taken::Nothing)
            }
            Ok(Taken::Limit) => {
                sit(&mut self.seats, w, None);
                Ok(Taken::Limit)
            }
            Err(fault) => {
                sit(&mut self.seats, w, None);
                Err(Slip::Refused(fault))
            }
        }
    }

    /// Looks whether the message is recorded, and if not reads for it.
    pub fn look(&mut self, w: u32) -> Result<Look, Slip> {
        if w >= self.workers {
            return Err(Slip::OutOfTurn);
        }
        let envelope = match leave(&mut self.seats, w) {
            Some(Seat::Held(envelope)) => envelope,
            Some(other) => {
                sit(&mut self.seats, w, Some(other));
                return Err(Slip::OutOfTurn);
            }
            None => return Err(Slip::OutOfTurn),
        };
        self.handlers.is_meaning();
        match self.hub.look(w) {
            Ok(Look::Fresh(reads)) => {
                let copy = reads.copy();
                sit(&mut self.seats, w, Some(Seat::Looked { envelope, reads }));
                Ok(Look::Fresh(copy?))
            }
            Ok(Look::Known { sent: true }) => {
                sit(&mut self.seats, w, Some(Seat::Done));
                Ok(Look::Known { sent: true })
            }
            Ok(Look::Known { sent: false }) => {
                sit(&mut self.seats, w, Some(Seat::Sending));
                Ok(Look::Known { sent: false })
            }
            Err(fault) => {
                sit(&mut self.seats, w, Some(Seat::Held(envelope)));
                Err(Slip::Refused(fault))
            }
        }
    }

    /// Judges the message over what was read, and commits what follows or counts the failure.
    pub fn settle(&mut self, w: u32) -> Result<Settled, Slip> {
        if w >= self.workers {
            return Err(Slip::OutOfTurn);
        }
        let (envelope, reads) = match leave(&mut self.seats, w) {
            Some(Seat::Looked { envelope, reads }) => (envelope, reads),
            Some(other) => {
                sit(&mut self.seats, w, Some(other));
                return Err(Slip::OutOfTurn);
            }
            None => return Err(Slip::OutOfTurn),
        };
        let copy = reads.copy()?;
        let outcome = match self
            .handlers
            .judge(self.alloc, &envelope, self.moment, copy)
        {
            Ok(outcome) => outcome,
            Err(NoMemory) => return Err(Slip::NoMemory),
        };
        match self.hub.settle(w, outcome) {
            Ok(settled) => {
                sit(&mut self.seats, w, seat_after(&settled));
                Ok(settled)
            }
            Err(fault) => {
                sit(&mut self.seats, w, Some(Seat::Looked { envelope, reads }));
                Err(Slip::Refused(fault))
            }
        }
    }

    /// Puts the next op of the batch, where one is left.
    pub fn send(&mut self, w: u32) -> Result<(), Slip> {
        if w >= self.workers || !is_sending(&self.seats, w) {
            return Err(Slip::OutOfTurn);
        }
        match self.hub.unsent(w) {
            Ok(0) => Err(Slip::OutOfTurn),
            Ok(_) => match self.hub.send(w) {
                Ok(()) => Ok(()),
                Err(fault) => Err(Slip::Refused(fault)),
            },
            Err(fault) => Err(Slip::Refused(fault)),
        }
    }

    /// Marks the record as sent, where no op of the batch is left.
    pub fn mark(&mut self, w: u32) -> Result<(), Slip> {
        if w >= self.workers || !is_sending(&self.seats, w) {
            return Err(Slip::OutOfTurn);
        }
        match self.hub.unsent(w) {
            Ok(0) => match self.hub.mark(w) {
                Ok(()) => {
                    sit(&mut self.seats, w, Some(Seat::Done));
                    Ok(())
                }
                Err(fault) => Err(Slip::Refused(fault)),
            },
            Ok(_) => Err(Slip::OutOfTurn),
            Err(fault) => Err(Slip::Refused(fault)),
        }
    }

    /// Puts the copy of the failed message.
    pub fn aside(&mut self, w: u32) -> Result<(), Slip> {
        if w >= self.workers || !is_leaving(&self.seats, w) {
            return Err(Slip::OutOfTurn);
        }
        match self.hub.aside(w) {
            Ok(()) => {
                sit(&mut self.seats, w, Some(Seat::Done));
                Ok(())
            }
            Err(fault) => Err(Slip::Refused(fault)),
        }
    }

    /// Removes the worker's entry.
    pub fn remove(&mut self, w: u32) -> Result<(), Slip> {
        if w >= self.workers || !is_done(&self.seats, w) {
            return Err(Slip::OutOfTurn);
        }
        match self.hub.remove(w) {
            Ok(()) => {
                sit(&mut self.seats, w, None);
                Ok(())
            }
            Err(fault) => Err(Slip::Refused(fault)),
        }
    }

    /// How many ops of the batch are left.
    pub fn unsent(&mut self, w: u32) -> Result<u32, Slip> {
        if w >= self.workers || !is_sending(&self.seats, w) {
            return Err(Slip::OutOfTurn);
        }
        match self.hub.unsent(w) {
            Ok(left) => Ok(left),
            Err(fault) => Err(Slip::Refused(fault)),
        }
    }
}

//! The stage.

use crate::lent::Lent;
use crate::seat::Seat;
use nb_base::{ByNumber, Moment, Names, NoMemory, Numbers};
use nb_cells::MemCells;
use nb_eval::Handlers;
use nb_hub::Hub;
use std::alloc::Global;
use std::marker::Model;

/// A hub over two stores in memory, with what its workers are at.
#[derive(Drop)]
pub struct Stage<'a> {
    pub(crate) alloc: Global,
    pub(crate) handlers: &'a Handlers,
    pub(crate) hub: Hub<Lent<'a>, MemCells, MemCells>,
    pub(crate) workers: u32,
    pub(crate) moment: Moment,
    pub(crate) seats: ByNumber<Seat>,
}

impl<'a> Model for Stage<'a> {
    ghost use Rattle.nb_eval.specs.Meanings.{meaning_of};
    ghost use Rattle.nb_hub.specs.Kept.{seen};
    ghost use Rattle.nb_hub.specs.Ledgers.{past_of};
    ghost use Rattle.nb_schedule.specs.Seats.{Staged};
    ghost use Rattle.nb_script.specs.Tree.{script};

    ghost Value = { Unit {0} };

    ghost view = { λ s. tt };

    ghost invariant = { λ s. Staged (meaning_of (script s.handlers.now.checked)) s.workers s.moment s.seats (seen (past_of (meaning_of (script s.hub.handlers.handlers.now.checked)) s.hub.course)) };
}

impl<'a> Stage<'a> {
    /// The moment.
    pub fn moment(&self) -> Moment {
        self.moment
    }

    /// The store of queues.
    pub fn post(&self) -> &MemCells {
        self.hub.post()
    }

    /// The store of sagas, rows and records.
    pub fn base(&self) -> &MemCells {
        self.hub.base()
    }

    /// The numbers of the entries of the error queue that can be put back, rising.
    pub fn returnable(&self) -> Result<Numbers, NoMemory> {
        self.hub.returnable()
    }

    /// The ids of the records that can be purged, by their bytes.
    pub fn purgeable(&self) -> Result<Names, NoMemory> {
        self.hub.purgeable()
    }
}

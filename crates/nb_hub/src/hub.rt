//! The desk of one process.
ghost use Rattle.std.specs.Prelude.{◌≡◌};

use crate::ledger::Ledger;
use crate::transport::Transport;
use nb_base::{ByNumber, Discard, Handling, Moment};
use nb_cells::Cells;
use nb_core::Phase;
use nb_store::Store;
use std::alloc::Global;
use std::marker::Model;

/// The queues and the tables over their stores, and the history of what was done with them. Its one owner has every
/// worker.
#[derive(Drop)]
pub struct Hub<M: Handling, P: Cells, D: Cells> {
    pub(crate) alloc: Global,
    pub(crate) handlers: M,
    pub(crate) transport: Transport<P>,
    pub(crate) store: Store<D>,
    pub(crate) ledger: Ledger,
    pub(crate) moment: Moment,
    pub(crate) phases: ByNumber<Phase>,
    pub(crate) fails: ByNumber<u32>,
    pub(crate) back: ByNumber<()>,
    pub(crate) discarded: Vec<Discard>,
}

impl<M: Handling, P: Cells, D: Cells> Model for Hub<M, P, D> {
    ghost use Rattle.nb_hub.specs.Kept.{Kept, held_state};
    ghost use Rattle.nb_hub.specs.Ledgers.{past_of};
    ghost use Rattle.nb_hub.specs.Stages.{Stage, stage_code};

    ghost Value = { Stage M P D };

    ghost coded = { stage_code M.code P.code D.code };

    ghost view = { λ h. record { handlers = h.handlers; course = h.ledger; base = h.store.base; post = h.transport.post.cells } };

    // What is held is the state of the history.
    ghost invariant = { λ h. Kept (past_of (M.meaning h.handlers) h.ledger) (held_state h.store.tables h.transport.post.queues h.moment h.phases h.fails h.back h.discarded.items) h.transport.own h.transport.ready (D.count h.store.base) (P.count h.transport.post.cells) };
}

impl<M: Handling, P: Cells, D: Cells> Hub<M, P, D> {
    /// The store of queues.
    pub fn post(&self) -> &P
        ensures { result.now ≡ self.now.post }
    {
        self.transport.post.cells()
    }

    /// The store of sagas, rows and records.
    pub fn base(&self) -> &D
        ensures { result.now ≡ self.now.base }
    {
        self.store.base()
    }
}

//! Handlers that are lent.

use crate::handling::Handlers;
use nb_base::{Envelope, Handling, Keys, Moment, NoMemory, Outcome, Reads, SagaRow, Text};
use std::alloc::Global;

/// The handlers of a script, which someone else keeps.
#[derive(Drop)]
pub struct Lent<'a> {
    pub handlers: &'a Handlers,
}

impl<'a> Handling for Lent<'a> {
    ghost use Rattle.nb_eval.specs.Meanings.{meaning_of};
    ghost use Rattle.nb_script.specs.Tree.{script};

    ghost meaning = { λ h. meaning_of (script h.handlers.now.checked) };

    fn is_meaning(&self) {
        self.handlers.is_meaning();
    }

    fn keys(&self, alloc: Global, envelope: &Envelope) -> Result<Keys, NoMemory> {
        self.handlers.keys(alloc, envelope)
    }

    fn judge(
        &self,
        alloc: Global,
        envelope: &Envelope,
        moment: Moment,
        reads: Reads,
    ) -> Result<Outcome, NoMemory> {
        self.handlers.judge(alloc, envelope, moment, reads)
    }

    fn fits(&self, saga: &Text, row: &SagaRow) -> bool {
        self.handlers.fits(saga, row)
    }
}

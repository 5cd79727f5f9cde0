//! A checked script, as the core takes what a script makes of messages.
ghost use Rattle.std.specs.Prelude.{◌≡◌, IfOk};

use crate::verdicts::evaluate;
use nb_base::{Envelope, Handling, Keys, Moment, NoMemory, Outcome, Reads, SagaRow, Text};
use nb_check::{Checked, keys};
use std::alloc::Global;

/// The handlers and sagas of a checked script.
#[derive(Drop)]
pub struct Handlers {
    pub checked: Checked,
}

impl Handling for Handlers {
    ghost use Rattle.nb_eval.specs.Meanings.{meaning_of};
    ghost use Rattle.nb_script.specs.Tree.{script};

    ghost meaning = { λ h. meaning_of (script h.checked) };

    fn is_meaning(&self) {
        let _rules = self.checked.items();
    }

    fn keys(&self, alloc: Global, envelope: &Envelope) -> Result<Keys, NoMemory> {
        keys(alloc, &self.checked, envelope)
    }

    fn judge(
        &self,
        alloc: Global,
        envelope: &Envelope,
        moment: Moment,
        reads: Reads,
    ) -> Result<Outcome, NoMemory> {
        evaluate(alloc, &self.checked, envelope, moment, reads)
    }

    fn fits(&self, saga: &Text, row: &SagaRow) -> bool {
        self.checked.fits(saga, row)
    }
}

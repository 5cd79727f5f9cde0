//! What a script makes of messages.
ghost use Rattle.std.specs.Prelude.{◌≡◌, IfOk};
ghost use Rattle.std.specs.List.{IsDistinct};
ghost use Rattle.nb_base.specs.Meanings.{Meaning, IsMeaning, IsShown};

use crate::envelope::Envelope;
use crate::moment::Moment;
use crate::no_memory::NoMemory;
use crate::plan::Outcome;
use crate::saga_row::{Reads, SagaRow};
use crate::text::Text;
use crate::value::Keys;
use std::alloc::Global;

/// What a script makes of messages: what they read, and what their handlers decide over what was read.
pub trait Handling {
    ghost use Rattle.nb_base.specs.Meanings.{Meaning, IsMeaning, IsShown};

    /// What the script means.
    ghost meaning: { Self → Meaning };

    /// A verdict depends on what the tables show at the message's keys alone, and plans keep the tables sound.
    fn is_meaning(&self)
        ensures { IsMeaning (meaning self.now) };

    /// The keys that a message reads, in the order of first use.
    fn keys(&self, alloc: Global, envelope: &Envelope) -> Result<Keys, NoMemory>
        ensures { IfOk result (λ keys. keys ≡ (meaning self.now).keys envelope.now) };

    /// The verdict at a moment over what was read, which is what some tables show.
    fn judge(
        &self,
        alloc: Global,
        envelope: &Envelope,
        moment: Moment,
        reads: Reads,
    ) -> Result<Outcome, NoMemory>
        requires { IsShown (meaning self.now) envelope.now reads }
        ensures { IfOk result (λ o. o ≡ record {
          reads = reads;
          verdict = (meaning self.now).on_reads reads envelope.now moment;
        }) };

    /// Whether the script takes a stored saga of this type.
    fn fits(&self, saga: &Text, row: &SagaRow) -> bool
        ensures { result ≡ (meaning self.now).fits saga.now row.now };
}

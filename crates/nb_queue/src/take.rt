//! Entries and numbers read at the front of bytes.
ghost use Rattle.std.specs.Prelude.{◌≡◌, IfErr};
ghost use Rattle.nb_envelope.specs.Cells.{Gives};
ghost use Rattle.nb_queue.specs.Read.{queued_in, content_in, entry_in, next_in};
ghost use Rattle.nb_envelope.specs.declared.fault.FormatFault.TheVariants.{Damaged};

use nb_base::{Moment, Queued, Text};
use nb_envelope::FormatFault;
use nb_envelope::wire::{take_due, take_envelope, take_text, take_u64};
use std::alloc::Global;

/// An envelope in a queue that is named.
#[tactic(auto, unfolding(crate::specs::Read::queued_in), using(crate::proofs::FormatLaws::is_named))]
fn take_queued(
    alloc: Global,
    queue: Text,
    due: Option<Moment>,
    bytes: &[u8],
) -> Result<(Queued, &[u8]), FormatFault>
    ensures { Gives (λ x. (x.0, x.1.now)) result (queued_in queue due bytes.now) }
{
    let (envelope, rest) = take_envelope(alloc, bytes)?;
    if queue.len() == 0 {
        return Err(FormatFault::Damaged);
    }
    let entry = Queued {
        queue,
        due,
        envelope,
    };
    Ok((entry, rest))
}

/// A queue that is named, a due and an envelope.
#[tactic(auto, unfolding(crate::specs::Read::content_in))]
fn take_content(alloc: Global, bytes: &[u8]) -> Result<(Queued, &[u8]), FormatFault>
    ensures { Gives (λ x. (x.0, x.1.now)) result (content_in bytes.now) }
{
    let (queue, rest) = take_text(alloc, bytes)?;
    match take_due(rest) {
        Ok((due, rest)) => take_queued(alloc, queue, due, rest),
        Err(e) => Err(e),
    }
}

/// An entry in format 1.
#[tactic(auto, unfolding(crate::specs::Read::entry_in))]
pub(crate) fn take_entry(alloc: Global, bytes: &[u8]) -> Result<(Queued, &[u8]), FormatFault>
    ensures { Gives (λ x. (x.0, x.1.now)) result (entry_in bytes.now) }
{
    match bytes {
        [1, rest @ ..] => take_content(alloc, rest),
        _ => Err(FormatFault::Damaged),
    }
}

/// A number in format 1.
#[tactic(auto, unfolding(crate::specs::Read::next_in))]
pub(crate) fn take_next(bytes: &[u8]) -> Result<(u64, &[u8]), FormatFault>
    ensures given { Gives (λ x. (x.0, x.1.now)) result (next_in bytes.now) }
    ensures needs_no_memory { IfErr result (λ e. e ≡ Damaged) }
{
    match bytes {
        [1, rest @ ..] => take_u64(rest),
        _ => Err(FormatFault::Damaged),
    }
}

//! Entries and numbers read from their cells.
ghost use Rattle.std.specs.Prelude.{◌≡◌, IfErr};
ghost use Rattle.nb_envelope.specs.Cells.{u64_in, whole, Gives};
ghost use Rattle.nb_envelope.specs.Formats.{IsBytes};
ghost use Rattle.nb_queue.specs.Read.{entry_in, next_in};
ghost use Rattle.nb_envelope.specs.declared.fault.FormatFault.TheVariants.{Damaged};

use crate::take::{take_entry, take_next};
use nb_base::Queued;
use nb_envelope::FormatFault;
use nb_envelope::wire::take_u64;
use std::alloc::Global;

/// The number that all of the bytes are.
#[tactic(auto, unfolding(nb_envelope::specs::Cells::whole))]
pub(crate) fn read_number(key: &[u8]) -> Result<u64, FormatFault>
    ensures given { Gives (λ n. n) result (whole u64_in key.now) }
    ensures needs_no_memory { IfErr result (λ e. e ≡ Damaged) }
    ensures bytes { IsBytes key.now }
{
    let (number, rest) = take_u64(key)?;
    if !rest.is_empty() {
        return Err(FormatFault::Damaged);
    }
    Ok(number)
}

/// The next number that all of the bytes are.
#[tactic(auto, unfolding(nb_envelope::specs::Cells::whole))]
pub(crate) fn read_next(bytes: &[u8]) -> Result<u64, FormatFault>
    ensures given { Gives (λ n. n) result (whole next_in bytes.now) }
    ensures needs_no_memory { IfErr result (λ e. e ≡ Damaged) }
    ensures bytes { IsBytes bytes.now }
{
    let (number, rest) = take_next(bytes)?;
    if !rest.is_empty() {
        return Err(FormatFault::Damaged);
    }
    Ok(number)
}

/// The entry that all of the bytes are.
#[tactic(auto, unfolding(nb_envelope::specs::Cells::whole))]
pub(crate) fn read_entry(alloc: Global, bytes: &[u8]) -> Result<Queued, FormatFault>
    ensures given { Gives (λ e. e) result (whole entry_in bytes.now) }
    ensures bytes { IsBytes bytes.now }
{
    let (entry, rest) = take_entry(alloc, bytes)?;
    if !rest.is_empty() {
        return Err(FormatFault::Damaged);
    }
    Ok(entry)
}

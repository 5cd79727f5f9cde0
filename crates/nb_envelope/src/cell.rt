//! An envelope as the bytes of a cell.
ghost use Rattle.std.specs.Prelude.{◌≡◌, ◌≢◌, IfOk, OnOk, Err, Some};
ghost use Rattle.nb_base.specs.Messages.{Message};
ghost use Rattle.nb_envelope.specs.Spelling.{spelled_envelope, IsEnvelope};
ghost use Rattle.nb_envelope.specs.Cells.{envelope_in, whole, Gives};
ghost use Rattle.nb_envelope.specs.declared.fault.FormatFault.TheVariants.{Damaged};

use crate::fault::FormatFault;
use crate::put::put_envelope;
use crate::take::take_envelope;
use nb_base::{Bytes, Envelope, NoMemory};
use std::alloc::Global;

/// The one spelling of an envelope.
pub fn to_cell(alloc: Global, envelope: &Envelope) -> Result<Bytes, NoMemory>
    ensures bytes { IfOk result (λ b. b ≡ spelled_envelope envelope.now) }
    ensures fits { OnOk result (IsEnvelope envelope.now) }
{
    let mut out = Vec::new(alloc);
    put_envelope(&mut out, envelope)?;
    Bytes::of_vec(out)
}

/// The envelope that all of the bytes are.
#[tactic(auto, unfolding(crate::specs::Cells::whole))]
fn read_cell(alloc: Global, bytes: &[u8]) -> Result<Envelope, FormatFault>
    ensures { Gives (λ e. e) result (whole envelope_in bytes.now) }
{
    let (envelope, rest) = take_envelope(alloc, bytes)?;
    if !rest.is_empty() {
        return Err(FormatFault::Damaged);
    }
    Ok(envelope)
}

/// The envelope of which the bytes are the one spelling.
pub fn from_cell(alloc: Global, bytes: &[u8]) -> Result<Envelope, FormatFault>
    // What is read is spelled so.
    ensures found { IfOk result (λ e. IsEnvelope e × (bytes.now ≡ spelled_envelope e)) }
    // What is spelled so is read, unless memory runs out.
    ensures only { (m : Message) → IsEnvelope m
        → bytes.now ≡ spelled_envelope m → Gives (λ e. e) result (Some m) }
    // Damaged bytes are the spelling of no envelope.
    ensures damaged { result ≡ Err Damaged
        → (m : Message) → IsEnvelope m → bytes.now ≢ spelled_envelope m }
{
    read_cell(alloc, bytes)
}

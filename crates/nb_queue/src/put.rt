//! Entries and numbers written as the bytes of cells.
ghost use Rattle.std.specs.Prelude.{◌≡◌, ◌≢◌, [], IfOk, OnOk};
ghost use Rattle.nb_envelope.specs.Spelling.{spelled_u64};
ghost use Rattle.nb_queue.specs.Spelled.{spelled_entry, spelled_next, IsEntry};

use nb_base::{Bytes, NoMemory, Queued};
use nb_envelope::wire::{put_due, put_envelope, put_text, put_u64};
use std::alloc::Global;

/// The bytes of the key of an entry.
pub(crate) fn number_bytes(alloc: Global, number: u64) -> Result<Bytes, NoMemory>
    ensures { IfOk result (λ b. b ≡ spelled_u64 number) }
{
    let mut out = Vec::new(alloc);
    put_u64(&mut out, number)?;
    Bytes::of_vec(out)
}

/// The bytes of the next number.
pub(crate) fn next_bytes(alloc: Global, next: u64) -> Result<Bytes, NoMemory>
    ensures { IfOk result (λ b. b ≡ spelled_next next) }
{
    let mut out = Vec::new(alloc);
    out.push(1)?;
    put_u64(&mut out, next)?;
    Bytes::of_vec(out)
}

/// The bytes of an entry.
pub(crate) fn entry_bytes(alloc: Global, entry: &Queued) -> Result<Bytes, NoMemory>
    requires { entry.now.queue ≢ [] }
    ensures bytes { IfOk result (λ b. b ≡ spelled_entry entry.now) }
    ensures fits { OnOk result (IsEntry entry.now) }
{
    let mut out = Vec::new(alloc);
    out.push(1)?;
    put_text(&mut out, entry.queue.as_str())?;
    put_due(&mut out, entry.due)?;
    put_envelope(&mut out, &entry.envelope)?;
    Bytes::of_vec(out)
}

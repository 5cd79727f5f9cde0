//! What a message reads, and whether that still stands.
ghost use Rattle.std.specs.Prelude.{◌≡◌, ◌↔◌, IfOk, IsTrue, map};
ghost use Rattle.nb_base.specs.declared.saga_row.Read.{Read};
ghost use Rattle.nb_base.specs.Shown.{stored, shown, version_of, AreFresh};
ghost use Rattle.nb_core.specs.Conflicts.{Conflicts};
ghost use Rattle.nb_hub.specs.Looking.{Recorded};

use nb_base::{Copied, Envelope, Items, Key, Keys, NoMemory, Reads, SagaKey};
use nb_cells::Cells;
use nb_core::{Phase, conflict, phase_by, version};
use nb_headers::message_id;
use nb_recover::Fail;
use nb_store::Store;
use std::alloc::Global;

/// What the record of a message leads its worker to, and whether it is sent.
#[derive(Drop)]
pub struct Known {
    pub phase: Phase,
    pub sent: bool,
}

/// What the record of an entry's message leads to, where there is one.
pub fn known_of<D: Cells>(
    store: &Store<D>,
    number: u64,
    envelope: &Envelope,
) -> Result<Option<Known>, NoMemory>
    ensures { IfOk result (Recorded store.now.tables number envelope.now) }
{
    let id = message_id(envelope);
    match store.record(id) {
        Some(row) => {
            let phase = phase_by(number, id, row)?;
            Ok(Some(Known {
                phase,
                sent: row.sent,
            }))
        }
        None => Ok(None),
    }
}

/// The version of what stands at a key, 0 where nothing does.
fn version_at<D: Cells>(store: &Store<D>, key: &Key) -> Result<u64, NoMemory>
    ensures { IfOk result (λ v. v ≡ version_of (shown (stored store.now.tables) key.now)) }
{
    match key {
        Key::ByCorr { saga, corr } => {
            let place = SagaKey {
                saga: saga.copy()?,
                corr: corr.copy()?,
            };
            match store.saga(&place) {
                Some(row) => Ok(row.version),
                None => Ok(0),
            }
        }
        Key::ById { saga, id } => match store.saga_with(saga, id) {
            Some(row) => Ok(row.version),
            None => Ok(0),
        },
        Key::Row { name } => match store.row(name) {
            Some(row) => Ok(row.version),
            None => Ok(0),
        },
    }
}

/// Whether all that was read still stands.
fn are_fresh<D: Cells>(store: &Store<D>, reads: &Reads) -> Result<bool, NoMemory>
    ensures { IfOk result (λ b. IsTrue b ↔ AreFresh (stored store.now.tables) reads.now) }
{
    let mut left = reads.as_slice();
    while let [first, rest @ ..] = left {
        if version(&first.seen) != version_at(store, &first.key)? {
            return Ok(false);
        }
        left = rest;
    }
    Ok(true)
}

/// The keys of what was read.
fn keys_of(alloc: Global, reads: &Reads) -> Result<Keys, NoMemory>
    ensures { IfOk result (λ keys. keys ≡ map (λ (r : Read). r.key) reads.now) }
{
    let mut keys: Keys = Items::new(alloc);
    for i in 0..reads.len() {
        keys.push(reads.at(i).key.copy()?)?;
    }
    Ok(keys)
}

/// The conflict between what was read and what stands now: on the least key whose version differs. None where none does.
pub fn conflict_now<D: Cells>(
    alloc: Global,
    store: &Store<D>,
    reads: &Reads,
) -> Result<Option<Fail>, NoMemory>
    ensures { IfOk result (Conflicts (stored store.now.tables) reads.now) }
{
    if are_fresh(store, reads)? {
        return Ok(None);
    }
    let keys = keys_of(alloc, reads)?;
    let now = store.read(alloc, &keys)?;
    conflict(reads, &now)
}

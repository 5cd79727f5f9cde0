//! Slots for cells, in the order of their places. A slot without bytes is no cell: it is room for one.
ghost use Rattle.std.specs.Prelude.{◌≡◌, map, fold, IfOk, OnOk};
ghost use Rattle.nb_cells.specs.Slots.{shown, staged_of, with_staged, HasSlot, HaveSlots, KeepsSlots};
ghost use Rattle.nb_cells.specs.Table.{with_slot};

use crate::change::{Change, Changes};
use crate::place::Place;
use nb_base::{Bytes, Copied, NoMemory};
use std::alloc::Global;
use std::collections::BTreeMap;

pub(crate) type Slots = BTreeMap<Place, Option<Bytes>>;

/// What a change leaves at a place.
#[derive(Drop)]
pub(crate) struct Staged {
    place: Place,
    bytes: Option<Bytes>,
}

/// A change, made ready.
fn stage_one(change: &Change) -> Result<Staged, NoMemory>
    ensures { IfOk result (λ s. s ≡ staged_of change.now) }
{
    match change {
        Change::Put { space, key, bytes } => {
            let key = key.copy()?;
            let bytes = bytes.copy()?;
            Ok(Staged {
                place: Place { space: *space, key },
                bytes: Some(bytes),
            })
        }
        Change::Erase { space, key } => {
            let key = key.copy()?;
            Ok(Staged {
                place: Place { space: *space, key },
                bytes: None,
            })
        }
    }
}

/// The changes, made ready.
pub(crate) fn stage(alloc: Global, changes: &Changes) -> Result<Vec<Staged>, NoMemory>
    ensures { IfOk result (λ batch. batch.items ≡ map staged_of changes.now) }
{
    let mut batch = Vec::new(alloc);
    for change in changes.as_slice() {
        batch.push(stage_one(change)?)?;
    }
    Ok(batch)
}

/// Makes a slot at a place.
fn make_slot(slots: &mut Slots, place: &Place) -> Result<(), NoMemory>
    ensures same { shown slots.new.entries ≡ shown slots.old.entries }
    ensures made { OnOk result (HasSlot slots.new place.now) }
    ensures kept { KeepsSlots slots.old slots.new }
{
    if slots.contains_key(place) {
        return Ok(());
    }
    let place = place.copy()?;
    slots.insert(place, None)?;
    Ok(())
}

/// Makes a slot for each of the changes.
pub(crate) fn make_room(slots: &mut Slots, batch: &[Staged]) -> Result<(), NoMemory>
    ensures same { shown slots.new.entries ≡ shown slots.old.entries }
    ensures room { OnOk result (HaveSlots slots.new batch.now) }
{
    for staged in batch {
        make_slot(slots, &staged.place)?;
    }
    Ok(())
}

/// Writes a slot, which takes no memory.
fn fill_slot(slots: &mut Slots, place: &Place, bytes: Option<Bytes>)
    requires { HasSlot slots.old place.now }
    ensures filled { shown slots.new.entries ≡ with_slot (shown slots.old.entries) place.now bytes }
    ensures kept { KeepsSlots slots.old slots.new }
{
    if let Some(slot) = slots.get_mut(place) {
        *slot = bytes;
    }
}

/// Makes the changes in their slots, which takes no memory.
pub(crate) fn fill(slots: &mut Slots, batch: &mut [Staged])
    requires { HaveSlots slots.old batch.old }
    ensures { shown slots.new.entries ≡ fold with_staged (shown slots.old.entries) batch.old }
{
    for staged in batch.iter_mut() {
        let bytes = staged.bytes.take();
        fill_slot(slots, &staged.place, bytes);
    }
}

/// Takes a slot away that has no bytes.
fn sweep_slot(slots: &mut Slots, place: &Place)
    ensures { shown slots.new.entries ≡ shown slots.old.entries }
{
    if let Some(None) = slots.get(place) {
        slots.remove(place);
    }
}

/// Takes the slots of the changes away that have no bytes.
pub(crate) fn sweep(slots: &mut Slots, batch: &[Staged])
    ensures { shown slots.new.entries ≡ shown slots.old.entries }
{
    for staged in batch {
        sweep_slot(slots, &staged.place);
    }
}

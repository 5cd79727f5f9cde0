//! Cells in the order of their places.
ghost use Rattle.std.specs.Prelude.{◌≡◌, ◌++◌, IfOk, OnOk, OnErr, option_copied};
ghost use Rattle.std.specs.Option.{option_to_list};
ghost use Rattle.std.specs.FinMap as finite;
ghost use Rattle.nb_cells.specs.Slots.{cell_in};
ghost use Rattle.nb_cells.specs.Table.{table_of, with_cell, written, listed};

use crate::cell::{Cell, CellList};
use crate::change::Changes;
use crate::place::Place;
use crate::slots::{Slots, fill, make_room, stage, sweep};
use nb_base::{Bytes, Copied, Items, NoMemory};
use std::alloc::Global;
use std::marker::Model;

/// Cells in the order of their places, each place once.
#[derive(Drop)]
pub(crate) struct Table {
    slots: Slots,
}

impl Model for Table {
    ghost use Rattle.nb_cells.specs.Table.{ByPlace, by_place_code};
    ghost use Rattle.nb_cells.specs.Slots.{shown};

    ghost Value = { ByPlace };

    ghost coded = { by_place_code };

    ghost view = { λ t. shown t.slots.entries };
}

/// Adds the cell in a slot, where there is one and its space is asked for.
fn add_asked(
    cells: &mut CellList,
    asked: Option<u8>,
    place: &Place,
    slot: &Option<Bytes>,
) -> Result<(), NoMemory>
    ensures { OnOk result (cells.new ≡ cells.old ++ option_to_list (cell_in asked (place.now, slot.now))) }
{
    match slot {
        Some(bytes) if asked.is_none_or(|space| place.space == space) => {
            let key = place.key.copy()?;
            let bytes = bytes.copy()?;
            cells.push(Cell {
                space: place.space,
                key,
                bytes,
            })
        }
        _ => Ok(()),
    }
}

impl Table {
    /// No cells.
    pub fn new(alloc: Global) -> Table
        ensures { result ≡ finite.empty }
    {
        Table {
            slots: Slots::new(alloc),
        }
    }

    /// Puts a cell in its place.
    fn put(&mut self, cell: &Cell) -> Result<(), NoMemory>
        ensures { OnOk result (self.new ≡ with_cell self.old cell.now) }
    {
        let place = Place {
            space: cell.space,
            key: cell.key.copy()?,
        };
        let bytes = cell.bytes.copy()?;
        self.slots.insert(place, Some(bytes))?;
        Ok(())
    }

    /// The cells of a list. A later cell stands for an earlier one at its place.
    pub fn of_cells(alloc: Global, cells: &[Cell]) -> Result<Table, NoMemory>
        ensures { IfOk result (λ t. t ≡ table_of cells.now) }
    {
        let mut table = Table::new(alloc);
        for cell in cells {
            table.put(cell)?;
        }
        Ok(table)
    }

    /// Makes all of the changes in turn, or none.
    pub fn write(&mut self, alloc: Global, changes: &Changes) -> Result<(), NoMemory>
        ensures ok { OnOk result (self.new ≡ written changes.now self.old) }
        ensures err { OnErr result (self.new ≡ self.old) }
    {
        let mut batch = stage(alloc, changes)?;
        let room = make_room(&mut self.slots, batch.as_slice());
        if room.is_ok() {
            fill(&mut self.slots, batch.as_mut_slice());
        }
        sweep(&mut self.slots, batch.as_slice());
        room
    }

    /// The bytes of the cell at a place.
    pub fn get(&self, place: &Place) -> Option<&Bytes>
        ensures { option_copied result ≡ finite.get self.now place.now }
    {
        self.slots.get(place)?.as_ref()
    }

    /// The cells of one space, or all of them, by ascending places.
    pub fn listed(&self, alloc: Global, asked: Option<u8>) -> Result<CellList, NoMemory>
        ensures { IfOk result (λ cells. cells ≡ listed asked self.now) }
    {
        let mut cells = Items::new(alloc);
        for (place, slot) in &self.slots {
            add_asked(&mut cells, asked, place, slot)?;
        }
        Ok(cells)
    }
}

//! A store of cells in memory, whose calls fail where a plan says so.
ghost use Rattle.std.specs.Prelude.{◌≡◌, ◌≤◌, [], None, IfOk};
ghost use Rattle.std.specs.FinMap as finite;
ghost use Rattle.nb_cells.specs.Table.{told, table_of, cells_of, cells_in};
ghost use Rattle.nb_cells.specs.Mem.{opened, left, next_read, next_apply, after_read, after_apply, ComesOut};
ghost use Rattle.nb_cells.specs.Plan.{next};
ghost use Rattle.nb_cells.specs.Faults.{IsCounted};

use crate::cell::CellList;
use crate::cells::Cells;
use crate::change::Changes;
use crate::fault::CellFault;
use crate::place::Place;
use crate::plan::{FaultPlan, Turn};
use crate::table::Table;
use nb_base::{Bytes, Copied, Items, NoMemory};
use std::alloc::Global;
use std::marker::Model;

/// A store of cells in memory.
#[derive(Drop)]
pub struct MemCells {
    table: Table,
    // Once a stop has come: the changes that are found afterwards, beside the cells that are told.
    stopped: Option<Changes>,
    plan: FaultPlan,
    reads: u64,
    applies: u64,
    faults: u64,
}

impl Model for MemCells {
    ghost use Rattle.std.specs.Prelude.{option_map};
    ghost use Rattle.nb_cells.specs.Mem.{Mem, mem_code};
    ghost use Rattle.nb_cells.specs.Table.{written};

    ghost Value = { Mem };

    ghost coded = { mem_code };

    ghost view = { λ c. record { told = c.table; stopped = option_map (λ late. written late c.table) c.stopped; reads = c.reads; applies = c.applies; faults = c.faults; plan = c.plan } };
}

impl MemCells {
    /// A store of these cells. A later cell stands for an earlier one at its place.
    pub fn new(alloc: Global, cells: CellList, plan: FaultPlan) -> Result<MemCells, NoMemory>
        ensures { IfOk result (λ c. c ≡ opened (table_of cells) plan) }
    {
        let table = Table::of_cells(alloc, cells.as_slice())?;
        Ok(MemCells::of_table(table, plan))
    }

    /// A store of no cells, whose calls don't fail.
    pub fn empty(alloc: Global) -> MemCells
        ensures { result ≡ opened finite.empty (record { reads = []; applies = []; stop = None }) }
    {
        MemCells::of_table(Table::new(alloc), FaultPlan::none(alloc))
    }

    fn of_table(table: Table, plan: FaultPlan) -> MemCells
        ensures { result ≡ opened table plan }
    {
        MemCells {
            table,
            stopped: None,
            plan,
            reads: 0,
            applies: 0,
            faults: 0,
        }
    }

    /// The cells that the store tells, by ascending places.
    pub fn now(&self, alloc: Global) -> Result<CellList, NoMemory>
        ensures { IfOk result (λ cells. cells ≡ cells_of self.now.told) }
    {
        self.table.listed(alloc, None)
    }

    /// The cells that are found when the store is opened again, by ascending places.
    pub fn left(self, alloc: Global) -> Result<CellList, NoMemory>
        ensures { IfOk result (λ cells. cells ≡ cells_of (left self)) }
    {
        let MemCells {
            mut table,
            stopped,
            ..
        } = self;
        if let Some(late) = stopped {
            table.write(alloc, &late)?;
        }
        table.listed(alloc, None)
    }

    /// What comes of the next call of get or scan.
    fn next_read(&self) -> Turn
        ensures { result ≡ next_read self.now }
    {
        if self.stopped.is_some() {
            return Turn::Fails;
        }
        self.plan.read_turn(self.reads.saturating_add(1))
    }

    /// What comes of the next apply.
    fn next_apply(&self) -> Turn
        ensures { result ≡ next_apply self.now }
    {
        if self.stopped.is_some() {
            return Turn::Fails;
        }
        self.plan.apply_turn(self.applies.saturating_add(1))
    }

    fn count_read(&mut self)
        ensures { self.new ≡ record self.old { reads = next self.old.reads } }
    {
        self.reads = self.reads.saturating_add(1);
    }

    fn count_apply(&mut self)
        ensures { self.new ≡ record self.old { applies = next self.old.applies } }
    {
        self.applies = self.applies.saturating_add(1);
    }

    fn failed(&mut self) -> CellFault
        ensures value { result ≡ CellFault.Failed }
        ensures count { self.new ≡ record self.old { faults = next self.old.faults } }
        ensures later { self.old.faults ≤ self.new.faults }
    {
        self.faults = self.faults.saturating_add(1);
        CellFault::Failed
    }
}

impl Cells for MemCells {
    ghost use Rattle.nb_cells.specs.Cells.{AreAlike};
    ghost use Rattle.std.proofs.Common.{sym, ◌∙◌};

    ghost honest = { λ c. Unit {0} };

    ghost now = { λ c m. AreAlike (told c.told) m };

    ghost images = { λ c n. AreAlike n (told (left c)) };

    ghost firm = { λ c. Unit {0} };

    ghost count = { λ c. c.faults };

    ghost one = { λ c m n _ first second space key. sym (first space key) ∙ second space key };

    fn faults(&self) -> u64 {
        self.faults
    }

    fn get(&mut self, _alloc: Global, space: u8, key: &Bytes) -> Result<Option<Bytes>, CellFault>
        ensures turn { ComesOut (next_read self.old) self.old (after_read (next_read self.old) self.old) self.new result }
        ensures value { IfOk result (λ found. found ≡ told self.old.told space key.now) }
        ensures cause { IsCounted self.old.faults self.new.faults result }
    {
        if !self.next_read().works() {
            self.count_read();
            return Err(self.failed());
        }
        let place = Place {
            space,
            key: key.copy()?,
        };
        let found = match self.table.get(&place) {
            Some(bytes) => Some(bytes.copy()?),
            None => None,
        };
        self.count_read();
        Ok(found)
    }

    fn scan(&mut self, alloc: Global, space: u8) -> Result<CellList, CellFault>
        ensures turn { ComesOut (next_read self.old) self.old (after_read (next_read self.old) self.old) self.new result }
        ensures value { IfOk result (λ cells. cells ≡ cells_in space self.old.told) }
        ensures cause { IsCounted self.old.faults self.new.faults result }
    {
        if !self.next_read().works() {
            self.count_read();
            return Err(self.failed());
        }
        let cells = self.table.listed(alloc, Some(space))?;
        self.count_read();
        Ok(cells)
    }

    fn apply(&mut self, alloc: Global, changes: &Changes) -> Result<(), CellFault>
        ensures turn { ComesOut (next_apply self.old) self.old (after_apply (next_apply self.old) changes.now self.old) self.new result }
        ensures cause { IsCounted self.old.faults self.new.faults result }
    {
        match self.next_apply() {
            Turn::Works => {
                self.table.write(alloc, changes)?;
                self.count_apply();
                Ok(())
            }
            Turn::Fails => {
                self.count_apply();
                Err(self.failed())
            }
            Turn::Stops(after) => {
                let late = if after {
                    changes.copy()?
                } else {
                    Items::new(alloc)
                };
                self.stopped = Some(late);
                self.count_apply();
                Err(self.failed())
            }
        }
    }
}

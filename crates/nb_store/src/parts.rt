//! Tables while their cells are read, one after the other in the order of their places.
ghost use Rattle.std.specs.Prelude.{◌≡◌, ◌++◌, ◌≤◌, ◌↔◌, ℕ, IsTrue, OnOk, IfOk, None, length};
ghost use Rattle.std.specs.FinMap as map;
ghost use Rattle.nb_cells.specs.declared.cell.Cell.{Cell};
ghost use Rattle.nb_outbox.specs.Spelled.{IsId, IsRecord};
ghost use Rattle.nb_saga_store.specs.Spelled.{place_of, IsStoredSaga, IsStoredRow};
ghost use Rattle.nb_store.specs.Opening.{IsFitSaga, IsFitRow, IsFitRecord, IsOpen, ReadsCell, IsDamaged, AddsPart, ReadsCells, count, saga, row, handled, no_tables};
ghost use Rattle.nb_envelope.specs.Cells.{u64_in, whole};
ghost use Rattle.nb_envelope.specs.Formats.{IsBytes};
ghost use Rattle.nb_store.specs.Counts.{count_in};

use crate::fault::StoreFault;
use crate::id::{is_from_1, is_saga_id};
use nb_base::{
    ByName, ByNumber, BySaga, Copied, NoMemory, OutboxRow, Row, SagaKey, SagaRow, Tables, Text,
};
use nb_cells::{Cell, CellList};
use nb_envelope::FormatFault;
use nb_envelope::wire::take_u64;
use nb_outbox::read_outbox;
use nb_saga_store::{StoredRow, StoredSaga, read_row, read_saga};
use std::alloc::Global;

/// The greatest number of commits.
pub(crate) const LIMIT: u64 = 1 << 62;

/// Tables, the places of the sagas by their ids, and the ids of the records by their numbers.
#[derive(Drop)]
pub(crate) struct Parts {
    pub tables: Tables,
    pub ids: ByName<SagaKey>,
    pub numbers: ByNumber<Text>,
}

/// The cells of the four spaces, with keys that ascend by their bytes.
#[derive(Drop)]
pub(crate) struct Scanned {
    pub counts: CellList,
    pub sagas: CellList,
    pub rows: CellList,
    pub records: CellList,
}

/// The fault of a cell that is outside the grammar and the bounds.
fn damaged(cell: &Cell) -> StoreFault
    ensures { IsDamaged cell.now result }
{
    match cell.key.copy() {
        Ok(key) => StoreFault::Damaged {
            space: cell.space,
            key,
        },
        Err(_) => StoreFault::NoMemory,
    }
}

/// The id under which a record was read.
fn id_in(alloc: Global, cell: &Cell) -> Result<Text, NoMemory>
    ensures { IfOk result (λ id. id ≡ cell.now.key) }
{
    match std::str::from_utf8(cell.key.as_slice()) {
        Ok(id) => Text::new(alloc, id),
        Err(_) => Err(NoMemory),
    }
}

/// The number that all of the bytes are.
#[tactic(auto, unfolding(nb_envelope::specs::Cells::whole))]
fn whole_u64(bytes: &[u8]) -> Option<u64>
    ensures { result ≡ whole u64_in bytes.now }
{
    match take_u64(bytes) {
        Ok((n, rest)) => { if rest.is_empty() { Some(n) } else { None } }
        Err(_) => None,
    }
}

/// The number of commits that the bytes of a cell are.
#[tactic(auto, unfolding(crate::specs::Counts::count_in))]
fn count_in(bytes: &[u8]) -> Option<u64>
    ensures value { result ≡ count_in bytes.now }
    ensures bytes { IsBytes bytes.now }
{
    match bytes {
        [1, rest @ ..] => whole_u64(rest),
        _ => None,
    }
}

impl Parts {
    /// Whether a saga that was read is within the bounds.
    fn fits_saga(&self, place: &SagaKey, stored: &StoredSaga) -> bool
        requires open { IsOpen self.now }
        requires spelled { IsStoredSaga stored.now }
        requires place { place.now ≡ place_of stored.now }
        ensures { IsTrue result ↔ IsFitSaga self.now.tables stored.now }
    {
        is_from_1(stored.row.version, self.tables.commits)
            && is_saga_id(stored.row.id.as_str(), self.tables.commits)
            && self.ids.get(&stored.row.id).is_none()
            && self.tables.sagas.get(place).is_none()
    }

    /// Puts a saga at its place, and its place under its id.
    fn put_saga(&mut self, place: SagaKey, row: SagaRow) -> Result<(), NoMemory>
        ensures tables { OnOk result (self.new.tables ≡ record self.old.tables { sagas = map.insert self.old.tables.sagas place row }) }
        ensures ids { OnOk result (self.new.ids ≡ map.insert self.old.ids row.id place) }
        ensures numbers { OnOk result (self.new.numbers ≡ self.old.numbers) }
    {
        let id = row.id.copy()?;
        self.ids.insert(id, place.copy()?)?;
        self.tables.sagas.insert(place, row)?;
        Ok(())
    }

    /// Whether a row that was read is within the bounds.
    fn fits_row(&self, stored: &StoredRow) -> bool
        requires { IsStoredRow stored.now }
        ensures { IsTrue result ↔ IsFitRow self.now.tables stored.now }
    {
        is_from_1(stored.version, self.tables.commits)
            && self.tables.rows.get(&stored.name).is_none()
    }

    /// Adds a saga that was read.
    fn add_saga(&mut self, cell: &Cell, stored: StoredSaga) -> Result<(), StoreFault>
        requires open { IsOpen self.old }
        requires spelled { IsStoredSaga stored }
        ensures { AddsPart self.old (saga stored) cell.now self.new result }
    {
        let place = SagaKey {
            saga: stored.saga.copy()?,
            corr: stored.row.corr.copy()?,
        };
        if !self.fits_saga(&place, &stored) {
            return Err(damaged(cell));
        }
        let StoredSaga { row, .. } = stored;
        self.put_saga(place, row)?;
        Ok(())
    }

    /// Reads a saga.
    fn join_saga(&mut self, alloc: Global, cell: &Cell) -> Result<(), StoreFault>
        requires open { IsOpen self.old }
        requires space { cell.now.space ≡ 2 }
        ensures { ReadsCell self.old cell.now self.new result }
    {
        match read_saga(alloc, cell) {
            Ok(stored) => self.add_saga(cell, stored),
            Err(FormatFault::Damaged) => Err(damaged(cell)),
            Err(FormatFault::NoMemory) => Err(StoreFault::NoMemory),
        }
    }

    /// Adds a row that was read.
    fn add_row(&mut self, cell: &Cell, stored: StoredRow) -> Result<(), StoreFault>
        requires open { IsOpen self.old }
        requires spelled { IsStoredRow stored }
        ensures { AddsPart self.old (row stored) cell.now self.new result }
    {
        if !self.fits_row(&stored) {
            return Err(damaged(cell));
        }
        let StoredRow {
            name,
            version,
            value,
        } = stored;
        self.tables.rows.insert(name, Row { version, value })?;
        Ok(())
    }

    /// Reads a row.
    fn join_row(&mut self, alloc: Global, cell: &Cell) -> Result<(), StoreFault>
        requires open { IsOpen self.old }
        requires space { cell.now.space ≡ 3 }
        ensures { ReadsCell self.old cell.now self.new result }
    {
        match read_row(alloc, cell) {
            Ok(stored) => self.add_row(cell, stored),
            Err(FormatFault::Damaged) => Err(damaged(cell)),
            Err(FormatFault::NoMemory) => Err(StoreFault::NoMemory),
        }
    }

    /// Whether a record that was read is within the bounds.
    fn fits_record(&self, id: &Text, row: &OutboxRow) -> bool
        requires open { IsOpen self.now }
        requires named { IsId id.now }
        requires spelled { IsRecord row.now }
        ensures { IsTrue result ↔ IsFitRecord self.now.tables id.now row.now }
    {
        is_from_1(row.n, self.tables.commits)
            && row.ops.len() <= 4096
            && self.numbers.get(row.n).is_none()
            && self.tables.outbox.get(id).is_none()
    }

    /// Puts a record under its id, and the id under its number.
    fn put_record(&mut self, id: Text, row: OutboxRow) -> Result<(), NoMemory>
        ensures tables { OnOk result (self.new.tables ≡ record self.old.tables { outbox = map.insert self.old.tables.outbox id row }) }
        ensures ids { OnOk result (self.new.ids ≡ self.old.ids) }
        ensures numbers { OnOk result (self.new.numbers ≡ map.insert self.old.numbers row.n id) }
    {
        self.numbers.insert(row.n, id.copy()?)?;
        self.tables.outbox.insert(id, row)?;
        Ok(())
    }

    /// Adds a record that was read.
    fn add_record(&mut self, cell: &Cell, id: Text, row: OutboxRow) -> Result<(), StoreFault>
        requires open { IsOpen self.old }
        requires named { IsId id }
        requires spelled { IsRecord row }
        ensures { AddsPart self.old (handled id row) cell.now self.new result }
    {
        if !self.fits_record(&id, &row) {
            return Err(damaged(cell));
        }
        self.put_record(id, row)?;
        Ok(())
    }

    /// Reads a record.
    fn join_record(&mut self, alloc: Global, cell: &Cell) -> Result<(), StoreFault>
        requires open { IsOpen self.old }
        requires space { cell.now.space ≡ 4 }
        ensures { ReadsCell self.old cell.now self.new result }
    {
        match read_outbox(alloc, cell) {
            Ok(row) => {
                let id = id_in(alloc, cell)?;
                self.add_record(cell, id, row)
            }
            Err(FormatFault::Damaged) => Err(damaged(cell)),
            Err(FormatFault::NoMemory) => Err(StoreFault::NoMemory),
        }
    }

    /// Adds the number of commits that was read.
    fn add_count(&mut self, cell: &Cell, n: u64) -> Result<(), StoreFault>
        requires { IsOpen self.old }
        ensures { AddsPart self.old (count n) cell.now self.new result }
    {
        if self.tables.commits != 0 || n < 1 || n > LIMIT {
            return Err(damaged(cell));
        }
        self.tables.commits = n;
        Ok(())
    }

    /// Reads the number of commits.
    fn join_count(&mut self, cell: &Cell) -> Result<(), StoreFault>
        requires open { IsOpen self.old }
        requires space { cell.now.space ≡ 1 }
        ensures { ReadsCell self.old cell.now self.new result }
    {
        if !cell.key.is_empty() {
            return Err(damaged(cell));
        }
        match count_in(cell.bytes.as_slice()) {
            Some(n) => self.add_count(cell, n),
            None => Err(damaged(cell)),
        }
    }

    /// Reads a cell.
    fn join(&mut self, alloc: Global, cell: &Cell) -> Result<(), StoreFault>
        requires { IsOpen self.old }
        ensures { ReadsCell self.old cell.now self.new result }
    {
        match cell.space {
            1 => self.join_count(cell),
            2 => self.join_saga(alloc, cell),
            3 => self.join_row(alloc, cell),
            4 => self.join_record(alloc, cell),
            _ => Err(damaged(cell)),
        }
    }

    /// Reads cells, one after the other.
    fn join_all(&mut self, alloc: Global, cells: &CellList) -> Result<(), StoreFault>
        requires { IsOpen self.old }
        ensures { ReadsCells self.old cells.now self.new result }
    {
        for i in 0..cells.len() {
            match self.join(alloc, cells.at(i)) {
                Ok(()) => {}
                Err(fault) => return Err(fault),
            }
        }
        Ok(())
    }

    /// Reads the cells of two lists, one after the other.
    fn join_two(
        &mut self,
        alloc: Global,
        first: &CellList,
        second: &CellList,
    ) -> Result<(), StoreFault>
        requires { IsOpen self.old }
        ensures { ReadsCells self.old (first.now ++ second.now) self.new result }
    {
        match self.join_all(alloc, first) {
            Ok(()) => self.join_all(alloc, second),
            Err(fault) => Err(fault),
        }
    }

    /// Reads the cells of the four spaces, one after the other.
    pub fn join_spaces(&mut self, alloc: Global, cells: &Scanned) -> Result<(), StoreFault>
        requires { IsOpen self.old }
        ensures { ReadsCells self.old ((cells.now.counts ++ cells.now.sagas) ++ (cells.now.rows ++ cells.now.records)) self.new result }
    {
        match self.join_two(alloc, &cells.counts, &cells.sagas) {
            Ok(()) => self.join_two(alloc, &cells.rows, &cells.records),
            Err(fault) => Err(fault),
        }
    }

    /// No commits, and nothing stored.
    #[tactic(auto, using(crate::proofs::OpenLaws::open_nothing))]
    pub fn new(alloc: Global) -> Parts
        ensures open { IsOpen result }
        ensures tables { result.tables ≡ no_tables }
    {
        Parts {
            tables: Tables {
                sagas: BySaga::new(alloc),
                rows: ByName::new(alloc),
                outbox: ByName::new(alloc),
                commits: 0,
            },
            ids: ByName::new(alloc),
            numbers: ByNumber::new(alloc),
        }
    }
}

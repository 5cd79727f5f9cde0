//! Cells in the one table of a database.
ghost use Rattle.std.specs.Prelude.{◌≡◌, ◌⊎◌, ◌≤◌, false, true, IfOk, IsTrue, None};
ghost use Rattle.nb_base.specs.Causes.{Rose};
ghost use Rattle.nb_cells.specs.Cells.{CellMap};
ghost use Rattle.nb_sql.specs.Held.{Tells, HasCells, IsImage, IsLasting};
ghost use Rattle.nb_sql.specs.Refusals.{WantsMemory};
ghost use Rattle.nb_sql.specs.Statements.{no_schema};
ghost use Rattle.sqlite.specs.State.{HasCleanDisk};
ghost use Rattle.sqlite.specs.Held.{state};

use crate::read::{read_one, read_space};
use crate::refusal::{Refusal, is_memory};
use crate::table::make_table;
use crate::write::{Refused, apply_all};
use nb_base::Bytes;
use nb_cells::{CellFault, CellList, Cells, Changes};
use sqlite::{Alter, Connection};
use std::alloc::Global;

/// Cells in the one table of a database.
#[derive(Drop)]
pub struct SqlCells<S: Alter> {
    conn: Connection<S>,
    faults: u64,
    // The database refused a commit, whose changes may be found when it is opened again.
    in_doubt: bool,
    ghost idle: { conn.in_transaction ≡ false },
}

impl<S: Alter + Drop> SqlCells<S> {
    /// Takes a connection with no transaction, and makes the table where it is absent. `Failed` is any refusal but want of
    /// memory.
    pub fn adopt(mut conn: Connection<S>) -> Result<SqlCells<S>, CellFault>
        ensures clean { IfOk result (λ c. HasCleanDisk (state S.Store c.conn) → HasCleanDisk (state S.Store conn)) }
        ensures fresh { IfOk result (λ c. HasCleanDisk (state S.Store c.conn) → conn.schema ≡ no_schema → Tells (state S.Store c.conn) (λ _ _. None)) }
        ensures again { (m : CellMap) → IfOk result (λ c. HasCleanDisk (state S.Store c.conn) → IsTrue (state S.Store conn).is_open → Tells (state S.Store conn) m → Tells (state S.Store c.conn) m) }
        ensures found { (m : CellMap) → IfOk result (λ c. HasCleanDisk (state S.Store c.conn) → HasCells (state S.Store conn) m → Tells (state S.Store c.conn) m) }
        ensures new { IfOk result (λ c. (c.faults ≡ 0) × (c.in_doubt ≡ false)) }
    {
        if !conn.is_autocommit() {
            return Err(CellFault::Failed);
        }
        let made = make_table(&mut conn);
        if !conn.is_autocommit() {
            return Err(CellFault::Failed);
        }
        match made {
            Ok(_) => Ok(SqlCells {
                conn,
                faults: 0,
                in_doubt: false,
            }),
            Err(error) if is_memory(error) => Err(CellFault::NoMemory),
            Err(_) => Err(CellFault::Failed),
        }
    }
}

impl<S: Alter> SqlCells<S> {
    /// Hands the connection back.
    pub fn release(self) -> Connection<S>
        ensures { result ≡ self.conn }
    {
        let SqlCells { conn, .. } = self;
        conn
    }

    /// Counts a fault.
    fn failed(&mut self) -> CellFault
        ensures fault { result ≡ CellFault.Failed }
        ensures same { (self.new.conn ≡ self.old.conn) × (self.new.in_doubt ≡ self.old.in_doubt) }
        ensures count { Rose self.old.faults self.new.faults }
        ensures later { self.old.faults ≤ self.new.faults }
    {
        self.faults = self.faults.saturating_add(1);
        CellFault::Failed
    }

    /// Want of memory, or a fault that is counted.
    fn refuse(&mut self, refusal: Refusal) -> CellFault
        ensures same { (self.new.conn ≡ self.old.conn) × (self.new.in_doubt ≡ self.old.in_doubt) }
        ensures memory { WantsMemory refusal → result ≡ CellFault.NoMemory }
        ensures count { result ≡ CellFault.Failed → Rose self.old.faults self.new.faults }
        ensures kept { result ≡ CellFault.NoMemory → self.new.faults ≡ self.old.faults }
        ensures later { self.old.faults ≤ self.new.faults }
    {
        match refusal {
            Refusal::NoMemory => CellFault::NoMemory,
            Refusal::Database(error) if is_memory(error) => CellFault::NoMemory,
            Refusal::Database(_) => self.failed(),
        }
    }

    /// Counts the refusal of a commit.
    fn doubt(&mut self) -> CellFault
        ensures fault { result ≡ CellFault.Failed }
        ensures same { (self.new.conn ≡ self.old.conn) × (self.new.in_doubt ≡ true) }
        ensures count { Rose self.old.faults self.new.faults }
        ensures later { self.old.faults ≤ self.new.faults }
    {
        self.in_doubt = true;
        self.failed()
    }
}

impl<S: Alter> Cells for SqlCells<S> {
    ghost use Rattle.nb_sql.specs.Laws.{tells_one};

    ghost honest = { λ c. HasCleanDisk (state S.Store c.conn) };

    ghost now = { λ c m. Tells (state S.Store c.conn) m };

    ghost images = { λ c m. IsImage (state S.Store c.conn) m };

    ghost firm = { λ c. (c.in_doubt ≡ false) ⊎ IsLasting S.Store };

    ghost count = { λ c. c.faults };

    ghost one = { λ c m n clean p q. tells_one S.Store.own S.survives c.conn m n clean p q };

    fn faults(&self) -> u64 {
        self.faults
    }

    fn get(&mut self, _alloc: Global, space: u8, key: &Bytes) -> Result<Option<Bytes>, CellFault> {
        let read = read_one(&mut self.conn, space, key.as_slice());
        match read {
            Ok(found) => Ok(found),
            Err(refusal) => Err(self.refuse(refusal)),
        }
    }

    fn scan(&mut self, alloc: Global, space: u8) -> Result<CellList, CellFault> {
        let read = read_space(alloc, &mut self.conn, space);
        match read {
            Ok(cells) => Ok(cells),
            Err(refusal) => Err(self.refuse(refusal)),
        }
    }

    fn apply(&mut self, _alloc: Global, changes: &Changes) -> Result<(), CellFault> {
        if changes.is_empty() {
            return Ok(());
        }
        let applied = apply_all(&mut self.conn, changes.as_slice());
        match applied {
            Ok(()) => Ok(()),
            Err(Refused::Inside(error)) => Err(self.refuse(Refusal::Database(error))),
            Err(Refused::Commit(_)) => Err(self.doubt()),
        }
    }
}

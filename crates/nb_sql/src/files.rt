//! Cells in a database file.
ghost use Rattle.std.specs.Prelude.{◌≡◌, false, IfOk, None};
ghost use Rattle.nb_cells.specs.Cells.{CellMap};
ghost use Rattle.nb_sql.specs.Files.{HoldsCells, HoldsNothing};
ghost use Rattle.nb_sql.specs.Held.{Tells, IsImage};
ghost use Rattle.sqlite.specs.Files.{file_state};
ghost use Rattle.sqlite.specs.State.{HasCleanDisk};
ghost use Rattle.sqlite.specs.Recovery.{Image};
ghost use Rattle.sqlite.specs.WalFiles.{image_at};
ghost use Rattle.sqlite_wal.specs.Files.{outcomes};
ghost use Rattle.sqlite_wal.specs.Reads.{AreClean};

use crate::refusal::is_memory;
use crate::sql_cells::SqlCells;
use nb_base::Bytes;
use nb_cells::{CellFault, CellList, Cells, Changes};
use sqlite::{Connection, File, FileFrom, FileStore, Files, Start, Unknown};
use sqlite_disk::Disk;
use std::alloc::Global;

impl<S: Start> SqlCells<FileStore<FileFrom<S>>> {
    /// The cells in the database file at a path, and in the log beside it. Files that are absent are made. `S` stands for
    /// what the two files hold, and its value is used up. `Failed` is any refusal but want of memory.
    pub fn in_file_from(
        rt: &HostRuntime,
        path: &str,
        start: S,
    ) -> Result<SqlCells<FileStore<FileFrom<S>>>, CellFault>
        ensures found { (m : CellMap) → HoldsCells (image_at S.Start) m → IfOk result (λ c. HasCleanDisk (file_state c.conn) → Tells (file_state c.conn) m) }
        ensures fresh { HoldsNothing (image_at S.Start) → IfOk result (λ c. HasCleanDisk (file_state c.conn) → Tells (file_state c.conn) (λ _ _. None)) }
        ensures new { IfOk result (λ c. (c.faults ≡ 0) × (c.in_doubt ≡ false)) }
    {
        match Connection::open_from(rt, path, false, start) {
            Ok(conn) => SqlCells::adopt(conn),
            Err((error, _)) if is_memory(error) => Err(CellFault::NoMemory),
            Err(_) => Err(CellFault::Failed),
        }
    }
}

impl<D: Disk + Drop> SqlCells<FileStore<D>> {
    /// Hands the log and the database file back. Where not every map may be found in them, what a stop leaves of the two
    /// holds one of the maps that may be found, so that the next opening tells it.
    pub fn into_files(self) -> Files<D>
        ensures { (p : CellMap) (image : Image) → AreClean D.Disk result.log result.db → ¬ IsImage (file_state self.conn) p → outcomes D.Disk result.log result.db image → ∥ ((m : CellMap) × IsImage (file_state self.conn) m × HoldsCells image m) ∥₁ }
    {
        self.release().into_store().close()
    }
}

/// Cells in a database file of the host. Its drop is written out, so that no caller proves again how each part of a
/// connection is dropped.
pub struct FileCells {
    cells: SqlCells<FileStore<File>>,
}

impl Drop for FileCells {
    fn drop(self) {
        let FileCells { cells: _ } = self;
    }
}

impl FileCells {
    /// The cells in the database file at a path, as `SqlCells::in_file_from` opens it.
    pub fn in_file(rt: &HostRuntime, path: &str) -> Result<FileCells, CellFault>
        ensures { IfOk result (λ c. (c.cells.faults ≡ 0) × (c.cells.in_doubt ≡ false)) }
    {
        let cells = SqlCells::in_file_from(rt, path, Unknown)?;
        Ok(FileCells { cells })
    }
}

impl Cells for FileCells {
    ghost use Rattle.std.proofs.Common.{inl, refl};
    ghost use Rattle.nb_sql.specs.Laws.{tells_one};
    ghost use Rattle.sqlite.specs.Files.{over_files};
    ghost use Rattle.sqlite_store.specs.Laws.{survives_at};

    ghost honest = { λ c. ⟦<SqlCells<FileStore<File>> as Cells>⟧.honest c.cells };

    ghost now = { λ c m. ⟦<SqlCells<FileStore<File>> as Cells>⟧.now c.cells m };

    ghost images = { λ c m. ⟦<SqlCells<FileStore<File>> as Cells>⟧.images c.cells m };

    ghost firm = { λ c. ⟦<SqlCells<FileStore<File>> as Cells>⟧.firm c.cells };

    ghost count = { λ c. ⟦<SqlCells<FileStore<File>> as Cells>⟧.count c.cells };

    ghost one = { λ c m n clean p q. tells_one over_files (λ it. survives_at it (λ _. inl refl)) c.cells.conn m n clean p q };

    fn faults(&self) -> u64 {
        self.cells.faults()
    }

    fn get(&mut self, alloc: Global, space: u8, key: &Bytes) -> Result<Option<Bytes>, CellFault> {
        self.cells.get(alloc, space, key)
    }

    fn scan(&mut self, alloc: Global, space: u8) -> Result<CellList, CellFault> {
        self.cells.scan(alloc, space)
    }

    fn apply(&mut self, alloc: Global, changes: &Changes) -> Result<(), CellFault> {
        self.cells.apply(alloc, changes)
    }
}

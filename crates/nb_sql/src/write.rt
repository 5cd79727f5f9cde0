//! Changes of cells, made in one transaction.
ghost use Rattle.std.specs.Prelude.{◌≡◌, ◌⊎◌, false, OnOk, OnErr, Err, IsTrue, Some, None, length, ◌<◌};
ghost use Rattle.nb_cells.specs.Cells.{CellMap, set_at, with_change, changed, AreAlike};
ghost use Rattle.nb_sql.specs.Held.{Tells, IsImage, Sees, IsRunning};
ghost use Rattle.sqlite.specs.State.{HasCleanDisk, Survives, KeepsCommit};
ghost use Rattle.sqlite.specs.Held.{state};

use crate::statements::{ERASE, PUT};
use nb_cells::Change;
use sqlite::{Alter, Connection, Error, Transaction, params};

/// Puts a cell.
fn put_one<S: Alter>(
    tx: &mut Transaction<'_, S>,
    space: u8,
    key: &[u8],
    bytes: &[u8],
) -> Result<usize, Error>
    ensures same_reference { tx.new.conn.ghost_name ≡ tx.old.conn.ghost_name }
    ensures ok { (m : CellMap) → HasCleanDisk (state S.Store tx.new.conn.now) → Sees (state S.Store tx.old.conn.now) m → OnOk result (IsRunning (state S.Store tx.new.conn.now) × Sees (state S.Store tx.new.conn.now) (set_at m space key.now (Some bytes.now))) }
    ensures kept { HasCleanDisk (state S.Store tx.new.conn.now) → KeepsCommit (state S.Store tx.old.conn.now) (state S.Store tx.new.conn.now) }
    ensures survives { Survives (state S.Store tx.old.conn.now) (state S.Store tx.new.conn.now) (λ _. ⊥) }
{
    tx.execute(PUT, params![u32::from(space), key, bytes])
}

/// Takes a cell away, where it is there.
fn erase_one<S: Alter>(tx: &mut Transaction<'_, S>, space: u8, key: &[u8]) -> Result<usize, Error>
    ensures same_reference { tx.new.conn.ghost_name ≡ tx.old.conn.ghost_name }
    ensures ok { (m : CellMap) → HasCleanDisk (state S.Store tx.new.conn.now) → Sees (state S.Store tx.old.conn.now) m → OnOk result (IsRunning (state S.Store tx.new.conn.now) × Sees (state S.Store tx.new.conn.now) (set_at m space key.now None)) }
    ensures kept { HasCleanDisk (state S.Store tx.new.conn.now) → KeepsCommit (state S.Store tx.old.conn.now) (state S.Store tx.new.conn.now) }
    ensures survives { Survives (state S.Store tx.old.conn.now) (state S.Store tx.new.conn.now) (λ _. ⊥) }
{
    tx.execute(ERASE, params![u32::from(space), key])
}

/// Makes one change.
fn change_one<S: Alter>(tx: &mut Transaction<'_, S>, change: &Change) -> Result<usize, Error>
    ensures same_reference { tx.new.conn.ghost_name ≡ tx.old.conn.ghost_name }
    ensures ok { (m : CellMap) → HasCleanDisk (state S.Store tx.new.conn.now) → Sees (state S.Store tx.old.conn.now) m → OnOk result (IsRunning (state S.Store tx.new.conn.now) × Sees (state S.Store tx.new.conn.now) (with_change m change.now)) }
    ensures kept { HasCleanDisk (state S.Store tx.new.conn.now) → KeepsCommit (state S.Store tx.old.conn.now) (state S.Store tx.new.conn.now) }
    ensures survives { Survives (state S.Store tx.old.conn.now) (state S.Store tx.new.conn.now) (λ _. ⊥) }
{
    match change {
        Change::Put { space, key, bytes } => put_one(tx, *space, key.as_slice(), bytes.as_slice()),
        Change::Erase { space, key } => erase_one(tx, *space, key.as_slice()),
    }
}

/// Makes the changes one after the other.
fn change_all<S: Alter>(tx: &mut Transaction<'_, S>, changes: &[Change]) -> Result<(), Error>
    ensures same_reference { tx.new.conn.ghost_name ≡ tx.old.conn.ghost_name }
    ensures ok { (m : CellMap) → HasCleanDisk (state S.Store tx.new.conn.now) → Sees (state S.Store tx.old.conn.now) m → OnOk result (Sees (state S.Store tx.new.conn.now) (changed changes.now m)) }
    ensures some { (m : CellMap) → HasCleanDisk (state S.Store tx.new.conn.now) → Sees (state S.Store tx.old.conn.now) m → OnOk result (0 < length changes.now → IsRunning (state S.Store tx.new.conn.now)) }
    ensures kept { HasCleanDisk (state S.Store tx.new.conn.now) → KeepsCommit (state S.Store tx.old.conn.now) (state S.Store tx.new.conn.now) }
    ensures survives { Survives (state S.Store tx.old.conn.now) (state S.Store tx.new.conn.now) (λ _. ⊥) }
{
    'changes: for change in changes {
        let _ = change_one(tx, change)?;
    }
    Ok(())
}

/// Where an apply was refused: before its commit, which left all as it was, or at its commit, whose changes may be found
/// when the database is opened again.
#[derive(Clone, Copy, Debug)]
pub(crate) enum Refused {
    Inside(Error),
    Commit(Error),
}

/// Makes all of the changes in one transaction, or none.
pub(crate) fn apply_all<S: Alter>(
    conn: &mut Connection<S>,
    changes: &[Change],
) -> Result<(), Refused>
    requires idle { conn.old.in_transaction ≡ false }
    requires some { 0 < length changes.now }
    ensures idle { conn.new.in_transaction ≡ false }
    ensures clean { HasCleanDisk (state S.Store conn.new) → HasCleanDisk (state S.Store conn.old) }
    ensures ok { (m : CellMap) → HasCleanDisk (state S.Store conn.new) → Tells (state S.Store conn.old) m → OnOk result (Tells (state S.Store conn.new) (changed changes.now m)) }
    ensures inside { (m : CellMap) (e : _) → HasCleanDisk (state S.Store conn.new) → Tells (state S.Store conn.old) m → result ≡ Err (Refused.Inside e) → Tells (state S.Store conn.new) m }
    ensures inside_images { (n : CellMap) (e : _) → HasCleanDisk (state S.Store conn.new) → result ≡ Err (Refused.Inside e) → IsImage (state S.Store conn.new) n → IsImage (state S.Store conn.old) n }
    ensures commit { (m : CellMap) (e : _) → HasCleanDisk (state S.Store conn.new) → Tells (state S.Store conn.old) m → result ≡ Err (Refused.Commit e) → IsTrue (state S.Store conn.new).is_open → Tells (state S.Store conn.new) m }
    ensures images { (m n : CellMap) → HasCleanDisk (state S.Store conn.new) → Tells (state S.Store conn.old) m → IsImage (state S.Store conn.new) n → OnErr result (IsImage (state S.Store conn.old) n ⊎ AreAlike n (changed changes.now m)) }
{
    let mut tx = conn.transaction();
    if let Err(error) = change_all(&mut tx, changes) {
        return Err(Refused::Inside(error));
    }
    match tx.commit() {
        Ok(()) => Ok(()),
        Err(error) => Err(Refused::Commit(error)),
    }
}

ghost use Rattle.std.specs.Prelude.{◌≡◌, ◌∷◌, [], codes, IfOk};
ghost use Rattle.nb_cells.specs.Cells.{IsSpace};

use nb_base::{Bytes, Items, NoMemory};
use nb_cells::{CellFault, CellList, Cells, Change, Changes};
use nb_sql::{FileCells, SqlCells};
use sqlite::{Connection, FileStore, Files, MemStore, Options, Unknown};
use sqlite_disk::{Disk, Fuse, Memory};
use std::alloc::Global;
use std::test::Fail;
use std::{fs, io};

fn put_of(alloc: Global, space: u8, key: &str, bytes: &str) -> Result<Change, NoMemory>
    ensures { IfOk result (λ c. c ≡ Change.Put space key.now bytes.now) }
{
    let key = Bytes::new(alloc, key.as_bytes())?;
    let bytes = Bytes::new(alloc, bytes.as_bytes())?;
    Ok(Change::Put { space, key, bytes })
}

fn erase_of(alloc: Global, space: u8, key: &str) -> Result<Change, NoMemory>
    ensures { IfOk result (λ c. c ≡ Change.Erase space key.now) }
{
    Ok(Change::Erase {
        space,
        key: Bytes::new(alloc, key.as_bytes())?,
    })
}

/// One cell to be put.
fn putting(alloc: Global, space: u8, key: &str, bytes: &str) -> Result<Changes, NoMemory>
    ensures { IfOk result (λ cs. cs ≡ Change.Put space key.now bytes.now ∷ []) }
{
    let mut changes = Items::new(alloc);
    changes.push(put_of(alloc, space, key, bytes)?)?;
    Ok(changes)
}

/// `new` to be put over what stands at `a` in space 1, and `b` in space 2 to be taken away.
fn turning(alloc: Global) -> Result<Changes, NoMemory>
    ensures { IfOk result (λ cs. cs ≡ Change.Put 1 (codes "a") (codes "new") ∷ Change.Erase 2 (codes "b") ∷ []) }
{
    let mut changes = Items::new(alloc);
    changes.push(put_of(alloc, 1, "a", "new")?)?;
    changes.push(erase_of(alloc, 2, "b")?)?;
    Ok(changes)
}

/// Puts one cell.
fn put<C: Cells>(
    alloc: Global,
    cells: &mut C,
    space: u8,
    key: &str,
    bytes: &str,
) -> Result<(), CellFault>
    requires { IsSpace space }
{
    let changes = putting(alloc, space, key, bytes)?;
    cells.apply(alloc, &changes)
}

/// Puts `new` over what stands at `a` in space 1, and takes `b` in space 2 away.
fn turn<C: Cells>(alloc: Global, cells: &mut C) -> Result<(), CellFault> {
    let changes = turning(alloc)?;
    cells.apply(alloc, &changes)
}

/// Whether the cells are these: spaces, keys and bytes.
fn are(cells: &CellList, wanted: &[(u8, &str, &str)]) -> bool {
    cells.len() == wanted.len()
        && cells.as_slice().iter().zip(wanted).all(|(cell, w)| {
            cell.space == w.0
                && cell.key.as_slice() == w.1.as_bytes()
                && cell.bytes.as_slice() == w.2.as_bytes()
        })
}

/// Whether the first two spaces have these cells.
fn hold<C: Cells>(
    alloc: Global,
    cells: &mut C,
    first: &[(u8, &str, &str)],
    second: &[(u8, &str, &str)],
) -> Result<bool, CellFault> {
    let one = cells.scan(alloc, 1)?;
    let two = cells.scan(alloc, 2)?;
    Ok(are(&one, first) && are(&two, second))
}

/// Whether a place has these bytes.
fn has<C: Cells>(
    alloc: Global,
    cells: &mut C,
    space: u8,
    key: &Bytes,
    bytes: &[u8],
) -> Result<bool, CellFault>
    requires { IsSpace space }
{
    match cells.get(alloc, space, key)? {
        Some(found) => Ok(found.as_slice() == bytes),
        None => Ok(false),
    }
}

/// Puts a cell, and tells whether it is got at its place and at no other, without a fault.
fn is_got<C: Cells>(alloc: Global, cells: &mut C) -> Result<bool, CellFault> {
    put(alloc, cells, 2, "b", "two")?;
    let key = Bytes::new(alloc, b"b")?;
    let got = has(alloc, cells, 2, &key, b"two")? && cells.get(alloc, 1, &key)?.is_none();
    Ok(got && cells.faults() == 0)
}

#[test]
fn cells_are_got(rt: HostRuntime) -> Result<(), Fail> {
    let alloc = rt.alloc();
    let mut cells = SqlCells::in_memory(alloc)?;
    assert!(rt; is_got(alloc, &mut cells)?);
    Ok(())
}

/// Puts four cells in no order.
fn put_unordered<C: Cells>(alloc: Global, cells: &mut C) -> Result<(), CellFault> {
    put(alloc, cells, 2, "b", "1")?;
    put(alloc, cells, 2, "ab", "2")?;
    put(alloc, cells, 1, "c", "3")?;
    put(alloc, cells, 2, "a", "")
}

/// Puts four cells in no order, and tells whether they are scanned by rising keys.
fn are_ordered<C: Cells>(alloc: Global, cells: &mut C) -> Result<bool, CellFault> {
    put_unordered(alloc, cells)?;
    let told = hold(
        alloc,
        cells,
        &[(1, "c", "3")],
        &[(2, "a", ""), (2, "ab", "2"), (2, "b", "1")],
    )?;
    Ok(told && cells.scan(alloc, 3)?.is_empty())
}

#[test]
fn cells_are_scanned_by_rising_keys(rt: HostRuntime) -> Result<(), Fail> {
    let alloc = rt.alloc();
    let mut cells = SqlCells::in_memory(alloc)?;
    assert!(rt; are_ordered(alloc, &mut cells)?);
    Ok(())
}

/// Puts cells at the places that turn, and turns them.
fn put_and_turn<C: Cells>(alloc: Global, cells: &mut C) -> Result<(), CellFault> {
    put(alloc, cells, 1, "a", "old")?;
    put(alloc, cells, 2, "b", "old")?;
    turn(alloc, cells)
}

#[test]
fn changes_are_made_together(rt: HostRuntime) -> Result<(), Fail> {
    let alloc = rt.alloc();
    let mut cells = SqlCells::in_memory(alloc)?;
    put_and_turn(alloc, &mut cells)?;
    assert!(rt; hold(alloc, &mut cells, &[(1, "a", "new")], &[])?);
    Ok(())
}

/// Puts a cell elsewhere, and turns those that aren't there.
fn put_elsewhere_and_turn<C: Cells>(alloc: Global, cells: &mut C) -> Result<(), CellFault> {
    put(alloc, cells, 1, "b", "one")?;
    turn(alloc, cells)
}

#[test]
fn an_erase_of_no_cell_changes_nothing(rt: HostRuntime) -> Result<(), Fail> {
    let alloc = rt.alloc();
    let mut cells = SqlCells::in_memory(alloc)?;
    put_elsewhere_and_turn(alloc, &mut cells)?;
    assert!(rt; hold(alloc, &mut cells, &[(1, "a", "new"), (1, "b", "one")], &[])?);
    Ok(())
}

/// A connection with one cell.
fn released(alloc: Global) -> Result<Connection<MemStore>, CellFault> {
    let mut cells = SqlCells::in_memory(alloc)?;
    put(alloc, &mut cells, 1, "a", "one")?;
    Ok(cells.release())
}

#[test]
fn a_released_connection_is_adopted_again(rt: HostRuntime) -> Result<(), Fail> {
    let alloc = rt.alloc();
    let mut again = SqlCells::adopt(released(alloc)?)?;
    assert!(rt; hold(alloc, &mut again, &[(1, "a", "one")], &[])?);
    Ok(())
}

#[test]
fn a_connection_in_a_transaction_is_refused(rt: HostRuntime) -> Result<(), Fail> {
    let mut conn = Connection::open_in_memory(rt.alloc())?;
    conn.execute("BEGIN", &[])?;
    assert!(rt; matches!(&SqlCells::adopt(conn), Err(CellFault::Failed)));
    Ok(())
}

/// Puts two cells.
fn put_two<C: Cells>(alloc: Global, cells: &mut C) -> Result<(), CellFault> {
    put(alloc, cells, 1, "a", "old")?;
    put(alloc, cells, 2, "b", "old")
}

/// Puts two cells into the file at a path.
fn fill(rt: &HostRuntime, path: &str) -> Result<(), CellFault> {
    let mut cells = FileCells::in_file(rt, path)?;
    put_two(rt.alloc(), &mut cells)
}

/// Whether the file at a path is refused.
fn is_refused(rt: &HostRuntime, path: &str) -> bool {
    matches!(&FileCells::in_file(rt, path), Err(CellFault::Failed))
}

/// Turns cells, and tells whether the file at a path is refused meanwhile.
fn turn_meanwhile<C: Cells>(
    rt: &HostRuntime,
    path: &str,
    cells: &mut C,
) -> Result<bool, CellFault> {
    turn(rt.alloc(), cells)?;
    Ok(is_refused(rt, path))
}

/// Turns the cells of the file at a path, and tells whether it is refused to another one meanwhile.
fn turn_file(rt: &HostRuntime, path: &str) -> Result<bool, CellFault> {
    let mut cells = FileCells::in_file(rt, path)?;
    turn_meanwhile(rt, path, &mut cells)
}

/// Whether the cells that were turned are told without a fault.
fn hold_turned<C: Cells>(alloc: Global, cells: &mut C) -> Result<bool, CellFault> {
    Ok(hold(alloc, cells, &[(1, "a", "new")], &[])? && cells.faults() == 0)
}

/// Whether the file at a path has the cells that were turned.
fn is_turned(rt: &HostRuntime, path: &str) -> Result<bool, CellFault> {
    let mut cells = SqlCells::in_file_from(rt, path, Unknown)?;
    hold_turned(rt.alloc(), &mut cells)
}

#[test]
fn a_file_is_opened_again(rt: HostRuntime) -> Result<(), Fail> {
    let _ = fs::remove_dir_all(&rt, "nb_sql_test");
    fs::create_dir(&rt, "nb_sql_test")?;
    fill(&rt, "nb_sql_test/a.db")?;
    assert!(rt; turn_file(&rt, "nb_sql_test/a.db")?);
    assert!(rt; is_turned(&rt, "nb_sql_test/a.db")?);
    fs::remove_dir_all(&rt, "nb_sql_test")?;
    Ok(())
}

#[test]
fn a_name_of_memory_is_no_file(rt: HostRuntime) {
    assert!(rt; matches!(&FileCells::in_file(&rt, ":memory:"), Err(CellFault::Failed)));
}

// ---- disks whose calls fail from some call on

type Fused = SqlCells<FileStore<Fuse<Memory>>>;

/// Cells over files whose log fails after so many calls.
fn fused(alloc: Global, log: Memory, db: Memory, calls: u64) -> Option<Fused> {
    let files = Files {
        log: Fuse::new(log, calls),
        db: Fuse::new(db, u64::MAX),
    };
    if !files.may_be_used() {
        return None;
    }
    match Connection::open_files(alloc, files, Options::new(1)) {
        Ok(conn) => SqlCells::adopt(conn).ok(),
        Err(_) => None,
    }
}

/// A disk with what another holds.
fn copy(alloc: Global, from: &Memory) -> io::Result<Memory> {
    let mut to = Memory::new(alloc);
    to.write_at(0, from.bytes())?;
    to.sync()?;
    Ok(to)
}

/// The cells that are found in the files of others, on disks that work.
fn found_again(alloc: Global, cells: Fused, calls: u64) -> Option<Fused> {
    let files = cells.into_files();
    let log = copy(alloc, files.log.inner()).ok()?;
    let db = copy(alloc, files.db.inner()).ok()?;
    fused(alloc, log, db, calls)
}

/// Cells over a log that fails after so many calls, opened again after they were filled.
fn filled(alloc: Global, calls: u64) -> Option<Fused> {
    let mut cells = fused(alloc, Memory::new(alloc), Memory::new(alloc), u64::MAX)?;
    put_two(alloc, &mut cells).ok()?;
    found_again(alloc, cells, calls)
}

/// Whether the old and the new cells are held.
fn old_and_new<C: Cells>(alloc: Global, cells: &mut C) -> Result<(bool, bool), CellFault> {
    let old = hold(alloc, cells, &[(1, "a", "old")], &[(2, "b", "old")])?;
    let new = hold(alloc, cells, &[(1, "a", "new")], &[])?;
    Ok((old, new))
}

/// Whether the old and the new cells are found when the files are opened again.
fn found_after(alloc: Global, cells: Fused) -> Option<(bool, bool)> {
    let mut again = found_again(alloc, cells, u64::MAX)?;
    old_and_new(alloc, &mut again).ok()
}

/// What comes of an apply whose log fails: what it answers, the count of faults, and whether the old and the new cells are
/// found when the files are opened again.
fn stopped(alloc: Global, calls: u64) -> Option<(Result<(), CellFault>, u64, bool, bool)> {
    let mut cells = filled(alloc, calls)?;
    let answer = turn(alloc, &mut cells);
    let faults = cells.faults();
    let (old, new) = found_after(alloc, cells)?;
    Some((answer, faults, old, new))
}

/// How often the cells that are found are the old ones after `Failed`, the new ones after `Failed`, and the new ones
/// after Ok; and how often it came out otherwise. An opening alone makes some 50 calls of the log.
fn outcomes(alloc: Global) -> [u64; 4] {
    let mut seen = [0u64; 4];
    for calls in 40..80 {
        let at = match stopped(alloc, calls) {
            None => continue,
            Some((Err(CellFault::Failed), 1, true, false)) => 0,
            Some((Err(CellFault::Failed), 1, false, true)) => 1,
            Some((Ok(()), 0, false, true)) => 2,
            Some(_) => 3,
        };
        seen[at] = seen[at].saturating_add(1);
    }
    seen
}

#[test]
fn each_stop_of_the_log_leaves_old_cells_or_new_ones(rt: HostRuntime) {
    let [lost, found, whole, other] = outcomes(rt.alloc());
    assert!(rt; lost > 0, "no apply was lost");
    assert!(rt; found > 0, "no refused commit was found");
    assert!(rt; whole > 0, "no apply was whole");
    assert_eq!(rt; other, 0);
}

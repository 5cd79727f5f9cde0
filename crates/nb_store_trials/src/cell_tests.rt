ghost use Rattle.std.specs.Prelude.{◌≡◌, IfOk};

use nb_base::{Bytes, Copied, Items, NoMemory, Numbers};
use nb_cells::{Cell, CellFault, CellList, Cells, Change, FaultPlan, MemCells, Stop};
use std::alloc::Global;
use std::test::Fail;

fn cell(alloc: Global, space: u8, key: &str, bytes: &str) -> Result<Cell, NoMemory> {
    let key = Bytes::new(alloc, key.as_bytes())?;
    let bytes = Bytes::new(alloc, bytes.as_bytes())?;
    Ok(Cell { space, key, bytes })
}

fn numbers(alloc: Global, calls: &[u64]) -> Result<Numbers, NoMemory> {
    let mut list = Items::new(alloc);
    for call in calls {
        list.push(*call)?;
    }
    Ok(list)
}

/// The cells `a` in space 1 and `b` in space 2.
fn two_cells(alloc: Global) -> Result<CellList, NoMemory> {
    let mut cells = Items::new(alloc);
    cells.push(cell(alloc, 1, "a", "one")?)?;
    cells.push(cell(alloc, 2, "b", "two")?)?;
    Ok(cells)
}

/// A store with the cells `a` in space 1 and `b` in space 2.
fn store(
    alloc: Global,
    reads: &[u64],
    applies: &[u64],
    stop: Option<Stop>,
) -> Result<MemCells, NoMemory> {
    let reads = numbers(alloc, reads)?;
    let applies = numbers(alloc, applies)?;
    let plan = FaultPlan {
        reads,
        applies,
        stop,
    };
    MemCells::new(alloc, two_cells(alloc)?, plan)
}

fn put_of(alloc: Global, space: u8, key: &str, bytes: &str) -> Result<Change, NoMemory>
    ensures { IfOk result (λ c. c ≡ Change.Put space key.now bytes.now) }
{
    Ok(Change::Put {
        space,
        key: Bytes::new(alloc, key.as_bytes())?,
        bytes: Bytes::new(alloc, bytes.as_bytes())?,
    })
}

fn erase_of(alloc: Global, space: u8, key: &str) -> Result<Change, NoMemory>
    ensures { IfOk result (λ c. c ≡ Change.Erase space key.now) }
{
    Ok(Change::Erase {
        space,
        key: Bytes::new(alloc, key.as_bytes())?,
    })
}

/// Puts a cell in space 1.
fn put(alloc: Global, store: &mut MemCells, key: &str, bytes: &str) -> Result<(), CellFault> {
    let mut changes = Items::new(alloc);
    changes.push(put_of(alloc, 1, key, bytes)?)?;
    store.apply(alloc, &changes)
}

/// Whether the cells are these: spaces, keys and bytes.
fn are(cells: &CellList, wanted: &[(u8, &str, &str)]) -> bool {
    cells.len() == wanted.len()
        && cells.as_slice().iter().zip(wanted).all(|(cell, w)| {
            cell.space == w.0
                && cell.key.as_slice() == w.1.as_bytes()
                && cell.bytes.as_slice() == w.2.as_bytes()
        })
}

/// Whether the cells of a store are these.
fn holds(alloc: Global, store: &MemCells, wanted: &[(u8, &str, &str)]) -> Result<bool, NoMemory> {
    Ok(are(&store.now(alloc)?, wanted))
}

/// Whether these cells are left of a store.
fn leaves(alloc: Global, store: MemCells, wanted: &[(u8, &str, &str)]) -> Result<bool, NoMemory> {
    Ok(are(&store.left(alloc)?, wanted))
}

/// Three cells, in no order.
fn unordered(alloc: Global) -> Result<CellList, NoMemory> {
    let mut cells = Items::new(alloc);
    cells.push(cell(alloc, 2, "b", "1")?)?;
    cells.push(cell(alloc, 2, "ab", "2")?)?;
    cells.push(cell(alloc, 1, "c", "3")?)?;
    Ok(cells)
}

#[test]
fn cells_are_told_by_place(rt: HostRuntime) -> Result<(), Fail> {
    let alloc = rt.alloc();
    let store = MemCells::new(alloc, unordered(alloc)?, FaultPlan::none(alloc))?;
    assert!(rt;
        holds(
            alloc,
            &store,
            &[(1, "c", "3"), (2, "ab", "2"), (2, "b", "1")]
        )?
    );
    Ok(())
}

/// Whether a store has these bytes at a place.
fn has(
    alloc: Global,
    store: &mut MemCells,
    space: u8,
    key: &Bytes,
    bytes: &[u8],
) -> Result<bool, CellFault> {
    match store.get(alloc, space, key)? {
        Some(found) => Ok(found.as_slice() == bytes),
        None => Ok(false),
    }
}

/// Whether the usual store has these bytes at a place.
fn is_got(alloc: Global, space: u8, key: &str, bytes: &[u8]) -> Result<bool, CellFault> {
    let key = Bytes::new(alloc, key.as_bytes())?;
    let mut store = store(alloc, &[], &[], None)?;
    has(alloc, &mut store, space, &key, bytes)
}

#[test]
fn cells_are_got(rt: HostRuntime) -> Result<(), Fail> {
    let alloc = rt.alloc();
    assert!(rt; is_got(alloc, 2, "b", b"two")?);
    assert!(rt; !is_got(alloc, 1, "b", b"two")?);
    Ok(())
}

/// Whether a scan of the usual store finds these cells.
fn are_scanned(alloc: Global, space: u8, wanted: &[(u8, &str, &str)]) -> Result<bool, CellFault> {
    let mut store = store(alloc, &[], &[], None)?;
    Ok(are(&store.scan(alloc, space)?, wanted))
}

#[test]
fn cells_are_scanned(rt: HostRuntime) -> Result<(), Fail> {
    let alloc = rt.alloc();
    assert!(rt; are_scanned(alloc, 2, &[(2, "b", "two")])?);
    assert!(rt; are_scanned(alloc, 3, &[])?);
    Ok(())
}

/// Puts a cell and erases another one.
fn put_and_erase(alloc: Global, store: &mut MemCells) -> Result<(), CellFault> {
    let mut changes = Items::new(alloc);
    changes.push(put_of(alloc, 3, "c", "three")?)?;
    changes.push(erase_of(alloc, 1, "a")?)?;
    store.apply(alloc, &changes)
}

/// The usual store after a put and an erase.
fn changed(alloc: Global) -> Result<MemCells, CellFault> {
    let mut store = store(alloc, &[], &[], None)?;
    put_and_erase(alloc, &mut store)?;
    Ok(store)
}

#[test]
fn changes_are_made_together(rt: HostRuntime) -> Result<(), Fail> {
    let alloc = rt.alloc();
    let store = changed(alloc)?;
    assert!(rt; holds(alloc, &store, &[(2, "b", "two"), (3, "c", "three")])?);
    Ok(())
}

/// A store at which a cell was put over another.
fn put_twice(alloc: Global) -> Result<MemCells, CellFault> {
    let mut store = MemCells::empty(alloc);
    put(alloc, &mut store, "a", "old")?;
    put(alloc, &mut store, "a", "new")?;
    Ok(store)
}

#[test]
fn a_cell_is_put_over_another(rt: HostRuntime) -> Result<(), Fail> {
    let alloc = rt.alloc();
    let store = put_twice(alloc)?;
    assert!(rt; leaves(alloc, store, &[(1, "a", "new")])?);
    Ok(())
}

/// Erases a cell that isn't there.
fn erase_nothing(alloc: Global, store: &mut MemCells) -> Result<(), CellFault> {
    let mut changes = Items::new(alloc);
    changes.push(erase_of(alloc, 1, "b")?)?;
    store.apply(alloc, &changes)
}

/// The usual store after that.
fn unchanged(alloc: Global) -> Result<MemCells, CellFault> {
    let mut store = store(alloc, &[], &[], None)?;
    erase_nothing(alloc, &mut store)?;
    Ok(store)
}

#[test]
fn an_erase_of_no_cell_changes_nothing(rt: HostRuntime) -> Result<(), Fail> {
    let alloc = rt.alloc();
    let store = unchanged(alloc)?;
    assert!(rt; leaves(alloc, store, &[(1, "a", "one"), (2, "b", "two")])?);
    Ok(())
}

/// How a scan ends.
fn scanned(alloc: Global, store: &mut MemCells) -> &'static str {
    match store.scan(alloc, 1) {
        Ok(_) => "ok",
        Err(CellFault::Failed) => "failed",
        Err(CellFault::NoMemory) => "no memory",
    }
}

/// How three scans end, and the count of faults behind them.
fn three_scans(
    alloc: Global,
    store: &mut MemCells,
) -> (&'static str, &'static str, &'static str, u64) {
    let first = scanned(alloc, store);
    let second = scanned(alloc, store);
    let third = scanned(alloc, store);
    (first, second, third, store.faults())
}

#[test]
fn a_planned_read_fails_once(rt: HostRuntime) -> Result<(), Fail> {
    let alloc = rt.alloc();
    let mut store = store(alloc, &[2], &[], None)?;
    assert_eq!(rt; three_scans(alloc, &mut store), ("ok", "failed", "ok", 1));
    Ok(())
}

/// Whether the first of two puts fails, whose apply does, and the count of faults behind it.
fn lost_and_kept(alloc: Global, store: &mut MemCells) -> Result<(bool, u64), CellFault> {
    let lost = put(alloc, store, "c", "lost") == Err(CellFault::Failed);
    let faults = store.faults();
    put(alloc, store, "d", "kept")?;
    Ok((lost, faults))
}

#[test]
fn a_planned_apply_fails_once(rt: HostRuntime) -> Result<(), Fail> {
    let alloc = rt.alloc();
    let mut store = store(alloc, &[], &[1], None)?;
    assert_eq!(rt; lost_and_kept(alloc, &mut store)?, (true, 1));
    assert!(rt;
        leaves(
            alloc,
            store,
            &[(1, "a", "one"), (1, "d", "kept"), (2, "b", "two")]
        )?
    );
    Ok(())
}

/// Two puts around one at which a store stops, and a scan.
fn put_thrice(alloc: Global, store: &mut MemCells) -> Result<(), CellFault> {
    put(alloc, store, "c", "1")?;
    let _ = put(alloc, store, "d", "2");
    let _ = put(alloc, store, "e", "3");
    let _ = store.scan(alloc, 1);
    Ok(())
}

/// A store after a stop at the second of three applies, and a read after it.
fn stopped(alloc: Global, after: bool) -> Result<MemCells, CellFault> {
    let mut store = store(alloc, &[], &[], Some(Stop { apply: 2, after }))?;
    put_thrice(alloc, &mut store)?;
    Ok(store)
}

/// The cells before the apply of the stop.
const BEFORE: &[(u8, &str, &str)] = &[(1, "a", "one"), (1, "c", "1"), (2, "b", "two")];

/// The cells behind it.
const BEHIND: &[(u8, &str, &str)] = &[
    (1, "a", "one"),
    (1, "c", "1"),
    (1, "d", "2"),
    (2, "b", "two"),
];

/// Whether three calls failed, and a store tells the cells before the stop.
fn tells_stop(alloc: Global, store: &MemCells) -> Result<bool, NoMemory> {
    Ok(store.faults() == 3 && holds(alloc, store, BEFORE)?)
}

/// Whether a store has stopped so, and leaves these cells.
fn has_stopped(
    alloc: Global,
    store: MemCells,
    left: &[(u8, &str, &str)],
) -> Result<bool, NoMemory> {
    let told = tells_stop(alloc, &store)?;
    Ok(leaves(alloc, store, left)? && told)
}

#[test]
fn a_stop_comes_before_its_effect(rt: HostRuntime) -> Result<(), Fail> {
    let alloc = rt.alloc();
    let store = stopped(alloc, false)?;
    assert!(rt; has_stopped(alloc, store, BEFORE)?);
    Ok(())
}

#[test]
fn a_stop_comes_after_its_effect(rt: HostRuntime) -> Result<(), Fail> {
    let alloc = rt.alloc();
    let store = stopped(alloc, true)?;
    assert!(rt; has_stopped(alloc, store, BEHIND)?);
    Ok(())
}

/// A plan by which the third read fails.
fn third_read(alloc: Global) -> Result<FaultPlan, NoMemory> {
    Ok(FaultPlan {
        reads: numbers(alloc, &[3])?,
        applies: Items::new(alloc),
        stop: None,
    })
}

#[test]
fn plans_are_copied(rt: HostRuntime) -> Result<(), Fail> {
    let plan = third_read(rt.alloc())?;
    assert_eq!(rt; plan.copy()?.reads.as_slice(), [3].as_slice());
    Ok(())
}

#[test]
fn cells_are_copied(rt: HostRuntime) -> Result<(), Fail> {
    let cells = two_cells(rt.alloc())?;
    assert!(rt; are(&cells.copy()?, &[(1, "a", "one"), (2, "b", "two")]));
    Ok(())
}

ghost use Rattle.std.specs.Prelude.{◌≡◌, ◌≢◌, ◌∷◌, [], IfOk};
ghost use Rattle.nb_store.specs.Calls.{id_of};
ghost use Rattle.nb_base.specs.declared.plan.Write.TheVariants.{RowPut};

use nb_base::{Bytes, Copied, Envelope, Items, Moment, NoMemory, Numbers, Plan, Text, Write};
use nb_cells::{Cell, CellList, FaultPlan, MemCells, Stop};
use nb_store::{Store, StoreClosed, StoreFault};
use std::alloc::Global;
use std::test::Fail;

const PENDING: &[u8] = b"\x01\0\0\0\0\0\0\0\x01\0\0\0\0\0\0\0\0\0\0\0\0\0";

const SENT: &[u8] = b"\x01\0\0\0\0\0\0\0\x01\0\0\0\0\0\0\0\0\x01\0\0\0\0";

const LATER: &[u8] = b"\x01\0\0\0\0\0\0\0\x02\0\0\0\0\0\0\0\x07";

const ORDER: &[u8] = b"\0\0\0\x05Order\x02\0\0\0\x03A-1";

const FIRST: &[u8] =
    b"\x01\0\0\0\x09Sales/1/1\0\0\0\0\0\0\0\x01\0\0\0\x03Web\0\0\0\x240f8fad5b-d9cb-469f-a165-70867728950e\0\0\0\x02\0\0\0\x05total\x01\0\0\0\0\0\0\0\xfa\0\0\0\x04paid\x03\0";

const REVISED: &[u8] =
    b"\x02\0\0\0\x02\0\0\0\x09Sales/1/1\0\0\0\0\0\0\0\x02\0\0\0\x03Web\0\0\0\x240f8fad5b-d9cb-469f-a165-70867728950e\0\0\0\x03\0\0\0\x05total\x01\0\0\0\0\0\0\0\xfb\0\0\0\x04paid\x03\0\0\0\0\x04note\x02\0\0\0\x04none";

/// A plan that puts one row.
fn one_row(alloc: Global, name: &Text, value: i64) -> Result<Plan, NoMemory>
    ensures { IfOk result (λ p. p.writes ≡ RowPut name.now value ∷ []) }
{
    let name = name.copy()?;
    let mut writes = Items::new(alloc);
    writes.push(Write::RowPut { name, value })?;
    Ok(Plan {
        writes,
        intents: Items::new(alloc),
    })
}

/// Commits a plan that puts one row, for a message that wasn't handled yet. 0 where it was.
fn commit_plan(
    alloc: Global,
    store: &mut Store<MemCells>,
    id: &Text,
    incoming: &Envelope,
    row: &Text,
    value: i64,
    plan: &Plan,
) -> Result<u64, StoreFault>
    requires full { id.now ≢ [] }
    requires named { id_of incoming.now ≡ id.now }
    requires one { plan.now.writes ≡ RowPut row.now value ∷ [] }
{
    if store.record(id).is_some() {
        return Ok(0);
    }
    let ops = Items::new(alloc);
    let endpoint = Text::new(alloc, "Sales")?;
    store.commit(alloc, incoming, plan, &ops, &endpoint, Moment::FIRST)
}

/// The message with an id.
fn message(alloc: Global, id: &Text) -> Result<Envelope, NoMemory>
    requires { id.now ≢ [] }
    ensures { IfOk result (λ e. id_of e ≡ id.now) }
{
    let body = Text::new(alloc, "")?;
    Envelope::new(alloc, id, body)
}

/// Commits a row for a message that wasn't handled yet. 0 where it was.
fn commit_row(
    alloc: Global,
    store: &mut Store<MemCells>,
    id: &str,
    name: &str,
    value: i64,
) -> Result<u64, StoreFault> {
    let id = Text::new(alloc, id)?;
    if id.is_empty() {
        return Ok(0);
    }
    let row = Text::new(alloc, name)?;
    let incoming = message(alloc, &id)?;
    let plan = one_row(alloc, &row, value)?;
    commit_plan(alloc, store, &id, &incoming, &row, value, &plan)
}

/// Marks the record of a message, where there is one.
fn mark(alloc: Global, store: &mut Store<MemCells>, id: &str) -> Result<bool, StoreFault> {
    let id = Text::new(alloc, id)?;
    if store.record(&id).is_none() {
        return Ok(false);
    }
    store.mark(alloc, &id)?;
    Ok(true)
}

/// The first apply fails, or is a stop.
fn faults(alloc: Global, stop: Option<Stop>) -> Result<FaultPlan, NoMemory> {
    let mut applies: Numbers = Items::new(alloc);
    if stop.is_none() {
        applies.push(1)?;
    }
    Ok(FaultPlan {
        reads: Items::new(alloc),
        applies,
        stop,
    })
}

/// A store without cells.
fn empty(alloc: Global, plan: FaultPlan) -> Result<Store<MemCells>, NoMemory> {
    let base = MemCells::new(alloc, Items::new(alloc), plan)?;
    match Store::start(alloc, base) {
        Ok(store) => Ok(store),
        Err(_) => Err(NoMemory),
    }
}

/// A store of these cells, whose calls don't fail.
fn of_cells(alloc: Global, cells: CellList) -> Result<Store<MemCells>, NoMemory> {
    match Store::start(alloc, MemCells::new(alloc, cells, FaultPlan::none(alloc))?) {
        Ok(store) => Ok(store),
        Err(_) => Err(NoMemory),
    }
}

/// Whether one of the cells has these bytes at this place.
fn is_at(cells: &CellList, space: u8, key: &[u8], bytes: &[u8]) -> bool {
    cells.as_slice().iter().any(|cell| {
        cell.space == space && cell.key.as_slice() == key && cell.bytes.as_slice() == bytes
    })
}

/// Commits one row twice, and tells the cells.
fn commit_twice(alloc: Global, store: &mut Store<MemCells>) -> Result<CellList, StoreFault> {
    commit_row(alloc, store, "c1", "ann", 5)?;
    commit_row(alloc, store, "c2", "ann", 7)?;
    Ok(store.base().now(alloc)?)
}

/// The cells after two commits of one row.
fn two_commits(alloc: Global) -> Result<CellList, StoreFault> {
    let mut store = empty(alloc, FaultPlan::none(alloc))?;
    commit_twice(alloc, &mut store)
}

#[test]
fn a_commit_writes_its_number_and_its_row(rt: HostRuntime) -> Result<(), Fail> {
    let cells = two_commits(rt.alloc())?;
    assert!(rt; is_at(&cells, 3, b"ann", LATER));
    assert!(rt; is_at(&cells, 1, b"", b"\x01\0\0\0\0\0\0\0\x02"));
    assert!(rt; is_at(&cells, 4, b"c1", PENDING));
    Ok(())
}

/// The number of the record of a message, and whether it was sent.
fn record(alloc: Global, store: &Store<MemCells>, id: &str) -> Result<(u64, bool), NoMemory> {
    let id = Text::new(alloc, id)?;
    match store.record(&id) {
        Some(row) => Ok((row.n, row.sent)),
        None => Ok((0, false)),
    }
}

/// How many records may go.
fn purgeable(alloc: Global, store: &Store<MemCells>) -> Result<usize, NoMemory> {
    Ok(store.purgeable(alloc, 0, Moment::FIRST)?.len())
}

/// How many records may go before and after a commit is marked, and its record.
fn commit_and_mark(
    alloc: Global,
    store: &mut Store<MemCells>,
) -> Result<(usize, usize, (u64, bool)), StoreFault> {
    commit_row(alloc, store, "c1", "ann", 5)?;
    let before = purgeable(alloc, store)?;
    mark(alloc, store, "c1")?;
    let after = purgeable(alloc, store)?;
    Ok((before, after, record(alloc, store, "c1")?))
}

/// How many records may go before and after the mark of the first commit, and its record.
fn after_mark(alloc: Global) -> Result<(usize, usize, (u64, bool)), StoreFault> {
    let mut store = empty(alloc, FaultPlan::none(alloc))?;
    commit_and_mark(alloc, &mut store)
}

#[test]
fn a_record_that_is_marked_may_go(rt: HostRuntime) -> Result<(), Fail> {
    assert_eq!(rt; after_mark(rt.alloc())?, (0, 1, (1, true)));
    Ok(())
}

/// The number of commits in a copy of the tables, after one more.
fn commit_and_copy(alloc: Global, store: &mut Store<MemCells>) -> Result<u64, StoreFault> {
    commit_row(alloc, store, "c1", "ann", 5)?;
    Ok(store.all()?.commits)
}

/// The number of commits in a copy of the tables, after one commit.
fn copied_after_one(alloc: Global) -> Result<u64, StoreFault> {
    let mut store = empty(alloc, FaultPlan::none(alloc))?;
    commit_and_copy(alloc, &mut store)
}

#[test]
fn all_is_copied(rt: HostRuntime) -> Result<(), Fail> {
    assert_eq!(rt; copied_after_one(rt.alloc())?, 1);
    Ok(())
}

/// Whether the record of a commit that is marked may go at once, and whether it may with a second of retention.
fn marked_goes(alloc: Global, store: &mut Store<MemCells>) -> Result<(bool, bool), StoreFault> {
    commit_row(alloc, store, "c1", "ann", 5)?;
    mark(alloc, store, "c1")?;
    let id = Text::new(alloc, "c1")?;
    let at_once = store.can_purge(&id, 0, Moment::FIRST);
    Ok((at_once, store.can_purge(&id, 1, Moment::FIRST)))
}

/// Whether the record of the first commit may go at once, and whether it may with a second of retention.
fn first_goes(alloc: Global) -> Result<(bool, bool), StoreFault> {
    let mut store = empty(alloc, FaultPlan::none(alloc))?;
    marked_goes(alloc, &mut store)
}

#[test]
fn a_record_goes_after_its_retention(rt: HostRuntime) -> Result<(), Fail> {
    assert_eq!(rt; first_goes(rt.alloc())?, (true, false));
    Ok(())
}

/// Whether a commit fails by its apply.
fn fails(alloc: Global, store: &mut Store<MemCells>) -> bool {
    matches!(
        commit_row(alloc, store, "c1", "ann", 5),
        Err(StoreFault::Failed)
    )
}

/// Whether a commit fails, the number of commits then, whether a row is there, and the number of the next commit.
fn fail_once(
    alloc: Global,
    store: &mut Store<MemCells>,
) -> Result<(bool, u64, bool, u64), StoreFault> {
    let failed = fails(alloc, store);
    let commits = store.commits();
    let row = store.row(&Text::new(alloc, "ann")?).is_some();
    let next = commit_row(alloc, store, "c1", "ann", 5)?;
    Ok((failed, commits, row, next))
}

/// What comes of a commit whose apply fails, and of the next one.
fn after_failure(alloc: Global) -> Result<(bool, u64, bool, u64), StoreFault> {
    let mut store = empty(alloc, faults(alloc, None)?)?;
    fail_once(alloc, &mut store)
}

#[test]
fn a_failed_apply_leaves_all_as_it_was(rt: HostRuntime) -> Result<(), Fail> {
    assert_eq!(rt; after_failure(rt.alloc())?, (true, 0, false, 1));
    Ok(())
}

/// The cells that the next opening finds.
fn left(alloc: Global, store: Store<MemCells>) -> Result<CellList, NoMemory> {
    let StoreClosed { base, tables: _ } = store.close();
    base.left(alloc)
}

/// The number of commits that the next opening finds.
fn found(alloc: Global, store: Store<MemCells>) -> Result<u64, NoMemory> {
    let again = of_cells(alloc, left(alloc, store)?)?;
    Ok(again.commits())
}

/// Whether a commit failed, the number of commits then, and what the next opening finds.
fn after_stop(alloc: Global, stop: Stop) -> Result<(bool, u64, u64), StoreFault> {
    let mut store = empty(alloc, faults(alloc, Some(stop))?)?;
    let failed = fails(alloc, &mut store);
    let commits = store.commits();
    Ok((failed, commits, found(alloc, store)?))
}

#[test]
fn a_stop_after_its_effect_leaves_the_changed_cells(rt: HostRuntime) -> Result<(), Fail> {
    let alloc = rt.alloc();
    let after = Stop {
        apply: 1,
        after: true,
    };
    let before = Stop {
        apply: 1,
        after: false,
    };
    assert_eq!(rt; after_stop(alloc, after)?, (true, 0, 1));
    assert_eq!(rt; after_stop(alloc, before)?, (true, 0, 0));
    Ok(())
}

fn cell(alloc: Global, space: u8, key: &[u8], bytes: &[u8]) -> Result<Cell, NoMemory> {
    let key = Bytes::new(alloc, key)?;
    let bytes = Bytes::new(alloc, bytes)?;
    Ok(Cell { space, key, bytes })
}

/// Cells with one commit, whose record was sent.
fn sent(alloc: Global) -> Result<CellList, NoMemory> {
    let mut cells = Items::new(alloc);
    cells.push(cell(alloc, 1, b"", b"\x01\0\0\0\0\0\0\0\x01")?)?;
    cells.push(cell(alloc, 4, b"c1", SENT)?)?;
    Ok(cells)
}

/// The tables with a record that was sent, where the first apply fails.
fn failing(alloc: Global) -> Result<Store<MemCells>, NoMemory> {
    let base = MemCells::new(alloc, sent(alloc)?, faults(alloc, None)?)?;
    match Store::start(alloc, base) {
        Ok(store) => Ok(store),
        Err(_) => Err(NoMemory),
    }
}

/// Whether a commit of another message fails by its apply.
fn second_fails(alloc: Global, store: &mut Store<MemCells>) -> bool {
    matches!(
        commit_row(alloc, store, "c2", "ann", 5),
        Err(StoreFault::Failed)
    )
}

/// Whether a record is there to be marked, where the first apply fails, and whether that one then comes at a commit.
fn marked_again(alloc: Global) -> Result<(bool, bool), StoreFault> {
    let mut store = failing(alloc)?;
    let marked = mark(alloc, &mut store, "c1")?;
    Ok((marked, second_fails(alloc, &mut store)))
}

#[test]
fn a_mark_of_a_sent_record_makes_no_apply(rt: HostRuntime) -> Result<(), Fail> {
    assert_eq!(rt; marked_again(rt.alloc())?, (true, true));
    Ok(())
}

/// The cells of a count of commits and of a saga.
fn one_saga(alloc: Global, count: u8, bytes: &[u8]) -> Result<CellList, NoMemory> {
    let mut cells = Items::new(alloc);
    cells.push(cell(alloc, 1, b"", &[1, 0, 0, 0, 0, 0, 0, 0, count])?)?;
    cells.push(cell(alloc, 2, ORDER, bytes)?)?;
    Ok(cells)
}

/// The version, the revision and the number of fields of a saga.
fn counts(store: &Store<MemCells>, saga: &Text, id: &Text) -> (u64, u32, usize) {
    match store.saga_with(saga, id) {
        Some(row) => (row.version, row.revision, row.fields.len()),
        None => (0, 0, 0),
    }
}

/// The version, the revision and the number of fields of the one saga, of a count of commits and a saga's cell.
fn saga(alloc: Global, count: u8, bytes: &[u8]) -> Result<(u64, u32, usize), NoMemory> {
    let saga = Text::new(alloc, "Order")?;
    let id = Text::new(alloc, "Sales/1/1")?;
    let store = of_cells(alloc, one_saga(alloc, count, bytes)?)?;
    Ok(counts(&store, &saga, &id))
}

#[test]
fn sagas_of_both_formats_are_opened(rt: HostRuntime) -> Result<(), Fail> {
    let alloc = rt.alloc();
    assert_eq!(rt; saga(alloc, 1, FIRST)?, (1, 1, 2));
    assert_eq!(rt; saga(alloc, 2, REVISED)?, (2, 2, 3));
    Ok(())
}

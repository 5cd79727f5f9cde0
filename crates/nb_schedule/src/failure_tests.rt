//! Starts and calls that are refused.

use crate::acting::{Scene, Step, Unready, answers, left, shop, terms};
use crate::{Refused, Stage, Unopened};
use nb_base::{Bytes, Items, NoMemory, Which};
use nb_cells::{Cell, CellList, FaultPlan, MemCells};
use nb_hub::StartFault;
use std::alloc::Global;
use std::test::Fail;

/// One cell.
fn cell(alloc: Global, space: u8, key: &[u8], bytes: &[u8]) -> Result<CellList, NoMemory> {
    let key = Bytes::new(alloc, key)?;
    let bytes = Bytes::new(alloc, bytes)?;
    let mut cells = Items::new(alloc);
    cells.push(Cell { space, key, bytes })?;
    Ok(cells)
}

/// A store with one cell that is of no grammar.
fn damaged(alloc: Global, space: u8, key: &[u8], plan: FaultPlan) -> Result<MemCells, NoMemory> {
    MemCells::new(alloc, cell(alloc, space, key, b"\x01")?, plan)
}

/// A plan by which the first scan fails.
fn no_read(alloc: Global) -> Result<FaultPlan, NoMemory> {
    let mut plan = FaultPlan::none(alloc);
    plan.reads.push(1)?;
    Ok(plan)
}

/// A plan by which the apply with this number fails.
fn no_apply(alloc: Global, apply: u64) -> Result<FaultPlan, NoMemory> {
    let mut plan = FaultPlan::none(alloc);
    plan.applies.push(apply)?;
    Ok(plan)
}

/// A word for why no stage was opened, and how many cells the stores have that are handed back.
fn counted(alloc: Global, refused: Refused) -> Result<(&'static str, usize, usize), Unready> {
    let Refused { why, post, base } = refused;
    let queues = post.now(alloc)?;
    let tables = base.now(alloc)?;
    Ok((word_of(&why), queues.len(), tables.len()))
}

/// Why no stage is opened over these stores, and how many cells they have when they are handed back.
fn refusal(
    alloc: Global,
    post: MemCells,
    base: MemCells,
) -> Result<(&'static str, usize, usize), Unready> {
    let handlers = shop(alloc)?;
    match Stage::open(alloc, &handlers, &terms(1), post, base) {
        Ok(_) => Ok(("none", 0, 0)),
        Err(refused) => counted(alloc, refused),
    }
}

fn word_of(why: &Unopened) -> &'static str {
    match why {
        Unopened::Settings(_) => "settings",
        Unopened::Start(StartFault::StoreFailed) => "store failed",
        Unopened::Start(StartFault::PostFailed) => "post failed",
        Unopened::Start(
            StartFault::Damaged {
                store: Which::Base,
                ..
            },
        ) => "damaged base",
        Unopened::Start(
            StartFault::Damaged {
                store: Which::Post,
                ..
            },
        ) => "damaged post",
        Unopened::Start(StartFault::NoMemory) => "no memory",
    }
}

#[test]
fn a_store_that_is_not_read_refuses_the_start(rt: HostRuntime) -> Result<(), Fail> {
    let alloc = rt.alloc();
    let whole = damaged(alloc, 3, b"ann", FaultPlan::none(alloc))?;
    let broken = damaged(alloc, 3, b"ann", no_read(alloc)?)?;
    assert_eq!(rt; refusal(alloc, whole, broken)?, ("store failed", 1, 1));
    let empty = MemCells::empty(alloc);
    let broken = damaged(alloc, 2, b"12345678", no_read(alloc)?)?;
    assert_eq!(rt; refusal(alloc, broken, empty)?, ("post failed", 1, 0));
    Ok(())
}

#[test]
fn damage_of_the_base_comes_before_that_of_the_post(rt: HostRuntime) -> Result<(), Fail> {
    let alloc = rt.alloc();
    let base = damaged(alloc, 4, b"c1", FaultPlan::none(alloc))?;
    let post = damaged(alloc, 2, b"12345678", FaultPlan::none(alloc))?;
    assert_eq!(rt; refusal(alloc, post, base)?, ("damaged base", 1, 1));
    let post = damaged(alloc, 2, b"12345678", FaultPlan::none(alloc))?;
    assert_eq!(rt;
        refusal(alloc, post, MemCells::empty(alloc))?,
        ("damaged post", 1, 0)
    );
    Ok(())
}

#[test]
fn both_stores_are_read_before_damage_is_told(rt: HostRuntime) -> Result<(), Fail> {
    let alloc = rt.alloc();
    let base = damaged(alloc, 4, b"c1", FaultPlan::none(alloc))?;
    let post = damaged(alloc, 2, b"12345678", no_read(alloc)?)?;
    assert_eq!(rt; refusal(alloc, post, base)?, ("post failed", 1, 1));
    Ok(())
}

/// Why no stage is opened with these settings over empty stores.
fn unread(alloc: Global, settings: &'static str) -> Result<&'static str, Unready> {
    let handlers = shop(alloc)?;
    let mut terms = terms(1);
    terms.settings = settings;
    let empty = MemCells::empty(alloc);
    match Stage::open(alloc, &handlers, &terms, empty, MemCells::empty(alloc)) {
        Ok(_) => Ok("none"),
        Err(refused) => Ok(word_of(&refused.why)),
    }
}

#[test]
fn a_message_without_a_route_refuses_the_settings(rt: HostRuntime) -> Result<(), Fail> {
    assert_eq!(rt; unread(rt.alloc(), "endpoint = \"Sales\"\n")?, "settings");
    Ok(())
}

/// Three workers at these stores, who may make so many Takes.
fn three(turns: u64, post: MemCells, base: MemCells) -> Scene {
    let mut terms = terms(3);
    terms.turns = turns;
    Scene { terms, post, base }
}

/// Three workers at empty stores, who may make so many Takes.
fn three_at_nothing(alloc: Global, turns: u64) -> Scene {
    three(turns, MemCells::empty(alloc), MemCells::empty(alloc))
}

const NONE_FREE: &[Step] = &[
    Step::Credit("c1", "ann", 1),
    Step::Credit("c2", "bob", 2),
    Step::Take(0),
    Step::Take(1),
    Step::Take(2),
    Step::Drained(0),
];

#[test]
fn a_worker_finds_nothing_where_no_entry_is_free(rt: HostRuntime) -> Result<(), Fail> {
    let alloc = rt.alloc();
    assert_eq!(rt;
        answers(alloc, three_at_nothing(alloc, 9), NONE_FREE)?.as_str(),
        "ok; ok; got c1; got c2; nothing; not drained; "
    );
    Ok(())
}

const TAKES_TOO_MANY: &[Step] = &[
    Step::Credit("c1", "ann", 1),
    Step::Credit("c2", "bob", 2),
    Step::Take(0),
    Step::Take(1),
    Step::Take(2),
];

#[test]
fn no_more_takes_are_made_than_there_may_be(rt: HostRuntime) -> Result<(), Fail> {
    let alloc = rt.alloc();
    assert_eq!(rt;
        answers(alloc, three_at_nothing(alloc, 1), TAKES_TOO_MANY)?.as_str(),
        "ok; ok; got c1; limit; limit; "
    );
    Ok(())
}

const OUT_OF_TURN: &[Step] = &[
    Step::Credit("c1", "ann", 1),
    Step::Look(0),
    Step::Take(3),
    Step::Take(0),
    Step::Take(0),
    Step::Settle(0),
    Step::Tick(5),
    Step::Release,
];

#[test]
fn a_call_out_of_turn_is_not_made(rt: HostRuntime) -> Result<(), Fail> {
    let alloc = rt.alloc();
    assert_eq!(rt;
        answers(alloc, three_at_nothing(alloc, 9), OUT_OF_TURN)?.as_str(),
        "ok; out of turn; out of turn; got c1; out of turn; out of turn; out of turn; out of turn; "
    );
    Ok(())
}

/// A base at which the apply with this number fails.
fn base_without(alloc: Global, apply: u64) -> Result<MemCells, NoMemory> {
    MemCells::new(alloc, Items::new(alloc), no_apply(alloc, apply)?)
}

/// Before the limit of Takes, and before an answer without an event.
const HALTED: &[Step] = &[
    Step::Credit("c1", "ann", 1),
    Step::Take(0),
    Step::Look(0),
    Step::Settle(0),
    Step::Take(1),
    Step::Settle(0),
    Step::NextDue,
    Step::Drained(0),
    Step::Credit("c2", "ann", 1),
];

#[test]
fn after_a_fault_of_a_store_every_call_is_halted(rt: HostRuntime) -> Result<(), Fail> {
    let alloc = rt.alloc();
    let scene = three(1, MemCells::empty(alloc), base_without(alloc, 1)?);
    assert_eq!(rt;
        answers(alloc, scene, HALTED)?.as_str(),
        "ok; got c1; fresh 0; store failed; halted; halted; halted; halted; halted; "
    );
    Ok(())
}

const MARKS_TWICE: &[Step] = &[
    Step::Credit("c1", "ann", 1),
    Step::Take(0),
    Step::Look(0),
    Step::Settle(0),
    Step::Mark(0),
    Step::Mark(0),
    Step::Unsent(0),
];

#[test]
fn a_mark_that_failed_is_not_made_again(rt: HostRuntime) -> Result<(), Fail> {
    let alloc = rt.alloc();
    let scene = three(9, MemCells::empty(alloc), base_without(alloc, 2)?);
    assert_eq!(rt;
        answers(alloc, scene, MARKS_TWICE)?.as_str(),
        "ok; got c1; fresh 0; committed 1; store failed; halted; halted; "
    );
    Ok(())
}

#[test]
fn a_halted_call_makes_no_event(rt: HostRuntime) -> Result<(), Fail> {
    let alloc = rt.alloc();
    let scene = three(9, MemCells::empty(alloc), base_without(alloc, 2)?);
    let ended = left(alloc, scene, MARKS_TWICE)?;
    assert_eq!(rt; ended.history.events.len(), 5);
    Ok(())
}

/// A store with the one cell of a number: the next one of the post, or the count of the base.
fn number_at(alloc: Global, number: u64) -> Result<MemCells, NoMemory> {
    let mut bytes = Vec::from_slice(alloc, b"\x01")?;
    bytes.extend_from_slice(number.to_be_bytes().as_slice())?;
    let cells = cell(alloc, 1, b"", bytes.as_slice())?;
    MemCells::new(alloc, cells, FaultPlan::none(alloc))
}

const LAST: u64 = 1 << 62;

const TWO_CREDITS: &[Step] = &[Step::Credit("c1", "ann", 1), Step::Credit("c2", "ann", 1)];

#[test]
fn no_entry_comes_behind_the_last_number(rt: HostRuntime) -> Result<(), Fail> {
    let alloc = rt.alloc();
    let scene = three(9, number_at(alloc, LAST - 1)?, MemCells::empty(alloc));
    assert_eq!(rt; answers(alloc, scene, TWO_CREDITS)?.as_str(), "ok; spent; ");
    Ok(())
}

const OPS_OF_AN_ORDER: &[Step] = &[
    Step::Order("p1", "A", 1),
    Step::Take(0),
    Step::Look(0),
    Step::Settle(0),
    Step::Send(0),
    Step::Send(0),
    Step::Unsent(0),
];

#[test]
fn no_op_comes_behind_the_last_number(rt: HostRuntime) -> Result<(), Fail> {
    let alloc = rt.alloc();
    let scene = three(9, number_at(alloc, LAST - 2)?, MemCells::empty(alloc));
    assert_eq!(rt;
        answers(alloc, scene, OPS_OF_AN_ORDER)?.as_str(),
        "ok; got p1; fresh 0; committed 1; ok; spent; 1 left; "
    );
    Ok(())
}

const SETTLES_TWICE: &[Step] = &[
    Step::Credit("c1", "ann", 1),
    Step::Take(0),
    Step::Look(0),
    Step::Settle(0),
    Step::Settle(0),
];

#[test]
fn no_commit_comes_behind_the_last_number(rt: HostRuntime) -> Result<(), Fail> {
    let alloc = rt.alloc();
    let scene = three(9, MemCells::empty(alloc), number_at(alloc, LAST)?);
    assert_eq!(rt;
        answers(alloc, scene, SETTLES_TWICE)?.as_str(),
        "ok; got c1; fresh 0; spent; spent; "
    );
    Ok(())
}

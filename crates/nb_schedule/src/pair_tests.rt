//! Two workers at one hub.

use crate::acting::{
    Scene, Step, Unready, answers, empty_scene, left, one, order, ran, terms, told,
};
use crate::{Ended, SCRIPT};
use nb_base::{Items, Moment, Text};
use nb_cells::{FaultPlan, MemCells, Stop};
use std::alloc::Global;
use std::test::Fail;

/// Two workers at the base that is left when an order over 1 for B was placed.
fn with_b(alloc: Global) -> Result<Scene, Unready> {
    let messages = one(alloc, order(alloc, "p1", "B", 1)?)?;
    let ended = ran(
        alloc,
        SCRIPT,
        empty_scene(alloc, 1),
        &messages,
        Moment::FIRST,
    )?;
    let Ended { base, .. } = ended;
    Ok(Scene {
        terms: terms(2),
        post: MemCells::empty(alloc),
        base,
    })
}

/// Two workers at empty stores. A third apply at the base would fail.
fn two_applies(alloc: Global) -> Result<Scene, Unready> {
    let mut plan = FaultPlan::none(alloc);
    plan.stop = Some(Stop {
        apply: 3,
        after: false,
    });
    Ok(Scene {
        terms: terms(2),
        post: MemCells::empty(alloc),
        base: MemCells::new(alloc, Items::new(alloc), plan)?,
    })
}

const TWO_ORDERS: &[Step] = &[
    Step::Order("p2", "B", 2),
    Step::Order("p3", "B", 3),
    Step::Take(0),
    Step::Take(1),
    Step::Look(0),
    Step::Look(1),
    Step::Settle(0),
    Step::Settle(1),
    Step::Take(1),
    Step::Look(1),
    Step::Settle(1),
];

const SAME_CREDIT_TWICE: &[Step] = &[
    Step::Credit("c1", "ann", 5),
    Step::Credit("c1", "ann", 5),
    Step::Take(0),
    Step::Take(1),
    Step::Look(0),
    Step::Look(1),
    Step::Settle(0),
    Step::Settle(1),
];

const BOTH_MARK: &[Step] = &[
    Step::Credit("c1", "ann", 5),
    Step::Credit("c1", "ann", 5),
    Step::Take(0),
    Step::Take(1),
    Step::Look(0),
    Step::Look(1),
    Step::Settle(0),
    Step::Settle(1),
    Step::Mark(0),
    Step::Remove(0),
    Step::Mark(1),
    Step::Remove(1),
];

const FIRST_ENDS: &[Step] = &[
    Step::Credit("c1", "ann", 5),
    Step::Credit("c1", "ann", 5),
    Step::Take(0),
    Step::Take(1),
    Step::Look(0),
    Step::Look(1),
    Step::Settle(0),
    Step::Mark(0),
    Step::Remove(0),
    Step::Settle(1),
    Step::Remove(1),
    Step::Drained(0),
];

#[test]
fn of_two_workers_on_one_saga_the_second_tries_again(rt: HostRuntime) -> Result<(), Fail> {
    let alloc = rt.alloc();
    assert_eq!(rt;
        answers(alloc, with_b(alloc)?, TWO_ORDERS)?.as_str(),
        "ok; ok; got p2; got p3; fresh 1; fresh 1; committed 2; again: saga Order \"B\" was read at version 1 and stands at version 2; got p3; fresh 2; committed 3; "
    );
    Ok(())
}

/// What is left in a scene, in words.
fn told_behind(alloc: Global, scene: Scene, steps: &[Step]) -> Result<Text, Unready> {
    let ended = left(alloc, scene, steps)?;
    Ok(told(alloc, &ended.state)?)
}

#[test]
fn both_orders_count(rt: HostRuntime) -> Result<(), Fail> {
    let alloc = rt.alloc();
    let text = told_behind(alloc, with_b(alloc)?, TWO_ORDERS)?;
    assert_eq!(rt;
        text.as_str(),
        "moment 1970-01-01 00:00:00:000000 Z
commits 3
next 3
saga Order \"B\" \"Sales/1/1\" 3 \"\" \"p1\" total=6 paid=false
outbox \"p1\" 1 0 sent
outbox \"p2\" 2 0 pending 2
outbox \"p3\" 3 0 pending 2
queue \"Sales\" 1 \"p2\" \"Shop.PlaceOrder\" 0 \"{\\\"orderId\\\":\\\"B\\\",\\\"amount\\\":2}\"
queue \"Sales\" 2 \"p3\" \"Shop.PlaceOrder\" 0 \"{\\\"orderId\\\":\\\"B\\\",\\\"amount\\\":3}\"
"
    );
    Ok(())
}

#[test]
fn a_conflict_is_a_failure(rt: HostRuntime) -> Result<(), Fail> {
    let alloc = rt.alloc();
    let ended = left(alloc, with_b(alloc)?, TWO_ORDERS)?;
    assert!(rt; ended.state.fails.get(1).is_none());
    assert!(rt; ended.state.fails.get(2).map_or(false, |count| *count == 1));
    Ok(())
}

#[test]
fn where_there_is_no_saga_the_second_finds_that_of_the_first(rt: HostRuntime) -> Result<(), Fail> {
    let alloc = rt.alloc();
    assert_eq!(rt;
        answers(alloc, empty_scene(alloc, 2), TWO_ORDERS)?.as_str(),
        "ok; ok; got p2; got p3; fresh 0; fresh 0; committed 1; again: saga Order \"B\" was read at version 0 and stands at version 1; got p3; fresh 1; committed 2; "
    );
    Ok(())
}

#[test]
fn the_second_commit_updates_the_saga_of_the_first(rt: HostRuntime) -> Result<(), Fail> {
    let alloc = rt.alloc();
    let text = told_behind(alloc, empty_scene(alloc, 2), TWO_ORDERS)?;
    assert!(rt;
        text.as_str().contains(
            "\nsaga Order \"B\" \"Sales/1/1\" 2 \"\" \"p2\" total=5 paid=false\noutbox \"p2\" 1"
        )
    );
    Ok(())
}

#[test]
fn of_two_entries_of_one_id_the_second_is_a_twin(rt: HostRuntime) -> Result<(), Fail> {
    let alloc = rt.alloc();
    // Both mark, and the second mark makes no apply.
    assert_eq!(rt;
        answers(alloc, two_applies(alloc)?, BOTH_MARK)?.as_str(),
        "ok; ok; got c1; got c1; fresh 0; fresh 0; committed 1; twin, not sent; ok; ok; ok; ok; "
    );
    Ok(())
}

#[test]
fn a_twin_is_no_failure(rt: HostRuntime) -> Result<(), Fail> {
    let alloc = rt.alloc();
    let ended = left(alloc, empty_scene(alloc, 2), SAME_CREDIT_TWICE)?;
    assert!(rt; ended.state.fails.get(2).is_none());
    assert_eq!(rt; ended.history.events.len(), 8);
    assert_eq!(rt; ended.state.tables.commits, 1);
    Ok(())
}

#[test]
fn a_message_that_was_sent_meanwhile_is_a_twin_too(rt: HostRuntime) -> Result<(), Fail> {
    let alloc = rt.alloc();
    assert_eq!(rt;
        answers(alloc, empty_scene(alloc, 2), FIRST_ENDS)?.as_str(),
        "ok; ok; got c1; got c1; fresh 0; fresh 0; committed 1; ok; ok; twin, sent; ok; drained; "
    );
    Ok(())
}

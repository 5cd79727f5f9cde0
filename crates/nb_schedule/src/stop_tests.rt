//! A run that stops at any apply, and the run behind it.

use crate::acting::{
    Scene, Unready, at, credit, empty_scene, ending, order, paid, ran, terms, told, two,
};
use crate::{Ended, SCRIPT};
use nb_base::{Envelope, Items, Moment, NoMemory, Which};
use nb_cells::{FaultPlan, MemCells, Stop};
use nb_core::State;
use std::alloc::Global;
use std::test::Fail;

/// What is run: messages, and the moment until which what is due is handled.
#[derive(Drop)]
struct Play {
    messages: Items<Envelope>,
    until: Moment,
}

/// The same credit twice.
fn credits(alloc: Global) -> Result<Play, Unready> {
    let first = credit(alloc, "c1", "ann", 5)?;
    let second = credit(alloc, "c1", "ann", 5)?;
    Ok(Play {
        messages: two(alloc, first, second)?,
        until: Moment::FIRST,
    })
}

/// An order that is placed, paid and placed again, and whose first timeout comes too late.
fn orders(alloc: Global) -> Result<Play, Unready> {
    let first = order(alloc, "p1", "A", 1)?;
    let second = paid(alloc, "o1", "A")?;
    let mut messages = two(alloc, first, second)?;
    messages.push(order(alloc, "p2", "A", 2)?)?;
    Ok(Play {
        messages,
        until: at(3600),
    })
}

/// Whether a line of a report is of a saga, a row or a record.
fn is_kept(line: &str) -> bool {
    line.starts_with("saga ") || line.starts_with("row ") || line.starts_with("outbox ")
}

/// The sagas, rows and records of a state.
fn kept(alloc: Global, state: &State) -> Result<String, NoMemory> {
    let text = told(alloc, state)?;
    let mut out = String::new(alloc);
    for line in text.as_str().lines() {
        if is_kept(line) {
            out.push_str(line)?;
            out.push('\n')?;
        }
    }
    Ok(out)
}

/// What a run leaves.
fn ran_at(alloc: Global, play: &Play, scene: Scene) -> Result<Ended, Unready> {
    ran(alloc, SCRIPT, scene, &play.messages, play.until)
}

/// What a run leaves that doesn't stop.
fn serial(alloc: Global, play: &Play) -> Result<String, Unready> {
    let ended = ran_at(alloc, play, empty_scene(alloc, 1))?;
    Ok(kept(alloc, &ended.state)?)
}

/// A scene with empty stores, of which one stops there.
fn stopping(alloc: Global, which: Which, stop: Stop) -> Result<Scene, NoMemory> {
    let mut plan = FaultPlan::none(alloc);
    plan.stop = Some(stop);
    let stops = MemCells::new(alloc, Items::new(alloc), plan)?;
    let mut scene = empty_scene(alloc, 1);
    match which {
        Which::Post => scene.post = stops,
        Which::Base => scene.base = stops,
    }
    Ok(scene)
}

/// The store that a stop left.
fn reopened(alloc: Global, store: MemCells) -> Result<MemCells, NoMemory> {
    let cells = store.left(alloc)?;
    MemCells::new(alloc, cells, FaultPlan::none(alloc))
}

/// The scene that is found behind a stop, at the moment of the stop.
fn found(alloc: Global, ended: Ended) -> Result<Scene, NoMemory> {
    let Ended {
        done: _,
        post,
        base,
        history: _,
        state,
    } = ended;
    let post = reopened(alloc, post)?;
    let base = reopened(alloc, base)?;
    let mut terms = terms(1);
    terms.moment = state.moment;
    Ok(Scene { terms, post, base })
}

/// What a second run with the same messages leaves, over what is left of one that stopped and from its moment on; or
/// nothing, where the first one didn't stop.
fn resumed(
    alloc: Global,
    play: &Play,
    which: Which,
    stop: Stop,
) -> Result<Option<String>, Unready> {
    let first = ran_at(alloc, play, stopping(alloc, which, stop)?)?;
    if ending(&first) == "done" {
        return Ok(None);
    }
    let second = ran_at(alloc, play, found(alloc, first)?)?;
    Ok(Some(kept(alloc, &second.state)?))
}

/// How many applies of a store there are at which the first run stops, and after how many of them the second one leaves
/// what the serial run leaves.
fn stops(alloc: Global, play: &Play, which: Which, after: bool) -> Result<(u64, u64), Unready> {
    let wanted = serial(alloc, play)?;
    let mut tried = 0;
    let mut same = 0;
    for apply in 1..60_u64 {
        let stop = Stop { apply, after };
        match resumed(alloc, play, which, stop)? {
            Some(left) => {
                tried = apply;
                if left.as_str() == wanted.as_str() {
                    same = apply.min(u64::saturating_add(same, 1));
                }
            }
            None => return Ok((tried, same)),
        }
    }
    Ok((tried, same))
}

#[test]
fn credits_are_as_in_the_serial_run(rt: HostRuntime) -> Result<(), Fail> {
    let alloc = rt.alloc();
    assert_eq!(rt;
        serial(alloc, &credits(alloc)?)?.as_str(),
        "row \"ann\" 1 5\noutbox \"c1\" 1 0 sent\n"
    );
    Ok(())
}

#[test]
fn credits_stop_at_any_apply_of_the_post(rt: HostRuntime) -> Result<(), Fail> {
    let alloc = rt.alloc();
    let play = credits(alloc)?;
    assert_eq!(rt; stops(alloc, &play, Which::Post, false)?, (4, 4));
    assert_eq!(rt; stops(alloc, &play, Which::Post, true)?, (4, 4));
    Ok(())
}

#[test]
fn credits_stop_at_any_apply_of_the_base(rt: HostRuntime) -> Result<(), Fail> {
    let alloc = rt.alloc();
    let play = credits(alloc)?;
    assert_eq!(rt; stops(alloc, &play, Which::Base, false)?, (2, 2));
    assert_eq!(rt; stops(alloc, &play, Which::Base, true)?, (2, 2));
    Ok(())
}

#[test]
fn orders_are_as_in_the_serial_run(rt: HostRuntime) -> Result<(), Fail> {
    let alloc = rt.alloc();
    assert_eq!(rt;
        serial(alloc, &orders(alloc)?)?.as_str(),
        "row \"expired\" 5 1
row \"paid\" 2 1
outbox \"Sales/1/2\" 4 3600 sent
outbox \"Sales/3/2\" 5 3600 sent
outbox \"o1\" 2 0 sent
outbox \"p1\" 1 0 sent
outbox \"p2\" 3 0 sent
"
    );
    Ok(())
}

#[test]
fn orders_stop_at_any_apply_of_the_post(rt: HostRuntime) -> Result<(), Fail> {
    let alloc = rt.alloc();
    let play = orders(alloc)?;
    assert_eq!(rt; stops(alloc, &play, Which::Post, false)?, (14, 14));
    assert_eq!(rt; stops(alloc, &play, Which::Post, true)?, (14, 14));
    Ok(())
}

#[test]
fn orders_stop_at_any_apply_of_the_base(rt: HostRuntime) -> Result<(), Fail> {
    let alloc = rt.alloc();
    let play = orders(alloc)?;
    assert_eq!(rt; stops(alloc, &play, Which::Base, false)?, (10, 10));
    assert_eq!(rt; stops(alloc, &play, Which::Base, true)?, (10, 10));
    Ok(())
}

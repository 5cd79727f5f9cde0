//! The history of a run, replayed: it comes to the run's state, and a history that is no run's is illegal at the first event
//! that can't come.

use crate::replays::{changed, replay_told, with, without};
use crate::{FEW_RETRIES, SCRIPT, SETTINGS, Stores, Trial, events_of, told_over};
use nb_base::{Copied, Moment, NoMemory, Text, Which};
use nb_core::{Event, Events};
use std::alloc::Global;
use std::test::Fail;

const CREDITS: &str = r#"Credit c1 {"account":"ann","amount":5}
Credit c1 {"account":"ann","amount":5}"#;

/// The events of a run of two equal credits: Load Load Take Look Settle Mark Remove Take Look Remove.
fn credits(alloc: Global) -> Result<Events, NoMemory> {
    events_of(alloc, &Trial::new("run --at 0", CREDITS))
}

/// What a replay comes to, with the script and the settings of most trials.
fn told(alloc: Global, events: Events) -> Result<String, NoMemory> {
    replay_told(alloc, SCRIPT, SETTINGS, 100000, events)
}

const ONE_CREDIT: &str = r#"moment 1970-01-01 00:00:00:000000 Z
commits 1
next 3
row "ann" 1 5
outbox "c1" 1 0 sent
"#;

#[test]
fn credits_are_replayed(rt: HostRuntime) -> Result<(), Fail> {
    let alloc = rt.alloc();
    let events = credits(alloc)?;
    assert_eq!(rt; events.len(), 10);
    assert_eq!(rt; told(alloc, events)?.as_str(), ONE_CREDIT);
    Ok(())
}

#[test]
fn two_turns_are_needed(rt: HostRuntime) -> Result<(), Fail> {
    let alloc = rt.alloc();
    let events = credits(alloc)?;
    let two = replay_told(alloc, SCRIPT, SETTINGS, 2, events.copy()?)?;
    assert_eq!(rt; two.as_str(), ONE_CREDIT);
    let one = replay_told(alloc, SCRIPT, SETTINGS, 1, events)?;
    assert_eq!(rt; one.as_str(), "illegal at 7");
    Ok(())
}

/// Whether a run prints what the replay of its history comes to.
fn are_alike(alloc: Global, trial: &Trial) -> Result<bool, NoMemory> {
    let printed = told_over(alloc, trial, Stores::empty(alloc))?;
    let events = events_of(alloc, trial)?;
    let replayed = replay_told(alloc, trial.script, trial.settings, 100000, events)?;
    let replayed = replayed.as_str();
    let wanted = format!(in alloc; "0 done\n{replayed}")?;
    Ok(printed.as_str() == wanted.as_str())
}

const ORDERS: &str = r#"Shop.PlaceOrder p1 {"orderId":"A","amount":1}
OrderPaid o1 {"orderId":"A"}
Shop.PlaceOrder p2 {"orderId":"A","amount":2}"#;

#[test]
fn orders_are_replayed(rt: HostRuntime) -> Result<(), Fail> {
    let trial = Trial::new("run --at 0 --horizon 3600", ORDERS);
    assert!(rt; are_alike(rt.alloc(), &trial)?);
    Ok(())
}

/// A run of messages that fail, with few retries.
fn failing() -> Trial<'static> {
    Trial::with(
        SCRIPT,
        FEW_RETRIES,
        "run --at 0 --horizon 10",
        "Bad b1 {}\nWork w1 {}",
    )
}

#[test]
fn retries_are_replayed(rt: HostRuntime) -> Result<(), Fail> {
    assert!(rt; are_alike(rt.alloc(), &failing())?);
    Ok(())
}

/// With other settings a failure has another move, and what follows can't come.
#[test]
fn retries_are_not_replayed_with_other_settings(rt: HostRuntime) -> Result<(), Fail> {
    let alloc = rt.alloc();
    let events = events_of(alloc, &failing())?;
    assert_eq!(rt; told(alloc, events)?.as_str(), "illegal at 8");
    Ok(())
}

/// What comes of the events of two credits without one of them.
fn lacking(alloc: Global, index: usize) -> Result<String, NoMemory> {
    let events = credits(alloc)?;
    told(alloc, without(alloc, &events, index)?)
}

/// Which event is missing, and what the replay comes to.
const LACKING: &[(usize, &str)] = &[
    (0, "illegal at 6"),
    (2, "illegal at 2"),
    (3, "illegal at 3"),
    (4, "illegal at 4"),
    (5, "illegal at 5"),
    (6, "illegal at 6"),
    (7, "illegal at 7"),
    (8, "illegal at 8"),
];

#[test]
fn no_event_may_be_missing(rt: HostRuntime) -> Result<(), Fail> {
    let alloc = rt.alloc();
    for (index, wanted) in LACKING {
        assert_eq!(rt; lacking(alloc, *index)?.as_str(), *wanted);
    }
    Ok(())
}

#[test]
fn a_beginning_of_a_history_is_legal(rt: HostRuntime) -> Result<(), Fail> {
    let told = lacking(rt.alloc(), 9)?;
    assert_eq!(rt;
        told.as_str(),
        r#"moment 1970-01-01 00:00:00:000000 Z
commits 1
next 3
row "ann" 1 5
outbox "c1" 1 0 sent
queue "Sales" 2 "c1" "Credit" 0 "{\"account\":\"ann\",\"amount\":5}"
"#
    );
    Ok(())
}

/// What comes of the events of two credits with a further one.
fn having(alloc: Global, index: usize, event: Event) -> Result<String, NoMemory> {
    let events = credits(alloc)?;
    told(alloc, with(alloc, &events, index, &event)?)
}

#[test]
fn no_event_of_a_worker_may_be_added(rt: HostRuntime) -> Result<(), Fail> {
    let alloc = rt.alloc();
    assert_eq!(rt;
        having(alloc, 3, Event::Take { w: 0 })?.as_str(),
        "illegal at 3"
    );
    assert_eq!(rt;
        having(alloc, 4, Event::Look { w: 0 })?.as_str(),
        "illegal at 4"
    );
    assert_eq!(rt;
        having(alloc, 5, Event::Settle { w: 0 })?.as_str(),
        "illegal at 5"
    );
    assert_eq!(rt;
        having(alloc, 5, Event::Send { w: 0 })?.as_str(),
        "illegal at 5"
    );
    assert_eq!(rt;
        having(alloc, 6, Event::Mark { w: 0 })?.as_str(),
        "illegal at 6"
    );
    assert_eq!(rt;
        having(alloc, 6, Event::Aside { w: 0 })?.as_str(),
        "illegal at 6"
    );
    assert_eq!(rt;
        having(alloc, 7, Event::Remove { w: 0 })?.as_str(),
        "illegal at 7"
    );
    Ok(())
}

#[test]
fn time_stands_still_while_a_worker_is_busy(rt: HostRuntime) -> Result<(), Fail> {
    let alloc = rt.alloc();
    let to = Moment::FIRST.plus(1);
    assert_eq!(rt;
        having(alloc, 3, Event::Tick { to })?.as_str(),
        "illegal at 3"
    );
    Ok(())
}

#[test]
fn nothing_comes_of_numbers_that_name_no_entry(rt: HostRuntime) -> Result<(), Fail> {
    let alloc = rt.alloc();
    assert_eq!(rt;
        having(alloc, 10, Event::Release { number: 1 })?.as_str(),
        "illegal at 10"
    );
    assert_eq!(rt;
        having(alloc, 10, Event::PutBack { number: 1 })?.as_str(),
        "illegal at 10"
    );
    assert_eq!(rt;
        having(alloc, 10, Event::DropBack { number: 1 })?.as_str(),
        "illegal at 10"
    );
    Ok(())
}

#[test]
fn a_record_is_not_purged_before_its_time(rt: HostRuntime) -> Result<(), Fail> {
    let alloc = rt.alloc();
    let id = Text::new(alloc, "c1")?;
    assert_eq!(rt;
        having(alloc, 10, Event::Purge { id })?.as_str(),
        "illegal at 10"
    );
    Ok(())
}

#[test]
fn after_a_halt_only_a_stop_may_come(rt: HostRuntime) -> Result<(), Fail> {
    let alloc = rt.alloc();
    let halt = Event::Halt { store: Which::Base };
    assert_eq!(rt; having(alloc, 2, halt)?.as_str(), "illegal at 3");
    let halt = Event::Halt { store: Which::Post };
    assert_eq!(rt; having(alloc, 10, halt)?.as_str(), ONE_CREDIT);
    Ok(())
}

/// After a stop the worker has no entry.
#[test]
fn a_stop_forgets_the_lease(rt: HostRuntime) -> Result<(), Fail> {
    let alloc = rt.alloc();
    let moment = Moment::FIRST;
    assert_eq!(rt;
        having(alloc, 4, Event::Stop { moment })?.as_str(),
        "illegal at 5"
    );
    assert_eq!(rt;
        having(alloc, 7, Event::Stop { moment })?.as_str(),
        ONE_CREDIT
    );
    Ok(())
}

/// What comes of the events of two credits with one in place of another.
fn swapped(alloc: Global, index: usize, event: Event) -> Result<String, NoMemory> {
    let events = credits(alloc)?;
    told(alloc, changed(alloc, &events, index, &event)?)
}

#[test]
fn no_event_may_be_another_one(rt: HostRuntime) -> Result<(), Fail> {
    let alloc = rt.alloc();
    assert_eq!(rt;
        swapped(alloc, 2, Event::Take { w: 1 })?.as_str(),
        "illegal at 2"
    );
    assert_eq!(rt;
        swapped(alloc, 3, Event::Settle { w: 0 })?.as_str(),
        "illegal at 3"
    );
    assert_eq!(rt;
        swapped(alloc, 4, Event::Mark { w: 0 })?.as_str(),
        "illegal at 4"
    );
    assert_eq!(rt;
        swapped(alloc, 5, Event::Send { w: 0 })?.as_str(),
        "illegal at 5"
    );
    assert_eq!(rt;
        swapped(alloc, 6, Event::Aside { w: 0 })?.as_str(),
        "illegal at 6"
    );
    assert_eq!(rt;
        swapped(alloc, 9, Event::Mark { w: 0 })?.as_str(),
        "illegal at 9"
    );
    Ok(())
}

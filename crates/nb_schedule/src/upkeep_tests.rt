//! Delays, messages that fail, and what is put back and purged.

use crate::acting::{
    Scene, Step, Unready, answers, behind, credit, empty_scene, ending, message, one, ran,
    scene_under, stage_over, terms, told,
};
use crate::{Ended, SCRIPT, Stage, handlers_of};
use nb_base::{Envelope, Items, Moment, Names, NoMemory, Numbers, Text};
use nb_cells::{FaultPlan, MemCells, Stop};
use nb_headers::names::{FAILED_Q, RETRIES};
use std::alloc::Global;
use std::test::Fail;

const ONE_BY_ONE: &[Step] = &[
    Step::Order("p1", "A", 1),
    Step::Take(0),
    Step::Look(0),
    Step::Settle(0),
    Step::Unsent(0),
    Step::Send(0),
    Step::Unsent(0),
    Step::Mark(0),
    Step::Send(0),
    Step::Send(0),
    Step::Mark(0),
    Step::Remove(0),
];

#[test]
fn ops_are_sent_one_by_one(rt: HostRuntime) -> Result<(), Fail> {
    let alloc = rt.alloc();
    assert_eq!(rt;
        answers(alloc, empty_scene(alloc, 1), ONE_BY_ONE)?.as_str(),
        "ok; got p1; fresh 0; committed 1; 2 left; ok; 1 left; out of turn; ok; out of turn; ok; ok; "
    );
    Ok(())
}

/// An order is placed at moment 0, another one at moment 5, and time goes on.
const TWO_TIMEOUTS: &[Step] = &[
    Step::Order("p1", "A", 1),
    Step::Take(0),
    Step::Look(0),
    Step::Settle(0),
    Step::Send(0),
    Step::Send(0),
    Step::Mark(0),
    Step::Remove(0),
    Step::Tick(5),
    Step::Order("p2", "B", 1),
    Step::Take(0),
    Step::Look(0),
    Step::Settle(0),
    Step::Send(0),
    Step::Send(0),
    Step::Mark(0),
    Step::Remove(0),
    Step::NextDue,
    Step::Drained(3599),
    Step::Drained(3600),
    Step::Release,
    Step::Tick(4),
    Step::Tick(3600),
    Step::Release,
    Step::Release,
    Step::NextDue,
    Step::Tick(3605),
    Step::Release,
    Step::NextDue,
];

#[test]
fn what_is_due_comes_back_when_it_is_due(rt: HostRuntime) -> Result<(), Fail> {
    let alloc = rt.alloc();
    assert!(rt;
        answers(alloc, empty_scene(alloc, 1), TWO_TIMEOUTS)?
            .as_str()
            .ends_with(
                "ok; 3 due 3600; drained; not drained; out of turn; out of turn; ok; 3; out of turn; 6 due 3605; ok; 6; none due; "
            )
    );
    Ok(())
}

/// Two orders are placed at once.
const EQUAL_DUES: &[Step] = &[
    Step::Order("p1", "A", 1),
    Step::Order("p2", "B", 1),
    Step::Take(0),
    Step::Take(1),
    Step::Look(0),
    Step::Look(1),
    Step::Settle(0),
    Step::Settle(1),
    Step::Send(1),
    Step::Send(1),
    Step::Send(0),
    Step::Send(0),
    Step::Mark(0),
    Step::Mark(1),
    Step::Remove(0),
    Step::Remove(1),
    Step::Tick(3600),
    Step::Release,
    Step::Release,
    Step::Release,
];

#[test]
fn of_equal_dues_the_least_number_comes_first(rt: HostRuntime) -> Result<(), Fail> {
    let alloc = rt.alloc();
    assert!(rt;
        answers(alloc, empty_scene(alloc, 2), EQUAL_DUES)?
            .as_str()
            .ends_with("ok; ok; ok; 4; 6; out of turn; ")
    );
    Ok(())
}

/// Settings by which a message that failed once comes again once, ten seconds later.
const ONCE_LATER: &str = "endpoint = \"Sales\"
[recoverability]
immediate = 0
delayed = 1
[routes]
Charge = \"Billing\"
";

/// A message that always fails.
const FAILS: &[Step] = &[
    Step::Plain("Bad", "b1"),
    Step::Take(0),
    Step::Look(0),
    Step::Settle(0),
    Step::Aside(0),
    Step::Remove(0),
    Step::Tick(10),
    Step::Release,
    Step::Take(0),
    Step::Look(0),
    Step::Settle(0),
    Step::Aside(0),
    Step::Remove(0),
    Step::Drained(1000),
];

#[test]
fn a_message_that_fails_comes_later_and_then_goes_to_the_error_queue(
    rt: HostRuntime,
) -> Result<(), Fail> {
    let alloc = rt.alloc();
    assert_eq!(rt;
        answers(alloc, scene_under(alloc, ONCE_LATER), FAILS)?.as_str(),
        "ok; got b1; fresh; later: always; ok; ok; ok; 2; got b1; fresh; error: always; ok; ok; drained; "
    );
    Ok(())
}

/// A script by which `No` is handled.
const MILD: &str = "message No { } handler No { add row(\"no\") by 1; }";

/// What is left where the third apply at the queues failed while a message was refused: it stands in the own queue and
/// in the error queue.
fn refused_twice(alloc: Global) -> Result<Ended, Unready> {
    let mut plan = FaultPlan::none(alloc);
    plan.stop = Some(Stop {
        apply: 3,
        after: false,
    });
    let scene = Scene {
        terms: terms(1),
        post: MemCells::new(alloc, Items::new(alloc), plan)?,
        base: MemCells::empty(alloc),
    };
    let messages = one(alloc, message(alloc, "No", "n1", "{}")?)?;
    ran(alloc, SCRIPT, scene, &messages, Moment::FIRST)
}

/// The scene that is found behind a stop of the queues.
fn found(alloc: Global, ended: Ended) -> Result<Scene, NoMemory> {
    let Ended { post, .. } = ended;
    let cells = post.left(alloc)?;
    Ok(Scene {
        terms: terms(1),
        post: MemCells::new(alloc, cells, FaultPlan::none(alloc))?,
        base: MemCells::empty(alloc),
    })
}

/// What a run of the mild script leaves, over a scene and without new messages.
fn ran_on(alloc: Global, scene: Scene) -> Result<Ended, Unready> {
    let none = Items::new(alloc);
    ran(alloc, MILD, scene, &none, Moment::FIRST)
}

fn returnable_on(stage: &Stage) -> Result<Numbers, Unready> {
    Ok(stage.returnable()?)
}

/// The numbers that can be put back in a scene.
fn returnable(alloc: Global, scene: Scene) -> Result<Numbers, Unready> {
    let Scene { terms, post, base } = scene;
    let handlers = handlers_of(alloc, MILD)?;
    let stage = stage_over(alloc, &handlers, &terms, post, base)?;
    let numbers = returnable_on(&stage);
    let _ended = stage.close();
    numbers
}

/// What is left when what failed was put back in a scene.
fn given_back(alloc: Global, scene: Scene) -> Result<Ended, Unready> {
    let Scene { terms, post, base } = scene;
    let handlers = handlers_of(alloc, MILD)?;
    let stage = stage_over(alloc, &handlers, &terms, post, base)?;
    Ok(stage.give_back())
}

/// What is left when the message was handled that stands in both queues, and then put back.
fn handled_and_given_back(alloc: Global) -> Result<Ended, Unready> {
    let scene = found(alloc, refused_twice(alloc)?)?;
    let ended = ran_on(alloc, scene)?;
    given_back(alloc, behind(ended, 0))
}

/// How the run ended that left a message in both queues.
fn refused_twice_ending(alloc: Global) -> Result<&'static str, Unready> {
    let ended = refused_twice(alloc)?;
    Ok(ending(&ended))
}

/// Which entries can be put back behind that run.
fn returnable_behind(alloc: Global) -> Result<&'static str, Unready> {
    let ended = refused_twice(alloc)?;
    let numbers = returnable(alloc, found(alloc, ended)?)?;
    match numbers.as_slice() {
        [2] => Ok("the second"),
        _ => Ok("others"),
    }
}

#[test]
fn a_run_may_stop_between_two_queues(rt: HostRuntime) -> Result<(), Fail> {
    assert_eq!(rt; refused_twice_ending(rt.alloc())?, "post failed");
    Ok(())
}

#[test]
fn a_message_may_stand_in_both_queues(rt: HostRuntime) -> Result<(), Fail> {
    assert_eq!(rt; returnable_behind(rt.alloc())?, "the second");
    Ok(())
}

/// Where a message stands, or that it has headers of a failure.
fn standing(queue: &str, e: &Envelope) -> &'static str {
    if e.header(FAILED_Q).is_some() || e.header(RETRIES).is_some() {
        "failed"
    } else if queue == "Sales" {
        "in Sales"
    } else {
        "elsewhere"
    }
}

/// Where the entry with this number stands in the end.
fn standing_in(ended: &Ended, number: u64) -> &'static str {
    match ended.state.post.entries.get(number) {
        None => "nowhere",
        Some(entry) => standing(entry.queue.as_str(), &entry.envelope),
    }
}

/// Where it stands when the message was handled and put back.
fn standing_behind(alloc: Global, number: u64) -> Result<&'static str, Unready> {
    let ended = handled_and_given_back(alloc)?;
    Ok(standing_in(&ended, number))
}

#[test]
fn what_is_put_back_is_stripped_of_its_failure(rt: HostRuntime) -> Result<(), Fail> {
    let alloc = rt.alloc();
    assert_eq!(rt; standing_behind(alloc, 2)?, "nowhere");
    assert_eq!(rt; standing_behind(alloc, 3)?, "in Sales");
    Ok(())
}

#[test]
fn what_is_put_back_acts_no_second_time(rt: HostRuntime) -> Result<(), Fail> {
    let alloc = rt.alloc();
    let ended = handled_and_given_back(alloc)?;
    assert_eq!(rt; ending(&ended), "done");
    assert_eq!(rt; ended.history.events.len(), 2);
    let last = ran_on(alloc, behind(ended, 0))?;
    assert_eq!(rt;
        told(alloc, &last.state)?.as_str(),
        "moment 1970-01-01 00:00:00:000000 Z
commits 1
next 4
row \"no\" 1 1
outbox \"n1\" 1 0 sent
"
    );
    Ok(())
}

/// What is left when an account was credited in a scene, from its moment on.
fn credited(alloc: Global, scene: Scene) -> Result<Ended, Unready> {
    let messages = one(alloc, credit(alloc, "c1", "ann", 5)?)?;
    ran(alloc, SCRIPT, scene, &messages, Moment::FIRST)
}

/// The scene so many seconds after an account was credited.
fn after_credit(alloc: Global, seconds: u64) -> Result<Scene, Unready> {
    let ended = credited(alloc, empty_scene(alloc, 1))?;
    Ok(behind(ended, seconds))
}

fn purgeable_on(stage: &Stage) -> Result<Names, Unready> {
    Ok(stage.purgeable()?)
}

/// The ids that can be purged in a scene.
fn purgeable(alloc: Global, scene: Scene) -> Result<Names, Unready> {
    let Scene { terms, post, base } = scene;
    let handlers = handlers_of(alloc, SCRIPT)?;
    let stage = stage_over(alloc, &handlers, &terms, post, base)?;
    let ids = purgeable_on(&stage);
    let _ended = stage.close();
    ids
}

/// What is left when all was purged in a scene.
fn purged(alloc: Global, scene: Scene) -> Result<Ended, Unready> {
    let Scene { terms, post, base } = scene;
    let handlers = handlers_of(alloc, SCRIPT)?;
    let stage = stage_over(alloc, &handlers, &terms, post, base)?;
    Ok(stage.purge())
}

/// Which records can be purged so many seconds after an account was credited by `c1`.
fn purgeable_after(alloc: Global, seconds: u64) -> Result<&'static str, Unready> {
    let ids = purgeable(alloc, after_credit(alloc, seconds)?)?;
    match ids.as_slice() {
        [] => Ok("none"),
        [id] if id.as_str() == "c1" => Ok("c1"),
        _ => Ok("others"),
    }
}

#[test]
fn a_record_is_kept_for_its_time(rt: HostRuntime) -> Result<(), Fail> {
    assert_eq!(rt; purgeable_after(rt.alloc(), 604799)?, "none");
    Ok(())
}

#[test]
fn a_record_can_be_purged_at_the_end_of_its_time(rt: HostRuntime) -> Result<(), Fail> {
    assert_eq!(rt; purgeable_after(rt.alloc(), 604800)?, "c1");
    Ok(())
}

/// What stands when all was purged so many seconds after an account was credited.
fn told_after_purge(alloc: Global, seconds: u64) -> Result<Text, Unready> {
    let ended = purged(alloc, after_credit(alloc, seconds)?)?;
    Ok(told(alloc, &ended.state)?)
}

#[test]
fn a_purge_takes_no_record_before_its_time(rt: HostRuntime) -> Result<(), Fail> {
    let text = told_after_purge(rt.alloc(), 604799)?;
    assert!(rt; text.as_str().contains("\noutbox \"c1\" 1 0 sent\n"));
    Ok(())
}

/// What stands when the account was credited by the same message again, behind the purge of its record.
fn told_after_another_credit(alloc: Global) -> Result<Text, Unready> {
    let gone = purged(alloc, after_credit(alloc, 604800)?)?;
    let again = credited(alloc, behind(gone, 604800))?;
    Ok(told(alloc, &again.state)?)
}

#[test]
fn after_a_purge_a_message_acts_again(rt: HostRuntime) -> Result<(), Fail> {
    let text = told_after_another_credit(rt.alloc())?;
    assert!(rt;
        text.as_str().ends_with(
            "commits 2\nnext 3\nrow \"ann\" 2 10\noutbox \"c1\" 2 604800 sent\n"
        )
    );
    Ok(())
}

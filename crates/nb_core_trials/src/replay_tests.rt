ghost use Rattle.std.specs.Prelude.{◌≡◌, IfOk};
ghost use Rattle.nb_core.specs.Samples.{nothing};

use nb_base::{
    ByName, ByNumber, BySaga, Envelope, Handling, Items, Key, Keys, Moment, NoMemory, Outcome,
    Plan, Policies, PostState, Reads, Routes, SagaRow, Settings, Subscribers, Tables, Text,
    Verdict, Write, Writes,
};
use nb_core::{Event, Events, History, Opening, ReplayFault, State, replay};
use nb_report::report;
use std::alloc::Global;
use std::test::Fail as TestFail;

/// A script that sets the row `seen` to 1 for each message.
#[derive(Clone, Copy)]
struct Marks;

impl Handling for Marks {
    ghost use Rattle.nb_core.specs.Samples.{marking};

    ghost meaning = { λ _. marking };

    #[tactic(auto, using(nb_core::proofs::Sampling::marking_is_meaning))]
    fn is_meaning(&self) {}

    fn keys(&self, alloc: Global, _envelope: &Envelope) -> Result<Keys, NoMemory> {
        let name = Text::new(alloc, "seen")?;
        let mut keys: Keys = Items::new(alloc);
        keys.push(Key::Row { name })?;
        Ok(keys)
    }

    fn judge(
        &self,
        alloc: Global,
        _envelope: &Envelope,
        _moment: Moment,
        reads: Reads,
    ) -> Result<Outcome, NoMemory> {
        let name = Text::new(alloc, "seen")?;
        let mut writes: Writes = Items::new(alloc);
        writes.push(Write::RowPut { name, value: 1 })?;
        let plan = Plan {
            writes,
            intents: Items::new(alloc),
        };
        Ok(Outcome {
            reads,
            verdict: Verdict::Done(plan),
        })
    }

    fn fits(&self, _saga: &Text, _row: &SagaRow) -> bool {
        false
    }
}

/// Empty stores, at the first moment, with one worker.
fn nothing(alloc: Global) -> Opening
    ensures { result ≡ nothing }
{
    Opening {
        tables: Tables {
            sagas: BySaga::new(alloc),
            rows: ByName::new(alloc),
            outbox: ByName::new(alloc),
            commits: 0,
        },
        post: PostState {
            entries: ByNumber::new(alloc),
            next: 1,
        },
        moment: Moment::FIRST,
        workers: 1,
    }
}

/// Settings of the endpoint Sales.
fn settings(alloc: Global) -> Result<Settings, NoMemory> {
    let routes: Routes = Items::new(alloc);
    let subscribers: Subscribers = Items::new(alloc);
    let policies: Policies = Items::new(alloc);
    let endpoint = Text::new(alloc, "Sales")?;
    let error = Text::new(alloc, "error")?;
    Ok(Settings {
        endpoint,
        error,
        immediate: 5,
        delayed: 3,
        increase: 10,
        retention: 604800,
        routes,
        subscribers,
        policies,
    })
}

/// The state after these events, on empty stores.
fn replayed(alloc: Global, events: Events) -> Result<State, ReplayFault> {
    let settings = settings(alloc)?;
    let opening = nothing(alloc);
    let history = History { opening, events };
    let marks = Marks;
    replay(alloc, &marks, &settings, 2, &history)
}

/// A step of a run with one worker.
#[derive(Clone, Copy)]
enum Step {
    /// A message with this id comes.
    Load(&'static str),
    Take,
    /// The events from the look at a new message to the end of its lease.
    Lease,
}

/// A message comes.
fn push_load(alloc: Global, events: &mut Events, id: &str) -> Result<(), NoMemory> {
    let id = Text::new(alloc, id)?;
    if id.is_empty() {
        return Err(NoMemory);
    }
    let body = Text::new(alloc, "{}")?;
    let envelope = Envelope::new(alloc, &id, body)?;
    events.push(Event::Load { envelope })
}

/// The worker's events from its look to the end.
fn push_lease(events: &mut Events) -> Result<(), NoMemory> {
    events.push(Event::Look { w: 0 })?;
    events.push(Event::Settle { w: 0 })?;
    events.push(Event::Mark { w: 0 })?;
    events.push(Event::Remove { w: 0 })
}

/// The events of these steps.
fn events_of(alloc: Global, steps: &[Step]) -> Result<Events, NoMemory> {
    let mut events: Events = Items::new(alloc);
    for step in steps {
        match step {
            Step::Load(id) => push_load(alloc, &mut events, id)?,
            Step::Take => events.push(Event::Take { w: 0 })?,
            Step::Lease => push_lease(&mut events)?,
        }
    }
    Ok(events)
}

/// The report of the state after these steps, or which event is illegal.
fn told(alloc: Global, steps: &[Step]) -> Result<String, NoMemory> {
    match replayed(alloc, events_of(alloc, steps)?) {
        Ok(state) => Ok(report(alloc, &state)?.into_string()),
        Err(ReplayFault::Illegal { index }) => Ok(format!(in alloc; "illegal {index}")?),
        Err(ReplayFault::NoMemory) => Err(NoMemory),
    }
}

const HANDLED: &[Step] = &[Step::Load("a"), Step::Take, Step::Lease];

#[test]
fn a_message_is_handled(rt: HostRuntime) -> Result<(), TestFail> {
    assert_eq!(rt;
        told(rt.alloc(), HANDLED)?.as_str(),
        "moment 1970-01-01 00:00:00:000000 Z
commits 1
next 2
row \"seen\" 1 1
outbox \"a\" 1 0 sent
"
    );
    Ok(())
}

const ONE_TAKE: &[Step] = &[
    Step::Load("a"),
    Step::Load("b"),
    Step::Take,
    Step::Lease,
    Step::Lease,
];

#[test]
fn a_take_is_missing(rt: HostRuntime) -> Result<(), TestFail> {
    assert_eq!(rt; told(rt.alloc(), ONE_TAKE)?.as_str(), "illegal 7");
    Ok(())
}

const THREE_TAKES: &[Step] = &[
    Step::Load("a"),
    Step::Load("b"),
    Step::Load("c"),
    Step::Take,
    Step::Lease,
    Step::Take,
    Step::Lease,
    Step::Take,
];

#[test]
fn a_third_take_is_more_than_there_may_be(rt: HostRuntime) -> Result<(), TestFail> {
    assert_eq!(rt; told(rt.alloc(), THREE_TAKES)?.as_str(), "illegal 13");
    Ok(())
}

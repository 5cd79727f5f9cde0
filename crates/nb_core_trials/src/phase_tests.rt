use nb_base::{
    Copied, Envelope, Fault, FaultKind, Items, Key, Moment, NoMemory, OutboxRow, Policies, Read,
    Reads, Routes, Seen, Settings, Subscribers, Text,
};
use nb_core::{Event, Phase, conflict, move_after, phase_after, phase_by};
use nb_headers::message_id;
use nb_recover::{Fail, Move};
use std::alloc::Global;
use std::test::Fail as TestFail;

/// An envelope with this id.
fn envelope(alloc: Global, id: &str) -> Result<Envelope, NoMemory> {
    let id = Text::new(alloc, id)?;
    if id.is_empty() {
        return Err(NoMemory);
    }
    let body = Text::new(alloc, "{}")?;
    Envelope::new(alloc, &id, body)
}

/// Settings of the endpoint Sales.
fn settings(alloc: Global) -> Result<Settings, NoMemory> {
    let routes: Routes = Items::new(alloc);
    let subscribers: Subscribers = Items::new(alloc);
    let policies: Policies = Items::new(alloc);
    let endpoint = Text::new(alloc, "Sales")?;
    let error = Text::new(alloc, "error")?;
    Ok(Settings {
        endpoint,
        error,
        immediate: 5,
        delayed: 3,
        increase: 10,
        retention: 604800,
        routes,
        subscribers,
        policies,
    })
}

/// A fault of the script's.
fn broken(alloc: Global) -> Result<Fail, NoMemory> {
    let name = Text::new(alloc, "Broken")?;
    let text = Text::new(alloc, "always")?;
    Ok(Fail::Fault(Fault {
        kind: FaultKind::Fail,
        name,
        text,
        unrecoverable: false,
    }))
}

/// What was read of a row.
fn row(alloc: Global, name: &str, version: u64) -> Result<Read, NoMemory> {
    let name = Text::new(alloc, name)?;
    Ok(Read {
        key: Key::Row { name },
        seen: Seen::Row { version, value: 0 },
    })
}

/// The place of the conflict between rows that were read at the versions 1, 1 and 2 and now stand at these.
fn conflict_at(alloc: Global, second: u64, third: u64) -> Result<Option<Fail>, NoMemory> {
    let mut reads: Reads = Items::new(alloc);
    reads.push(row(alloc, "c", 1)?)?;
    reads.push(row(alloc, "b", 1)?)?;
    reads.push(row(alloc, "a", 2)?)?;
    let mut shown: Reads = Items::new(alloc);
    shown.push(row(alloc, "c", 3)?)?;
    shown.push(row(alloc, "b", second)?)?;
    shown.push(row(alloc, "a", third)?)?;
    if shown.len() != reads.len() {
        return Ok(None);
    }
    conflict(&reads, &shown)
}

/// Whether the failure is a conflict on this row, with these versions.
fn is_conflict(found: &Option<Fail>, row: &str, before: u64, after: u64) -> bool {
    match found {
        Some(
            Fail::Conflict {
                key: Key::Row { name },
                seen,
                now,
            },
        ) => name.as_str() == row && *seen == before && *now == after,
        _ => false,
    }
}

#[test]
fn a_conflict_is_on_the_least_key_that_changed(rt: HostRuntime) -> Result<(), TestFail> {
    let alloc = rt.alloc();
    assert!(rt; is_conflict(&conflict_at(alloc, 4, 2)?, "b", 1, 4));
    assert!(rt; is_conflict(&conflict_at(alloc, 4, 3)?, "a", 2, 3));
    assert!(rt; is_conflict(&conflict_at(alloc, 1, 2)?, "c", 1, 3));
    Ok(())
}

/// The phase after so many failures of a new message.
fn phase_of(alloc: Global, count: u32, seconds: u64) -> Result<Phase, NoMemory> {
    let settings = settings(alloc)?;
    let message = envelope(alloc, "b1")?;
    let fail = broken(alloc)?;
    let next = move_after(&settings, count, &message, &fail);
    let moment = Moment::new(seconds).unwrap_or(Moment::FIRST);
    phase_after(alloc, &settings, moment, 7, &message, &fail, next)
}

/// A copy that leaves, in words: where to, when it is due, its round and where it failed.
fn copy_text(
    alloc: Global,
    queue: &Text,
    due: Option<Moment>,
    copy: &Envelope,
) -> Result<String, NoMemory> {
    let mut out = String::from_str(alloc, queue.as_str())?;
    if let Some(due) = due {
        let seconds = due.seconds();
        let text = format!(in alloc; " at {seconds}")?;
        out.push_str(text.as_str())?;
    }
    if let Some(round) = copy.header("NServiceBus.Retries") {
        out.push_str(", round ")?;
        out.push_str(round.as_str())?;
    }
    if let Some(queue) = copy.header("NServiceBus.FailedQ") {
        out.push_str(", failed in ")?;
        out.push_str(queue.as_str())?;
    }
    Ok(out)
}

/// A phase in words.
fn told(alloc: Global, phase: &Phase) -> Result<String, NoMemory> {
    match phase {
        Phase::Idle => Ok(String::from_str(alloc, "idle")?),
        Phase::Leaving {
            number: _,
            queue,
            due,
            copy,
        } => copy_text(alloc, queue, *due, copy),
        _ => Ok(String::from_str(alloc, "another")?),
    }
}

/// The phase after so many failures, in words.
fn told_after(alloc: Global, count: u32, seconds: u64) -> Result<String, NoMemory> {
    let phase = phase_of(alloc, count, seconds)?;
    told(alloc, &phase)
}

#[test]
fn the_sixth_failure_is_put_off_by_ten_seconds(rt: HostRuntime) -> Result<(), TestFail> {
    let alloc = rt.alloc();
    assert_eq!(rt; told_after(alloc, 5, 1000)?.as_str(), "idle");
    assert_eq!(rt;
        told_after(alloc, 6, 1000)?.as_str(),
        "Sales at 1010, round 1"
    );
    Ok(())
}

/// The phase after a fault that no retry mends, in words.
fn told_beyond_retries(alloc: Global) -> Result<String, NoMemory> {
    let settings = settings(alloc)?;
    let message = envelope(alloc, "n1")?;
    let fail = broken(alloc)?;
    let now = Moment::FIRST;
    let phase = phase_after(alloc, &settings, now, 1, &message, &fail, Move::Error)?;
    told(alloc, &phase)
}

#[test]
fn an_unrecoverable_fault_leads_to_the_error_queue(rt: HostRuntime) -> Result<(), TestFail> {
    assert_eq!(rt;
        told_beyond_retries(rt.alloc())?.as_str(),
        "error, failed in Sales"
    );
    Ok(())
}

/// The phase of a lease of the entry 3, in a word.
fn word_of(phase: &Phase) -> &'static str {
    match phase {
        Phase::Sending {
            number: 3,
            id: _,
            ops: _,
            k: 0,
        } => "sends its first op",
        Phase::Done { number: 3 } => "is done",
        _ => "is another",
    }
}

/// The phase of the entry 3 by a record that was sent, or wasn't.
fn phase_of_record(alloc: Global, sent: bool) -> Result<Phase, NoMemory> {
    let id = Text::new(alloc, "p1")?;
    let row = OutboxRow {
        n: 1,
        at: Moment::FIRST,
        sent,
        ops: Items::new(alloc),
    };
    phase_by(3, &id, &row)
}

/// A copy of that phase, in a word.
fn copied_by(alloc: Global, sent: bool) -> Result<&'static str, NoMemory> {
    let phase = phase_of_record(alloc, sent)?;
    let copy = phase.copy()?;
    Ok(word_of(&copy))
}

#[test]
fn a_record_that_is_not_sent_is_sent_from_its_first_op(rt: HostRuntime) -> Result<(), TestFail> {
    let alloc = rt.alloc();
    assert_eq!(rt; copied_by(alloc, false)?, "sends its first op");
    assert_eq!(rt; copied_by(alloc, true)?, "is done");
    Ok(())
}

/// The id of the message that an event loads.
fn loaded(event: &Event) -> &str {
    match event {
        Event::Load { envelope } => message_id(envelope).as_str(),
        _ => "",
    }
}

#[test]
fn events_are_copied(rt: HostRuntime) -> Result<(), TestFail> {
    let envelope = envelope(rt.alloc(), "a")?;
    let event = Event::Load { envelope };
    assert_eq!(rt; loaded(&event.copy()?), "a");
    Ok(())
}

use nb_base::{
    Action, Envelope, Headers, Items, Key, Moment, NoMemory, Policies, Policy, Routes, Settings,
    Subscribers, Text, Value,
};
use nb_recover::{Fail, Move, decide, error_copy, later_copy, return_copy};
use std::alloc::Global;
use std::test::Fail as Failure;

/// Settings of the endpoint Sales.
fn settings(alloc: Global, policies: Policies) -> Result<Settings, NoMemory>
    requires { length policies ≤ 1 }
{
    let routes: Routes = Items::new(alloc);
    let subscribers: Subscribers = Items::new(alloc);
    let endpoint = Text::new(alloc, "Sales")?;
    let error = Text::new(alloc, "error")?;
    Ok(Settings {
        endpoint,
        error,
        immediate: 5,
        delayed: 3,
        increase: 10,
        retention: 604800,
        routes,
        subscribers,
        policies,
    })
}

ghost use Rattle.std.specs.Prelude.{◌≤◌, length};

/// Without policies.
fn plain(alloc: Global) -> Result<Settings, NoMemory> {
    settings(alloc, Items::new(alloc))
}

/// With a policy for the fault Broken.
fn with_policy(alloc: Global, action: Action) -> Result<Settings, NoMemory> {
    let name = Text::new(alloc, "Broken")?;
    let mut policies: Policies = Items::new(alloc);
    policies.push(Policy { name, action })?;
    settings(alloc, policies)
}

#[test]
fn retries_are_immediate_then_delayed_then_over(rt: HostRuntime) -> Result<(), Failure> {
    let settings = plain(rt.alloc())?;
    assert_eq!(rt; decide(&settings, "Broken", 5, 0, false), Move::Again);
    assert_eq!(rt;
        decide(&settings, "Broken", 6, 0, false),
        Move::Later {
            round: 1,
            delay: 10
        }
    );
    assert_eq!(rt;
        decide(&settings, "Broken", 6, 2, false),
        Move::Later {
            round: 3,
            delay: 30
        }
    );
    assert_eq!(rt; decide(&settings, "Broken", 6, 3, false), Move::Error);
    assert_eq!(rt; decide(&settings, "Broken", 1, 0, true), Move::Error);
    Ok(())
}

#[test]
fn a_policy_discards(rt: HostRuntime) -> Result<(), Failure> {
    let settings = with_policy(rt.alloc(), Action::Discard)?;
    assert_eq!(rt; decide(&settings, "Broken", 1, 0, true), Move::Discard);
    assert_eq!(rt; decide(&settings, "Broke", 1, 0, true), Move::Error);
    Ok(())
}

#[test]
fn a_policy_leaves_out_retries(rt: HostRuntime) -> Result<(), Failure> {
    let error = with_policy(rt.alloc(), Action::Error)?;
    assert_eq!(rt; decide(&error, "Broken", 1, 0, false), Move::Error);
    let immediate = with_policy(rt.alloc(), Action::Immediate)?;
    assert_eq!(rt; decide(&immediate, "Broken", 5, 0, false), Move::Again);
    assert_eq!(rt; decide(&immediate, "Broken", 6, 0, false), Move::Error);
    Ok(())
}

/// Writes the headers in order, a line each.
fn push_headers(out: &mut String, headers: &Headers) -> Result<(), NoMemory> {
    for i in 0..headers.len() {
        let (name, text) = headers.at(i);
        out.push_str(name)?;
        out.push_str(" = ")?;
        out.push_str(text.as_str())?;
        out.push('\n')?;
    }
    Ok(())
}

/// The headers in order, a line each, and the body.
fn shown(alloc: Global, envelope: &Envelope) -> Result<String, NoMemory> {
    let mut out = String::new(alloc);
    push_headers(&mut out, envelope.headers())?;
    out.push_str(envelope.body().as_str())?;
    Ok(out)
}

/// A message.
fn message(alloc: Global) -> Result<Envelope, NoMemory> {
    let id = Text::new(alloc, "b1")?;
    if id.is_empty() {
        return Err(NoMemory);
    }
    let body = Text::new(alloc, "{}")?;
    Envelope::new(alloc, &id, body)
}

/// The copy for the second round.
fn later(alloc: Global) -> Result<Envelope, NoMemory> {
    let moment = Moment::new(10).ok_or(NoMemory)?;
    later_copy(alloc, &message(alloc)?, 2, moment)
}

/// A saga that was read at version 1 and stands at version 2.
fn conflict(alloc: Global) -> Result<Fail, NoMemory> {
    let saga = Text::new(alloc, "Order")?;
    let corr = Text::new(alloc, "B")?;
    let key = Key::ByCorr {
        saga,
        corr: Value::Text(corr),
    };
    Ok(Fail::Conflict {
        key,
        seen: 1,
        now: 2,
    })
}

/// The copy for the error queue after a conflict in the second round.
fn failed(alloc: Global) -> Result<Envelope, NoMemory> {
    let moment = Moment::new(20).ok_or(NoMemory)?;
    let settings = plain(alloc)?;
    let later = later(alloc)?;
    let conflict = conflict(alloc)?;
    error_copy(alloc, &settings, &later, &conflict, moment)
}

#[test]
fn copies_say_the_round_and_the_fault(rt: HostRuntime) -> Result<(), Failure> {
    let alloc = rt.alloc();
    assert_eq!(rt;
        shown(alloc, &failed(alloc)?)?.as_str(),
        "NServiceBus.MessageId = b1\nNServiceBus.Retries = 2\nNServiceBus.Retries.Timestamp = 1970-01-01 00:00:10:000000 Z\nNServiceBus.FailedQ = Sales\nNServiceBus.TimeOfFailure = 1970-01-01 00:00:20:000000 Z\nNServiceBus.ProcessingEndpoint = Sales\nNServiceBus.ExceptionInfo.ExceptionType = Conflict\nNServiceBus.ExceptionInfo.Message = saga Order \"B\" was read at version 1 and stands at version 2\n{}"
    );
    Ok(())
}

/// What goes back of a message: its queue and its headers.
fn returned(alloc: Global, envelope: &Envelope) -> Result<String, NoMemory> {
    match return_copy(envelope)? {
        Some(returned) => {
            let queue = returned.queue.as_str();
            let text = shown(alloc, &returned.envelope)?;
            Ok(format!(in alloc; "{queue}\n{text}")?)
        }
        None => Ok(String::from_str(alloc, "none")?),
    }
}

#[test]
fn a_failed_message_goes_back_as_it_came(rt: HostRuntime) -> Result<(), Failure> {
    let alloc = rt.alloc();
    assert_eq!(rt;
        returned(alloc, &failed(alloc)?)?.as_str(),
        "Sales\nNServiceBus.MessageId = b1\n{}"
    );
    assert_eq!(rt; returned(alloc, &message(alloc)?)?.as_str(), "none");
    Ok(())
}

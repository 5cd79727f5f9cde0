use nb_base::{Action, NoMemory, Settings};
use nb_check::{Checked, check};
use nb_script::parse;
use nb_settings::{SettingsKind, SettingsRefusal, missing_route, read_settings};
use std::alloc::Global;
use std::test::Fail;

// The bad key and its kind.
fn shown_kind(kind: SettingsKind) -> &'static str {
    match kind {
        SettingsKind::NotToml => "NotToml",
        SettingsKind::Missing => "Missing",
        SettingsKind::WrongKind => "WrongKind",
        SettingsKind::OutOfRange => "OutOfRange",
        SettingsKind::SameQueue => "SameQueue",
        SettingsKind::Repeated => "Repeated",
        SettingsKind::Unknown => "Unknown",
        SettingsKind::NoRoute => "NoRoute",
    }
}

// The routes, the subscribers and the policies, each with a sign before it.
fn shown_tables(alloc: Global, settings: &Settings) -> Result<String, NoMemory> {
    let mut out = String::new(alloc);
    for route in settings.routes.as_slice() {
        let line = format!(in alloc; " >{}={}", route.name.as_str(), route.queue.as_str())?;
        out.push_str(line.as_str())?;
    }
    for subscriber in settings.subscribers.as_slice() {
        let line = format!(in alloc;
            " *{}={}",
            subscriber.name.as_str(),
            subscriber.queues.len()
        )?;
        out.push_str(line.as_str())?;
    }
    for policy in settings.policies.as_slice() {
        let action = match policy.action {
            Action::Error => "error",
            Action::Immediate => "immediate",
            Action::Discard => "discard",
        };
        let line = format!(in alloc; " !{}={action}", policy.name.as_str())?;
        out.push_str(line.as_str())?;
    }
    Ok(out)
}

// All settings in a line.
fn shown_settings(alloc: Global, s: &Settings) -> Result<String, NoMemory> {
    let tables = shown_tables(alloc, s)?;
    let names = format!(in alloc; "{} {}", s.endpoint.as_str(), s.error.as_str())?;
    let line = format!(in alloc;
        "{names} {} {} {} {}{tables}",
        s.immediate, s.delayed, s.increase, s.retention
    )?;
    Ok(line)
}

// The checked script of a text.
fn checked(alloc: Global, text: &str) -> Result<Checked, NoMemory> {
    let Ok(script) = parse(alloc, text.as_bytes()) else {
        return Err(NoMemory);
    };
    match check(alloc, script) {
        Ok(checked) => Ok(checked),
        Err(_) => Err(NoMemory),
    }
}

// The settings for a script, or the bad key and its kind.
fn shown_for(alloc: Global, script: &str, bytes: &[u8]) -> Result<String, NoMemory> {
    let checked = checked(alloc, script)?;
    match read_settings(alloc, bytes, &checked) {
        Ok(settings) => shown_settings(alloc, &settings),
        Err(SettingsRefusal::Fault(fault)) => {
            let line = format!(in alloc; "{}: {}", fault.key.as_str(), shown_kind(fault.kind))?;
            Ok(line)
        }
        Err(SettingsRefusal::NoMemory) => Err(NoMemory),
    }
}

// The same for a script that sends nothing.
fn shown(alloc: Global, bytes: &[u8]) -> Result<String, NoMemory> {
    shown_for(alloc, "", bytes)
}

// What some lines after the endpoint's name give.
fn shown_with(alloc: Global, rest: &str) -> Result<String, NoMemory> {
    let text = format!(in alloc; "endpoint = \"Sales\"\n{rest}")?;
    shown(alloc, text.as_bytes())
}

#[test]
fn settings_are_read(rt: HostRuntime) -> Result<(), Fail> {
    let alloc = rt.alloc();
    let a = shown_with(alloc, "[recoverability]\n[routes]\nCharge = \"Billing\"\n")?;
    assert_eq!(rt; a.as_str(), "Sales error 5 3 10 604800 >Charge=Billing");
    let all = shown_with(
        alloc,
        "error = \"dead\"\nroutes.b = \"B\"\nroutes.a = \"A\"\nsubscribers.\"Shop.Placed\" = [\"x\", \"y\"]\n[policies]\nBroken = \"discard\"\nBusy = \"immediate\"\nConflict = \"error\"\n[recoverability]\nimmediate = 0\ndelayed = 1000\nincrease = 86400\n[outbox]\nretention = 315360000\n",
    )?;
    assert_eq!(rt;
        all.as_str(),
        "Sales dead 0 1000 86400 315360000 >a=A >b=B *Shop.Placed=2 !Broken=discard !Busy=immediate !Conflict=error"
    );
    Ok(())
}

/// Files with a bad endpoint, and what is told of each.
const BAD_ENDPOINTS: &[(&[u8], &str)] = &[
    (b"", "endpoint: Missing"),
    (b"endpoint =", ": NotToml"),
    (b"endpoint = \"\xff\"", ": NotToml"),
    (b"endpoint = 18446744073709551616", ": NotToml"),
    (b"endpoint = 1", "endpoint: WrongKind"),
    (b"endpoint = \"a b\"", "endpoint: OutOfRange"),
    (b"endpoint = \"error\"", "error: SameQueue"),
];

#[test]
fn bad_endpoints_are_told(rt: HostRuntime) -> Result<(), Fail> {
    let alloc = rt.alloc();
    for (bytes, wanted) in BAD_ENDPOINTS {
        assert_eq!(rt; shown(alloc, bytes)?.as_str(), *wanted);
    }
    Ok(())
}

/// Lines with a bad error queue, and what is told of each.
const BAD_ERRORS: &[(&str, &str)] = &[
    ("error = true", "error: WrongKind"),
    ("error = \"\"", "error: OutOfRange"),
    ("error = \"Sales\"", "error: SameQueue"),
];

#[test]
fn bad_error_queues_are_told(rt: HostRuntime) -> Result<(), Fail> {
    let alloc = rt.alloc();
    for (lines, wanted) in BAD_ERRORS {
        assert_eq!(rt; shown_with(alloc, lines)?.as_str(), *wanted);
    }
    Ok(())
}

/// Lines with a bad number, and what is told of each.
const BAD_NUMBERS: &[(&str, &str)] = &[
    ("recoverability = 1", "recoverability: WrongKind"),
    ("[[recoverability]]", "recoverability: WrongKind"),
    (
        "recoverability.immediate = 1001",
        "recoverability.immediate: OutOfRange",
    ),
    (
        "recoverability.immediate = 1.0",
        "recoverability.immediate: WrongKind",
    ),
    (
        "recoverability.delayed = -1",
        "recoverability.delayed: OutOfRange",
    ),
    (
        "recoverability.increase = 86401",
        "recoverability.increase: OutOfRange",
    ),
    (
        "outbox = []\nrecoverability.increase = \"1\"",
        "recoverability.increase: WrongKind",
    ),
    (
        "outbox.retention = 315360001",
        "outbox.retention: OutOfRange",
    ),
    ("outbox = []", "outbox: WrongKind"),
];

#[test]
fn bad_numbers_are_told(rt: HostRuntime) -> Result<(), Fail> {
    let alloc = rt.alloc();
    for (lines, wanted) in BAD_NUMBERS {
        assert_eq!(rt; shown_with(alloc, lines)?.as_str(), *wanted);
    }
    Ok(())
}

/// Lines with a bad table, and what is told of each.
const BAD_TABLES: &[(&str, &str)] = &[
    ("routes = 1", "routes: WrongKind"),
    (
        "routes.B = 1\nroutes.\"A.b\" = \"\"",
        "routes.A.b: OutOfRange",
    ),
    ("subscribers = 1\nroutes.B = 1", "routes.B: WrongKind"),
    ("subscribers = 1", "subscribers: WrongKind"),
    ("subscribers.P = \"x\"", "subscribers.P: WrongKind"),
    (
        "subscribers.P = [\"x\", \"x\", 1]",
        "subscribers.P: WrongKind",
    ),
    (
        "subscribers.P = [\"x\", \"x\", \"\"]",
        "subscribers.P: OutOfRange",
    ),
    (
        "subscribers.P = [\"x\", \"y\", \"x\"]",
        "subscribers.P: Repeated",
    ),
    (
        "policies.Y = 1\npolicies.X = \"later\"",
        "policies.X: OutOfRange",
    ),
    ("policies.Y = 1", "policies.Y: WrongKind"),
    ("policies = \"error\"", "policies: WrongKind"),
];

#[test]
fn bad_tables_are_told(rt: HostRuntime) -> Result<(), Fail> {
    let alloc = rt.alloc();
    for (lines, wanted) in BAD_TABLES {
        assert_eq!(rt; shown_with(alloc, lines)?.as_str(), *wanted);
    }
    Ok(())
}

/// Lines with unknown keys, and what is told of each.
const UNKNOWN: &[(&str, &str)] = &[
    (
        "zz = 1\nrecoverability.x = 1\noutbox.y = 1",
        "outbox.y: Unknown",
    ),
    ("outbox-x = 1\noutbox.y = 1", "outbox-x: Unknown"),
    ("\"\" = 1", ": Unknown"),
    (
        "zz = 1\nrecoverability.x = 1\npolicies.X = 1",
        "policies.X: WrongKind",
    ),
];

#[test]
fn the_least_unknown_key_is_told(rt: HostRuntime) -> Result<(), Fail> {
    let alloc = rt.alloc();
    for (lines, wanted) in UNKNOWN {
        assert_eq!(rt; shown_with(alloc, lines)?.as_str(), *wanted);
    }
    Ok(())
}

const SHOP: &str = "message Order { } message Charge { } message Told { }
handler Told { local Order { }; publish Order { }; }
handler Order { send Charge { }; send Order { }; }
";

/// Settings of the shop, and what is told of each.
const ROUTES: &[(&[u8], &str)] = &[
    (b"endpoint = \"Sales\"", "routes.Charge: NoRoute"),
    (
        b"endpoint = \"Sales\"\nroutes.Charge = \"Billing\"",
        "routes.Order: NoRoute",
    ),
    (
        b"endpoint = \"Sales\"\nroutes.Order = \"Web\"\nroutes.Charge = \"Billing\"",
        "Sales error 5 3 10 604800 >Charge=Billing >Order=Web",
    ),
    (b"endpoint = \"Sales\"\nzz = 1", "zz: Unknown"),
];

#[test]
fn a_missing_route_is_told(rt: HostRuntime) -> Result<(), Fail> {
    let alloc = rt.alloc();
    for (bytes, wanted) in ROUTES {
        assert_eq!(rt; shown_for(alloc, SHOP, bytes)?.as_str(), *wanted);
    }
    Ok(())
}

// The number of the first message of a script that has no route in these settings.
fn missing(alloc: Global, script: &str, bytes: &[u8]) -> Result<Option<u32>, NoMemory> {
    let nothing = checked(alloc, "")?;
    let script = checked(alloc, script)?;
    match read_settings(alloc, bytes, &nothing) {
        Ok(settings) => Ok(missing_route(&settings, &script)),
        Err(_) => Err(NoMemory),
    }
}

/// Settings of the shop, and the number of the first message without a route.
const MISSING: &[(&[u8], Option<u32>)] = &[
    (b"endpoint = \"Sales\"", Some(1)),
    (b"endpoint = \"Sales\"\nroutes.Charge = \"B\"", Some(0)),
    (
        b"endpoint = \"Sales\"\nroutes.Charge = \"B\"\nroutes.Order = \"B\"",
        None,
    ),
];

#[test]
fn a_missing_route_has_a_number(rt: HostRuntime) -> Result<(), Fail> {
    let alloc = rt.alloc();
    for (bytes, wanted) in MISSING {
        assert_eq!(rt; missing(alloc, SHOP, bytes)?, *wanted);
    }
    Ok(())
}

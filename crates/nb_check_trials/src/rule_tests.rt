use nb_base::{Envelope, Key, NoMemory, Text, Value};
use nb_check::{BodyFault, CheckFault, CheckKind, Checked, check, decode_body, keys, meets};
use nb_headers::names::ENCLOSED_MESSAGE_TYPES;
use nb_script::{ScriptFault, parse};
use std::alloc::Global;
use std::test::Fail;

const SHOP: &str = "message Shop.PlaceOrder { orderId: text, amount: int }
message Charge { orderId: text, amount: int }
message OrderPaid { orderId: text }
message Cancel { orderId: text }
message OrderExpired { orderId: text }
message Credit { account: text, amount: int }
message Work { } message Bad { } message No { } message Ask { } message Told { }
saga Order on orderId: text {
  fields { total: int, paid: bool }
  start Shop.PlaceOrder by orderId {
    set total = saga.total + msg.amount;
    send Charge { orderId: msg.orderId, amount: msg.amount };
    timeout 3600 OrderExpired { orderId: msg.orderId };
  }
  find OrderPaid by orderId { set paid = true; complete; }
  find Cancel by orderId { complete; }
  timeout OrderExpired { add row(\"expired\") by 1; complete; }
}
handler OrderPaid { add row(\"paid\") by 1; }
handler Credit { add row(msg.account) by msg.amount; }
handler Work { if retries < 2 { fail Busy \"later\"; } add row(\"done\") by 1; }
handler Bad { fail Broken \"always\"; }
handler No { reject Refused \"never\"; }
handler Ask { reply Told { }; }
";

/// Why a script isn't checked, if it isn't.
fn fault(alloc: Global, text: &str) -> Result<Option<CheckFault>, ScriptFault> {
    let script = parse(alloc, text.as_bytes())?;
    Ok(check(alloc, script).err())
}

/// A fault on the first line.
fn at(column: u32, kind: CheckKind) -> Result<Option<CheckFault>, ScriptFault> {
    Ok(Some(CheckFault {
        line: 1,
        column,
        kind,
    }))
}

/// Scripts with a declaration that breaks a rule, and where.
const DECLARATIONS: &[(&str, u32, CheckKind)] = &[
    ("handler Nope { }", 9, CheckKind::UnknownMessage),
    (
        "saga S on a: int { fields { b: int since 1 = 0 } }",
        42,
        CheckKind::BadRevision,
    ),
    ("message A { } message A { }", 23, CheckKind::MessageTwice),
    ("message A { n: int, n: text }", 21, CheckKind::FieldTwice),
    (
        "saga S on a: int { fields { a: int } }",
        29,
        CheckKind::FieldTwice,
    ),
    (
        "saga S on a: int { fields { } } saga S on a: int { fields { } }",
        38,
        CheckKind::SagaTwice,
    ),
    (
        "saga S on a: bool { fields { } }",
        11,
        CheckKind::BadCorrelation,
    ),
];

#[test]
fn declarations_keep_their_rules(rt: HostRuntime) -> Result<(), Fail> {
    let alloc = rt.alloc();
    for (text, column, kind) in DECLARATIONS {
        assert_eq!(rt; fault(alloc, text), at(*column, *kind));
    }
    Ok(())
}

/// Scripts with several breaches or one, and the first of them.
const FIRST_PLACES: &[(&str, u32, CheckKind)] = &[
    (
        "message A { } handler A { put row(\"a\" ++ \"b\") = (1 + \"a\") ++ \"b\"; }",
        49,
        CheckKind::WrongType,
    ),
    (
        "message A { n: int } handler A { publish A { m: msg.o }; }",
        42,
        CheckKind::FieldMissing,
    ),
    (
        "message A { } handler A { let b = c; } message A { }",
        35,
        CheckKind::UnknownName,
    ),
    (
        "message A { n: int } saga S on a: int { fields { } start A by n { let b = c; } find A by n { } }",
        75,
        CheckKind::UnknownName,
    ),
    (
        "message A { n: int } saga S on a: int { fields { } start A by n { } find A by n { } }",
        74,
        CheckKind::PartTwice,
    ),
    (
        "message A { n: int } saga S on a: int { fields { } start A by n { timeout 1 A { }; } }",
        77,
        CheckKind::FieldMissing,
    ),
    (
        "message A { n: int } saga S on a: int { fields { } start A by n { timeout 1 A { n: 1 }; } }",
        77,
        CheckKind::NoTimeoutPart,
    ),
    (
        "message A { } handler A { timeout 1 A { }; }",
        27,
        CheckKind::NoSaga,
    ),
];

#[test]
fn the_first_place_is_told_and_not_the_first_found(rt: HostRuntime) -> Result<(), Fail> {
    let alloc = rt.alloc();
    for (text, column, kind) in FIRST_PLACES {
        assert_eq!(rt; fault(alloc, text), at(*column, *kind));
    }
    Ok(())
}

/// Scripts that name what is not known, and where.
const NOT_KNOWN: &[(&str, u32, CheckKind)] = &[
    (
        "message A { } handler A { let b = msg.c + 1; }",
        39,
        CheckKind::UnknownField,
    ),
    (
        "message A { } handler A { put row(msg.c) = 1; }",
        39,
        CheckKind::UnknownField,
    ),
    (
        "message A { } handler A { let b = c; if b { } }",
        35,
        CheckKind::UnknownName,
    ),
];

#[test]
fn what_is_not_known_breaks_its_own_rule_alone(rt: HostRuntime) -> Result<(), Fail> {
    let alloc = rt.alloc();
    for (text, column, kind) in NOT_KNOWN {
        assert_eq!(rt; fault(alloc, text), at(*column, *kind));
    }
    Ok(())
}

/// Scripts with a bad name of a row, and where.
const ROW_NAMES: &[(&str, u32, CheckKind)] = &[
    (
        "message A { n: int } handler A { erase row(msg.n); }",
        44,
        CheckKind::RowName,
    ),
    (
        "message A { } handler A { erase row(text(1)); }",
        37,
        CheckKind::RowName,
    ),
    (
        "message A { } handler A { erase row(\"a\" + \"b\"); }",
        37,
        CheckKind::WrongType,
    ),
    (
        "message A { } handler A { erase row(\"a\" ++ 1); }",
        44,
        CheckKind::RowName,
    ),
    (
        "message A { t: text } handler A { erase row(text(msg.t)); }",
        50,
        CheckKind::WrongType,
    ),
];

#[test]
fn names_of_rows_are_known_before_anything_is_read(rt: HostRuntime) -> Result<(), Fail> {
    let alloc = rt.alloc();
    for (text, column, kind) in ROW_NAMES {
        assert_eq!(rt; fault(alloc, text), at(*column, *kind));
    }
    Ok(())
}

/// Scripts that name what is not in sight, and where.
const SIGHT: &[(&str, u32, CheckKind)] = &[
    (
        "message A { } handler A { let a = a; }",
        35,
        CheckKind::UnknownName,
    ),
    (
        "message A { } handler A { let a = 1; if true { let a = 2; } }",
        52,
        CheckKind::NameTwice,
    ),
    (
        "message A { } handler A { if true { let a = 2; } let b = a; }",
        58,
        CheckKind::UnknownName,
    ),
];

#[test]
fn names_are_in_sight_to_the_end_of_their_block(rt: HostRuntime) -> Result<(), Fail> {
    let alloc = rt.alloc();
    for (text, column, kind) in SIGHT {
        assert_eq!(rt; fault(alloc, text), at(*column, *kind));
    }
    Ok(())
}

/// Scripts whose kinds disagree, and where.
const KINDS: &[(&str, u32, CheckKind)] = &[
    (
        "message A { } handler A { if 1 { } }",
        30,
        CheckKind::WrongType,
    ),
    (
        "message A { t: text } saga S on a: int { fields { } start A by t { } }",
        64,
        CheckKind::WrongType,
    ),
    (
        "message A { } handler A { let b = 1 == \"a\"; }",
        40,
        CheckKind::WrongType,
    ),
    (
        "message A { n: int } saga S on a: int { fields { } start A by n { set a = 1; } }",
        71,
        CheckKind::SetsCorrelation,
    ),
];

#[test]
fn kinds_agree(rt: HostRuntime) -> Result<(), Fail> {
    let alloc = rt.alloc();
    for (text, column, kind) in KINDS {
        assert_eq!(rt; fault(alloc, text), at(*column, *kind));
    }
    Ok(())
}

#[test]
fn scripts_that_break_no_rule(rt: HostRuntime) -> Result<(), Fail> {
    let alloc = rt.alloc();
    assert_eq!(rt; fault(alloc, SHOP), Ok(None));
    assert_eq!(rt;
        fault(
            alloc,
            "message A { n: int } handler A { erase row(text((msg.n)) ++ id); }"
        ),
        Ok(None)
    );
    assert_eq!(rt;
        fault(
            alloc,
            "message A { } handler A { if true { let a = 1; } let a = 2; }"
        ),
        Ok(None)
    );
    Ok(())
}

/// A script that breaks no rule.
fn checked(alloc: Global, text: &str) -> Result<Checked, Fail> {
    let script = parse(alloc, text.as_bytes())?;
    Ok(check(alloc, script)?)
}

/// A message of this type.
fn message(alloc: Global, name: &str, body: &str) -> Result<Envelope, NoMemory> {
    let id = Text::new(alloc, "m")?;
    if id.is_empty() {
        return Err(NoMemory);
    }
    let mut e = Envelope::new(alloc, &id, Text::new(alloc, body)?)?;
    let name = Text::new(alloc, name)?;
    if !name.is_empty() {
        e.set_header(alloc, ENCLOSED_MESSAGE_TYPES, name)?;
    }
    Ok(e)
}

/// Adds a key in words.
fn show(key: &Key, out: &mut String) -> Result<(), NoMemory> {
    match key {
        Key::ByCorr { saga, corr } => {
            out.push_str(saga.as_str())?;
            if let Value::Text(corr) = corr {
                out.push_str(" with ")?;
                out.push_str(corr.as_str())?;
            }
        }
        Key::ById { saga, id } => {
            out.push_str(saga.as_str())?;
            out.push_str(" of ")?;
            out.push_str(id.as_str())?;
        }
        Key::Row { name } => {
            out.push_str("row ")?;
            out.push_str(name.as_str())?;
        }
    }
    out.push(';')?;
    Ok(())
}

/// Keys in words.
fn shown(alloc: Global, keys: &[Key]) -> Result<String, NoMemory> {
    let mut out = String::new(alloc);
    for key in keys {
        show(key, &mut out)?;
    }
    Ok(out)
}

/// The keys that a message reads, in words.
fn keys_of(alloc: Global, text: &str, name: &str, body: &str) -> Result<String, Fail> {
    let script = checked(alloc, text)?;
    let e = message(alloc, name, body)?;
    let keys = keys(alloc, &script, &e)?;
    Ok(shown(alloc, keys.as_slice())?)
}

#[test]
fn keys_of_a_shop(rt: HostRuntime) -> Result<(), Fail> {
    let keys = keys_of(rt.alloc(), SHOP, "OrderPaid", "{\"orderId\":\"Z\"}")?;
    assert_eq!(rt; keys.as_str(), "Order with Z;row paid;");
    Ok(())
}

#[test]
fn a_body_that_does_not_decode_reads_nothing(rt: HostRuntime) -> Result<(), Fail> {
    let keys = keys_of(rt.alloc(), SHOP, "Credit", "{")?;
    assert_eq!(rt; keys.as_str(), "");
    Ok(())
}

#[test]
fn rows_of_branches_that_do_not_run_are_read(rt: HostRuntime) -> Result<(), Fail> {
    let text = "message A { t: text }
handler A { if false { put row(\"x\") = row(msg.t); } else { erase row(\"x\" ++ id); } }";
    let keys = keys_of(rt.alloc(), text, "A", "{\"t\":\"y\"}")?;
    assert_eq!(rt; keys.as_str(), "row x;row y;row xm;");
    Ok(())
}

/// How many blocks a message of the shop meets, and the number of the first.
fn met(alloc: Global, name: &str) -> Result<(usize, Option<u32>), Fail> {
    let shop = checked(alloc, SHOP)?;
    let e = message(alloc, name, "{}")?;
    let met = meets(alloc, &shop, &e)?;
    Ok((met.len(), met.as_slice().first().copied()))
}

#[test]
fn blocks_of_a_shop(rt: HostRuntime) -> Result<(), Fail> {
    assert_eq!(rt; met(rt.alloc(), "OrderPaid")?, (2, Some(1)));
    assert_eq!(rt; met(rt.alloc(), "OrderExpired")?, (0, None));
    Ok(())
}

/// How many messages a script sends.
fn sent(alloc: Global, text: &str) -> Result<usize, Fail> {
    let script = checked(alloc, text)?;
    Ok(script.sends().len())
}

#[test]
fn messages_that_a_shop_sends(rt: HostRuntime) -> Result<(), Fail> {
    assert_eq!(rt; sent(rt.alloc(), SHOP)?, 1);
    Ok(())
}

/// How many fields a body has by the kinds of a message, or why it has none.
fn decoded(alloc: Global, body: &str) -> Result<Result<usize, BodyFault>, Fail> {
    let script = checked(alloc, "message A { n: int, t: text, b: bool }")?;
    let fields = decode_body(alloc, &script, 0, &Text::new(alloc, body)?);
    Ok(fields.map(|fields| fields.len()))
}

/// Bodies, and how many fields each has.
const BODIES: &[(&str, Result<usize, BodyFault>)] = &[
    ("\u{feff}{\"n\":0,\"x\":[]}", Ok(3)),
    ("{\"n\":null,\"t\":\"\"}", Ok(3)),
    ("{\"n\":-9223372036854775808}", Ok(3)),
    ("{\"n\":-0}", Err(BodyFault::Undecodable)),
    ("{\"n\":1.0}", Err(BodyFault::Undecodable)),
    ("{\"n\":9223372036854775808}", Err(BodyFault::Undecodable)),
    ("{\"b\":0}", Err(BodyFault::Undecodable)),
    ("{\"x\":1e400}", Err(BodyFault::Undecodable)),
    ("[]", Err(BodyFault::Undecodable)),
];

#[test]
fn bodies_by_their_kinds(rt: HostRuntime) -> Result<(), Fail> {
    let alloc = rt.alloc();
    for (body, wanted) in BODIES {
        assert_eq!(rt; decoded(alloc, body)?, *wanted);
    }
    Ok(())
}

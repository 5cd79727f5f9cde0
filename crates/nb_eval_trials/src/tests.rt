use nb_base::{Envelope, Intent, Items, Moment, NoMemory, Target, Text, Verdict, Write};
use nb_check::{Checked, check};
use nb_eval::evaluate;
use nb_headers::names::{ENCLOSED_MESSAGE_TYPES, REPLY_TO_ADDRESS};
use nb_script::parse;
use std::alloc::Global;
use std::test::Fail;

/// A script that breaks no rule.
fn checked(alloc: Global, text: &str) -> Result<Checked, NoMemory> {
    let script = parse(alloc, text.as_bytes()).map_err(|_| NoMemory)?;
    check(alloc, script).map_err(|_| NoMemory)
}

/// A message of this type.
fn message(alloc: Global, kind: &str, body: &str) -> Result<Envelope, NoMemory> {
    let id = Text::new(alloc, "m1")?;
    if id.is_empty() {
        return Err(NoMemory);
    }
    let mut e = Envelope::new(alloc, &id, Text::new(alloc, body)?)?;
    let kind = Text::new(alloc, kind)?;
    if kind.is_empty() {
        return Ok(e);
    }
    e.set_header(alloc, ENCLOSED_MESSAGE_TYPES, kind)?;
    Ok(e)
}

fn push_write(out: &mut String, write: &Write) -> Result<(), NoMemory> {
    match write {
        Write::SagaPut { saga, .. } => {
            out.push_str("put ")?;
            out.push_str(saga.as_str())?;
        }
        Write::SagaErase { saga, .. } => {
            out.push_str("erase ")?;
            out.push_str(saga.as_str())?;
        }
        Write::RowPut { name, .. } => {
            out.push_str("row ")?;
            out.push_str(name.as_str())?;
        }
        Write::RowErase { name } => {
            out.push_str("no row ")?;
            out.push_str(name.as_str())?;
        }
    }
    out.push(';')?;
    Ok(())
}

fn push_intent(out: &mut String, intent: &Intent) -> Result<(), NoMemory> {
    out.push_str(intent.name.as_str())?;
    out.push(' ')?;
    out.push_str(intent.body.as_str())?;
    out.push(';')?;
    Ok(())
}

/// The changes and the intents of a plan, or the name and the text of a fault.
fn shown(alloc: Global, verdict: &Verdict) -> Result<String, NoMemory> {
    let mut out = String::new(alloc);
    match verdict {
        Verdict::Done(plan) => {
            for write in plan.writes.as_slice() {
                push_write(&mut out, write)?;
            }
            for intent in plan.intents.as_slice() {
                push_intent(&mut out, intent)?;
            }
        }
        Verdict::Fault(fault) => {
            out.push_str(fault.name.as_str())?;
            out.push_str(": ")?;
            out.push_str(fault.text.as_str())?;
        }
    }
    Ok(out)
}

/// The verdict where nothing is stored.
#[tactic(auto, using(nb_eval::proofs::MeaningLaws::nothing_read))]
fn verdict(alloc: Global, script: &str, e: &Envelope) -> Result<Verdict, NoMemory> {
    let c = checked(alloc, script)?;
    let reads = Items::new(alloc);
    let outcome = evaluate(alloc, &c, e, Moment::FIRST, reads)?;
    Ok(outcome.verdict)
}

/// What a script makes of a message where nothing is stored.
fn made(alloc: Global, script: &str, kind: &str, body: &str) -> Result<String, NoMemory> {
    let e = message(alloc, kind, body)?;
    shown(alloc, &verdict(alloc, script, &e)?)
}

/// To whom the first message of a plan replies.
fn replied_to(verdict: &Verdict) -> &str {
    match verdict {
        Verdict::Done(plan) => match plan.intents.as_slice().first() {
            Some(
                Intent {
                    target: Target::Reply { to },
                    ..
                },
            ) => to.as_str(),
            _ => "",
        },
        Verdict::Fault(_) => "",
    }
}

/// A message without fields that is answered there.
fn asked_from(alloc: Global, address: &str) -> Result<Envelope, NoMemory> {
    let mut e = message(alloc, "A", "{}")?;
    e.set_header(alloc, REPLY_TO_ADDRESS, Text::new(alloc, address)?)?;
    Ok(e)
}

/// What a handler with this body makes of a message with a text and a number.
fn handled(alloc: Global, block: &str, body: &str) -> Result<String, NoMemory> {
    let mut script = String::from_str(
        alloc,
        "message A { t: text, n: int } message Told { } message Big { t: text } handler A { ",
    )?;
    script.push_str(block)?;
    script.push_str(" }")?;
    made(alloc, script.as_str(), "A", body)
}

/// A body whose text has so many letters.
fn long_body(alloc: Global, n: usize) -> Result<String, NoMemory> {
    let mut body = String::from_str(alloc, "{\"t\":\"")?;
    for _ in 0..n {
        body.push('a')?;
    }
    body.push_str("\"}")?;
    Ok(body)
}

/// So many messages to the own queue.
fn many(alloc: Global, n: usize) -> Result<String, NoMemory> {
    let mut block = String::new(alloc);
    for _ in 0..n {
        block.push_str("local Told { }; ")?;
    }
    Ok(block)
}

const OVERFLOW: &str = "Overflow: a number left the range of 64 bits";

const TOO_LONG: &str = "TooLong: a text became longer than 65536 bytes";

const BAD_DELAY: &str = "BadDelay: a delay lies outside 0 to 31536000";

#[test]
fn numbers_end_at_64_bits(rt: HostRuntime) -> Result<(), Fail> {
    let alloc = rt.alloc();
    let greatest = "{\"n\":9223372036854775807}";
    let least = "{\"n\":-9223372036854775808}";
    assert_eq!(rt;
        handled(alloc, "put row(\"a\") = msg.n + 0;", greatest)?.as_str(),
        "row a;"
    );
    assert_eq!(rt;
        handled(alloc, "put row(\"a\") = msg.n + 1;", greatest)?.as_str(),
        OVERFLOW
    );
    assert_eq!(rt;
        handled(alloc, "put row(\"a\") = msg.n - 1;", least)?.as_str(),
        OVERFLOW
    );
    assert_eq!(rt;
        handled(alloc, "put row(\"a\") = - msg.n;", greatest)?.as_str(),
        "row a;"
    );
    assert_eq!(rt;
        handled(alloc, "put row(\"a\") = - msg.n;", least)?.as_str(),
        OVERFLOW
    );
    assert_eq!(rt;
        handled(alloc, "put row(\"a\") = msg.n * 2;", greatest)?.as_str(),
        OVERFLOW
    );
    Ok(())
}

#[test]
fn texts_end_at_65536_bytes(rt: HostRuntime) -> Result<(), Fail> {
    let alloc = rt.alloc();
    let whole = long_body(alloc, 65536)?;
    let more = long_body(alloc, 65537)?;
    let block = "if len(msg.t ++ \"\") < 0 { } ";
    assert_eq!(rt; handled(alloc, block, whole.as_str())?.as_str(), "");
    assert_eq!(rt; handled(alloc, block, more.as_str())?.as_str(), TOO_LONG);
    assert_eq!(rt;
        handled(alloc, "erase row(msg.t);", whole.as_str())?.as_str(),
        ""
    );
    assert_eq!(rt;
        handled(alloc, "erase row(msg.t);", more.as_str())?.as_str(),
        TOO_LONG
    );
    Ok(())
}

#[test]
fn delays_end_after_a_year(rt: HostRuntime) -> Result<(), Fail> {
    let alloc = rt.alloc();
    let block = "after msg.n local Told { };";
    assert_eq!(rt; handled(alloc, block, "{\"n\":0}")?.as_str(), "Told {};");
    assert_eq!(rt;
        handled(alloc, block, "{\"n\":31536000}")?.as_str(),
        "Told {};"
    );
    assert_eq!(rt;
        handled(alloc, block, "{\"n\":31536001}")?.as_str(),
        BAD_DELAY
    );
    assert_eq!(rt; handled(alloc, block, "{\"n\":-1}")?.as_str(), BAD_DELAY);
    Ok(())
}

#[test]
fn the_257th_message_is_one_too_many(rt: HostRuntime) -> Result<(), Fail> {
    let alloc = rt.alloc();
    let all = many(alloc, 256)?;
    let more = many(alloc, 257)?;
    let made = handled(alloc, all.as_str(), "{}")?;
    assert_eq!(rt; made.as_str().len(), 2048);
    let refused = handled(alloc, more.as_str(), "{}")?;
    assert_eq!(rt;
        refused.as_str(),
        "TooMany: more than 256 outgoing messages"
    );
    Ok(())
}

#[test]
fn bodies_end_at_1048576_bytes(rt: HostRuntime) -> Result<(), Fail> {
    let alloc = rt.alloc();
    let whole = long_body(alloc, 1048568)?;
    let more = long_body(alloc, 1048569)?;
    let block = "local Big { t: msg.t };";
    let made = handled(alloc, block, whole.as_str())?;
    assert_eq!(rt; made.as_str().len(), 1048581);
    let refused = handled(alloc, block, more.as_str())?;
    assert_eq!(rt;
        refused.as_str(),
        "TooLarge: the outgoing bodies together passed 1048576 bytes"
    );
    Ok(())
}

#[test]
fn messages_that_no_block_takes(rt: HostRuntime) -> Result<(), Fail> {
    let alloc = rt.alloc();
    let script = "message A { n: int } message B { } handler A { reply B { }; }";
    assert_eq!(rt;
        made(alloc, script, "C", "{}")?.as_str(),
        "Undeclared: no declared message in \"C\""
    );
    assert_eq!(rt;
        made(alloc, script, "", "{}")?.as_str(),
        "Undeclared: no declared message in \"\""
    );
    assert_eq!(rt;
        made(alloc, script, "B", "{}")?.as_str(),
        "NoHandler: no block meets B"
    );
    assert_eq!(rt;
        made(alloc, script, "A", "{\"n\":1.5}")?.as_str(),
        "Undecodable: the body is not an object with the fields of A"
    );
    assert_eq!(rt;
        made(alloc, script, "A", "{}")?.as_str(),
        "NoReplyAddress: there is no address to reply to"
    );
    Ok(())
}

#[test]
fn a_reply_goes_to_its_address(rt: HostRuntime) -> Result<(), Fail> {
    let alloc = rt.alloc();
    let script = "message A { } message B { } handler A { reply B { }; }";
    let e = asked_from(alloc, "Web")?;
    assert_eq!(rt; replied_to(&verdict(alloc, script, &e)?), "Web");
    Ok(())
}

#[test]
fn the_left_side_comes_first(rt: HostRuntime) -> Result<(), Fail> {
    let alloc = rt.alloc();
    let both =
        "if false && 9223372036854775807 + 1 == 0 { } add row(\"a\") by 2; if true || 0 - 9223372036854775807 - 2 == 0 { erase row(\"a\"); }";
    assert_eq!(rt; handled(alloc, both, "{}")?.as_str(), "");
    assert_eq!(rt;
        handled(alloc, "fail Broken \"always\";", "{}")?.as_str(),
        "Broken: always"
    );
    assert_eq!(rt;
        handled(alloc, "reject Refused text(msg.n);", "{\"n\":-7}")?.as_str(),
        "Refused: -7"
    );
    Ok(())
}

#[test]
fn a_saga_starts(rt: HostRuntime) -> Result<(), Fail> {
    let alloc = rt.alloc();
    let script = "message A { id: text, n: int } message B { id: text } message T { }
        saga S on id: text { fields { n: int }
            start A by id { set n = msg.n; publish B { id: saga.id }; timeout 5 T { }; }
            find B by id { complete; }
            timeout T { } }
        handler A { add row(\"seen \" ++ msg.id) by 1; }";
    assert_eq!(rt;
        made(alloc, script, "A", "{\"id\":\"x\",\"n\":3}")?.as_str(),
        "put S;row seen x;B {\"id\":\"x\"};T {};"
    );
    assert_eq!(rt; made(alloc, script, "B", "{\"id\":\"x\"}")?.as_str(), "");
    Ok(())
}

use nb_base::{
    ByName, ByNumber, BySaga, Copied, Discard, Envelope, Field, Fields, Headers, Items, MESSAGE_ID,
    Moment, NoMemory, Op, Ops, OutboxRow, PostState, Queued, Row, SagaKey, SagaRow, Tables, Text,
    Value,
};
use nb_core::State;
use nb_headers::names::{
    ENCLOSED_MESSAGE_TYPES, EXCEPTION_MESSAGE, EXCEPTION_TYPE, FAILED_Q, PROCESSING_ENDPOINT,
    RETRIES, TIME_OF_FAILURE,
};
use nb_report::report;
use std::alloc::Global;
use std::test::Fail;

/// Nothing stands, at a moment.
fn nothing(alloc: Global, moment: Moment) -> State {
    State {
        tables: Tables {
            sagas: BySaga::new(alloc),
            rows: ByName::new(alloc),
            outbox: ByName::new(alloc),
            commits: 0,
        },
        post: PostState {
            entries: ByNumber::new(alloc),
            next: 1,
        },
        moment,
        phases: ByNumber::new(alloc),
        fails: ByNumber::new(alloc),
        back: ByNumber::new(alloc),
        discarded: Items::new(alloc),
    }
}

/// The moment after so many seconds.
fn at(seconds: u64) -> Moment {
    Moment::FIRST.plus(seconds)
}

/// Sets a header.
fn set(alloc: Global, headers: &mut Headers, name: &str, text: &str) -> Result<(), NoMemory> {
    let text = Text::new(alloc, text)?;
    headers.set(alloc, name, text)?;
    Ok(())
}

/// The headers of a message with an id and a type.
fn headers(alloc: Global, id: &str, name: &str) -> Result<Headers, NoMemory> {
    let mut headers = Headers::new(alloc);
    set(alloc, &mut headers, MESSAGE_ID, id)?;
    set(alloc, &mut headers, ENCLOSED_MESSAGE_TYPES, name)?;
    Ok(headers)
}

/// A message with these headers.
fn message(alloc: Global, headers: Headers, body: &str) -> Result<Envelope, NoMemory> {
    match Envelope::of_headers(headers, Text::new(alloc, body)?) {
        Some(envelope) => Ok(envelope),
        None => Err(NoMemory),
    }
}

/// Puts an entry.
fn put(
    alloc: Global,
    state: &mut State,
    number: u64,
    queue: &str,
    due: Option<Moment>,
    envelope: Envelope,
) -> Result<(), NoMemory> {
    let queue = Text::new(alloc, queue)?;
    let entry = Queued {
        queue,
        due,
        envelope,
    };
    state.post.entries.insert(number, entry)
}

/// A message with an id, a type and a body.
fn sent(alloc: Global, id: &str, name: &str, body: &str) -> Result<Envelope, NoMemory> {
    let headers = headers(alloc, id, name)?;
    message(alloc, headers, body)
}

/// Puts an entry of a message that has no header but its id.
fn put_bare(
    alloc: Global,
    state: &mut State,
    number: u64,
    queue: &str,
    due: Option<Moment>,
) -> Result<(), NoMemory> {
    let mut headers = Headers::new(alloc);
    set(alloc, &mut headers, MESSAGE_ID, "m")?;
    let envelope = message(alloc, headers, "")?;
    put(alloc, state, number, queue, due, envelope)
}

/// A saga with these fields.
fn saga_row(alloc: Global, corr: Value, fields: Fields) -> Result<SagaRow, NoMemory> {
    let id = Text::new(alloc, "Sales/1/1")?;
    let originator = Text::new(alloc, "Web")?;
    let original = Text::new(alloc, "p1")?;
    Ok(SagaRow {
        corr,
        id,
        version: 1,
        revision: 1,
        originator,
        original,
        fields,
    })
}

/// Puts a saga of the type Order.
fn put_order(
    alloc: Global,
    state: &mut State,
    corr: Value,
    fields: Fields,
) -> Result<(), NoMemory> {
    let saga = Text::new(alloc, "Order")?;
    let key = SagaKey {
        saga,
        corr: corr.copy()?,
    };
    let row = saga_row(alloc, corr, fields)?;
    state.tables.sagas.insert(key, row)
}

/// Puts the record of a message.
fn put_record(
    alloc: Global,
    state: &mut State,
    id: &str,
    at: Moment,
    ops: Ops,
) -> Result<(), NoMemory> {
    let id = Text::new(alloc, id)?;
    let sent = ops.is_empty();
    let row = OutboxRow {
        n: 1,
        at,
        sent,
        ops,
    };
    state.tables.outbox.insert(id, row)
}

/// Puts a row.
fn put_row(
    alloc: Global,
    state: &mut State,
    name: &str,
    version: u64,
    value: i64,
) -> Result<(), NoMemory> {
    let name = Text::new(alloc, name)?;
    state.tables.rows.insert(name, Row { version, value })
}

/// Adds a field.
fn add_field(alloc: Global, fields: &mut Fields, name: &str, value: Value) -> Result<(), NoMemory> {
    let name = Text::new(alloc, name)?;
    fields.push(Field { name, value })
}

/// The report of nothing, so many seconds after the first moment.
fn nothing_at(alloc: Global, seconds: u64) -> Result<Text, NoMemory> {
    let state = nothing(alloc, at(seconds));
    report(alloc, &state)
}

/// Seconds, and the report of nothing at that moment.
const NOTHING: &[(u64, &str)] = &[
    (
        0,
        "moment 1970-01-01 00:00:00:000000 Z\ncommits 0\nnext 1\n",
    ),
    (
        253402300799,
        "moment 9999-12-31 23:59:59:000000 Z\ncommits 0\nnext 1\n",
    ),
];

#[test]
fn nothing_stands(rt: HostRuntime) -> Result<(), Fail> {
    let alloc = rt.alloc();
    for (seconds, wanted) in NOTHING {
        assert_eq!(rt; nothing_at(alloc, *seconds)?.as_str(), *wanted);
    }
    Ok(())
}

const ORDER: &str = "moment 2023-11-14 22:13:20:000000 Z
commits 1
next 4
saga Order \"A-1\" \"Sales/1/1\" 1 \"Web\" \"p1\" total=250 paid=false
outbox \"p1\" 1 1700000000 sent
queue \"Billing\" 2 \"Sales/1/1\" \"Charge\" 0 \"{\\\"amount\\\":250,\\\"orderId\\\":\\\"A-1\\\"}\"
delayed 1700003600 3 \"Sales\" \"Sales/1/2\" \"OrderExpired\" 0 \"{\\\"orderId\\\":\\\"A-1\\\"}\"
";

/// Puts the saga of the order A-1.
fn put_a1(alloc: Global, state: &mut State) -> Result<(), NoMemory> {
    let mut fields: Fields = Items::new(alloc);
    add_field(alloc, &mut fields, "total", Value::Int(250))?;
    add_field(alloc, &mut fields, "paid", Value::Bool(false))?;
    let corr = Text::new(alloc, "A-1")?;
    put_order(alloc, state, Value::Text(corr), fields)
}

/// Puts what the order A-1 leaves in the post.
fn put_sent(alloc: Global, state: &mut State, now: Moment) -> Result<(), NoMemory> {
    let charge = sent(
        alloc,
        "Sales/1/1",
        "Charge",
        "{\"amount\":250,\"orderId\":\"A-1\"}",
    )?;
    put(alloc, state, 2, "Billing", None, charge)?;
    let expired = sent(alloc, "Sales/1/2", "OrderExpired", "{\"orderId\":\"A-1\"}")?;
    put(alloc, state, 3, "Sales", Some(now.plus(3600)), expired)
}

/// Places the order A-1.
fn place(alloc: Global, state: &mut State, now: Moment) -> Result<(), NoMemory> {
    state.tables.commits = 1;
    state.post.next = 4;
    put_a1(alloc, state)?;
    put_record(alloc, state, "p1", now, Items::new(alloc))?;
    put_sent(alloc, state, now)
}

/// The report after the order A-1 was placed.
fn an_order(alloc: Global) -> Result<Text, NoMemory> {
    let now = at(1700000000);
    let mut state = nothing(alloc, now);
    place(alloc, &mut state, now)?;
    report(alloc, &state)
}

#[test]
fn an_order_stands(rt: HostRuntime) -> Result<(), Fail> {
    assert_eq!(rt; an_order(rt.alloc())?.as_str(), ORDER);
    Ok(())
}

const BROKEN: &str = "moment 1970-01-01 00:00:10:000000 Z
commits 0
next 4
queue \"error\" 3 \"b1\" \"Bad\" 1 \"{}\"
fault \"Sales\" \"Broken\" \"always\" \"1970-01-01 00:00:10:000000 Z\" \"Sales\"
";

/// The headers of a message that failed.
fn broken(alloc: Global) -> Result<Headers, NoMemory> {
    let mut bad = headers(alloc, "b1", "Bad")?;
    set(alloc, &mut bad, RETRIES, "1")?;
    set(alloc, &mut bad, FAILED_Q, "Sales")?;
    set(
        alloc,
        &mut bad,
        TIME_OF_FAILURE,
        "1970-01-01 00:00:10:000000 Z",
    )?;
    set(alloc, &mut bad, PROCESSING_ENDPOINT, "Sales")?;
    set(alloc, &mut bad, EXCEPTION_TYPE, "Broken")?;
    set(alloc, &mut bad, EXCEPTION_MESSAGE, "always")?;
    Ok(bad)
}

/// The report with a message in error.
fn an_error(alloc: Global) -> Result<Text, NoMemory> {
    let bad = message(alloc, broken(alloc)?, "{}")?;
    let mut state = nothing(alloc, at(10));
    state.post.next = 4;
    put(alloc, &mut state, 3, "error", None, bad)?;
    report(alloc, &state)
}

#[test]
fn a_message_is_in_error(rt: HostRuntime) -> Result<(), Fail> {
    assert_eq!(rt; an_error(rt.alloc())?.as_str(), BROKEN);
    Ok(())
}

const IN_ORDER: &str = "moment 1970-01-01 00:00:00:000000 Z
commits 0
next 1
saga Order 7 \"Sales/1/1\" 1 \"Web\" \"p1\"
row \"Z\" 2 -5
row \"a\\\"\\\\\\n\\u001f\" 1 0
outbox \"c1\" 1 0 pending 1
queue \"A\" 10 \"m\" \"\" 0 \"\"
queue \"b\" 9 \"m\" \"\" 0 \"\"
queue \"b\" 12 \"m\" \"\" 0 \"\"
delayed 9 6 \"b\" \"m\" \"\" 0 \"\"
delayed 20 4 \"b\" \"m\" \"\" 0 \"\"
delayed 20 5 \"A\" \"m\" \"\" 0 \"\"
discarded \"b2\" \"Broken\"
discarded \"b1\" \"Conflict\"
";

/// A message was given up.
fn give_up(alloc: Global, state: &mut State, id: &str, name: &str) -> Result<(), NoMemory> {
    let id = Text::new(alloc, id)?;
    let name = Text::new(alloc, name)?;
    state.discarded.push(Discard { id, name })
}

/// Puts a record with a message that isn't sent yet.
fn put_pending(alloc: Global, state: &mut State) -> Result<(), NoMemory> {
    let mut ops: Ops = Items::new(alloc);
    let queue = Text::new(alloc, "Billing")?;
    let envelope = sent(alloc, "Sales/1/1", "Charge", "{}")?;
    ops.push(Op {
        queue,
        due: None,
        envelope,
    })?;
    put_record(alloc, state, "c1", at(0), ops)
}

/// Puts a saga, rows and a record.
fn put_base(alloc: Global, state: &mut State) -> Result<(), NoMemory> {
    put_order(alloc, state, Value::Int(7), Items::new(alloc))?;
    put_row(alloc, state, "a\"\\\n\u{1f}", 1, 0)?;
    put_row(alloc, state, "Z", 2, -5)?;
    put_pending(alloc, state)
}

/// Puts entries of two queues, with and without a due.
fn put_entries(alloc: Global, state: &mut State) -> Result<(), NoMemory> {
    put_bare(alloc, state, 12, "b", None)?;
    put_bare(alloc, state, 9, "b", None)?;
    put_bare(alloc, state, 10, "A", None)?;
    put_bare(alloc, state, 5, "A", Some(at(20)))?;
    put_bare(alloc, state, 4, "b", Some(at(20)))?;
    put_bare(alloc, state, 6, "b", Some(at(9)))
}

/// Puts something of each kind.
fn put_all(alloc: Global, state: &mut State) -> Result<(), NoMemory> {
    put_base(alloc, state)?;
    put_entries(alloc, state)?;
    give_up(alloc, state, "b2", "Broken")?;
    give_up(alloc, state, "b1", "Conflict")
}

/// The report of something of each kind.
fn of_all(alloc: Global) -> Result<Text, NoMemory> {
    let mut state = nothing(alloc, at(0));
    put_all(alloc, &mut state)?;
    report(alloc, &state)
}

#[test]
fn lines_are_in_order(rt: HostRuntime) -> Result<(), Fail> {
    assert_eq!(rt; of_all(rt.alloc())?.as_str(), IN_ORDER);
    Ok(())
}

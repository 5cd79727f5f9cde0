use nb_base::{
    Envelope, Headers, Items, Moment, Names, NoMemory, Policies, Routes, Settings, Subscribers,
    Target, Text,
};
use nb_headers::{
    Made, SagaName, causation, fault_headers, message_id, message_type, moment_text, read_moment,
    round, strip_fault,
};
use std::alloc::Global;
use std::test::Fail;

/// An envelope with this id.
fn envelope(alloc: Global, id: &str) -> Result<Envelope, NoMemory> {
    let id = Text::new(alloc, id)?;
    if id.is_empty() {
        return Err(NoMemory);
    }
    let body = Text::new(alloc, "{}")?;
    Envelope::new(alloc, &id, body)
}

/// Sets a header, unless its text is empty.
fn add(alloc: Global, envelope: &mut Envelope, name: &str, text: &str) -> Result<(), NoMemory> {
    let text = Text::new(alloc, text)?;
    if text.is_empty() {
        return Ok(());
    }
    envelope.set_header(alloc, name, text)
}

/// An envelope with one header more.
fn with_header(alloc: Global, name: &str, text: &str) -> Result<Envelope, NoMemory> {
    let mut message = envelope(alloc, "m")?;
    add(alloc, &mut message, name, text)?;
    Ok(message)
}

/// Writes the headers in order, a line each.
fn push_headers(out: &mut String, headers: &Headers) -> Result<(), NoMemory> {
    for i in 0..headers.len() {
        let (name, text) = headers.at(i);
        out.push_str(name)?;
        out.push_str(" = ")?;
        out.push_str(text.as_str())?;
        out.push('\n')?;
    }
    Ok(())
}

/// The headers in order, a line each, and the body.
fn shown(alloc: Global, envelope: &Envelope) -> Result<String, NoMemory> {
    let mut out = String::new(alloc);
    push_headers(&mut out, envelope.headers())?;
    out.push_str(envelope.body().as_str())?;
    Ok(out)
}

/// The saga of an order.
fn order_saga(alloc: Global) -> Result<SagaName, NoMemory> {
    let saga = Text::new(alloc, "Order")?;
    let id = Text::new(alloc, "Sales/1/1")?;
    Ok(SagaName { saga, id })
}

/// A message with this id, sent by a saga.
fn made(alloc: Global, id: &str, target: Target, name: &str) -> Result<Made, NoMemory> {
    let moment = Moment::new(1700000000).ok_or(NoMemory)?;
    let saga = order_saga(alloc)?;
    let id = Text::new(alloc, id)?;
    let name = Text::new(alloc, name)?;
    let body = Text::new(alloc, "{}")?;
    let endpoint = Text::new(alloc, "Sales")?;
    Ok(Made {
        id,
        target,
        name,
        body,
        endpoint,
        moment,
        saga: Some(saga),
    })
}

/// The outgoing message.
fn sent(alloc: Global, incoming: &Envelope, made: &Made) -> Result<String, NoMemory> {
    if made.id.is_empty() || made.saga.is_none() {
        return Err(NoMemory);
    }
    let envelope = causation(alloc, incoming, made)?;
    shown(alloc, &envelope)
}

/// A message that a customer sent.
fn order(alloc: Global) -> Result<Envelope, NoMemory> {
    let mut message = envelope(alloc, "0f8fad5b-d9cb-469f-a165-70867728950e")?;
    add(
        alloc,
        &mut message,
        "NServiceBus.EnclosedMessageTypes",
        "Shop.PlaceOrder",
    )?;
    add(alloc, &mut message, "NServiceBus.ReplyToAddress", "Web")?;
    Ok(message)
}

#[test]
fn a_sent_message_has_its_headers_in_order(rt: HostRuntime) -> Result<(), Fail> {
    let alloc = rt.alloc();
    let made = made(alloc, "Sales/1/1", Target::Send, "Charge")?;
    let text = sent(alloc, &order(alloc)?, &made)?;
    assert_eq!(rt;
        text.as_str(),
        "NServiceBus.MessageId = Sales/1/1\nNServiceBus.MessageIntent = Send\nNServiceBus.ConversationId = 0f8fad5b-d9cb-469f-a165-70867728950e\nNServiceBus.CorrelationId = Sales/1/1\nNServiceBus.RelatedTo = 0f8fad5b-d9cb-469f-a165-70867728950e\nNServiceBus.OriginatingEndpoint = Sales\nNServiceBus.ReplyToAddress = Sales\nNServiceBus.ContentType = application/json\nNServiceBus.EnclosedMessageTypes = Charge\nNServiceBus.TimeSent = 2023-11-14 22:13:20:000000 Z\nNServiceBus.OriginatingSagaId = Sales/1/1\nNServiceBus.OriginatingSagaType = Order\n{}"
    );
    Ok(())
}

/// A message that a saga sent.
fn question(alloc: Global) -> Result<Envelope, NoMemory> {
    let mut message = envelope(alloc, "q")?;
    add(alloc, &mut message, "NServiceBus.CorrelationId", "c")?;
    add(
        alloc,
        &mut message,
        "NServiceBus.OriginatingSagaId",
        "Web/7/2",
    )?;
    add(
        alloc,
        &mut message,
        "NServiceBus.OriginatingSagaType",
        "Basket",
    )?;
    Ok(message)
}

#[test]
fn a_reply_goes_back_to_the_saga_that_asked(rt: HostRuntime) -> Result<(), Fail> {
    let alloc = rt.alloc();
    let to = Text::new(alloc, "Web")?;
    let made = made(alloc, "r", Target::Reply { to }, "Told")?;
    let text = sent(alloc, &question(alloc)?, &made)?;
    assert_eq!(rt;
        text.as_str(),
        "NServiceBus.MessageId = r\nNServiceBus.MessageIntent = Reply\nNServiceBus.ConversationId = q\nNServiceBus.CorrelationId = c\nNServiceBus.RelatedTo = q\nNServiceBus.OriginatingEndpoint = Sales\nNServiceBus.ReplyToAddress = Sales\nNServiceBus.ContentType = application/json\nNServiceBus.EnclosedMessageTypes = Told\nNServiceBus.TimeSent = 2023-11-14 22:13:20:000000 Z\nNServiceBus.OriginatingSagaId = Sales/1/1\nNServiceBus.OriginatingSagaType = Order\nNServiceBus.SagaId = Web/7/2\nNServiceBus.SagaType = Basket\n{}"
    );
    Ok(())
}

/// Settings of the endpoint Sales.
fn settings(alloc: Global) -> Result<Settings, NoMemory> {
    let routes: Routes = Items::new(alloc);
    let subscribers: Subscribers = Items::new(alloc);
    let policies: Policies = Items::new(alloc);
    let endpoint = Text::new(alloc, "Sales")?;
    let error = Text::new(alloc, "error")?;
    Ok(Settings {
        endpoint,
        error,
        immediate: 5,
        delayed: 3,
        increase: 10,
        retention: 604800,
        routes,
        subscribers,
        policies,
    })
}

/// A message that failed in another endpoint and was retried.
fn retried(alloc: Global) -> Result<Envelope, NoMemory> {
    let mut message = envelope(alloc, "b1")?;
    add(alloc, &mut message, "NServiceBus.FailedQ", "Old")?;
    add(alloc, &mut message, "NServiceBus.Retries", "1")?;
    add(alloc, &mut message, "More", "x")?;
    Ok(message)
}

/// That message after it failed once more.
fn failed(alloc: Global) -> Result<Envelope, NoMemory> {
    let mut message = retried(alloc)?;
    let settings = settings(alloc)?;
    let moment = Moment::new(10).ok_or(NoMemory)?;
    let name = Text::new(alloc, "Broken")?;
    let text = Text::new(alloc, "always")?;
    fault_headers(alloc, &mut message, &settings, &name, &text, moment)?;
    Ok(message)
}

#[test]
fn a_failed_message_is_stripped_of_what_the_failure_set(rt: HostRuntime) -> Result<(), Fail> {
    let alloc = rt.alloc();
    let mut message = failed(alloc)?;
    assert_eq!(rt;
        shown(alloc, &message)?.as_str(),
        "NServiceBus.MessageId = b1\nNServiceBus.FailedQ = Sales\nNServiceBus.Retries = 1\nMore = x\nNServiceBus.TimeOfFailure = 1970-01-01 00:00:10:000000 Z\nNServiceBus.ProcessingEndpoint = Sales\nNServiceBus.ExceptionInfo.ExceptionType = Broken\nNServiceBus.ExceptionInfo.Message = always\n{}"
    );
    strip_fault(&mut message);
    assert_eq!(rt;
        shown(alloc, &message)?.as_str(),
        "NServiceBus.MessageId = b1\nMore = x\n{}"
    );
    assert_eq!(rt; message_id(&message).as_str(), "b1");
    Ok(())
}

/// The text of the moment with these seconds.
fn text_at(alloc: Global, seconds: u64) -> Result<String, NoMemory> {
    let moment = Moment::new(seconds).ok_or(NoMemory)?;
    Ok(moment_text(alloc, moment)?.into_string())
}

/// The seconds of the moment that a text shows.
fn seconds_of(text: &str) -> Option<u64> {
    match read_moment(text) {
        Some(moment) => Some(moment.seconds()),
        None => None,
    }
}

/// Seconds, and the text of their moment.
const WRITTEN: &[(u64, &str)] = &[
    (0, "1970-01-01 00:00:00:000000 Z"),
    (10, "1970-01-01 00:00:10:000000 Z"),
    (951782400, "2000-02-29 00:00:00:000000 Z"),
    (1700000000, "2023-11-14 22:13:20:000000 Z"),
    (253402300799, "9999-12-31 23:59:59:000000 Z"),
];

#[test]
fn moments_are_written(rt: HostRuntime) -> Result<(), Fail> {
    let alloc = rt.alloc();
    for (seconds, wanted) in WRITTEN {
        assert_eq!(rt; text_at(alloc, *seconds)?.as_str(), *wanted);
    }
    Ok(())
}

/// Texts of moments, and their seconds.
const READ_BACK: &[(&str, Option<u64>)] = &[
    ("1970-01-01 00:00:00:000000 Z", Some(0)),
    ("1970-01-01 00:00:10:999999 Z", Some(10)),
    ("2000-02-29 00:00:00:000000 Z", Some(951782400)),
    ("2023-11-14 22:13:20:000000 Z", Some(1700000000)),
    ("9999-12-31 23:59:59:000000 Z", Some(253402300799)),
];

#[test]
fn moments_are_read_back(rt: HostRuntime) {
    for (text, wanted) in READ_BACK {
        assert_eq!(rt; seconds_of(text), *wanted);
    }
}

/// Texts of no day, or of no time of a day.
const NO_MOMENTS: &[(&str, Option<u64>)] = &[
    ("2023-02-29 00:00:00:000000 Z", None),
    ("2023-01-01 00:00:60:000000 Z", None),
    ("2023-13-01 00:00:00:000000 Z", None),
    ("2023-01-01 24:00:00:000000 Z", None),
    ("1969-12-31 23:59:59:000000 Z", None),
    ("2023-01-01 00:00:00:00000 Z", None),
];

#[test]
fn what_is_no_day_and_time_is_no_moment(rt: HostRuntime) {
    for (text, wanted) in NO_MOMENTS {
        assert_eq!(rt; seconds_of(text), *wanted);
    }
}

/// The round of a message with this text as its round.
fn round_by(alloc: Global, text: &str) -> Result<u32, NoMemory> {
    let message = with_header(alloc, "NServiceBus.Retries", text)?;
    Ok(round(&message))
}

/// Texts of rounds, and the round of each.
const ROUNDS: &[(&str, u32)] = &[
    ("3", 3),
    ("0003", 3),
    ("1000", 1000),
    ("00003", 0),
    ("1001", 0),
    ("+3", 0),
    ("", 0),
];

#[test]
fn rounds_are_one_to_four_digits_up_to_a_thousand(rt: HostRuntime) -> Result<(), Fail> {
    let alloc = rt.alloc();
    for (text, wanted) in ROUNDS {
        assert_eq!(rt; round_by(alloc, text)?, *wanted);
    }
    Ok(())
}

/// The place of the type among A and Shop.B, where the message has these types.
fn type_among(alloc: Global, types: &str) -> Result<Option<u32>, NoMemory> {
    let mut declared: Names = Items::new(alloc);
    declared.push(Text::new(alloc, "A")?)?;
    declared.push(Text::new(alloc, "Shop.B")?)?;
    let message = with_header(alloc, "NServiceBus.EnclosedMessageTypes", types)?;
    Ok(message_type(&message, &declared))
}

/// Types of messages, and the place of the one that counts.
const TYPES: &[(&str, Option<u32>)] = &[
    ("A;Shop.B", Some(0)),
    ("Shop.B;A", Some(1)),
    ("  Shop.B , Shop.Messages, Version=1.0.0.0;A", Some(1)),
    ("C, A; A ,x", Some(0)),
    ("\tA", None),
    ("shop.b", None),
];

#[test]
fn the_first_declared_type_counts(rt: HostRuntime) -> Result<(), Fail> {
    let alloc = rt.alloc();
    for (types, wanted) in TYPES {
        assert_eq!(rt; type_among(alloc, types)?, *wanted);
    }
    Ok(())
}

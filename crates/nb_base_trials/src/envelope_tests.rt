use nb_base::{Copied, Envelope, Text};
use nb_envelope::{
    FormatFault, InputFault, InputKind, LineFault, Place, from_cell, read_line, read_lines,
    to_cell, write_line,
};
use std::alloc::Global;
use std::test::Fail;

// The headers and the body as one text, or the reason.
fn shown(alloc: Global, line: &[u8]) -> Result<String, Fail> {
    match read_line(alloc, line) {
        Ok(e) => {
            let mut out = String::new(alloc);
            for i in 0..e.headers().len() {
                let (name, text) = e.headers().at(i);
                out.push_str(name)?;
                out.push_str("=")?;
                out.push_str(text.as_str())?;
                out.push_str(";")?;
            }
            out.push_str(e.body().as_str())?;
            Ok(out)
        }
        Err(LineFault::TooLong) => Ok(String::from_str(alloc, "TooLong")?),
        Err(LineFault::NotJson) => Ok(String::from_str(alloc, "NotJson")?),
        Err(LineFault::NotEnvelope(Place::Root)) => Ok(String::from_str(alloc, "Root")?),
        Err(LineFault::NotEnvelope(Place::Headers)) => Ok(String::from_str(alloc, "Headers")?),
        Err(LineFault::NotEnvelope(Place::Header(n))) => {
            Ok(format!(in alloc; "Header {}", n.as_str())?)
        }
        Err(LineFault::NotEnvelope(Place::Body)) => Ok(String::from_str(alloc, "Body")?),
        Err(LineFault::NoId) => Ok(String::from_str(alloc, "NoId")?),
        Err(LineFault::NoMemory) => Ok(String::from_str(alloc, "NoMemory")?),
    }
}

/// Lines, and what each is read as.
const LINES: &[(&[u8], &str)] = &[
    (
        b"{\"headers\":{\"NServiceBus.MessageId\":\"m\",\"B\":\"2\",\"A\":\"1\",\"N\":null},\"body\":\"x\",\"more\":1}",
        "A=1;B=2;NServiceBus.MessageId=m;x",
    ),
    (
        b"{\"headers\":{\"NServiceBus.MessageId\":\"m\"}}",
        "NServiceBus.MessageId=m;",
    ),
    (
        b"{\"headers\":{\"NServiceBus.MessageId\":\"m\",\"NServiceBus.MessageId\":\"n\"},\"body\":null}",
        "NServiceBus.MessageId=n;",
    ),
    (b"{\"headers\":{},\"body\":\"\"}", "NoId"),
    (
        b"{\"headers\":{\"NServiceBus.MessageId\":\"\"},\"body\":\"\"}",
        "NoId",
    ),
    (b"{\"headers\":{\"b\":1,\"a\":true},\"body\":3}", "Header a"),
    (b"{\"headers\":{},\"body\":3}", "Body"),
    (b"{\"body\":3}", "Headers"),
    (b"{\"headers\":null}", "Headers"),
    (b"[]", "Root"),
    (b"{\"headers\":{}", "NotJson"),
    (b"", "NotJson"),
    (b"\xff", "NotJson"),
];

#[test]
fn lines_are_read(rt: HostRuntime) -> Result<(), Fail> {
    let alloc = rt.alloc();
    for (line, wanted) in LINES {
        assert_eq!(rt; shown(alloc, line)?.as_str(), *wanted);
    }
    Ok(())
}

#[test]
fn a_line_ends_at_its_limit(rt: HostRuntime) -> Result<(), Fail> {
    let alloc = rt.alloc();
    let long = vec![in alloc; b'x'; 262145]?;
    assert_eq!(rt; shown(alloc, long.as_slice())?.as_str(), "TooLong");
    Ok(())
}

/// A line with an ignored member of so many arrays in one another.
fn nested(alloc: Global, depth: usize) -> Result<String, Fail> {
    let mut line = String::from_str(
        alloc,
        "{\"headers\":{\"NServiceBus.MessageId\":\"m\"},\"x\":",
    )?;
    for _ in 0..depth {
        line.push('[')?;
    }
    for _ in 0..depth {
        line.push(']')?;
    }
    line.push('}')?;
    Ok(line)
}

/// A line with this ignored member.
fn with_member(alloc: Global, member: &str) -> Result<String, Fail> {
    let line = format!(in alloc;
        "{{\"headers\":{{\"NServiceBus.MessageId\":\"m\"}},\"x\":{member}}}"
    )?;
    shown(alloc, line.as_bytes())
}

#[test]
fn ignored_members_are_tested_too(rt: HostRuntime) -> Result<(), Fail> {
    let alloc = rt.alloc();
    assert_eq!(rt; with_member(alloc, "1e400")?.as_str(), "NotJson");
    assert_eq!(rt;
        with_member(alloc, "1e-999")?.as_str(),
        "NServiceBus.MessageId=m;"
    );
    assert_eq!(rt; with_member(alloc, "\"\\ud800\"")?.as_str(), "NotJson");
    Ok(())
}

#[test]
fn nesting_ends_at_127_levels(rt: HostRuntime) -> Result<(), Fail> {
    let alloc = rt.alloc();
    assert_eq!(rt;
        shown(alloc, nested(alloc, 126)?.as_bytes())?.as_str(),
        "NServiceBus.MessageId=m;"
    );
    assert_eq!(rt;
        shown(alloc, nested(alloc, 127)?.as_bytes())?.as_str(),
        "NotJson"
    );
    Ok(())
}

/// The cell of an envelope with the id `a` and the body `b`.
fn spelled(alloc: Global) -> Result<Vec<u8>, Fail> {
    let id = Text::new(alloc, "a")?;
    if id.is_empty() {
        return Ok(Vec::new(alloc));
    }
    let envelope = Envelope::new(alloc, &id, Text::new(alloc, "b")?)?;
    let cell = to_cell(alloc, &envelope)?;
    Ok(cell.into_vec())
}

/// What a cell is read as: its number of headers and its body, or the reason.
fn read(alloc: Global, cell: &[u8]) -> Result<String, Fail> {
    match from_cell(alloc, cell) {
        Ok(e) => Ok(format!(in alloc; "{} {}", e.headers().len(), e.body().as_str())?),
        Err(FormatFault::Damaged) => Ok(String::from_str(alloc, "Damaged")?),
        Err(FormatFault::NoMemory) => Ok(String::from_str(alloc, "NoMemory")?),
    }
}

#[test]
fn an_envelope_has_one_spelling(rt: HostRuntime) -> Result<(), Fail> {
    let alloc = rt.alloc();
    let mut cell = spelled(alloc)?;
    assert_eq!(rt;
        cell.as_slice(),
        b"\x00\x00\x00\x01\x00\x00\x00\x15NServiceBus.MessageId\x00\x00\x00\x01a\x00\x00\x00\x01b".as_slice()
    );
    assert_eq!(rt; read(alloc, cell.as_slice())?.as_str(), "1 b");
    let last = cell.pop();
    assert_eq!(rt; last, Some(b'b'));
    assert_eq!(rt; read(alloc, cell.as_slice())?.as_str(), "Damaged");
    Ok(())
}

#[test]
fn a_byte_more_damages_a_cell(rt: HostRuntime) -> Result<(), Fail> {
    let alloc = rt.alloc();
    let mut cell = spelled(alloc)?;
    cell.push(0)?;
    assert_eq!(rt; read(alloc, cell.as_slice())?.as_str(), "Damaged");
    Ok(())
}

#[test]
fn lines_are_written(rt: HostRuntime) -> Result<(), Fail> {
    let alloc = rt.alloc();
    let mut e = Envelope::new(
        alloc,
        &Text::new(alloc, "m")?,
        Text::new(alloc, "{\"a\":\"\u{e9}\n\"}")?,
    )?;
    e.set_header(alloc, "B", Text::new(alloc, "2")?)?;
    e.set_header(alloc, "A", Text::new(alloc, "1")?)?;
    let line = write_line(alloc, &e)?;
    assert_eq!(rt;
        std::str::from_utf8(line.as_slice())?,
        "{\"body\":\"{\\\"a\\\":\\\"\u{e9}\\n\\\"}\",\"headers\":{\"A\":\"1\",\"B\":\"2\",\"NServiceBus.MessageId\":\"m\"}}"
    );
    Ok(())
}

// The number of messages, or the line and its kind.
fn counted(alloc: Global, input: &[u8]) -> Result<String, Fail> {
    match read_lines(alloc, input) {
        Ok(list) => Ok(format!(in alloc; "{}", list.len())?),
        Err(InputFault { line, kind }) => {
            let kind = match kind {
                InputKind::TooMuch => "TooMuch",
                InputKind::TooMany => "TooMany",
                InputKind::Line(LineFault::TooLong) => "TooLong",
                InputKind::Line(LineFault::NotJson) => "NotJson",
                InputKind::Line(_) => "Line",
                InputKind::NoMemory => "NoMemory",
            };
            Ok(format!(in alloc; "{line} {kind}")?)
        }
    }
}

/// Inputs, and what each is read as.
const INPUTS: &[(&[u8], &str)] = &[
    (b"", "0"),
    (
        b"{\"headers\":{\"NServiceBus.MessageId\":\"m\"}}\r\n\n{\"headers\":{\"NServiceBus.MessageId\":\"n\"}}",
        "2",
    ),
    (b"\r\n\r\nx\n{", "3 NotJson"),
];

#[test]
fn inputs_are_read(rt: HostRuntime) -> Result<(), Fail> {
    let alloc = rt.alloc();
    for (input, wanted) in INPUTS {
        assert_eq!(rt; counted(alloc, input)?.as_str(), *wanted);
    }
    Ok(())
}

#[test]
fn an_input_has_at_most_100000_lines(rt: HostRuntime) -> Result<(), Fail> {
    let alloc = rt.alloc();
    let feeds = vec![in alloc; b'\n'; 100001]?;
    assert_eq!(rt;
        counted(alloc, feeds.as_slice().split_at(100000).0)?.as_str(),
        "0"
    );
    assert_eq!(rt;
        counted(alloc, feeds.as_slice())?.as_str(),
        "100001 TooMany"
    );
    Ok(())
}

#[test]
fn a_line_of_an_input_ends_at_its_limit(rt: HostRuntime) -> Result<(), Fail> {
    let alloc = rt.alloc();
    let long = vec![in alloc; b'x'; 262145]?;
    assert_eq!(rt; counted(alloc, long.as_slice())?.as_str(), "1 TooLong");
    Ok(())
}

#[test]
fn a_fault_of_an_input_is_copied(rt: HostRuntime) -> Result<(), Fail> {
    let alloc = rt.alloc();
    match read_lines(alloc, b"{\"headers\":{\"a\":1}}") {
        Ok(_) => Err("read".into()),
        Err(fault) => {
            let copy = fault.copy()?;
            assert_eq!(rt; copy.line, 1);
            assert!(rt;
                matches!(
                &copy.kind,
                InputKind::Line(LineFault::NotEnvelope(Place::Header(name))) if name.as_str() == "a"
            )
            );
            Ok(())
        }
    }
}

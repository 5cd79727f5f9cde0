//! The cutting of the input into lines.

use crate::{Stores, Trial, left_over, told, told_over};
use nb_base::NoMemory;
use std::alloc::Global;
use std::test::Fail;

const FIVE_FOR_ANN: &str =
    r#"{"headers":{"NServiceBus.EnclosedMessageTypes":"Credit","NServiceBus.MessageId":"c1"},"body":"{\"account\":\"ann\",\"amount\":5}"}"#;

const SEVEN_FOR_ANN: &str =
    r#"{"headers":{"NServiceBus.EnclosedMessageTypes":"Credit","NServiceBus.MessageId":"c2"},"body":"{\"account\":\"ann\",\"amount\":7}"}"#;

/// What a run of an input comes to.
fn told_input(alloc: Global, input: &str) -> Result<String, NoMemory> {
    let trial = Trial {
        raw: true,
        ..Trial::new("run --at 0", input)
    };
    told_over(alloc, &trial, Stores::empty(alloc))
}

const BOTH: &str = r#"0 done
moment 1970-01-01 00:00:00:000000 Z
commits 2
next 3
row "ann" 2 12
outbox "c1" 1 0 sent
outbox "c2" 2 0 sent
"#;

#[test]
fn a_last_piece_without_line_feed_is_a_line(rt: HostRuntime) -> Result<(), Fail> {
    let alloc = rt.alloc();
    let input = format!(in alloc; "{FIVE_FOR_ANN}\n{SEVEN_FOR_ANN}")?;
    let told = told_input(alloc, input.as_str())?;
    assert_eq!(rt; told.as_str(), BOTH);
    Ok(())
}

#[test]
fn a_carriage_return_before_a_line_feed_is_dropped(rt: HostRuntime) -> Result<(), Fail> {
    let alloc = rt.alloc();
    let input = format!(in alloc; "\r\n{FIVE_FOR_ANN}\r\n\r\n{SEVEN_FOR_ANN}\r\n")?;
    let told = told_input(alloc, input.as_str())?;
    assert_eq!(rt; told.as_str(), BOTH);
    Ok(())
}

#[test]
fn empty_lines_are_skipped(rt: HostRuntime) -> Result<(), Fail> {
    let alloc = rt.alloc();
    let input = format!(in alloc; "\n\n{FIVE_FOR_ANN}\n\n\n{SEVEN_FOR_ANN}\n\n")?;
    let told = told_input(alloc, input.as_str())?;
    assert_eq!(rt; told.as_str(), BOTH);
    Ok(())
}

#[test]
fn empty_lines_are_counted(rt: HostRuntime) -> Result<(), Fail> {
    let alloc = rt.alloc();
    let input = format!(in alloc; "\n\r\n{FIVE_FOR_ANN}\n\n[]\n{SEVEN_FOR_ANN}\n")?;
    let told = told_input(alloc, input.as_str())?;
    assert_eq!(rt; told.as_str(), "5 input 5: NotEnvelope\n");
    Ok(())
}

#[test]
fn other_carriage_returns_are_no_blanks(rt: HostRuntime) -> Result<(), Fail> {
    let alloc = rt.alloc();
    let twice = told_input(alloc, "\r\r\n")?;
    assert_eq!(rt; twice.as_str(), "5 input 1: NotJson\n");
    let last = told_input(alloc, "\n\r")?;
    assert_eq!(rt; last.as_str(), "5 input 2: NotJson\n");
    Ok(())
}

#[test]
fn a_message_needs_an_id(rt: HostRuntime) -> Result<(), Fail> {
    let alloc = rt.alloc();
    let told = told_input(alloc, r#"{"headers":{},"body":""}"#)?;
    assert_eq!(rt; told.as_str(), "5 input 1: NoId\n");
    Ok(())
}

#[test]
fn the_first_bad_line_is_named(rt: HostRuntime) -> Result<(), Fail> {
    let alloc = rt.alloc();
    let input = format!(in alloc; "{FIVE_FOR_ANN}\n{SEVEN_FOR_ANN}\nbad\n{{}}\n")?;
    let told = told_input(alloc, input.as_str())?;
    assert_eq!(rt; told.as_str(), "5 input 3: NotJson\n");
    Ok(())
}

/// How many cells a run leaves.
fn cells_left(alloc: Global, input: &str) -> Result<usize, NoMemory> {
    let left = left_over(
        alloc,
        &Trial::new("run --at 0", input),
        Stores::empty(alloc),
    )?;
    left.cells(alloc)
}

#[test]
fn nothing_is_loaded_where_a_line_is_bad(rt: HostRuntime) -> Result<(), Fail> {
    let alloc = rt.alloc();
    let good = cells_left(alloc, "Credit c1 {\"account\":\"ann\",\"amount\":5}")?;
    assert_eq!(rt; good, 4);
    let bad = cells_left(alloc, "Credit c1 {\"account\":\"ann\",\"amount\":5}\nbad")?;
    assert_eq!(rt; bad, 0);
    Ok(())
}

/// A letter, so many times.
fn repeated(alloc: Global, letter: char, count: usize) -> Result<String, NoMemory> {
    let mut text = String::new(alloc);
    for _ in 0..count {
        text.push(letter)?;
    }
    Ok(text)
}

#[test]
fn a_hundred_thousand_lines_may_come(rt: HostRuntime) -> Result<(), Fail> {
    let alloc = rt.alloc();
    let input = repeated(alloc, '\n', 100000)?;
    let told = told_input(alloc, input.as_str())?;
    assert_eq!(rt;
        told.as_str(),
        r#"0 done
moment 1970-01-01 00:00:00:000000 Z
commits 0
next 1
"#
    );
    Ok(())
}

#[test]
fn one_line_more_is_too_many(rt: HostRuntime) -> Result<(), Fail> {
    let alloc = rt.alloc();
    let input = repeated(alloc, '\n', 100001)?;
    let told = told_input(alloc, input.as_str())?;
    assert_eq!(rt; told.as_str(), "5 input 100001: TooMany\n");
    Ok(())
}

#[test]
fn a_line_may_be_too_long(rt: HostRuntime) -> Result<(), Fail> {
    let alloc = rt.alloc();
    let input = repeated(alloc, 'x', 262145)?;
    let long = told_input(alloc, input.as_str())?;
    assert_eq!(rt; long.as_str(), "5 input 1: TooLong\n");
    let input = repeated(alloc, 'x', 262144)?;
    let short = told_input(alloc, input.as_str())?;
    assert_eq!(rt; short.as_str(), "5 input 1: NotJson\n");
    Ok(())
}

#[test]
fn no_byte_order_mark_is_skipped_in_a_line(rt: HostRuntime) -> Result<(), Fail> {
    let alloc = rt.alloc();
    let told = told(alloc, "run --at 0", "\u{feff}{}")?;
    assert_eq!(rt; told.as_str(), "5 input 1: NotJson\n");
    Ok(())
}

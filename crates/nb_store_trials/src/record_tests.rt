use nb_base::{Bytes, Items, Moment, NoMemory, OutboxRow, Text};
use nb_cells::{Cell, Change};
use nb_envelope::FormatFault;
use nb_outbox::{is_purgeable, mark_change, outbox_cell, read_outbox};
use std::alloc::Global;
use std::test::Fail;

const SENT: &[u8] = b"\x01\0\0\0\0\0\0\0\x01\0\0\0\0\0\0\0\0\x01\0\0\0\0";

const PENDING: &[u8] =
    b"\x01\0\0\0\0\0\0\0\x02\0\0\0\0\0\0\0\x0a\0\0\0\0\x02\0\0\0\x07Billing\0\0\0\0\x01\0\0\0\x15NServiceBus.MessageId\0\0\0\x01a\0\0\0\x01b\0\0\0\x05Sales\x01\0\0\0\0\0\0\x0e\x10\0\0\0\x01\0\0\0\x15NServiceBus.MessageId\0\0\0\x01c\0\0\0\0";

fn cell(alloc: Global, space: u8, key: &[u8], bytes: &[u8]) -> Result<Cell, NoMemory> {
    let key = Bytes::new(alloc, key)?;
    let bytes = Bytes::new(alloc, bytes)?;
    Ok(Cell { space, key, bytes })
}

/// The record under an id.
fn read(alloc: Global, space: u8, key: &[u8], bytes: &[u8]) -> Result<OutboxRow, FormatFault> {
    read_outbox(alloc, &cell(alloc, space, key, bytes)?)
}

/// Whether the cell is no record.
fn is_no_record(alloc: Global, space: u8, key: &[u8], bytes: &[u8]) -> bool {
    matches!(read(alloc, space, key, bytes), Err(FormatFault::Damaged))
}

/// Whether reading and writing gives the same cell again.
#[tactic(auto, using(nb_outbox::proofs::FormatLaws::record_queues))]
fn is_record(alloc: Global, id: &Text, bytes: &[u8]) -> Result<bool, FormatFault> {
    let key = Bytes::new(alloc, id.as_str().as_bytes())?;
    let bytes = Bytes::new(alloc, bytes)?;
    let found = Cell {
        space: 4,
        key,
        bytes,
    };
    let row = read_outbox(alloc, &found)?;
    let again = outbox_cell(alloc, id, &row)?;
    Ok(again.space == 4 && again.key == found.key && again.bytes == found.bytes)
}

/// The bytes without the last one.
fn cut(bytes: &[u8]) -> &[u8] {
    match bytes {
        [front @ .., _] => front,
        [] => bytes,
    }
}

/// The bytes with one more.
fn longer(alloc: Global, bytes: &[u8]) -> Result<Bytes, NoMemory> {
    let mut more = Vec::from_slice(alloc, bytes)?;
    more.push(0)?;
    Bytes::of_vec(more)
}

#[test]
fn records_are_read_and_written(rt: HostRuntime) -> Result<(), Fail> {
    let alloc = rt.alloc();
    let id = Text::new(alloc, "c1")?;
    assert!(rt; is_record(alloc, &id, SENT)?);
    assert!(rt; is_record(alloc, &id, PENDING)?);
    Ok(())
}

#[test]
fn a_record_has_its_number_moment_and_messages(rt: HostRuntime) -> Result<(), Fail> {
    let alloc = rt.alloc();
    let row = read(alloc, 4, b"c1", PENDING)?;
    assert_eq!(rt;
        (row.n, row.at.seconds(), row.sent, row.ops.len()),
        (2, 10, false, 2)
    );
    Ok(())
}

#[test]
fn a_byte_less_or_more_is_damaged(rt: HostRuntime) -> Result<(), Fail> {
    let alloc = rt.alloc();
    assert!(rt; is_no_record(alloc, 4, b"c1", cut(SENT)));
    assert!(rt; is_no_record(alloc, 4, b"c1", cut(PENDING)));
    assert!(rt; is_no_record(alloc, 4, b"c1", longer(alloc, SENT)?.as_slice()));
    assert!(rt; is_no_record(alloc, 4, b"c1", longer(alloc, PENDING)?.as_slice()));
    Ok(())
}

#[test]
fn what_is_outside_the_grammar_is_damaged(rt: HostRuntime) -> Result<(), Fail> {
    let alloc = rt.alloc();
    // the one byte 01
    assert!(rt; is_no_record(alloc, 4, b"c1", b"\x01"));
    // an empty id, and one that is no text
    assert!(rt; is_no_record(alloc, 4, b"", SENT));
    assert!(rt; is_no_record(alloc, 4, b"\xff", SENT));
    // another space
    assert!(rt; is_no_record(alloc, 3, b"c1", SENT));
    Ok(())
}

#[test]
fn a_sent_record_has_no_messages_and_queues_are_named(rt: HostRuntime) -> Result<(), Fail> {
    let alloc = rt.alloc();
    let sent_with_one =
        b"\x01\0\0\0\0\0\0\0\x01\0\0\0\0\0\0\0\0\x01\0\0\0\x01\0\0\0\x01q\0\0\0\0\x01\0\0\0\x15NServiceBus.MessageId\0\0\0\x01a\0\0\0\0";
    assert!(rt; is_no_record(alloc, 4, b"c1", sent_with_one));
    let to_nobody =
        b"\x01\0\0\0\0\0\0\0\x01\0\0\0\0\0\0\0\0\0\0\0\0\x01\0\0\0\0\0\0\0\0\x01\0\0\0\x15NServiceBus.MessageId\0\0\0\x01a\0\0\0\0";
    assert!(rt; is_no_record(alloc, 4, b"c1", to_nobody));
    Ok(())
}

#[test]
fn a_mark_takes_the_messages_out(rt: HostRuntime) -> Result<(), Fail> {
    let alloc = rt.alloc();
    let row = read(alloc, 4, b"c1", PENDING)?;
    let id = Text::new(alloc, "c1")?;
    let marked = matches!(
        &mark_change(alloc, &id, &row)?,
        Change::Put { space: 4, key, bytes } if key.as_slice() == b"c1".as_slice()
            && bytes.as_slice() == b"\x01\0\0\0\0\0\0\0\x02\0\0\0\0\0\0\0\x0a\x01\0\0\0\0".as_slice()
    );
    assert!(rt; marked);
    Ok(())
}

/// Whether a record of moment 0 may go.
fn goes(alloc: Global, sent: bool, retention: u64, seconds: u64) -> bool {
    let row = OutboxRow {
        n: 1,
        at: Moment::FIRST,
        sent,
        ops: Items::new(alloc),
    };
    match Moment::new(seconds) {
        Some(m) => is_purgeable(&row, retention, m),
        None => false,
    }
}

#[test]
fn a_sent_record_goes_once_its_time_is_over(rt: HostRuntime) -> Result<(), Fail> {
    let alloc = rt.alloc();
    assert!(rt; !goes(alloc, true, 604800, 604799));
    assert!(rt; goes(alloc, true, 604800, 604800));
    assert!(rt; !goes(alloc, false, 604800, 604800));
    assert!(rt; !goes(alloc, true, 18446744073709551615, 253402300799));
    Ok(())
}

use nb_base::{
    ByName, ByNumber, BySaga, Bytes, Clock, Copied, Envelope, FixedClock, Gate, HoldGate,
    HostClock, Items, MESSAGE_ID, MemSink, MemSource, Moment, Names, NoMemory, Numbers, OpenGate,
    Point, ReadSource, ReadStop, SagaKey, Sink, Source, Text, Value, WriteSink, WriteStop,
    read_all, write_all,
};
use std::alloc::Global;
use std::test::Fail;

fn listed(alloc: Global, numbers: &[u64]) -> Result<Numbers, NoMemory> {
    let mut list = Items::new(alloc);
    for n in numbers {
        list.push(*n)?;
    }
    Ok(list)
}

fn source(alloc: Global, text: &str, piece: usize, fails: &[u64]) -> Result<MemSource, NoMemory>
    requires { 0 < piece }
{
    let bytes = Bytes::new(alloc, text.as_bytes())?;
    let fails = listed(alloc, fails)?;
    Ok(MemSource::new(bytes, piece, fails))
}

ghost use Rattle.std.specs.Prelude.{◌<◌};

/// The bytes that are read of a source, up to a limit.
fn taken<S: Source + Drop>(alloc: Global, mut from: S, limit: usize) -> Result<Bytes, ReadStop>
    requires { limit < 1000 }
{
    read_all(alloc, &mut from, limit)
}

#[test]
fn a_source_is_read_to_its_end(rt: HostRuntime) -> Result<(), Fail> {
    let alloc = rt.alloc();
    let whole = source(alloc, "one two", 3, [].as_slice())?;
    assert_eq!(rt; taken(alloc, whole, 100)?.as_slice(), b"one two".as_slice());
    Ok(())
}

#[test]
fn a_source_is_read_to_one_byte_past_the_limit(rt: HostRuntime) -> Result<(), Fail> {
    let alloc = rt.alloc();
    let cut = source(alloc, "one two", 2, [].as_slice())?;
    assert_eq!(rt; taken(alloc, cut, 2)?.as_slice(), b"one".as_slice());
    Ok(())
}

#[test]
fn a_read_that_fails_is_counted(rt: HostRuntime) -> Result<(), Fail> {
    let alloc = rt.alloc();
    let mut failing = source(alloc, "one two", 2, [2].as_slice())?;
    assert!(rt; matches!(&read_all(alloc, &mut failing, 100), Err(ReadStop::Failed)));
    assert_eq!(rt; failing.faults(), 1);
    Ok(())
}

#[test]
fn a_reader_is_a_source(rt: HostRuntime) -> Result<(), Fail> {
    let host = ReadSource::new(b"three".as_slice());
    assert_eq!(rt;
        taken(rt.alloc(), host, 100)?.as_slice(),
        b"three".as_slice()
    );
    Ok(())
}

/// How a text is written to a sink, and what the sink then holds.
fn sunk(
    alloc: Global,
    room: usize,
    fails: &[u64],
) -> Result<(MemSink, Result<(), WriteStop>), NoMemory> {
    let mut sink = MemSink::new(alloc, 3, room, listed(alloc, fails)?)?;
    let end = write_all(&mut sink, b"one two");
    Ok((sink, end))
}

#[test]
fn a_sink_takes_all(rt: HostRuntime) -> Result<(), Fail> {
    let (sink, end) = sunk(rt.alloc(), 100, [].as_slice())?;
    assert!(rt; end.is_ok());
    assert_eq!(rt; sink.held(), b"one two".as_slice());
    Ok(())
}

#[test]
fn a_write_that_fails_leaves_what_came_before(rt: HostRuntime) -> Result<(), Fail> {
    let (sink, end) = sunk(rt.alloc(), 100, [2].as_slice())?;
    assert_eq!(rt; end, Err(WriteStop { written: 3 }));
    assert_eq!(rt; sink.held(), b"one".as_slice());
    Ok(())
}

#[test]
fn a_full_sink_counts_a_fault(rt: HostRuntime) -> Result<(), Fail> {
    let (sink, end) = sunk(rt.alloc(), 4, [].as_slice())?;
    assert_eq!(rt; end, Err(WriteStop { written: 4 }));
    assert_eq!(rt; sink.faults(), 1);
    Ok(())
}

#[test]
fn a_writer_is_a_sink(rt: HostRuntime) -> Result<(), Fail> {
    let mut host = WriteSink::new(Vec::<u8>::new(rt.alloc()));
    assert!(rt; write_all(&mut host, b"three").is_ok());
    assert_eq!(rt; host.faults(), 0);
    Ok(())
}

#[test]
fn clocks_tell_moments(rt: HostRuntime) -> Result<(), Fail> {
    let moment = Moment::new(1700000000).ok_or("in range")?;
    assert_eq!(rt; FixedClock(moment).now(), moment);
    assert!(rt; HostClock::new(&rt).now().seconds() > 1700000000);
    assert!(rt; Moment::new(253402300800).is_none());
    OpenGate.pass(0, Point::AfterLook);
    Ok(())
}

/// Passes a point, as a worker does at a gate that several share.
fn pass<G: Gate + Sync>(gate: &G, w: u32, point: Point) {
    gate.pass(w, point);
}

#[test]
fn a_gate_gives_up_where_a_worker_does_not_come(rt: HostRuntime) -> Result<(), Fail> {
    let gate = HoldGate::new(Point::BeforeSettle, 2, 3);
    pass(&gate, 0, Point::AfterLook);
    assert!(rt; !gate.gave_up());
    pass(&gate, 0, Point::BeforeSettle);
    assert!(rt; gate.gave_up());
    Ok(())
}

#[test]
fn a_gate_opens_once_all_have_come(rt: HostRuntime) -> Result<(), Fail> {
    let gate = HoldGate::new(Point::AfterLook, 1, 3);
    pass(&gate, 5, Point::AfterLook);
    pass(&gate, 5, Point::AfterLook);
    assert!(rt; !gate.gave_up());
    Ok(())
}

/// An envelope with three headers, of which the second was set twice.
fn envelope(alloc: Global) -> Result<Envelope, NoMemory> {
    let id = Text::new(alloc, "a")?;
    if id.is_empty() {
        return Err(NoMemory);
    }
    let mut envelope = Envelope::new(alloc, &id, Text::new(alloc, "body")?)?;
    envelope.set_header(alloc, "z", Text::new(alloc, "1")?)?;
    envelope.set_header(alloc, "b", Text::new(alloc, "2")?)?;
    envelope.set_header(alloc, "z", Text::new(alloc, "3")?)?;
    Ok(envelope)
}

#[test]
fn a_copy_keeps_the_headers_in_order(rt: HostRuntime) -> Result<(), Fail> {
    let copy = envelope(rt.alloc())?.copy()?;
    assert_eq!(rt; copy.headers().len(), 3);
    assert_eq!(rt; copy.headers().at(0).0, MESSAGE_ID);
    assert_eq!(rt; copy.headers().at(1).1.as_str(), "3");
    assert_eq!(rt; copy.headers().at(2).0, "b");
    assert_eq!(rt; copy.body().as_str(), "body");
    Ok(())
}

#[test]
fn a_header_is_taken_out(rt: HostRuntime) -> Result<(), Fail> {
    let mut envelope = envelope(rt.alloc())?;
    envelope.without("b");
    assert!(rt; envelope.header("b").is_none());
    assert_eq!(rt; envelope.header("z").ok_or("there")?.as_str(), "3");
    Ok(())
}

#[test]
fn lists_are_copied(rt: HostRuntime) -> Result<(), Fail> {
    let alloc = rt.alloc();
    let mut names: Names = Items::new(alloc);
    names.push(Text::new(alloc, "one")?)?;
    names.push(Text::new(alloc, "two")?)?;
    let copy = names.copy()?;
    assert_eq!(rt; copy.len(), 2);
    assert_eq!(rt; copy.at(1).as_str(), "two");
    Ok(())
}

#[test]
fn a_map_by_numbers_is_copied(rt: HostRuntime) -> Result<(), Fail> {
    let mut map = ByNumber::new(rt.alloc());
    map.insert(2, 20u64)?;
    map.insert(1, 10u64)?;
    let copy = map.copy()?;
    assert_eq!(rt; copy.get(1), Some(&10));
    assert_eq!(rt; map.take(2), Some(20));
    assert!(rt; map.get(2).is_none());
    Ok(())
}

#[test]
fn a_map_by_names_is_copied(rt: HostRuntime) -> Result<(), Fail> {
    let alloc = rt.alloc();
    let name = Text::new(alloc, "ann")?;
    let mut map = ByName::new(alloc);
    map.insert(name.copy()?, 5u64)?;
    let copy = map.copy()?;
    assert_eq!(rt; copy.get(&name), Some(&5));
    assert_eq!(rt; map.take(&name), Some(5));
    Ok(())
}

#[test]
fn a_map_by_sagas_is_copied(rt: HostRuntime) -> Result<(), Fail> {
    let alloc = rt.alloc();
    let saga = Text::new(alloc, "Order")?;
    let corr = Value::Int(7);
    let place = SagaKey { saga, corr };
    let mut map = BySaga::new(alloc);
    map.insert(place.copy()?, 5u64)?;
    let copy = map.copy()?;
    assert_eq!(rt; copy.get(&place), Some(&5));
    assert_eq!(rt; map.take(&place), Some(5));
    Ok(())
}

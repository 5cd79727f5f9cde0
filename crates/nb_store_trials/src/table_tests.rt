use nb_base::{Bytes, Items, Key, Keys, NoMemory, Read, Reads, Seen, Text};
use nb_cells::{Cell, CellList, FaultPlan, MemCells};
use nb_store::{Store, StoreFault, StoreRefusal};
use std::alloc::Global;
use std::test::Fail;

const COUNT: &[u8] = b"\x01\0\0\0\0\0\0\0\x02";

const ANN: &[u8] = b"\x01\0\0\0\0\0\0\0\x01\0\0\0\0\0\0\0\x05";

const SENT: &[u8] = b"\x01\0\0\0\0\0\0\0\x01\0\0\0\0\0\0\0\0\x01\0\0\0\0";

const PLACE: &[u8] = b"\0\0\0\x05Order\x02\0\0\0\x03A-1";

const SAGA: &[u8] = b"\x01\0\0\0\x09Sales/2/1\0\0\0\0\0\0\0\x02\0\0\0\0\0\0\0\x02p1\0\0\0\0";

fn add(
    alloc: Global,
    cells: &mut CellList,
    space: u8,
    key: &[u8],
    bytes: &[u8],
) -> Result<(), NoMemory> {
    let key = Bytes::new(alloc, key)?;
    let bytes = Bytes::new(alloc, bytes)?;
    cells.push(Cell { space, key, bytes })
}

/// A count, a saga, a row and a record, and one cell more.
fn five(alloc: Global, space: u8, key: &[u8], bytes: &[u8]) -> Result<MemCells, NoMemory> {
    let mut cells = Items::new(alloc);
    add(alloc, &mut cells, 1, b"", COUNT)?;
    add(alloc, &mut cells, 2, PLACE, SAGA)?;
    add(alloc, &mut cells, 3, b"ann", ANN)?;
    add(alloc, &mut cells, 4, b"c1", SENT)?;
    add(alloc, &mut cells, space, key, bytes)?;
    MemCells::new(alloc, cells, FaultPlan::none(alloc))
}

/// The tables of these cells.
fn started(alloc: Global, cells: MemCells) -> Result<Store<MemCells>, StoreFault> {
    match Store::start(alloc, cells) {
        Ok(store) => Ok(store),
        Err(refusal) => {
            let StoreRefusal { fault, .. } = refusal;
            Err(fault)
        }
    }
}

/// Why no tables are opened over these cells, where none are.
fn why_not(alloc: Global, cells: MemCells) -> Option<StoreFault> {
    match started(alloc, cells) {
        Ok(_) => None,
        Err(fault) => Some(fault),
    }
}

/// The place that is named as damaged.
fn damaged(alloc: Global, space: u8, key: &[u8], bytes: &[u8]) -> Result<(u8, Bytes), NoMemory> {
    match why_not(alloc, five(alloc, space, key, bytes)?) {
        None => Ok((0, Bytes::new(alloc, b"")?)),
        Some(StoreFault::Damaged { space, key }) => Ok((space, key)),
        Some(_) => Err(NoMemory),
    }
}

/// Whether this place is named as damaged.
fn is_damaged(alloc: Global, space: u8, key: &[u8], bytes: &[u8]) -> Result<bool, NoMemory> {
    let named = damaged(alloc, space, key, bytes)?;
    Ok(named.0 == space && named.1.as_slice() == key)
}

/// The tables of the five cells.
fn opened(alloc: Global) -> Result<Store<MemCells>, StoreFault> {
    started(alloc, five(alloc, 3, b"bob", ANN)?)
}

/// The key of the saga Order with an id.
fn saga_by_id(alloc: Global, id: &str) -> Result<Keys, NoMemory> {
    let saga = Text::new(alloc, "Order")?;
    let id = Text::new(alloc, id)?;
    let mut keys: Keys = Items::new(alloc);
    keys.push(Key::ById { saga, id })?;
    Ok(keys)
}

/// What stands at these keys.
fn read(alloc: Global, keys: &Keys) -> Result<Reads, StoreFault> {
    let store = opened(alloc)?;
    Ok(store.read(alloc, keys)?)
}

/// The version of the saga that was read first, or 0.
fn version_of(reads: &Reads) -> u64 {
    match reads.as_slice() {
        [
            Read {
                seen: Seen::Saga(row),
                ..
            },
            ..
        ] => row.version,
        _ => 0,
    }
}

#[test]
fn a_saga_is_read_by_its_id(rt: HostRuntime) -> Result<(), Fail> {
    let alloc = rt.alloc();
    let keys = saga_by_id(alloc, "Sales/2/1")?;
    assert_eq!(rt; version_of(&read(alloc, &keys)?), 2);
    Ok(())
}

/// The number of a record, or 0, and whether it was sent.
fn record(store: &Store<MemCells>, id: &Text) -> Result<(u64, bool), NoMemory> {
    match store.outbox(id)? {
        Some(row) => Ok((row.n, row.sent)),
        None => Ok((0, false)),
    }
}

/// The number of a record, or 0, where the tables are opened.
fn number(alloc: Global, id: &Text) -> Result<u64, StoreFault> {
    let store = opened(alloc)?;
    Ok(record(&store, id)?.0)
}

/// The number of commits in the tables that are handed out.
fn commits(alloc: Global) -> Result<u64, StoreFault> {
    let store = opened(alloc)?;
    Ok(store.close().tables.commits)
}

#[test]
fn a_record_is_found(rt: HostRuntime) -> Result<(), Fail> {
    let alloc = rt.alloc();
    assert_eq!(rt; number(alloc, &Text::new(alloc, "c1")?)?, 1);
    assert_eq!(rt; number(alloc, &Text::new(alloc, "c2")?)?, 0);
    assert_eq!(rt; commits(alloc)?, 2);
    Ok(())
}

/// Takes the record out, where it is there and was sent.
fn purged(alloc: Global, store: &mut Store<MemCells>, id: &Text) -> Result<bool, StoreFault> {
    match store.record(id) {
        Some(row) if row.sent => {}
        _ => return Ok(false),
    }
    store.purge(alloc, id)?;
    Ok(true)
}

#[test]
fn a_sent_record_goes(rt: HostRuntime) -> Result<(), Fail> {
    let alloc = rt.alloc();
    let mut store = opened(alloc)?;
    let id = Text::new(alloc, "c1")?;
    assert!(rt; purged(alloc, &mut store, &id)?);
    assert!(rt; !purged(alloc, &mut store, &id)?);
    Ok(())
}

#[test]
fn the_least_cell_outside_the_bounds_is_named(rt: HostRuntime) -> Result<(), Fail> {
    let alloc = rt.alloc();
    // a version above the count
    assert!(rt;
        is_damaged(
            alloc,
            3,
            b"bob",
            b"\x01\0\0\0\0\0\0\0\x03\0\0\0\0\0\0\0\x05"
        )?
    );
    // a number that another record has
    assert!(rt; is_damaged(alloc, 4, b"c2", SENT)?);
    // an id that another saga has
    assert!(rt; is_damaged(alloc, 2, b"\0\0\0\x05Order\x02\0\0\0\x03A-2", SAGA)?);
    Ok(())
}

#[test]
fn the_count_lies_from_1_to_its_limit(rt: HostRuntime) -> Result<(), Fail> {
    let alloc = rt.alloc();
    assert!(rt; is_damaged(alloc, 1, b"", b"\x01\0\0\0\0\0\0\0\0")?);
    assert!(rt; is_damaged(alloc, 1, b"", b"\x01\x40\0\0\0\0\0\0\x01")?);
    assert!(rt; is_damaged(alloc, 1, b"x", COUNT)?);
    Ok(())
}

/// Whether another saga is damaged that has these bytes.
fn saga_is_damaged(alloc: Global, bytes: &[u8]) -> Result<bool, NoMemory> {
    is_damaged(alloc, 2, b"\0\0\0\x05Order\x02\0\0\0\x03A-2", bytes)
}

#[test]
fn versions_of_sagas_lie_from_1_to_the_count(rt: HostRuntime) -> Result<(), Fail> {
    let alloc = rt.alloc();
    assert!(rt;
        saga_is_damaged(
            alloc,
            b"\x01\0\0\0\x09Sales/1/1\0\0\0\0\0\0\0\0\0\0\0\0\0\0\0\x02p1\0\0\0\0"
        )?
    );
    assert!(rt;
        saga_is_damaged(
            alloc,
            b"\x01\0\0\0\x09Sales/1/1\0\0\0\0\0\0\0\x03\0\0\0\0\0\0\0\x02p1\0\0\0\0"
        )?
    );
    assert!(rt;
        !saga_is_damaged(
            alloc,
            b"\x01\0\0\0\x09Sales/1/1\0\0\0\0\0\0\0\x02\0\0\0\0\0\0\0\x02p1\0\0\0\0"
        )?
    );
    Ok(())
}

#[test]
fn ids_of_sagas_end_in_a_commit_and_an_index(rt: HostRuntime) -> Result<(), Fail> {
    let alloc = rt.alloc();
    assert!(rt;
        saga_is_damaged(
            alloc,
            b"\x01\0\0\0\x09Sales/3/1\0\0\0\0\0\0\0\x02\0\0\0\0\0\0\0\x02p1\0\0\0\0"
        )?
    );
    assert!(rt;
        saga_is_damaged(
            alloc,
            b"\x01\0\0\0\x09Sales/0/1\0\0\0\0\0\0\0\x02\0\0\0\0\0\0\0\x02p1\0\0\0\0"
        )?
    );
    assert!(rt;
        saga_is_damaged(
            alloc,
            b"\x01\0\0\0\x09Sales/1/0\0\0\0\0\0\0\0\x02\0\0\0\0\0\0\0\x02p1\0\0\0\0"
        )?
    );
    assert!(rt;
        saga_is_damaged(
            alloc,
            b"\x01\0\0\0\x08Sal/01/1\0\0\0\0\0\0\0\x02\0\0\0\0\0\0\0\x02p1\0\0\0\0"
        )?
    );
    assert!(rt;
        saga_is_damaged(
            alloc,
            b"\x01\0\0\0\x05Sales\0\0\0\0\0\0\0\x02\0\0\0\0\0\0\0\x02p1\0\0\0\0"
        )?
    );
    Ok(())
}

#[test]
fn rows_and_records_keep_the_count(rt: HostRuntime) -> Result<(), Fail> {
    let alloc = rt.alloc();
    assert!(rt; is_damaged(alloc, 3, b"bob", b"\x01\0\0\0\0\0\0\0\0\0\0\0\0\0\0\0\x05")?);
    assert!(rt;
        is_damaged(
            alloc,
            4,
            b"c2",
            b"\x01\0\0\0\0\0\0\0\0\0\0\0\0\0\0\0\0\x01\0\0\0\0"
        )?
    );
    assert!(rt;
        is_damaged(
            alloc,
            4,
            b"c2",
            b"\x01\0\0\0\0\0\0\0\x03\0\0\0\0\0\0\0\0\x01\0\0\0\0"
        )?
    );
    assert!(rt;
        is_damaged(
            alloc,
            4,
            b"",
            b"\x01\0\0\0\0\0\0\0\x02\0\0\0\0\0\0\0\0\x01\0\0\0\0"
        )?
    );
    Ok(())
}

/// A record that isn't sent, with so many messages.
fn many_messages(alloc: Global, count: u16) -> Result<Vec<u8>, NoMemory> {
    let [high, low] = count.to_be_bytes();
    let mut bytes = Vec::from_slice(alloc, b"\x01\0\0\0\0\0\0\0\x02\0\0\0\0\0\0\0\0\0\0\0")?;
    bytes.push(high)?;
    bytes.push(low)?;
    for _ in 0..count {
        bytes.extend_from_slice(
            b"\0\0\0\x01q\0\0\0\0\x01\0\0\0\x15NServiceBus.MessageId\0\0\0\x01a\0\0\0\0",
        )?;
    }
    Ok(bytes)
}

#[test]
fn a_record_has_at_most_4096_messages(rt: HostRuntime) -> Result<(), Fail> {
    let alloc = rt.alloc();
    assert!(rt; !is_damaged(alloc, 4, b"c2", many_messages(alloc, 4096)?.as_slice())?);
    assert!(rt; is_damaged(alloc, 4, b"c2", many_messages(alloc, 4097)?.as_slice())?);
    Ok(())
}

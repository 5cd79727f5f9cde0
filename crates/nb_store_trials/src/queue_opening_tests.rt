use nb_base::{Bytes, Envelope, Items, NoMemory, Text};
use nb_cells::{Cell, CellList, FaultPlan, MemCells};
use nb_queue::{Post, PostFault, PostRefusal};
use std::alloc::Global;
use std::test::Fail;

const FIVE: &[u8] = b"\x01\0\0\0\0\0\0\0\x05";

const LAST: &[u8] = b"\x01\x40\0\0\0\0\0\0\0";

const ID: &[u8] = b"\0\0\0\x15NServiceBus.MessageId\0\0\0\x01a";

fn add(
    alloc: Global,
    cells: &mut CellList,
    space: u8,
    key: &[u8],
    bytes: &[u8],
) -> Result<(), NoMemory> {
    let key = Bytes::new(alloc, key)?;
    let bytes = Bytes::new(alloc, bytes)?;
    cells.push(Cell { space, key, bytes })
}

/// The bytes of an entry, around its header with the id.
fn entry(alloc: Global, front: &[u8], back: &[u8]) -> Result<Bytes, NoMemory> {
    let mut out = Vec::new(alloc);
    out.extend_from_slice(front)?;
    out.extend_from_slice(ID)?;
    out.extend_from_slice(back)?;
    Bytes::of_vec(out)
}

/// A post over these cells.
fn started(alloc: Global, cells: MemCells) -> Result<Post<MemCells>, PostFault> {
    match Post::start(alloc, cells) {
        Ok(post) => Ok(post),
        Err(refusal) => {
            let PostRefusal { fault, .. } = refusal;
            Err(fault)
        }
    }
}

/// Why no post is opened over these cells, where none is.
fn why_not(alloc: Global, cells: MemCells) -> Option<PostFault> {
    match started(alloc, cells) {
        Ok(_) => None,
        Err(fault) => Some(fault),
    }
}

/// The place that is named as damaged, where there is one.
fn named(alloc: Global, cells: CellList) -> Result<(u8, Bytes), NoMemory> {
    match why_not(alloc, MemCells::new(alloc, cells, FaultPlan::none(alloc))?) {
        None => Ok((0, Bytes::new(alloc, b"")?)),
        Some(PostFault::Damaged { space, key }) => Ok((space, key)),
        Some(_) => Err(NoMemory),
    }
}

/// Whether this cell is named as damaged, beside the next number 5.
fn is_damaged(alloc: Global, space: u8, key: &[u8], bytes: &[u8]) -> Result<bool, NoMemory> {
    let mut cells = Items::new(alloc);
    add(alloc, &mut cells, 1, b"", FIVE)?;
    add(alloc, &mut cells, space, key, bytes)?;
    let place = named(alloc, cells)?;
    Ok(place.0 == space && place.1.as_slice() == key)
}

/// Whether the cell of the entry 2 is named as damaged.
fn is_refused(alloc: Global, front: &[u8], back: &[u8]) -> Result<bool, NoMemory> {
    let bytes = entry(alloc, front, back)?;
    is_damaged(alloc, 2, b"\0\0\0\0\0\0\0\x02", bytes.as_slice())
}

/// Whether an entry in the queue `q` is named under this key.
fn is_misplaced(alloc: Global, space: u8, key: &[u8]) -> Result<bool, NoMemory> {
    let bytes = entry(alloc, b"\x01\0\0\0\x01q\0\0\0\0\x01", b"\0\0\0\x01b")?;
    is_damaged(alloc, space, key, bytes.as_slice())
}

/// Cells that are no next number: the key and the bytes.
const FORMS: &[(u8, &[u8], &[u8], bool)] = &[
    (1, b"", b"\x02\0\0\0\0\0\0\0\x05", true),
    (1, b"", b"\x01\0\0\0\0\0\0\0\x05\0", true),
    (1, b"", b"\x01\0\0\0\0\0\0\x05", true),
    (1, b"k", FIVE, true),
];

#[test]
fn a_next_number_in_another_form_is_named(rt: HostRuntime) -> Result<(), Fail> {
    let alloc = rt.alloc();
    for (space, key, bytes, wanted) in FORMS {
        assert_eq!(rt; is_damaged(alloc, *space, key, bytes)?, *wanted);
    }
    Ok(())
}

/// Next numbers, and whether each is out of bounds.
const BOUNDS: &[(u8, &[u8], &[u8], bool)] = &[
    (1, b"", b"\x01\0\0\0\0\0\0\0\x01", true),
    (1, b"", FIVE, false),
    (1, b"", LAST, false),
    (1, b"", b"\x01\x40\0\0\0\0\0\0\x01", true),
];

#[test]
fn a_next_number_outside_the_bounds_is_named(rt: HostRuntime) -> Result<(), Fail> {
    let alloc = rt.alloc();
    for (space, key, bytes, wanted) in BOUNDS {
        assert_eq!(rt; is_damaged(alloc, *space, key, bytes)?, *wanted);
    }
    Ok(())
}

/// Places of an entry, and whether each is outside of the numbers.
const OUTSIDE: &[(u8, &[u8], bool)] = &[
    (2, b"\0\0\0\0\0\0\0\0", true),
    (2, b"\0\0\0\0\0\0\0\x04", false),
    (2, b"\0\0\0\0\0\0\0\x05", true),
];

#[test]
fn an_entry_outside_the_numbers_is_named(rt: HostRuntime) -> Result<(), Fail> {
    let alloc = rt.alloc();
    for (space, key, wanted) in OUTSIDE {
        assert_eq!(rt; is_misplaced(alloc, *space, key)?, *wanted);
    }
    Ok(())
}

/// Places that are none of an entry.
const PLACES: &[(u8, &[u8], bool)] = &[
    (2, b"\0\0\0\0\0\0\x04", true),
    (2, b"\0\0\0\0\0\0\0\x04\0", true),
    (3, b"\0\0\0\0\0\0\0\x04", true),
    (4, b"\0\0\0\0\0\0\0\x04", true),
];

#[test]
fn a_cell_in_another_place_is_named(rt: HostRuntime) -> Result<(), Fail> {
    let alloc = rt.alloc();
    for (space, key, wanted) in PLACES {
        assert_eq!(rt; is_misplaced(alloc, *space, key)?, *wanted);
    }
    Ok(())
}

/// Another format, an empty queue, a queue that is no text, and no kind of due.
const ENTRIES: &[(&[u8], &[u8], bool)] = &[
    (b"\x02\0\0\0\x01q\0\0\0\0\x01", b"\0\0\0\x01b", true),
    (b"\x01\0\0\0\0\0\0\0\0\x01", b"\0\0\0\x01b", true),
    (b"\x01\0\0\0\x01\xff\0\0\0\0\x01", b"\0\0\0\x01b", true),
    (b"\x01\0\0\0\x01q\x02\0\0\0\x01", b"\0\0\0\x01b", true),
];

#[test]
fn an_entry_in_another_form_is_named(rt: HostRuntime) -> Result<(), Fail> {
    let alloc = rt.alloc();
    for (front, back, wanted) in ENTRIES {
        assert_eq!(rt; is_refused(alloc, front, back)?, *wanted);
    }
    Ok(())
}

/// A missing header, a trailing byte, and a missing body.
const MESSAGES: &[(&[u8], &[u8], bool)] = &[
    (b"\x01\0\0\0\x01q\0\0\0\0\x02", b"\0\0\0\x01b", true),
    (b"\x01\0\0\0\x01q\0\0\0\0\x01", b"\0\0\0\x01b\0", true),
    (b"\x01\0\0\0\x01q\0\0\0\0\x01", b"", true),
];

#[test]
fn a_message_in_another_form_is_named(rt: HostRuntime) -> Result<(), Fail> {
    let alloc = rt.alloc();
    for (front, back, wanted) in MESSAGES {
        assert_eq!(rt; is_refused(alloc, front, back)?, *wanted);
    }
    Ok(())
}

#[test]
fn headers_that_name_no_message_are_refused(rt: HostRuntime) -> Result<(), Fail> {
    let alloc = rt.alloc();
    // no header, and the id twice
    let twice = entry(alloc, b"", b"\0\0\0\x01b")?;
    assert!(rt;
        is_damaged(
            alloc,
            2,
            b"\0\0\0\0\0\0\0\x02",
            b"\x01\0\0\0\x01q\0\0\0\0\0\0\0\0\x01b"
        )?
    );
    assert!(rt; is_refused(alloc, b"\x01\0\0\0\x01q\0\0\0\0\x02", twice.as_slice())?);
    Ok(())
}

/// The last moment, and the one after it.
const DUES: &[(&[u8], &[u8], bool)] = &[
    (
        b"\x01\0\0\0\x01q\x01\0\0\0\x3a\xff\xf4\x41\x7f\0\0\0\x01",
        b"\0\0\0\x01b",
        false,
    ),
    (
        b"\x01\0\0\0\x01q\x01\0\0\0\x3a\xff\xf4\x41\x80\0\0\0\x01",
        b"\0\0\0\x01b",
        true,
    ),
];

#[test]
fn a_due_after_the_last_moment_is_named(rt: HostRuntime) -> Result<(), Fail> {
    let alloc = rt.alloc();
    for (front, back, wanted) in DUES {
        assert_eq!(rt; is_refused(alloc, front, back)?, *wanted);
    }
    Ok(())
}

#[test]
fn of_two_at_fault_the_least_is_named(rt: HostRuntime) -> Result<(), Fail> {
    let alloc = rt.alloc();
    let mut cells = Items::new(alloc);
    add(alloc, &mut cells, 3, b"", b"")?;
    add(alloc, &mut cells, 2, b"\0\0\0\0\0\0\0\x03", b"\x02")?;
    add(alloc, &mut cells, 2, b"\0\0\0\0\0\0\0\x02", b"\x02")?;
    let place = named(alloc, cells)?;
    assert_eq!(rt; place.0, 2);
    assert!(rt; place.1.as_slice() == b"\0\0\0\0\0\0\0\x02".as_slice());
    Ok(())
}

/// A store with nothing but this next number.
fn at_number(alloc: Global, next: &[u8]) -> Result<MemCells, NoMemory> {
    let mut cells = Items::new(alloc);
    add(alloc, &mut cells, 1, b"", next)?;
    MemCells::new(alloc, cells, FaultPlan::none(alloc))
}

/// Puts a message into the queue `q`.
fn put(alloc: Global, post: &mut Post<MemCells>) -> Result<u64, PostFault> {
    let queue = Text::new(alloc, "q")?;
    let id = Text::new(alloc, "a")?;
    let body = Text::new(alloc, "b")?;
    let envelope = Envelope::new(alloc, &id, body)?;
    post.put(alloc, &queue, None, &envelope)
}

/// What a put answers where this is the next number.
fn put_at(alloc: Global, next: &[u8]) -> Result<u64, PostFault> {
    let mut post = started(alloc, at_number(alloc, next)?)?;
    put(alloc, &mut post)
}

#[test]
fn numbers_are_spent(rt: HostRuntime) -> Result<(), Fail> {
    let alloc = rt.alloc();
    assert_eq!(rt;
        put_at(alloc, b"\x01\x3f\xff\xff\xff\xff\xff\xff\xff")?,
        4611686018427387903
    );
    assert!(rt; matches!(&put_at(alloc, LAST), Err(PostFault::Spent)));
    Ok(())
}

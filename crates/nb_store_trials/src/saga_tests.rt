use nb_base::{Bytes, Items, NoMemory, Plan, SagaRef, SagaRow, Text, Value, Write};
use nb_cells::{Cell, Change};
use nb_envelope::FormatFault;
use nb_saga_store::{read_row, read_saga, row_cell, saga_cell, write_changes};
use std::alloc::Global;
use std::test::Fail;

const PLACE: &[u8] = b"\0\0\0\x05Order\x02\0\0\0\x03A-1";

const FIRST: &[u8] =
    b"\x01\0\0\0\x09Sales/1/1\0\0\0\0\0\0\0\x01\0\0\0\x03Web\0\0\0\x240f8fad5b-d9cb-469f-a165-70867728950e\0\0\0\x02\0\0\0\x05total\x01\0\0\0\0\0\0\0\xfa\0\0\0\x04paid\x03\0";

const SECOND: &[u8] =
    b"\x02\0\0\0\x02\0\0\0\x09Sales/1/1\0\0\0\0\0\0\0\x02\0\0\0\x03Web\0\0\0\x240f8fad5b-d9cb-469f-a165-70867728950e\0\0\0\x03\0\0\0\x05total\x01\0\0\0\0\0\0\0\xfb\0\0\0\x04paid\x03\0\0\0\0\x04note\x02\0\0\0\x04none";

const ANN: &[u8] = b"\x01\0\0\0\0\0\0\0\x01\0\0\0\0\0\0\0\x05";

fn cell(alloc: Global, space: u8, key: &[u8], bytes: &[u8]) -> Result<Cell, NoMemory> {
    let key = Bytes::new(alloc, key)?;
    let bytes = Bytes::new(alloc, bytes)?;
    Ok(Cell { space, key, bytes })
}

/// The saga in a cell, written again.
fn saga_again(alloc: Global, space: u8, key: &[u8], bytes: &[u8]) -> Result<Cell, FormatFault> {
    let stored = read_saga(alloc, &cell(alloc, space, key, bytes)?)?;
    Ok(saga_cell(alloc, &stored.saga, &stored.row)?)
}

/// The row in a cell, written again.
fn row_again(alloc: Global, space: u8, key: &[u8], bytes: &[u8]) -> Result<Cell, FormatFault> {
    let stored = read_row(alloc, &cell(alloc, space, key, bytes)?)?;
    Ok(row_cell(alloc, &stored.name, stored.version, stored.value)?)
}

/// The bytes without the last one.
fn cut(bytes: &[u8]) -> &[u8] {
    match bytes {
        [front @ .., _] => front,
        [] => bytes,
    }
}

/// The bytes with one more.
fn longer(alloc: Global, bytes: &[u8]) -> Result<Bytes, NoMemory> {
    let mut more = Vec::from_slice(alloc, bytes)?;
    more.push(0)?;
    Bytes::of_vec(more)
}

/// Whether a cell has this place and these bytes.
fn is_cell(cell: &Cell, space: u8, key: &[u8], bytes: &[u8]) -> bool {
    cell.space == space && cell.key.as_slice() == key && cell.bytes.as_slice() == bytes
}

/// Whether reading and writing gives the same cell again.
fn is_saga(alloc: Global, key: &[u8], bytes: &[u8]) -> Result<bool, FormatFault> {
    let again = saga_again(alloc, 2, key, bytes)?;
    Ok(is_cell(&again, 2, key, bytes))
}

/// Whether a saga has this id, version, revision and number of fields.
fn has(row: &SagaRow, id: &str, version: u64, revision: u32, fields: usize) -> bool {
    row.id.as_str() == id
        && row.version == version
        && row.revision == revision
        && row.fields.len() == fields
}

/// Whether the saga with these bytes has this version, revision and number of fields.
fn is_read(
    alloc: Global,
    bytes: &[u8],
    version: u64,
    revision: u32,
    fields: usize,
) -> Result<bool, FormatFault> {
    let cell = cell(alloc, 2, PLACE, bytes)?;
    let stored = read_saga(alloc, &cell)?;
    Ok(has(&stored.row, "Sales/1/1", version, revision, fields))
}

#[test]
fn a_saga_of_the_first_revision_is_of_format_1(rt: HostRuntime) -> Result<(), Fail> {
    let alloc = rt.alloc();
    assert!(rt; is_read(alloc, FIRST, 1, 1, 2)?);
    assert!(rt; is_saga(alloc, PLACE, FIRST)?);
    Ok(())
}

#[test]
fn a_saga_of_another_revision_is_of_format_2(rt: HostRuntime) -> Result<(), Fail> {
    let alloc = rt.alloc();
    assert!(rt; is_read(alloc, SECOND, 2, 2, 3)?);
    assert!(rt; is_saga(alloc, PLACE, SECOND)?);
    Ok(())
}

/// Whether reading and writing gives the same cell again.
fn is_row(alloc: Global, name: &[u8], bytes: &[u8]) -> Result<bool, FormatFault> {
    let again = row_again(alloc, 3, name, bytes)?;
    Ok(is_cell(&again, 3, name, bytes))
}

/// The version and the value of the row of ann.
fn row_at_ann(alloc: Global) -> Result<(u64, i64), FormatFault> {
    let cell = cell(alloc, 3, b"ann", ANN)?;
    let stored = read_row(alloc, &cell)?;
    Ok((stored.version, stored.value))
}

#[test]
fn a_row_is_read_and_written(rt: HostRuntime) -> Result<(), Fail> {
    let alloc = rt.alloc();
    assert_eq!(rt; row_at_ann(alloc)?, (1, 5));
    assert!(rt; is_row(alloc, b"ann", ANN)?);
    Ok(())
}

/// Whether the cell is no saga.
fn is_no_saga(alloc: Global, space: u8, key: &[u8], bytes: &[u8]) -> bool {
    matches!(
        saga_again(alloc, space, key, bytes),
        Err(FormatFault::Damaged)
    )
}

/// Whether the cell is no row.
fn is_no_row(alloc: Global, space: u8, key: &[u8], bytes: &[u8]) -> bool {
    matches!(
        row_again(alloc, space, key, bytes),
        Err(FormatFault::Damaged)
    )
}

#[test]
fn a_byte_less_is_damaged(rt: HostRuntime) -> Result<(), Fail> {
    let alloc = rt.alloc();
    assert!(rt; is_no_saga(alloc, 2, PLACE, cut(FIRST)));
    assert!(rt; is_no_saga(alloc, 2, PLACE, cut(SECOND)));
    assert!(rt; is_no_saga(alloc, 2, cut(PLACE), FIRST));
    assert!(rt; is_no_row(alloc, 3, b"ann", cut(ANN)));
    Ok(())
}

#[test]
fn a_byte_more_is_damaged(rt: HostRuntime) -> Result<(), Fail> {
    let alloc = rt.alloc();
    assert!(rt; is_no_saga(alloc, 2, PLACE, longer(alloc, FIRST)?.as_slice()));
    assert!(rt; is_no_saga(alloc, 2, PLACE, longer(alloc, SECOND)?.as_slice()));
    assert!(rt; is_no_saga(alloc, 2, longer(alloc, PLACE)?.as_slice(), FIRST));
    assert!(rt; is_no_row(alloc, 3, b"ann", longer(alloc, ANN)?.as_slice()));
    Ok(())
}

#[test]
fn what_is_outside_the_grammar_is_damaged(rt: HostRuntime) -> Result<(), Fail> {
    let alloc = rt.alloc();
    // another space
    assert!(rt; is_no_saga(alloc, 3, PLACE, FIRST));
    assert!(rt; is_no_row(alloc, 2, b"ann", ANN));
    // a truth value correlates nothing
    assert!(rt; is_no_saga(alloc, 2, b"\0\0\0\x05Order\x03\0", FIRST));
    // a name that is no text
    assert!(rt; is_no_row(alloc, 3, b"\xff", ANN));
    Ok(())
}

#[test]
fn a_saga_outside_the_grammar_is_damaged(rt: HostRuntime) -> Result<(), Fail> {
    let alloc = rt.alloc();
    // the first revision in format 2
    assert!(rt;
        is_no_saga(
            alloc,
            2,
            PLACE,
            b"\x02\0\0\0\x01\0\0\0\0\0\0\0\0\0\0\0\x01\0\0\0\0\0\0\0\0\0\0\0\0"
        )
    );
    // a field twice
    assert!(rt;
        is_no_saga(
            alloc,
            2,
            PLACE,
            b"\x01\0\0\0\0\0\0\0\0\0\0\0\x01\0\0\0\0\0\0\0\0\0\0\0\x02\0\0\0\x01f\x03\0\0\0\0\x01f\x03\x01"
        )
    );
    // and the same with two names
    assert!(rt;
        !is_no_saga(
            alloc,
            2,
            PLACE,
            b"\x01\0\0\0\0\0\0\0\0\0\0\0\x01\0\0\0\0\0\0\0\0\0\0\0\x02\0\0\0\x01f\x03\0\0\0\0\x01g\x03\x01"
        )
    );
    Ok(())
}

/// The change that a write of commit 12 is, as its space, its key, and the bytes that it puts.
#[tactic(auto, using(nb_saga_store::proofs::ChangeLaws::no_fields))]
fn changed(alloc: Global, write: Write) -> Result<(u8, Bytes, Option<Bytes>), NoMemory>
    requires { CanWrite write }
{
    let mut writes = Items::new(alloc);
    writes.push(write)?;
    let plan = Plan {
        writes,
        intents: Items::new(alloc),
    };
    let endpoint = Text::new(alloc, "Sales")?;
    let mut changes = write_changes(alloc, &plan, &endpoint, 12)?.into_vec();
    match changes.pop() {
        Some(Change::Put { space, key, bytes }) => Ok((space, key, Some(bytes))),
        Some(Change::Erase { space, key }) => Ok((space, key, None)),
        None => Err(NoMemory),
    }
}

/// Whether the change is of this place, and puts these bytes.
fn is_put(change: &(u8, Bytes, Option<Bytes>), space: u8, key: &[u8], bytes: &[u8]) -> bool {
    let put = match &change.2 {
        Some(put) => put.as_slice() == bytes,
        None => false,
    };
    change.0 == space && change.1.as_slice() == key && put
}

/// Whether the change takes away what is at this place.
fn is_erased(change: &(u8, Bytes, Option<Bytes>), space: u8, key: &[u8]) -> bool {
    change.0 == space && change.1.as_slice() == key && change.2.is_none()
}

ghost use Rattle.nb_saga_store.specs.Writes.{CanWrite};

#[test]
#[tactic(auto, using(nb_saga_store::proofs::ChangeLaws::no_fields))]
fn a_new_saga_has_an_id_of_the_commit(rt: HostRuntime) -> Result<(), Fail> {
    let alloc = rt.alloc();
    let saga = Text::new(alloc, "Order")?;
    let originator = Text::new(alloc, "")?;
    let original = Text::new(alloc, "p1")?;
    let made = changed(
        alloc,
        Write::SagaPut {
            saga,
            corr: Value::Int(7),
            revision: 1,
            which: SagaRef::New(1),
            originator,
            original,
            fields: Items::new(alloc),
        },
    )?;
    assert!(rt;
        is_put(
            &made,
            2,
            b"\0\0\0\x05Order\x01\0\0\0\0\0\0\0\x07",
            b"\x01\0\0\0\x0aSales/12/1\0\0\0\0\0\0\0\x0c\0\0\0\0\0\0\0\x02p1\0\0\0\0"
        )
    );
    Ok(())
}

#[test]
fn rows_are_put_and_erased(rt: HostRuntime) -> Result<(), Fail> {
    let alloc = rt.alloc();
    let ann = changed(
        alloc,
        Write::RowPut {
            name: Text::new(alloc, "ann")?,
            value: -1,
        },
    )?;
    assert!(rt;
        is_put(
            &ann,
            3,
            b"ann",
            b"\x01\0\0\0\0\0\0\0\x0c\xff\xff\xff\xff\xff\xff\xff\xff"
        )
    );
    let bob = changed(
        alloc,
        Write::RowErase {
            name: Text::new(alloc, "bob")?,
        },
    )?;
    assert!(rt; is_erased(&bob, 3, b"bob"));
    Ok(())
}

#[test]
fn a_saga_is_erased(rt: HostRuntime) -> Result<(), Fail> {
    let alloc = rt.alloc();
    let saga = Text::new(alloc, "Order")?;
    let gone = changed(
        alloc,
        Write::SagaErase {
            saga,
            corr: Value::Int(8),
        },
    )?;
    assert!(rt; is_erased(&gone, 2, b"\0\0\0\x05Order\x01\0\0\0\0\0\0\0\x08"));
    Ok(())
}

//! A store or the sink that fails.

use crate::{Seen, Stores, Trial, both_failing, failing, left_over, see_over, told_again};
use nb_base::{NoMemory, Which};
use std::alloc::Global;
use std::test::Fail;

const CREDITS: &str = r#"Credit c1 {"account":"ann","amount":5}
Credit c1 {"account":"ann","amount":5}"#;

/// A run of two equal credits.
fn credits(alloc: Global, stores: Stores) -> Result<Seen, NoMemory> {
    see_over(alloc, &Trial::new("run --at 0", CREDITS), stores)
}

#[test]
fn the_base_cannot_be_read(rt: HostRuntime) -> Result<(), Fail> {
    let alloc = rt.alloc();
    let seen = credits(alloc, failing(alloc, Which::Base, 1)?)?;
    assert_eq!(rt; seen.told.as_str(), "8 base store failed\n");
    assert_eq!(rt; seen.events.as_str(), "none");
    Ok(())
}

#[test]
fn the_post_cannot_be_read(rt: HostRuntime) -> Result<(), Fail> {
    let alloc = rt.alloc();
    let seen = credits(alloc, failing(alloc, Which::Post, 1)?)?;
    assert_eq!(rt; seen.told.as_str(), "9 post store failed\n");
    assert_eq!(rt; seen.events.as_str(), "none");
    Ok(())
}

#[test]
fn the_first_store_that_fails_ends_the_call(rt: HostRuntime) -> Result<(), Fail> {
    let alloc = rt.alloc();
    let seen = credits(alloc, both_failing(alloc)?)?;
    assert_eq!(rt; seen.told.as_str(), "8 base store failed\n");
    assert_eq!(rt; seen.events.as_str(), "none");
    assert_eq!(rt; seen.store_faults, 1);
    Ok(())
}

/// Two equal credits, printed ten bytes at a time; this write fails.
fn written(write: u64) -> Trial<'static> {
    Trial {
        piece: 10,
        write_fault: Some(write),
        ..Trial::new("run --at 0", CREDITS)
    }
}

#[test]
fn a_beginning_of_the_report_is_printed(rt: HostRuntime) -> Result<(), Fail> {
    let alloc = rt.alloc();
    let seen = see_over(alloc, &written(2), Stores::empty(alloc))?;
    assert_eq!(rt; seen.told.as_str(), "7 write fault\nmoment 197");
    Ok(())
}

#[test]
fn what_was_done_stays_done_where_it_cannot_be_printed(rt: HostRuntime) -> Result<(), Fail> {
    let alloc = rt.alloc();
    let left = left_over(alloc, &written(2), Stores::empty(alloc))?;
    let told = told_again(alloc, left, "show --at 0", "")?;
    assert_eq!(rt;
        told.as_str(),
        r#"0 done
moment 1970-01-01 00:00:00:000000 Z
commits 1
next 3
row "ann" 1 5
outbox "c1" 1 0 sent
"#
    );
    Ok(())
}

#[test]
fn the_first_write_may_fail(rt: HostRuntime) -> Result<(), Fail> {
    let alloc = rt.alloc();
    let seen = see_over(alloc, &written(1), Stores::empty(alloc))?;
    assert_eq!(rt; seen.told.as_str(), "7 write fault\n");
    Ok(())
}

#[test]
fn a_sample_that_cannot_be_printed_is_a_write_fault(rt: HostRuntime) -> Result<(), Fail> {
    let alloc = rt.alloc();
    let trial = Trial {
        piece: 3,
        write_fault: Some(3),
        ..Trial::new("sample --count 1", "")
    };
    let seen = see_over(alloc, &trial, Stores::empty(alloc))?;
    assert_eq!(rt; seen.told.as_str(), "7 write fault\nsample");
    assert_eq!(rt; seen.events.as_str(), "none");
    Ok(())
}

/// The key and the bytes of the one row of a base, one after the other.
fn row_of(alloc: Global, stores: Stores) -> Result<Vec<u8>, NoMemory> {
    let Stores { post: _, base } = stores;
    let cells = base.left(alloc)?;
    let mut out = Vec::new(alloc);
    for cell in cells.as_slice() {
        if cell.space == 3 {
            out.extend_from_slice(cell.key.as_slice())?;
            out.extend_from_slice(cell.bytes.as_slice())?;
        }
    }
    Ok(out)
}

#[test]
fn a_row_is_a_cell(rt: HostRuntime) -> Result<(), Fail> {
    let alloc = rt.alloc();
    let left = left_over(alloc, &written(1), Stores::empty(alloc))?;
    let row = row_of(alloc, left)?;
    assert_eq!(rt;
        row.as_slice(),
        b"ann\x01\x00\x00\x00\x00\x00\x00\x00\x01\x00\x00\x00\x00\x00\x00\x00\x05".as_slice()
    );
    Ok(())
}

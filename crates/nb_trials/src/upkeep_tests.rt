//! Stops in the middle of a `retry` and of a `purge`.

use crate::{
    NO_RETRIES, SCRIPT, Stores, Trial, left, left_over, left_with, see_again, stopping_again,
    told_again,
};
use nb_base::{NoMemory, Which};
use std::alloc::Global;
use std::test::Fail;

/// One message in error, in a post that stops at this apply.
fn failed(alloc: Global, apply: u64, after: bool) -> Result<Stores, NoMemory> {
    let left = left_with(alloc, SCRIPT, NO_RETRIES, "run --at 0", "Bad b1 {}")?;
    stopping_again(alloc, left, Which::Post, apply, after)
}

/// What a `retry` leaves whose post stops at this apply.
fn retry_stopped(alloc: Global, apply: u64, after: bool) -> Result<Stores, NoMemory> {
    let stores = failed(alloc, apply, after)?;
    left_over(alloc, &Trial::new("retry --at 0", ""), stores)
}

/// What a `retry` comes to whose first attempt was stopped.
fn retried_again(alloc: Global, apply: u64, after: bool) -> Result<String, NoMemory> {
    let stopped = retry_stopped(alloc, apply, after)?;
    told_again(alloc, stopped, "retry --at 0", "")
}

#[test]
fn a_retry_is_stopped_between_its_two_steps(rt: HostRuntime) -> Result<(), Fail> {
    let alloc = rt.alloc();
    let stores = failed(alloc, 2, false)?;
    let seen = see_again(alloc, stores, "retry --at 0", "")?;
    assert_eq!(rt; seen.told.as_str(), "9 post store failed\n");
    assert_eq!(rt; seen.events.as_str(), "PutBack Halt");
    Ok(())
}

#[test]
fn a_stop_may_leave_both_copies(rt: HostRuntime) -> Result<(), Fail> {
    let alloc = rt.alloc();
    let stopped = retry_stopped(alloc, 2, false)?;
    let told = told_again(alloc, stopped, "show --at 0", "")?;
    assert_eq!(rt;
        told.as_str(),
        r#"0 done
moment 1970-01-01 00:00:00:000000 Z
commits 0
next 4
queue "Sales" 3 "b1" "Bad" 0 "{}"
queue "error" 2 "b1" "Bad" 0 "{}"
fault "Sales" "Broken" "always" "1970-01-01 00:00:00:000000 Z" "Sales"
"#
    );
    Ok(())
}

const PUT_BACK_ONCE: &str = r#"0 done
moment 1970-01-01 00:00:00:000000 Z
commits 0
next 4
queue "Sales" 3 "b1" "Bad" 0 "{}"
"#;

const PUT_BACK_TWICE: &str = r#"0 done
moment 1970-01-01 00:00:00:000000 Z
commits 0
next 5
queue "Sales" 3 "b1" "Bad" 0 "{}"
queue "Sales" 4 "b1" "Bad" 0 "{}"
"#;

/// Stops of a retry: the apply of the post, whether it has its effect, and what is put back.
const RETRIES: &[(u64, bool, &str)] = &[
    (1, false, PUT_BACK_ONCE),
    (1, true, PUT_BACK_TWICE),
    (2, false, PUT_BACK_TWICE),
    (2, true, PUT_BACK_ONCE),
];

/// No stop loses the message; it may come back twice.
#[test]
fn a_retry_is_made_again_after_each_stop(rt: HostRuntime) -> Result<(), Fail> {
    let alloc = rt.alloc();
    for (apply, after, wanted) in RETRIES {
        assert_eq!(rt; retried_again(alloc, *apply, *after)?.as_str(), *wanted);
    }
    Ok(())
}

const CREDITS: &str = r#"Credit c1 {"account":"ann","amount":5}
Credit c2 {"account":"ann","amount":5}"#;

/// Two records, in a base that stops at this apply.
fn recorded(alloc: Global, apply: u64, after: bool) -> Result<Stores, NoMemory> {
    let left = left(alloc, "run --at 0", CREDITS)?;
    stopping_again(alloc, left, Which::Base, apply, after)
}

#[test]
fn a_purge_is_stopped(rt: HostRuntime) -> Result<(), Fail> {
    let alloc = rt.alloc();
    let stores = recorded(alloc, 2, false)?;
    let seen = see_again(alloc, stores, "purge --at 604800", "")?;
    assert_eq!(rt; seen.told.as_str(), "8 base store failed\n");
    assert_eq!(rt; seen.events.as_str(), "Purge Halt");
    Ok(())
}

/// What is left of two records of which a `purge` is stopped at this apply of the base.
fn purge_stopped(alloc: Global, apply: u64, after: bool) -> Result<String, NoMemory> {
    let stores = recorded(alloc, apply, after)?;
    let left = left_over(alloc, &Trial::new("purge --at 604800", ""), stores)?;
    told_again(alloc, left, "show --at 0", "")
}

const BOTH_RECORDS: &str = r#"0 done
moment 1970-01-01 00:00:00:000000 Z
commits 2
next 3
row "ann" 2 10
outbox "c1" 1 0 sent
outbox "c2" 2 0 sent
"#;

const ONE_RECORD: &str = r#"0 done
moment 1970-01-01 00:00:00:000000 Z
commits 2
next 3
row "ann" 2 10
outbox "c2" 2 0 sent
"#;

const NO_RECORD: &str = r#"0 done
moment 1970-01-01 00:00:00:000000 Z
commits 2
next 3
row "ann" 2 10
"#;

/// Stops of a purge: the apply of the base, whether it has its effect, and what is left.
const PURGES: &[(u64, bool, &str)] = &[
    (1, false, BOTH_RECORDS),
    (1, true, ONE_RECORD),
    (2, false, ONE_RECORD),
    (2, true, NO_RECORD),
];

#[test]
fn records_go_one_by_one(rt: HostRuntime) -> Result<(), Fail> {
    let alloc = rt.alloc();
    for (apply, after, wanted) in PURGES {
        assert_eq!(rt; purge_stopped(alloc, *apply, *after)?.as_str(), *wanted);
    }
    Ok(())
}

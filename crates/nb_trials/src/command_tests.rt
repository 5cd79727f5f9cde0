//! Commands on the stores that an earlier call left.

use crate::{
    FEW_RETRIES, SCRIPT, Stores, Trial, left, left_again, left_again_with, left_over, left_with,
    see_again, stopping, told, told_again, told_again_with, told_over,
};
use nb_base::{NoMemory, Which};
use std::alloc::Global;
use std::test::Fail;

const CREDITS: &str = r#"Credit c1 {"account":"ann","amount":5}
Credit c1 {"account":"ann","amount":5}"#;

/// A credit that came twice, handled.
fn credited(alloc: Global) -> Result<Stores, NoMemory> {
    left(alloc, "run --at 0", CREDITS)
}

const MIXED: &str = r#"Shop.PlaceOrder p1 {"orderId":"A","amount":1}
Credit c1 {"account":"ann","amount":5}
No n1 {}"#;

#[test]
fn a_show_prints_what_a_run_printed(rt: HostRuntime) -> Result<(), Fail> {
    let alloc = rt.alloc();
    let printed = told(alloc, "run --at 0", MIXED)?;
    let earlier = left(alloc, "run --at 0", MIXED)?;
    let shown = see_again(alloc, earlier, "show --at 0", "")?;
    assert_eq!(rt; shown.told.as_str(), printed.as_str());
    assert_eq!(rt; shown.events.as_str(), "");
    Ok(())
}

#[test]
fn a_show_has_its_own_moment(rt: HostRuntime) -> Result<(), Fail> {
    let alloc = rt.alloc();
    let earlier = credited(alloc)?;
    let told = told_again(alloc, earlier, "show --at 60", "")?;
    assert_eq!(rt;
        told.as_str(),
        r#"0 done
moment 1970-01-01 00:01:00:000000 Z
commits 1
next 3
row "ann" 1 5
outbox "c1" 1 0 sent
"#
    );
    Ok(())
}

#[test]
fn a_show_reads_no_lines_and_handles_none(rt: HostRuntime) -> Result<(), Fail> {
    let alloc = rt.alloc();
    let earlier = left(
        alloc,
        "run --at 0 --turns 1",
        "Credit c1 {\"account\":\"ann\",\"amount\":5}\nCredit c2 {\"account\":\"bob\",\"amount\":6}",
    )?;
    let told = told_again(alloc, earlier, "show --at 0", "no line")?;
    assert_eq!(rt;
        told.as_str(),
        r#"0 done
moment 1970-01-01 00:00:00:000000 Z
commits 1
next 3
row "ann" 1 5
outbox "c1" 1 0 sent
queue "Sales" 2 "c2" "Credit" 0 "{\"account\":\"bob\",\"amount\":6}"
"#
    );
    Ok(())
}

#[test]
fn a_run_goes_on_with_what_is_left(rt: HostRuntime) -> Result<(), Fail> {
    let alloc = rt.alloc();
    let earlier = left(
        alloc,
        "run --at 0 --turns 1",
        "Credit c1 {\"account\":\"ann\",\"amount\":5}\nCredit c2 {\"account\":\"bob\",\"amount\":6}",
    )?;
    let told = told_again(alloc, earlier, "run --at 0", "")?;
    assert_eq!(rt;
        told.as_str(),
        r#"0 done
moment 1970-01-01 00:00:00:000000 Z
commits 2
next 3
row "ann" 1 5
row "bob" 2 6
outbox "c1" 1 0 sent
outbox "c2" 2 0 sent
"#
    );
    Ok(())
}

#[test]
fn a_purge_before_the_time_keeps_the_record(rt: HostRuntime) -> Result<(), Fail> {
    let alloc = rt.alloc();
    let earlier = credited(alloc)?;
    let told = told_again(alloc, earlier, "purge --at 604799", "")?;
    assert_eq!(rt;
        told.as_str(),
        r#"0 done
moment 1970-01-07 23:59:59:000000 Z
commits 1
next 3
row "ann" 1 5
outbox "c1" 1 0 sent
"#
    );
    Ok(())
}

#[test]
fn a_purge_in_time_drops_the_record(rt: HostRuntime) -> Result<(), Fail> {
    let alloc = rt.alloc();
    let earlier = credited(alloc)?;
    let seen = see_again(alloc, earlier, "purge --at 604800", "")?;
    assert_eq!(rt;
        seen.told.as_str(),
        r#"0 done
moment 1970-01-08 00:00:00:000000 Z
commits 1
next 3
row "ann" 1 5
"#
    );
    assert_eq!(rt; seen.events.as_str(), "Purge");
    Ok(())
}

#[test]
fn after_a_purge_a_message_is_new_again(rt: HostRuntime) -> Result<(), Fail> {
    let alloc = rt.alloc();
    let earlier = credited(alloc)?;
    let purged = left_again(alloc, earlier, "purge --at 604800", "")?;
    let told = told_again(
        alloc,
        purged,
        "run --at 604800",
        r#"Credit c1 {"account":"ann","amount":5}"#,
    )?;
    assert_eq!(rt;
        told.as_str(),
        r#"0 done
moment 1970-01-08 00:00:00:000000 Z
commits 2
next 4
row "ann" 2 10
outbox "c1" 2 604800 sent
"#
    );
    Ok(())
}

#[test]
fn a_retry_puts_a_message_back(rt: HostRuntime) -> Result<(), Fail> {
    let alloc = rt.alloc();
    let earlier = left_with(
        alloc,
        SCRIPT,
        FEW_RETRIES,
        "run --at 0 --horizon 10",
        "Bad b1 {}",
    )?;
    let seen = see_again(alloc, earlier, "retry --at 0", "")?;
    assert_eq!(rt;
        seen.told.as_str(),
        r#"0 done
moment 1970-01-01 00:00:00:000000 Z
commits 0
next 5
queue "Sales" 4 "b1" "Bad" 0 "{}"
"#
    );
    assert_eq!(rt; seen.events.as_str(), "PutBack DropBack");
    Ok(())
}

#[test]
fn a_retry_without_failures_does_nothing(rt: HostRuntime) -> Result<(), Fail> {
    let alloc = rt.alloc();
    let earlier = credited(alloc)?;
    let seen = see_again(alloc, earlier, "retry --at 0", "")?;
    assert_eq!(rt;
        seen.told.as_str(),
        r#"0 done
moment 1970-01-01 00:00:00:000000 Z
commits 1
next 3
row "ann" 1 5
outbox "c1" 1 0 sent
"#
    );
    assert_eq!(rt; seen.events.as_str(), "");
    Ok(())
}

/// A script by which a message is handled that the first script refused.
const MENDED: &str = "message No { } handler No { add row(\"no\") by 1; }";

/// What a refused message leaves that is stopped between its copy for the error queue and its removal.
fn refused_and_stopped(alloc: Global) -> Result<Stores, NoMemory> {
    let stores = stopping(alloc, Which::Post, 3, false)?;
    left_over(alloc, &Trial::new("run --at 0", "No n1 {}"), stores)
}

#[test]
fn a_stop_may_come_between_a_copy_and_a_removal(rt: HostRuntime) -> Result<(), Fail> {
    let alloc = rt.alloc();
    let stores = stopping(alloc, Which::Post, 3, false)?;
    let told = told_over(alloc, &Trial::new("run --at 0", "No n1 {}"), stores)?;
    assert_eq!(rt; told.as_str(), "9 post store failed\n");
    Ok(())
}

#[test]
fn a_stop_may_leave_a_message_and_its_copy(rt: HostRuntime) -> Result<(), Fail> {
    let alloc = rt.alloc();
    let stopped = refused_and_stopped(alloc)?;
    let told = told_again(alloc, stopped, "show --at 0", "")?;
    assert_eq!(rt;
        told.as_str(),
        r#"0 done
moment 1970-01-01 00:00:00:000000 Z
commits 0
next 3
queue "Sales" 1 "n1" "No" 0 "{}"
queue "error" 2 "n1" "No" 0 "{}"
fault "Sales" "Refused" "never" "1970-01-01 00:00:00:000000 Z" "Sales"
"#
    );
    Ok(())
}

#[test]
fn the_message_may_be_handled_beside_its_copy(rt: HostRuntime) -> Result<(), Fail> {
    let alloc = rt.alloc();
    let stopped = refused_and_stopped(alloc)?;
    let told = told_again_with(alloc, stopped, MENDED, "run --at 0", "")?;
    assert_eq!(rt;
        told.as_str(),
        r#"0 done
moment 1970-01-01 00:00:00:000000 Z
commits 1
next 3
row "no" 1 1
outbox "n1" 1 0 sent
queue "error" 2 "n1" "No" 0 "{}"
fault "Sales" "Refused" "never" "1970-01-01 00:00:00:000000 Z" "Sales"
"#
    );
    Ok(())
}

/// What is left where the message was handled beside its copy.
fn handled(alloc: Global) -> Result<Stores, NoMemory> {
    let stopped = refused_and_stopped(alloc)?;
    left_again_with(alloc, stopped, MENDED, "run --at 0", "")
}

#[test]
fn the_copy_can_be_put_back(rt: HostRuntime) -> Result<(), Fail> {
    let alloc = rt.alloc();
    let told = told_again(alloc, handled(alloc)?, "retry --at 0", "")?;
    assert_eq!(rt;
        told.as_str(),
        r#"0 done
moment 1970-01-01 00:00:00:000000 Z
commits 1
next 4
row "no" 1 1
outbox "n1" 1 0 sent
queue "Sales" 3 "n1" "No" 0 "{}"
"#
    );
    Ok(())
}

#[test]
fn a_copy_that_is_put_back_is_not_handled_twice(rt: HostRuntime) -> Result<(), Fail> {
    let alloc = rt.alloc();
    let retried = left_again(alloc, handled(alloc)?, "retry --at 0", "")?;
    let told = told_again(alloc, retried, "run --at 0", "")?;
    assert_eq!(rt;
        told.as_str(),
        r#"0 done
moment 1970-01-01 00:00:00:000000 Z
commits 1
next 4
row "no" 1 1
outbox "n1" 1 0 sent
"#
    );
    Ok(())
}

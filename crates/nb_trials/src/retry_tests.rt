//! Messages that fail: they are tried again, at once and later, and go to the error queue.

use crate::{FEW_RETRIES, NO_RETRIES, SCRIPT, see, see_with, told};
use std::test::Fail;

#[test]
fn work_is_done_in_its_third_round(rt: HostRuntime) -> Result<(), Fail> {
    let alloc = rt.alloc();
    let seen = see(alloc, "run --at 1000 --horizon 30", "Work w1 {}")?;
    assert_eq!(rt;
        seen.told.as_str(),
        r#"0 done
moment 1970-01-01 00:17:10:000000 Z
commits 1
next 4
row "done" 1 1
outbox "w1" 1 1030 sent
"#
    );
    assert_eq!(rt; seen.takes, 13);
    Ok(())
}

#[test]
fn what_is_due_after_the_horizon_stays_delayed(rt: HostRuntime) -> Result<(), Fail> {
    let alloc = rt.alloc();
    let seen = see(alloc, "run --at 1000 --horizon 29", "Work w1 {}")?;
    assert_eq!(rt;
        seen.told.as_str(),
        r#"0 done
moment 1970-01-01 00:16:50:000000 Z
commits 0
next 4
delayed 1030 3 "Sales" "w1" "Work" 2 "{}"
"#
    );
    assert_eq!(rt; seen.takes, 12);
    Ok(())
}

#[test]
fn few_retries_are_made(rt: HostRuntime) -> Result<(), Fail> {
    let alloc = rt.alloc();
    let seen = see_with(
        alloc,
        SCRIPT,
        FEW_RETRIES,
        "run --at 0 --horizon 10",
        "Bad b1 {}",
    )?;
    assert_eq!(rt;
        seen.told.as_str(),
        r#"0 done
moment 1970-01-01 00:00:10:000000 Z
commits 0
next 4
queue "error" 3 "b1" "Bad" 1 "{}"
fault "Sales" "Broken" "always" "1970-01-01 00:00:10:000000 Z" "Sales"
"#
    );
    assert_eq!(rt;
        seen.events.as_str(),
        "Load Take Look Settle Take Look Settle Aside Remove Tick Release Take Look Settle Take Look Settle Aside Remove"
    );
    Ok(())
}

#[test]
fn no_retries_are_made(rt: HostRuntime) -> Result<(), Fail> {
    let alloc = rt.alloc();
    let seen = see_with(alloc, SCRIPT, NO_RETRIES, "run --at 0", "Bad b1 {}")?;
    assert_eq!(rt;
        seen.told.as_str(),
        r#"0 done
moment 1970-01-01 00:00:00:000000 Z
commits 0
next 3
queue "error" 2 "b1" "Bad" 0 "{}"
fault "Sales" "Broken" "always" "1970-01-01 00:00:00:000000 Z" "Sales"
"#
    );
    assert_eq!(rt; seen.takes, 1);
    Ok(())
}

#[test]
fn what_is_rejected_goes_to_error_at_once(rt: HostRuntime) -> Result<(), Fail> {
    let alloc = rt.alloc();
    let seen = see(alloc, "run --at 0", "No n1 {}")?;
    assert_eq!(rt;
        seen.told.as_str(),
        r#"0 done
moment 1970-01-01 00:00:00:000000 Z
commits 0
next 3
queue "error" 2 "n1" "No" 0 "{}"
fault "Sales" "Refused" "never" "1970-01-01 00:00:00:000000 Z" "Sales"
"#
    );
    assert_eq!(rt; seen.takes, 1);
    Ok(())
}

#[test]
fn a_body_that_is_no_json_goes_to_error_at_once(rt: HostRuntime) -> Result<(), Fail> {
    let alloc = rt.alloc();
    let seen = see(alloc, "run --at 0", "Credit x1 {")?;
    assert_eq!(rt;
        seen.told.as_str(),
        r#"0 done
moment 1970-01-01 00:00:00:000000 Z
commits 0
next 3
queue "error" 2 "x1" "Credit" 0 "{"
fault "Sales" "Undecodable" "the body is not an object with the fields of Credit" "1970-01-01 00:00:00:000000 Z" "Sales"
"#
    );
    assert_eq!(rt; seen.takes, 1);
    Ok(())
}

#[test]
fn a_type_that_is_not_declared_goes_to_error_at_once(rt: HostRuntime) -> Result<(), Fail> {
    let alloc = rt.alloc();
    let seen = see(alloc, "run --at 0", "Nope x2 {}")?;
    assert_eq!(rt;
        seen.told.as_str(),
        r#"0 done
moment 1970-01-01 00:00:00:000000 Z
commits 0
next 3
queue "error" 2 "x2" "Nope" 0 "{}"
fault "Sales" "Undeclared" "no declared message in \"Nope\"" "1970-01-01 00:00:00:000000 Z" "Sales"
"#
    );
    assert_eq!(rt; seen.takes, 1);
    Ok(())
}

#[test]
fn a_type_that_no_block_meets_goes_to_error_at_once(rt: HostRuntime) -> Result<(), Fail> {
    let told = told(rt.alloc(), "run --at 0", "Told t1 {}")?;
    assert_eq!(rt;
        told.as_str(),
        r#"0 done
moment 1970-01-01 00:00:00:000000 Z
commits 0
next 3
queue "error" 2 "t1" "Told" 0 "{}"
fault "Sales" "NoHandler" "no block meets Told" "1970-01-01 00:00:00:000000 Z" "Sales"
"#
    );
    Ok(())
}

#[test]
fn the_round_that_comes_in_a_header_counts(rt: HostRuntime) -> Result<(), Fail> {
    let alloc = rt.alloc();
    let seen = see(
        alloc,
        "run --at 0",
        r#"{"headers":{"NServiceBus.EnclosedMessageTypes":"Bad","NServiceBus.MessageId":"b1","NServiceBus.Retries":"3"},"body":"{}"}"#,
    )?;
    assert_eq!(rt;
        seen.told.as_str(),
        r#"0 done
moment 1970-01-01 00:00:00:000000 Z
commits 0
next 3
queue "error" 2 "b1" "Bad" 3 "{}"
fault "Sales" "Broken" "always" "1970-01-01 00:00:00:000000 Z" "Sales"
"#
    );
    assert_eq!(rt; seen.takes, 6);
    Ok(())
}

#[test]
fn a_sum_that_is_too_great_fails(rt: HostRuntime) -> Result<(), Fail> {
    let told = told(
        rt.alloc(),
        "run --at 0 --horizon 60",
        r#"Credit c1 {"account":"ann","amount":9223372036854775807}
Credit c2 {"account":"ann","amount":1}"#,
    )?;
    assert_eq!(rt;
        told.as_str(),
        r#"0 done
moment 1970-01-01 00:01:00:000000 Z
commits 1
next 7
row "ann" 1 9223372036854775807
outbox "c1" 1 0 sent
queue "error" 6 "c2" "Credit" 3 "{\"account\":\"ann\",\"amount\":1}"
fault "Sales" "Overflow" "a number left the range of 64 bits" "1970-01-01 00:01:00:000000 Z" "Sales"
"#
    );
    Ok(())
}

const TWO_CREDITS: &str = r#"Credit c1 {"account":"ann","amount":1}
Credit c2 {"account":"ann","amount":1}"#;

#[test]
fn one_take_leaves_the_second_message(rt: HostRuntime) -> Result<(), Fail> {
    let alloc = rt.alloc();
    let seen = see(alloc, "run --at 0 --turns 1", TWO_CREDITS)?;
    assert_eq!(rt;
        seen.told.as_str(),
        r#"1 not drained after 1 takes
moment 1970-01-01 00:00:00:000000 Z
commits 1
next 3
row "ann" 1 1
outbox "c1" 1 0 sent
queue "Sales" 2 "c2" "Credit" 0 "{\"account\":\"ann\",\"amount\":1}"
"#
    );
    assert_eq!(rt; seen.takes, 1);
    Ok(())
}

#[test]
fn two_takes_are_enough_for_two_messages(rt: HostRuntime) -> Result<(), Fail> {
    let told = told(rt.alloc(), "run --at 0 --turns 2", TWO_CREDITS)?;
    assert_eq!(rt;
        told.as_str(),
        r#"0 done
moment 1970-01-01 00:00:00:000000 Z
commits 2
next 3
row "ann" 2 2
outbox "c1" 1 0 sent
outbox "c2" 2 0 sent
"#
    );
    Ok(())
}

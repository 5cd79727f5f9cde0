//! Messages that are handled: rows, sagas, records and the messages that are sent.

use crate::{Stores, Trial, messages, see, see_over, told, told_over};
use std::test::Fail;

#[test]
fn nothing_comes_of_no_input(rt: HostRuntime) -> Result<(), Fail> {
    let told = told(rt.alloc(), "run --at 0", "")?;
    assert_eq!(rt;
        told.as_str(),
        r#"0 done
moment 1970-01-01 00:00:00:000000 Z
commits 0
next 1
"#
    );
    Ok(())
}

#[test]
fn the_last_moment_is_taken(rt: HostRuntime) -> Result<(), Fail> {
    let told = told(rt.alloc(), "run --at 253402300799", "")?;
    assert_eq!(rt;
        told.as_str(),
        r#"0 done
moment 9999-12-31 23:59:59:000000 Z
commits 0
next 1
"#
    );
    Ok(())
}

#[test]
fn the_clock_is_asked_where_no_moment_is_said(rt: HostRuntime) -> Result<(), Fail> {
    let told = told(
        rt.alloc(),
        "run",
        "Credit c1 {\"account\":\"ann\",\"amount\":5}",
    )?;
    assert_eq!(rt;
        told.as_str(),
        r#"0 done
moment 2023-11-14 22:13:20:000000 Z
commits 1
next 2
row "ann" 1 5
outbox "c1" 1 1700000000 sent
"#
    );
    Ok(())
}

const FIRST_ORDER: &str =
    r#"{"headers":{"NServiceBus.EnclosedMessageTypes":"Shop.PlaceOrder, Shop.Messages, Version=1.0.0.0, Culture=neutral, PublicKeyToken=null","NServiceBus.MessageId":"0f8fad5b-d9cb-469f-a165-70867728950e","NServiceBus.ReplyToAddress":"Web"},"body":"{\"orderId\":\"A-1\",\"amount\":250}"}"#;

const FIRST_ORDER_REPORT: &str = r#"0 done
moment 2023-11-14 22:13:20:000000 Z
commits 1
next 4
saga Order "A-1" "Sales/1/1" 1 "Web" "0f8fad5b-d9cb-469f-a165-70867728950e" total=250 paid=false
outbox "0f8fad5b-d9cb-469f-a165-70867728950e" 1 1700000000 sent
queue "Billing" 2 "Sales/1/1" "Charge" 0 "{\"amount\":250,\"orderId\":\"A-1\"}"
delayed 1700003600 3 "Sales" "Sales/1/2" "OrderExpired" 0 "{\"orderId\":\"A-1\"}"
"#;

#[test]
fn an_order_is_placed(rt: HostRuntime) -> Result<(), Fail> {
    let alloc = rt.alloc();
    let trial = Trial {
        raw: true,
        ..Trial::new("run --at 1700000000", FIRST_ORDER)
    };
    let seen = see_over(alloc, &trial, Stores::empty(alloc))?;
    assert_eq!(rt; seen.told.as_str(), FIRST_ORDER_REPORT);
    assert_eq!(rt;
        seen.events.as_str(),
        "Load Take Look Settle Send Send Mark Remove"
    );
    Ok(())
}

#[test]
fn a_byte_at_a_time_comes_to_the_same(rt: HostRuntime) -> Result<(), Fail> {
    let alloc = rt.alloc();
    let trial = Trial {
        raw: true,
        piece: 1,
        ..Trial::new("run --at 1700000000", FIRST_ORDER)
    };
    let told = told_over(alloc, &trial, Stores::empty(alloc))?;
    assert_eq!(rt; told.as_str(), FIRST_ORDER_REPORT);
    Ok(())
}

const ONE_CREDIT: &str = r#"0 done
moment 1970-01-01 00:00:00:000000 Z
commits 1
next 3
row "ann" 1 5
outbox "c1" 1 0 sent
"#;

#[test]
fn a_message_that_comes_twice_is_handled_once(rt: HostRuntime) -> Result<(), Fail> {
    let alloc = rt.alloc();
    let seen = see(
        alloc,
        "run --at 0",
        r#"Credit c1 {"account":"ann","amount":5}
Credit c1 {"account":"ann","amount":5}"#,
    )?;
    assert_eq!(rt; seen.told.as_str(), ONE_CREDIT);
    assert_eq!(rt;
        seen.events.as_str(),
        "Load Load Take Look Settle Mark Remove Take Look Remove"
    );
    Ok(())
}

#[test]
fn the_id_alone_names_a_message(rt: HostRuntime) -> Result<(), Fail> {
    let told = told(
        rt.alloc(),
        "run --at 0",
        r#"Credit c1 {"account":"ann","amount":5}
Credit c1 {"account":"ann","amount":7}"#,
    )?;
    assert_eq!(rt; told.as_str(), ONE_CREDIT);
    Ok(())
}

#[test]
fn what_finds_no_saga_has_no_effect_on_one(rt: HostRuntime) -> Result<(), Fail> {
    let told = told(rt.alloc(), "run --at 0", r#"Cancel x1 {"orderId":"Z"}"#)?;
    assert_eq!(rt;
        told.as_str(),
        r#"0 done
moment 1970-01-01 00:00:00:000000 Z
commits 1
next 2
outbox "x1" 1 0 sent
"#
    );
    Ok(())
}

#[test]
fn a_handler_runs_also_where_no_saga_is_found(rt: HostRuntime) -> Result<(), Fail> {
    let told = told(rt.alloc(), "run --at 0", r#"OrderPaid o1 {"orderId":"Z"}"#)?;
    assert_eq!(rt;
        told.as_str(),
        r#"0 done
moment 1970-01-01 00:00:00:000000 Z
commits 1
next 2
row "paid" 1 1
outbox "o1" 1 0 sent
"#
    );
    Ok(())
}

/// An order that is paid, and placed again: the timeout of the first instance finds none.
#[test]
fn a_timeout_finds_only_its_own_instance(rt: HostRuntime) -> Result<(), Fail> {
    let told = told(
        rt.alloc(),
        "run --at 0 --horizon 3600",
        r#"Shop.PlaceOrder p1 {"orderId":"A","amount":1}
OrderPaid o1 {"orderId":"A"}
Shop.PlaceOrder p2 {"orderId":"A","amount":2}"#,
    )?;
    assert_eq!(rt;
        told.as_str(),
        r#"0 done
moment 1970-01-01 01:00:00:000000 Z
commits 5
next 8
row "expired" 5 1
row "paid" 2 1
outbox "Sales/1/2" 4 3600 sent
outbox "Sales/3/2" 5 3600 sent
outbox "o1" 2 0 sent
outbox "p1" 1 0 sent
outbox "p2" 3 0 sent
queue "Billing" 4 "Sales/1/1" "Charge" 0 "{\"amount\":1,\"orderId\":\"A\"}"
queue "Billing" 6 "Sales/3/1" "Charge" 0 "{\"amount\":2,\"orderId\":\"A\"}"
"#
    );
    Ok(())
}

#[test]
fn a_second_order_adds_to_the_first(rt: HostRuntime) -> Result<(), Fail> {
    let told = told(
        rt.alloc(),
        "run --at 0 --horizon 3599",
        r#"Shop.PlaceOrder p1 {"orderId":"A","amount":1}
Shop.PlaceOrder p2 {"orderId":"A","amount":2}"#,
    )?;
    assert_eq!(rt;
        told.as_str(),
        r#"0 done
moment 1970-01-01 00:00:00:000000 Z
commits 2
next 7
saga Order "A" "Sales/1/1" 2 "" "p1" total=3 paid=false
outbox "p1" 1 0 sent
outbox "p2" 2 0 sent
queue "Billing" 3 "Sales/1/1" "Charge" 0 "{\"amount\":1,\"orderId\":\"A\"}"
queue "Billing" 5 "Sales/2/1" "Charge" 0 "{\"amount\":2,\"orderId\":\"A\"}"
delayed 3600 4 "Sales" "Sales/1/2" "OrderExpired" 0 "{\"orderId\":\"A\"}"
delayed 3600 6 "Sales" "Sales/2/2" "OrderExpired" 0 "{\"orderId\":\"A\"}"
"#
    );
    Ok(())
}

#[test]
fn input_lines_are_written_out(rt: HostRuntime) -> Result<(), Fail> {
    let lines = messages(rt.alloc(), "Credit c1 {\"account\":\"a\"}\n{}\n")?;
    assert_eq!(rt;
        lines.as_str(),
        "{\"headers\":{\"NServiceBus.EnclosedMessageTypes\":\"Credit\",\"NServiceBus.MessageId\":\"c1\"},\"body\":\"{\\\"account\\\":\\\"a\\\"}\"}\n{}\n"
    );
    Ok(())
}

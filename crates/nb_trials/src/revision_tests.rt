//! Sagas that gain a field.

use crate::{
    SETTINGS, Stores, Trial, left_again_with, left_over, told_again, told_again_with, told_with,
};
use nb_base::NoMemory;
use std::alloc::Global;
use std::test::Fail;

const FIRST_ORDER: &str =
    r#"{"headers":{"NServiceBus.EnclosedMessageTypes":"Shop.PlaceOrder, Shop.Messages, Version=1.0.0.0, Culture=neutral, PublicKeyToken=null","NServiceBus.MessageId":"0f8fad5b-d9cb-469f-a165-70867728950e","NServiceBus.ReplyToAddress":"Web"},"body":"{\"orderId\":\"A-1\",\"amount\":250}"}"#;

/// The script of most trials, with one field more in its saga.
const REVISED: &str = r#"message Shop.PlaceOrder { orderId: text, amount: int }
message Charge { orderId: text, amount: int }
message OrderPaid { orderId: text }
message Cancel { orderId: text }
message OrderExpired { orderId: text }
message Credit { account: text, amount: int }
message Work { } message Bad { } message No { } message Ask { } message Told { }
saga Order revision 2 on orderId: text {
  fields { total: int, paid: bool, note: text since 2 = "none" }
  start Shop.PlaceOrder by orderId {
    set total = saga.total + msg.amount;
    send Charge { orderId: msg.orderId, amount: msg.amount };
    timeout 3600 OrderExpired { orderId: msg.orderId };
  }
  find OrderPaid by orderId { set paid = true; complete; }
  find Cancel by orderId { complete; }
  timeout OrderExpired { add row("expired") by 1; complete; }
}
handler OrderPaid { add row("paid") by 1; }
handler Credit { add row(msg.account) by msg.amount; }
handler Work { if retries < 2 { fail Busy "later"; } add row("done") by 1; }
handler Bad { fail Broken "always"; }
handler No { reject Refused "never"; }
handler Ask { reply Told { }; }
"#;

/// What a first order leaves.
fn ordered(alloc: Global) -> Result<Stores, NoMemory> {
    let trial = Trial {
        raw: true,
        ..Trial::new("run --at 1700000000", FIRST_ORDER)
    };
    left_over(alloc, &trial, Stores::empty(alloc))
}

const SECOND_ORDER: &str = r#"Shop.PlaceOrder p2 {"orderId":"A-1","amount":1}"#;

#[test]
fn a_new_field_has_its_literal(rt: HostRuntime) -> Result<(), Fail> {
    let alloc = rt.alloc();
    let first = ordered(alloc)?;
    let told = told_again_with(alloc, first, REVISED, "run --at 1700000000", SECOND_ORDER)?;
    assert_eq!(rt;
        told.as_str(),
        r#"0 done
moment 2023-11-14 22:13:20:000000 Z
commits 2
next 7
saga Order "A-1" "Sales/1/1" 2 "Web" "0f8fad5b-d9cb-469f-a165-70867728950e" total=251 paid=false note="none"
outbox "0f8fad5b-d9cb-469f-a165-70867728950e" 1 1700000000 sent
outbox "p2" 2 1700000000 sent
queue "Billing" 2 "Sales/1/1" "Charge" 0 "{\"amount\":250,\"orderId\":\"A-1\"}"
queue "Billing" 5 "Sales/2/1" "Charge" 0 "{\"amount\":1,\"orderId\":\"A-1\"}"
delayed 1700003600 3 "Sales" "Sales/1/2" "OrderExpired" 0 "{\"orderId\":\"A-1\"}"
delayed 1700003600 6 "Sales" "Sales/2/2" "OrderExpired" 0 "{\"orderId\":\"A-1\"}"
"#
    );
    Ok(())
}

/// What a second order leaves that comes when the saga has a field more.
fn revised(alloc: Global) -> Result<Stores, NoMemory> {
    let first = ordered(alloc)?;
    left_again_with(alloc, first, REVISED, "run --at 1700000000", SECOND_ORDER)
}

/// How the cell of a saga begins that has a second revision.
const SECOND: &[u8] =
    b"\x02\x00\x00\x00\x02\x00\x00\x00\x09Sales/1/1\x00\x00\x00\x00\x00\x00\x00\x02";

/// How many sagas a base has whose cell begins with these bytes.
fn sagas(alloc: Global, stores: Stores, start: &[u8]) -> Result<usize, NoMemory> {
    let Stores { post: _, base } = stores;
    let cells = base.left(alloc)?;
    let mut count = 0usize;
    for cell in cells.as_slice() {
        if cell.space == 2 && cell.bytes.as_slice().starts_with(start) {
            count = count.saturating_add(1);
        }
    }
    Ok(count)
}

#[test]
fn the_revision_is_stored(rt: HostRuntime) -> Result<(), Fail> {
    let alloc = rt.alloc();
    let count = sagas(alloc, revised(alloc)?, SECOND)?;
    assert_eq!(rt; count, 1);
    Ok(())
}

#[test]
fn an_older_script_does_not_fit(rt: HostRuntime) -> Result<(), Fail> {
    let alloc = rt.alloc();
    let told = told_again(alloc, revised(alloc)?, "run --at 1700000000", "")?;
    assert_eq!(rt;
        told.as_str(),
        "11 damaged Base 2 000000054f726465720200000003412d31\n"
    );
    Ok(())
}

#[test]
fn a_field_is_not_newer_than_its_saga(rt: HostRuntime) -> Result<(), Fail> {
    let told = told_with(
        rt.alloc(),
        "saga S on a: int { fields { b: int since 1 = 0 } }",
        SETTINGS,
        "run --at 0",
        "",
    )?;
    assert_eq!(rt; told.as_str(), "3 script 1:42: BadRevision\n");
    Ok(())
}

use crate::call::{Called, call};
use nb_base::NoMemory;
use nb_cells::CellFault;
use nb_sql::SqlCells;
use sqlite::MemStore;
use std::alloc::Global;
use std::test::Fail;

/// What a call over two databases in memory comes to.
type Kept = Called<SqlCells<MemStore>, SqlCells<MemStore>>;

/// A call over two new databases in memory.
fn first(alloc: Global, words: &str, input: &str) -> Result<Kept, CellFault> {
    let post = SqlCells::in_memory(alloc)?;
    let base = SqlCells::in_memory(alloc)?;
    Ok(call(alloc, words, input, post, base)?)
}

/// A call over the databases that another one left.
fn again(alloc: Global, words: &str, input: &str, left: Kept) -> Result<Kept, NoMemory> {
    let Called { post, base, .. } = left;
    call(alloc, words, input, post, base)
}

const ORDER: &str =
    r#"{"headers":{"NServiceBus.EnclosedMessageTypes":"Shop.PlaceOrder, Shop.Messages, Version=1.0.0.0","NServiceBus.MessageId":"place-1","NServiceBus.ReplyToAddress":"Web"},"body":"{\"orderId\":\"A-1\",\"amount\":250}"}"#;

const ORDERED: &str = r#"moment 2023-11-14 22:13:20:000000 Z
commits 1
next 4
saga Order "A-1" "Sales/1/1" 1 "Web" "place-1" total=250
outbox "place-1" 1 1700000000 sent
queue "Billing" 2 "Sales/1/1" "Charge" 0 "{\"amount\":250,\"orderId\":\"A-1\"}"
delayed 1700003600 3 "Sales" "Sales/1/2" "OrderExpired" 0 "{\"orderId\":\"A-1\"}"
"#;

const CREDIT: &str =
    r#"{"headers":{"NServiceBus.EnclosedMessageTypes":"Credit","NServiceBus.MessageId":"c1"},"body":"{\"account\":\"ann\",\"amount\":5}"}"#;

const CREDITED: &str = r#"moment 1970-01-01 00:00:00:000000 Z
commits 1
next 3
row "ann" 1 5
outbox "c1" 1 0 sent
"#;

/// Whether a call ended with status 0 and this report.
fn is_done(called: &Kept, report: &str) -> bool {
    called.code == 0 && called.out.as_str() == report
}

#[test]
fn an_order_is_placed(rt: HostRuntime) -> Result<(), Fail> {
    let called = first(rt.alloc(), "run --at 1700000000", ORDER)?;
    assert!(rt; is_done(&called, ORDERED));
    Ok(())
}

#[test]
fn what_was_kept_is_shown_again(rt: HostRuntime) -> Result<(), Fail> {
    let left = first(rt.alloc(), "run --at 1700000000", ORDER)?;
    let called = again(rt.alloc(), "show --at 1700000000", "", left)?;
    assert!(rt; is_done(&called, ORDERED));
    Ok(())
}

#[test]
fn a_duplicate_in_a_later_run_changes_nothing(rt: HostRuntime) -> Result<(), Fail> {
    let left = first(rt.alloc(), "run --at 0", CREDIT)?;
    let called = again(rt.alloc(), "run --at 0", CREDIT, left)?;
    assert!(rt; is_done(&called, CREDITED));
    Ok(())
}

//! Stops in the middle of a run, before and after the effect of a call of a store, and what the next run makes of them.

use crate::{
    SETTINGS, Seen, Stores, Trial, left_over, see_over, settled, stopping, told_again,
    told_again_with,
};
use nb_base::{NoMemory, Which};
use std::alloc::Global;
use std::test::Fail;

/// What is seen of a run in which one store stops at this apply.
fn stopped(
    alloc: Global,
    which: Which,
    apply: u64,
    after: bool,
    words: &str,
    text: &str,
) -> Result<Seen, NoMemory> {
    let stores = stopping(alloc, which, apply, after)?;
    see_over(alloc, &Trial::new(words, text), stores)
}

/// What a run leaves in which one store stops at this apply.
fn left_stopped(
    alloc: Global,
    which: Which,
    apply: u64,
    after: bool,
    words: &str,
    text: &str,
) -> Result<Stores, NoMemory> {
    let stores = stopping(alloc, which, apply, after)?;
    left_over(alloc, &Trial::new(words, text), stores)
}

const ORDER: &str = r#"Shop.PlaceOrder p1 {"orderId":"A","amount":1}"#;

#[test]
fn a_stop_may_come_between_sending_and_marking(rt: HostRuntime) -> Result<(), Fail> {
    let alloc = rt.alloc();
    let seen = stopped(alloc, Which::Post, 3, false, "run --at 0", ORDER)?;
    assert_eq!(rt; seen.told.as_str(), "9 post store failed\n");
    assert_eq!(rt; seen.events.as_str(), "Load Take Look Settle Send Halt");
    Ok(())
}

#[test]
fn after_a_stop_between_sending_and_marking_it_is_sent_again(rt: HostRuntime) -> Result<(), Fail> {
    let alloc = rt.alloc();
    let left = left_stopped(alloc, Which::Post, 3, false, "run --at 0", ORDER)?;
    let told = told_again(alloc, left, "run --at 0", "")?;
    assert_eq!(rt;
        told.as_str(),
        r#"0 done
moment 1970-01-01 00:00:00:000000 Z
commits 1
next 5
saga Order "A" "Sales/1/1" 1 "" "p1" total=1 paid=false
outbox "p1" 1 0 sent
queue "Billing" 2 "Sales/1/1" "Charge" 0 "{\"amount\":1,\"orderId\":\"A\"}"
queue "Billing" 3 "Sales/1/1" "Charge" 0 "{\"amount\":1,\"orderId\":\"A\"}"
delayed 3600 4 "Sales" "Sales/1/2" "OrderExpired" 0 "{\"orderId\":\"A\"}"
"#
    );
    Ok(())
}

const CREDITS: &str = r#"Credit c1 {"account":"ann","amount":5}
Credit c1 {"account":"ann","amount":5}"#;

#[test]
fn a_stop_may_come_before_a_removal(rt: HostRuntime) -> Result<(), Fail> {
    let alloc = rt.alloc();
    let seen = stopped(alloc, Which::Post, 3, false, "run --at 0", CREDITS)?;
    assert_eq!(rt; seen.told.as_str(), "9 post store failed\n");
    assert_eq!(rt;
        seen.events.as_str(),
        "Load Load Take Look Settle Mark Halt"
    );
    Ok(())
}

#[test]
fn a_stop_before_a_removal_leaves_a_sent_record(rt: HostRuntime) -> Result<(), Fail> {
    let alloc = rt.alloc();
    let left = left_stopped(alloc, Which::Post, 3, false, "run --at 0", CREDITS)?;
    let told = told_again(alloc, left, "show --at 0", "")?;
    assert_eq!(rt;
        told.as_str(),
        r#"0 done
moment 1970-01-01 00:00:00:000000 Z
commits 1
next 3
row "ann" 1 5
outbox "c1" 1 0 sent
queue "Sales" 1 "c1" "Credit" 0 "{\"account\":\"ann\",\"amount\":5}"
queue "Sales" 2 "c1" "Credit" 0 "{\"account\":\"ann\",\"amount\":5}"
"#
    );
    Ok(())
}

#[test]
fn a_stop_may_come_with_a_commit(rt: HostRuntime) -> Result<(), Fail> {
    let alloc = rt.alloc();
    let seen = stopped(alloc, Which::Base, 1, true, "run --at 0", CREDITS)?;
    assert_eq!(rt; seen.told.as_str(), "8 base store failed\n");
    assert_eq!(rt; seen.events.as_str(), "Load Load Take Look Halt");
    Ok(())
}

#[test]
fn after_a_commit_that_was_stopped_a_record_is_pending(rt: HostRuntime) -> Result<(), Fail> {
    let alloc = rt.alloc();
    let left = left_stopped(alloc, Which::Base, 1, true, "run --at 0", CREDITS)?;
    let told = told_again(alloc, left, "show --at 0", "")?;
    assert_eq!(rt;
        told.as_str(),
        r#"0 done
moment 1970-01-01 00:00:00:000000 Z
commits 1
next 3
row "ann" 1 5
outbox "c1" 1 0 pending 0
queue "Sales" 1 "c1" "Credit" 0 "{\"account\":\"ann\",\"amount\":5}"
queue "Sales" 2 "c1" "Credit" 0 "{\"account\":\"ann\",\"amount\":5}"
"#
    );
    Ok(())
}

const CHARGES: &str =
    "message Go { } message Charge { n: int } handler Go { send Charge { n: 1 }; send Charge { n: 2 }; }";

/// A run that sends two messages.
fn charges() -> Trial<'static> {
    Trial::with(CHARGES, SETTINGS, "run --at 0", "Go g1 {}")
}

#[test]
fn a_stop_may_come_between_two_messages_of_a_batch(rt: HostRuntime) -> Result<(), Fail> {
    let alloc = rt.alloc();
    let stores = stopping(alloc, Which::Post, 3, false)?;
    let seen = see_over(alloc, &charges(), stores)?;
    assert_eq!(rt; seen.told.as_str(), "9 post store failed\n");
    assert_eq!(rt; seen.events.as_str(), "Load Take Look Settle Send Halt");
    Ok(())
}

#[test]
fn what_was_sent_of_a_batch_is_sent_again(rt: HostRuntime) -> Result<(), Fail> {
    let alloc = rt.alloc();
    let stores = stopping(alloc, Which::Post, 3, false)?;
    let left = left_over(alloc, &charges(), stores)?;
    let told = told_again_with(alloc, left, CHARGES, "run --at 0", "")?;
    assert_eq!(rt;
        told.as_str(),
        r#"0 done
moment 1970-01-01 00:00:00:000000 Z
commits 1
next 5
outbox "g1" 1 0 sent
queue "Billing" 2 "Sales/1/1" "Charge" 0 "{\"n\":1}"
queue "Billing" 3 "Sales/1/1" "Charge" 0 "{\"n\":1}"
queue "Billing" 4 "Sales/1/2" "Charge" 0 "{\"n\":2}"
"#
    );
    Ok(())
}

/// The code of the status with which a failure of this store ends a run.
fn code_of(which: Which) -> u8 {
    match which {
        Which::Base => 8,
        Which::Post => 9,
    }
}

/// Whether a run ends with a failure of a store at this apply, and prints nothing.
fn does_stop(
    alloc: Global,
    which: Which,
    apply: u64,
    after: bool,
    words: &str,
    text: &str,
) -> Result<bool, NoMemory> {
    let seen = stopped(alloc, which, apply, after, words, text)?;
    Ok(seen.code == code_of(which) && seen.told.as_str().lines().count() == 1)
}

/// What the next run comes to after one that stopped, without what a stop may change.
fn settled_after(
    alloc: Global,
    which: Which,
    apply: u64,
    after: bool,
    words: &str,
    text: &str,
) -> Result<String, NoMemory> {
    let left = left_stopped(alloc, which, apply, after, words, text)?;
    let told = told_again(alloc, left, words, "")?;
    settled(alloc, told.as_str())
}

/// Whether a run that stops at an apply of a store ends so, and the next run comes to what is wanted.
fn comes_to(
    alloc: Global,
    which: Which,
    apply: u64,
    after: bool,
    words: &str,
    text: &str,
    wanted: &str,
) -> Result<bool, NoMemory> {
    if !does_stop(alloc, which, apply, after, words, text)? {
        return Ok(false);
    }
    let done = settled_after(alloc, which, apply, after, words, text)?;
    Ok(done.as_str() == wanted)
}

const ONE_CREDIT: &str = r#"0 done 
commits 1 
row "ann" 1 5 
outbox "c1" 1 sent 
"#;

/// Whether two equal credits come to one, also with this stop.
fn credits_come(
    alloc: Global,
    which: Which,
    apply: u64,
    after: bool,
    wanted: &str,
) -> Result<bool, NoMemory> {
    comes_to(alloc, which, apply, after, "run --at 0", CREDITS, wanted)
}

/// Stops of a run of credits: the store, its apply, whether that has its effect, and what the next run comes to.
const STOPS_OF_CREDITS: &[(Which, u64, bool, &str)] = &[
    (Which::Post, 1, false, "0 done \ncommits 0 \n"),
    (Which::Post, 1, true, ONE_CREDIT),
    (Which::Post, 2, false, ONE_CREDIT),
    (Which::Post, 2, true, ONE_CREDIT),
    (Which::Post, 3, false, ONE_CREDIT),
    (Which::Post, 3, true, ONE_CREDIT),
    (Which::Post, 4, false, ONE_CREDIT),
    (Which::Post, 4, true, ONE_CREDIT),
    (Which::Base, 1, false, ONE_CREDIT),
    (Which::Base, 1, true, ONE_CREDIT),
    (Which::Base, 2, false, ONE_CREDIT),
    (Which::Base, 2, true, ONE_CREDIT),
];

#[test]
fn credits_survive_each_stop(rt: HostRuntime) -> Result<(), Fail> {
    let alloc = rt.alloc();
    for (which, apply, after, wanted) in STOPS_OF_CREDITS {
        assert!(rt; credits_come(alloc, *which, *apply, *after, wanted)?);
    }
    Ok(())
}

#[test]
fn credits_make_four_applies_of_the_post_and_two_of_the_base(rt: HostRuntime) -> Result<(), Fail> {
    let alloc = rt.alloc();
    let post = stopped(alloc, Which::Post, 5, false, "run --at 0", CREDITS)?;
    assert_eq!(rt; post.code, 0);
    let base = stopped(alloc, Which::Base, 3, false, "run --at 0", CREDITS)?;
    assert_eq!(rt; base.code, 0);
    Ok(())
}

const ORDERS: &str = r#"Shop.PlaceOrder p1 {"orderId":"A","amount":1}
OrderPaid o1 {"orderId":"A"}
Shop.PlaceOrder p2 {"orderId":"A","amount":2}"#;

const HOUR: &str = "run --at 0 --horizon 3600";

/// What an order, its payment and a second order come to within an hour.
const ALL_ORDERS: &str = r#"0 done 
commits 5 
row "expired" 5 1 
row "paid" 2 1 
outbox "Sales/1/2" 4 sent 
outbox "Sales/3/2" 5 sent 
outbox "o1" 2 sent 
outbox "p1" 1 sent 
outbox "p2" 3 sent 
queue "Billing" "Sales/1/1" "Charge" 0 "{\"amount\":1,\"orderId\":\"A\"}" 
queue "Billing" "Sales/3/1" "Charge" 0 "{\"amount\":2,\"orderId\":\"A\"}" 
"#;

/// What the order alone comes to.
const ONE_ORDER: &str = r#"0 done 
commits 2 
row "expired" 2 1 
outbox "Sales/1/2" 2 sent 
outbox "p1" 1 sent 
queue "Billing" "Sales/1/1" "Charge" 0 "{\"amount\":1,\"orderId\":\"A\"}" 
"#;

/// What the order and its payment come to.
const PAID_ORDER: &str = r#"0 done 
commits 3 
row "paid" 2 1 
outbox "Sales/1/2" 3 sent 
outbox "o1" 2 sent 
outbox "p1" 1 sent 
queue "Billing" "Sales/1/1" "Charge" 0 "{\"amount\":1,\"orderId\":\"A\"}" 
"#;

/// The first apply from one to another at which a stop changes what orders come to.
fn first_bad(
    alloc: Global,
    which: Which,
    after: bool,
    from: u64,
    to: u64,
) -> Result<Option<u64>, NoMemory> {
    for apply in from..to {
        if !comes_to(alloc, which, apply, after, HOUR, ORDERS, ALL_ORDERS)? {
            return Ok(Some(apply));
        }
    }
    Ok(None)
}

/// Stops while orders are loaded: the apply of the post, whether it has its effect, and what the next run comes to.
const LOADS_OF_ORDERS: &[(u64, bool, &str)] = &[
    (1, false, "0 done \ncommits 0 \n"),
    (1, true, ONE_ORDER),
    (2, false, ONE_ORDER),
    (2, true, PAID_ORDER),
    (3, false, PAID_ORDER),
    (3, true, ALL_ORDERS),
];

#[test]
fn orders_are_loaded_one_by_one(rt: HostRuntime) -> Result<(), Fail> {
    let alloc = rt.alloc();
    for (apply, after, wanted) in LOADS_OF_ORDERS {
        assert!(rt; comes_to(alloc, Which::Post, *apply, *after, HOUR, ORDERS, wanted)?);
    }
    Ok(())
}

#[test]
fn orders_survive_stops_of_the_post_before_an_effect(rt: HostRuntime) -> Result<(), Fail> {
    let found = first_bad(rt.alloc(), Which::Post, false, 4, 15)?;
    assert!(rt; found.is_none());
    Ok(())
}

#[test]
fn orders_survive_stops_of_the_post_after_an_effect(rt: HostRuntime) -> Result<(), Fail> {
    let found = first_bad(rt.alloc(), Which::Post, true, 4, 15)?;
    assert!(rt; found.is_none());
    Ok(())
}

#[test]
fn orders_survive_stops_of_the_base_before_an_effect(rt: HostRuntime) -> Result<(), Fail> {
    let found = first_bad(rt.alloc(), Which::Base, false, 1, 11)?;
    assert!(rt; found.is_none());
    Ok(())
}

#[test]
fn orders_survive_stops_of_the_base_after_an_effect(rt: HostRuntime) -> Result<(), Fail> {
    let found = first_bad(rt.alloc(), Which::Base, true, 1, 11)?;
    assert!(rt; found.is_none());
    Ok(())
}

#[test]
fn orders_make_fourteen_applies_of_the_post_and_ten_of_the_base(
    rt: HostRuntime,
) -> Result<(), Fail> {
    let alloc = rt.alloc();
    let post = stopped(alloc, Which::Post, 15, false, HOUR, ORDERS)?;
    assert_eq!(rt; post.code, 0);
    let base = stopped(alloc, Which::Base, 11, false, HOUR, ORDERS)?;
    assert_eq!(rt; base.code, 0);
    Ok(())
}

//! Messages that handlers send: to routes, to subscribers, and as replies.

use crate::{SETTINGS, see, told, told_with};
use std::test::Fail;

#[test]
fn a_reply_goes_to_the_address_of_the_message(rt: HostRuntime) -> Result<(), Fail> {
    let told = told(
        rt.alloc(),
        "run --at 0",
        r#"{"headers":{"NServiceBus.EnclosedMessageTypes":"Ask","NServiceBus.MessageId":"a1","NServiceBus.ReplyToAddress":"Web"},"body":"{}"}"#,
    )?;
    assert_eq!(rt;
        told.as_str(),
        r#"0 done
moment 1970-01-01 00:00:00:000000 Z
commits 1
next 3
outbox "a1" 1 0 sent
queue "Web" 2 "Sales/1/1" "Told" 0 "{}"
"#
    );
    Ok(())
}

#[test]
fn a_reply_without_an_address_fails(rt: HostRuntime) -> Result<(), Fail> {
    let alloc = rt.alloc();
    let seen = see(alloc, "run --at 0 --horizon 60", "Ask a1 {}")?;
    assert_eq!(rt;
        seen.told.as_str(),
        r#"0 done
moment 1970-01-01 00:01:00:000000 Z
commits 0
next 6
queue "error" 5 "a1" "Ask" 3 "{}"
fault "Sales" "NoReplyAddress" "there is no address to reply to" "1970-01-01 00:01:00:000000 Z" "Sales"
"#
    );
    assert_eq!(rt; seen.takes, 24);
    Ok(())
}

const CHARGES: &str =
    "message Go { } message Charge { n: int } handler Go { send Charge { n: 1 }; send Charge { n: 2 }; }";

#[test]
fn two_messages_are_sent_in_order(rt: HostRuntime) -> Result<(), Fail> {
    let told = told_with(rt.alloc(), CHARGES, SETTINGS, "run --at 0", "Go g1 {}")?;
    assert_eq!(rt;
        told.as_str(),
        r#"0 done
moment 1970-01-01 00:00:00:000000 Z
commits 1
next 4
outbox "g1" 1 0 sent
queue "Billing" 2 "Sales/1/1" "Charge" 0 "{\"n\":1}"
queue "Billing" 3 "Sales/1/2" "Charge" 0 "{\"n\":2}"
"#
    );
    Ok(())
}

const SAYS: &str =
    "message Go { } message Charge { n: int } handler Go { send Charge { n: 1 }; send Charge { n: 2 }; }
message Placed { } message Say { } handler Say { publish Placed { }; }";

const SUBSCRIBED: &str = r#"endpoint = "Sales"
[routes]
Charge = "Billing"
[subscribers]
Placed = ["Web", "Mail"]
"#;

#[test]
fn each_subscriber_gets_a_message_of_its_own(rt: HostRuntime) -> Result<(), Fail> {
    let told = told_with(rt.alloc(), SAYS, SUBSCRIBED, "run --at 0", "Say s1 {}")?;
    assert_eq!(rt;
        told.as_str(),
        r#"0 done
moment 1970-01-01 00:00:00:000000 Z
commits 1
next 4
outbox "s1" 1 0 sent
queue "Mail" 3 "Sales/1/2" "Placed" 0 "{}"
queue "Web" 2 "Sales/1/1" "Placed" 0 "{}"
"#
    );
    Ok(())
}

#[test]
fn without_subscribers_nothing_is_sent(rt: HostRuntime) -> Result<(), Fail> {
    let told = told_with(rt.alloc(), SAYS, SETTINGS, "run --at 0", "Say s1 {}")?;
    assert_eq!(rt;
        told.as_str(),
        r#"0 done
moment 1970-01-01 00:00:00:000000 Z
commits 1
next 2
outbox "s1" 1 0 sent
"#
    );
    Ok(())
}

const LOCAL: &str = "message Go { } message Then { }
handler Go { local Then { }; after 5 local Then { }; }
handler Then { add row(\"then\") by 1; }";

#[test]
fn a_message_to_itself_is_handled_in_the_same_call(rt: HostRuntime) -> Result<(), Fail> {
    let told = told_with(rt.alloc(), LOCAL, SETTINGS, "run --at 0", "Go g1 {}")?;
    assert_eq!(rt;
        told.as_str(),
        r#"0 done
moment 1970-01-01 00:00:00:000000 Z
commits 2
next 4
row "then" 2 1
outbox "Sales/1/1" 2 0 sent
outbox "g1" 1 0 sent
delayed 5 3 "Sales" "Sales/1/2" "Then" 0 "{}"
"#
    );
    Ok(())
}

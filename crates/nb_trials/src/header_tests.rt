//! The headers of messages that are sent, put off and set aside. A call that only shows its stores finds them at its opening.

use crate::{
    FEW_RETRIES, SCRIPT, Stores, Trial, headers_of, left, left_again, left_over, left_with,
};
use nb_base::NoMemory;
use std::alloc::Global;
use std::test::Fail;

const FIRST_ORDER: &str =
    r#"{"headers":{"NServiceBus.EnclosedMessageTypes":"Shop.PlaceOrder, Shop.Messages, Version=1.0.0.0, Culture=neutral, PublicKeyToken=null","NServiceBus.MessageId":"0f8fad5b-d9cb-469f-a165-70867728950e","NServiceBus.ReplyToAddress":"Web"},"body":"{\"orderId\":\"A-1\",\"amount\":250}"}"#;

/// What an order leaves.
fn placed(alloc: Global) -> Result<Stores, NoMemory> {
    let trial = Trial {
        raw: true,
        ..Trial::new("run --at 1700000000", FIRST_ORDER)
    };
    left_over(alloc, &trial, Stores::empty(alloc))
}

#[test]
fn a_sent_message_tells_where_it_comes_from(rt: HostRuntime) -> Result<(), Fail> {
    let alloc = rt.alloc();
    let left = placed(alloc)?;
    let headers = headers_of(alloc, left, 2)?;
    assert_eq!(rt;
        headers.as_str(),
        r#"NServiceBus.MessageId: Sales/1/1
NServiceBus.MessageIntent: Send
NServiceBus.ConversationId: 0f8fad5b-d9cb-469f-a165-70867728950e
NServiceBus.CorrelationId: Sales/1/1
NServiceBus.RelatedTo: 0f8fad5b-d9cb-469f-a165-70867728950e
NServiceBus.OriginatingEndpoint: Sales
NServiceBus.ReplyToAddress: Sales
NServiceBus.ContentType: application/json
NServiceBus.EnclosedMessageTypes: Charge
NServiceBus.TimeSent: 2023-11-14 22:13:20:000000 Z
NServiceBus.OriginatingSagaId: Sales/1/1
NServiceBus.OriginatingSagaType: Order
"#
    );
    Ok(())
}

#[test]
fn a_timeout_names_its_saga(rt: HostRuntime) -> Result<(), Fail> {
    let alloc = rt.alloc();
    let left = placed(alloc)?;
    let headers = headers_of(alloc, left, 3)?;
    assert_eq!(rt;
        headers.as_str(),
        r#"NServiceBus.MessageId: Sales/1/2
NServiceBus.MessageIntent: Send
NServiceBus.ConversationId: 0f8fad5b-d9cb-469f-a165-70867728950e
NServiceBus.CorrelationId: Sales/1/2
NServiceBus.RelatedTo: 0f8fad5b-d9cb-469f-a165-70867728950e
NServiceBus.OriginatingEndpoint: Sales
NServiceBus.ReplyToAddress: Sales
NServiceBus.ContentType: application/json
NServiceBus.EnclosedMessageTypes: OrderExpired
NServiceBus.TimeSent: 2023-11-14 22:13:20:000000 Z
NServiceBus.OriginatingSagaId: Sales/1/1
NServiceBus.OriginatingSagaType: Order
NServiceBus.IsSagaTimeoutMessage: True
NServiceBus.SagaId: Sales/1/1
NServiceBus.SagaType: Order
"#
    );
    Ok(())
}

#[test]
fn a_reply_is_correlated_with_its_message(rt: HostRuntime) -> Result<(), Fail> {
    let alloc = rt.alloc();
    let left = left(
        alloc,
        "run --at 0",
        r#"{"headers":{"NServiceBus.EnclosedMessageTypes":"Ask","NServiceBus.MessageId":"a1","NServiceBus.ReplyToAddress":"Web"},"body":"{}"}"#,
    )?;
    let headers = headers_of(alloc, left, 2)?;
    assert_eq!(rt;
        headers.as_str(),
        r#"NServiceBus.MessageId: Sales/1/1
NServiceBus.MessageIntent: Reply
NServiceBus.ConversationId: a1
NServiceBus.CorrelationId: a1
NServiceBus.RelatedTo: a1
NServiceBus.OriginatingEndpoint: Sales
NServiceBus.ReplyToAddress: Sales
NServiceBus.ContentType: application/json
NServiceBus.EnclosedMessageTypes: Told
NServiceBus.TimeSent: 1970-01-01 00:00:00:000000 Z
"#
    );
    Ok(())
}

#[test]
fn a_message_that_is_put_off_tells_its_round(rt: HostRuntime) -> Result<(), Fail> {
    let alloc = rt.alloc();
    let left = left_with(alloc, SCRIPT, FEW_RETRIES, "run --at 60", "Bad b1 {}")?;
    let headers = headers_of(alloc, left, 2)?;
    assert_eq!(rt;
        headers.as_str(),
        r#"NServiceBus.EnclosedMessageTypes: Bad
NServiceBus.MessageId: b1
NServiceBus.Retries: 1
NServiceBus.Retries.Timestamp: 1970-01-01 00:01:00:000000 Z
"#
    );
    Ok(())
}

#[test]
fn a_message_in_error_tells_its_fault(rt: HostRuntime) -> Result<(), Fail> {
    let alloc = rt.alloc();
    let left = left_with(
        alloc,
        SCRIPT,
        FEW_RETRIES,
        "run --at 60 --horizon 10",
        "Bad b1 {}",
    )?;
    let headers = headers_of(alloc, left, 3)?;
    assert_eq!(rt;
        headers.as_str(),
        r#"NServiceBus.EnclosedMessageTypes: Bad
NServiceBus.MessageId: b1
NServiceBus.Retries: 1
NServiceBus.Retries.Timestamp: 1970-01-01 00:01:00:000000 Z
NServiceBus.FailedQ: Sales
NServiceBus.TimeOfFailure: 1970-01-01 00:01:10:000000 Z
NServiceBus.ProcessingEndpoint: Sales
NServiceBus.ExceptionInfo.ExceptionType: Broken
NServiceBus.ExceptionInfo.Message: always
"#
    );
    Ok(())
}

#[test]
fn a_message_that_is_put_back_is_as_it_came(rt: HostRuntime) -> Result<(), Fail> {
    let alloc = rt.alloc();
    let failed = left_with(
        alloc,
        SCRIPT,
        FEW_RETRIES,
        "run --at 60 --horizon 10",
        "Bad b1 {}",
    )?;
    let left = left_again(alloc, failed, "retry --at 90", "")?;
    let headers = headers_of(alloc, left, 4)?;
    assert_eq!(rt;
        headers.as_str(),
        r#"NServiceBus.EnclosedMessageTypes: Bad
NServiceBus.MessageId: b1
"#
    );
    Ok(())
}

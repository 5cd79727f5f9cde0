use nb_sample::{sample_line, script, settings};
use std::test::Fail;

#[test]
fn the_first_line_is_a_deposit(rt: HostRuntime) -> Result<(), Fail> {
    assert_eq!(rt;
        sample_line(rt.alloc(), 7, 1)?.as_slice(),
        b"{\"body\":\"{\\\"account\\\":\\\"a8\\\",\\\"amount\\\":8}\",\"headers\":{\"NServiceBus.EnclosedMessageTypes\":\"Deposit\",\"NServiceBus.MessageId\":\"aec7ae60-8964-535b-ab54-f9fa1765195e\"}}".as_slice()
    );
    Ok(())
}

#[test]
fn a_ticket_is_opened_and_then_shut_for_good(rt: HostRuntime) -> Result<(), Fail> {
    assert_eq!(rt;
        sample_line(rt.alloc(), 7, 2)?.as_slice(),
        b"{\"body\":\"{\\\"ticket\\\":\\\"t9\\\"}\",\"headers\":{\"NServiceBus.EnclosedMessageTypes\":\"Open\",\"NServiceBus.MessageId\":\"13cb6875-9330-5526-82d1-252972981971\"}}".as_slice()
    );
    assert_eq!(rt;
        sample_line(rt.alloc(), 7, 3)?.as_slice(),
        b"{\"body\":\"{\\\"force\\\":true,\\\"ticket\\\":\\\"t9\\\"}\",\"headers\":{\"NServiceBus.EnclosedMessageTypes\":\"Shut\",\"NServiceBus.MessageId\":\"97492137-8273-5cad-9fc1-f491d101686f\"}}".as_slice()
    );
    Ok(())
}

#[test]
fn a_ticket_may_stay_open(rt: HostRuntime) -> Result<(), Fail> {
    assert_eq!(rt;
        sample_line(rt.alloc(), 7, 7)?.as_slice(),
        b"{\"body\":\"{\\\"force\\\":false,\\\"ticket\\\":\\\"t13\\\"}\",\"headers\":{\"NServiceBus.EnclosedMessageTypes\":\"Shut\",\"NServiceBus.MessageId\":\"894e20df-1414-595a-a493-16173eb2373b\"}}".as_slice()
    );
    Ok(())
}

#[test]
fn most_other_messages_are_flaky(rt: HostRuntime) -> Result<(), Fail> {
    assert_eq!(rt;
        sample_line(rt.alloc(), 7, 4)?.as_slice(),
        b"{\"body\":\"{}\",\"headers\":{\"NServiceBus.EnclosedMessageTypes\":\"Flaky\",\"NServiceBus.MessageId\":\"28eaed86-0d12-5635-9b80-986211c04470\"}}".as_slice()
    );
    Ok(())
}

#[test]
fn one_in_a_hundred_is_refused(rt: HostRuntime) -> Result<(), Fail> {
    assert_eq!(rt;
        sample_line(rt.alloc(), 7, 92)?.as_slice(),
        b"{\"body\":\"{}\",\"headers\":{\"NServiceBus.EnclosedMessageTypes\":\"Refuse\",\"NServiceBus.MessageId\":\"f5bf4bd7-0019-5a25-af6d-f81864ce391e\"}}".as_slice()
    );
    Ok(())
}

#[test]
fn each_tenth_line_repeats_the_one_before(rt: HostRuntime) -> Result<(), Fail> {
    assert_eq!(rt;
        sample_line(rt.alloc(), 7, 9)?.as_slice(),
        b"{\"body\":\"{\\\"account\\\":\\\"a6\\\",\\\"amount\\\":6}\",\"headers\":{\"NServiceBus.EnclosedMessageTypes\":\"Deposit\",\"NServiceBus.MessageId\":\"a04c418f-0a5d-5520-8891-4afcb2e9001e\"}}".as_slice()
    );
    assert_eq!(rt;
        sample_line(rt.alloc(), 7, 10)?.as_slice(),
        b"{\"body\":\"{\\\"account\\\":\\\"a6\\\",\\\"amount\\\":6}\",\"headers\":{\"NServiceBus.EnclosedMessageTypes\":\"Deposit\",\"NServiceBus.MessageId\":\"a04c418f-0a5d-5520-8891-4afcb2e9001e\"}}".as_slice()
    );
    Ok(())
}

#[test]
fn the_greatest_numbers_are_taken(rt: HostRuntime) -> Result<(), Fail> {
    assert_eq!(rt;
        sample_line(rt.alloc(), u64::MAX, u64::MAX)?.as_slice(),
        b"{\"body\":\"{\\\"force\\\":false,\\\"ticket\\\":\\\"t29\\\"}\",\"headers\":{\"NServiceBus.EnclosedMessageTypes\":\"Shut\",\"NServiceBus.MessageId\":\"4555803c-3a34-5f78-a289-98a48d34cd70\"}}".as_slice()
    );
    Ok(())
}

#[test]
fn texts_are_there(rt: HostRuntime) -> Result<(), Fail> {
    assert_eq!(rt; script().len(), 584);
    assert_eq!(rt;
        settings(),
        "endpoint = \"Sample\"\n[recoverability]\nimmediate = 1\ndelayed = 1\n"
    );
    Ok(())
}

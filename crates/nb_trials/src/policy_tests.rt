//! Faults for which the settings have a policy.

use crate::{SCRIPT, see_with, told_with};
use std::test::Fail;

const DISCARDED: &str = r#"endpoint = "Sales"
[routes]
Charge = "Billing"
[policies]
Broken = "discard"
"#;

#[test]
fn a_message_is_given_up(rt: HostRuntime) -> Result<(), Fail> {
    let alloc = rt.alloc();
    let seen = see_with(alloc, SCRIPT, DISCARDED, "run --at 0", "Bad b1 {}")?;
    assert_eq!(rt;
        seen.told.as_str(),
        r#"0 done
moment 1970-01-01 00:00:00:000000 Z
commits 0
next 2
discarded "b1" "Broken"
"#
    );
    assert_eq!(rt; seen.takes, 1);
    Ok(())
}

const TO_ERROR: &str = r#"endpoint = "Sales"
[routes]
Charge = "Billing"
[policies]
Broken = "error"
"#;

const BROKEN_IN_ERROR: &str = r#"0 done
moment 1970-01-01 00:00:00:000000 Z
commits 0
next 3
queue "error" 2 "b1" "Bad" 0 "{}"
fault "Sales" "Broken" "always" "1970-01-01 00:00:00:000000 Z" "Sales"
"#;

#[test]
fn a_message_goes_to_error_by_its_first_fault(rt: HostRuntime) -> Result<(), Fail> {
    let alloc = rt.alloc();
    let seen = see_with(alloc, SCRIPT, TO_ERROR, "run --at 0", "Bad b1 {}")?;
    assert_eq!(rt; seen.told.as_str(), BROKEN_IN_ERROR);
    assert_eq!(rt; seen.takes, 1);
    Ok(())
}

const AT_ONCE: &str = r#"endpoint = "Sales"
[routes]
Charge = "Billing"
[policies]
Broken = "immediate"
"#;

#[test]
fn a_message_has_immediate_retries_alone(rt: HostRuntime) -> Result<(), Fail> {
    let alloc = rt.alloc();
    let seen = see_with(alloc, SCRIPT, AT_ONCE, "run --at 0", "Bad b1 {}")?;
    assert_eq!(rt; seen.told.as_str(), BROKEN_IN_ERROR);
    assert_eq!(rt; seen.takes, 6);
    Ok(())
}

const REFUSED_DISCARDED: &str = r#"endpoint = "Sales"
[routes]
Charge = "Billing"
[policies]
Refused = "discard"
"#;

#[test]
fn a_rejected_message_is_given_up(rt: HostRuntime) -> Result<(), Fail> {
    let alloc = rt.alloc();
    let seen = see_with(alloc, SCRIPT, REFUSED_DISCARDED, "run --at 0", "No n1 {}")?;
    assert_eq!(rt;
        seen.told.as_str(),
        r#"0 done
moment 1970-01-01 00:00:00:000000 Z
commits 0
next 2
discarded "n1" "Refused"
"#
    );
    assert_eq!(rt; seen.takes, 1);
    Ok(())
}

const LATER: &str = r#"endpoint = "Sales"
[routes]
Charge = "Billing"
[policies]
X = "later"
"#;

#[test]
fn a_policy_has_one_of_three_words(rt: HostRuntime) -> Result<(), Fail> {
    let told = told_with(rt.alloc(), SCRIPT, LATER, "run --at 0", "")?;
    assert_eq!(rt; told.as_str(), "4 settings policies.X: OutOfRange\n");
    Ok(())
}

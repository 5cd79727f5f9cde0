//! The sample.

use crate::{Trial, both_failing, see_over, told};
use nb_endpoint::Input;
use std::test::Fail;

#[test]
fn a_sample_of_two_thousand_lines(rt: HostRuntime) -> Result<(), Fail> {
    let told = told(rt.alloc(), "sample --seed 7 --count 2000", "")?;
    assert_eq!(rt;
        told.as_str(),
        r#"0 done
sample 7 2000
takes 3160
commits 2180
sagas 10
rows 7
sum 2780
error 20
next 2801
"#
    );
    Ok(())
}

/// The one line of this sample is a Deposit of 2 to the account a2.
#[test]
fn a_sample_of_one_line(rt: HostRuntime) -> Result<(), Fail> {
    let told = told(
        rt.alloc(),
        "sample --seed 11 --count 1",
        "no lines are read",
    )?;
    assert_eq!(rt;
        told.as_str(),
        r#"0 done
sample 11 1
takes 1
commits 1
sagas 0
rows 1
sum 2
error 0
next 2
"#
    );
    Ok(())
}

/// A sample reads no source and calls no store.
#[test]
fn a_sample_stands_apart(rt: HostRuntime) -> Result<(), Fail> {
    let alloc = rt.alloc();
    let trial = Trial {
        failing: Some(Input::Script),
        ..Trial::new("sample --seed 11 --count 1", "")
    };
    let seen = see_over(alloc, &trial, both_failing(alloc)?)?;
    assert_eq!(rt; seen.code, 0);
    assert_eq!(rt; seen.read_faults, 0);
    assert_eq!(rt; seen.store_faults, 0);
    assert_eq!(rt; seen.events.as_str(), "none");
    Ok(())
}

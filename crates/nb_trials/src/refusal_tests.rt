//! Calls that are refused before a store is touched, and cells that are none.

use crate::{
    SCRIPT, SETTINGS, Seen, Stores, Trial, both_failing, holding, left_over, see_over, told,
    told_again, told_over, told_with,
};
use nb_base::{NoMemory, Which};
use nb_cells::MemCells;
use nb_endpoint::{Input, Status};
use std::alloc::Global;
use std::test::Fail;

/// A call with these words, where each first read of a source and of a store would fail.
fn all_failing(alloc: Global, words: &str) -> Result<Seen, NoMemory> {
    let trial = Trial {
        failing: Some(Input::Script),
        ..Trial::new(words, "")
    };
    see_over(alloc, &trial, both_failing(alloc)?)
}

/// Whether these words are refused, with no source read and no store called.
fn are_refused(alloc: Global, words: &str) -> Result<bool, NoMemory> {
    let seen = all_failing(alloc, words)?;
    let apart = seen.read_faults == 0 && seen.store_faults == 0;
    Ok(seen.told.as_str() == "2 words refused\n" && seen.events.as_str() == "none" && apart)
}

/// Words that are no command.
const NO_COMMANDS: &[&str] = &[
    "run --workers 0",
    "run --at 253402300800",
    "fly",
    "",
    "run --at 1 --at 1",
    "--help",
];

#[test]
fn words_are_refused(rt: HostRuntime) -> Result<(), Fail> {
    let alloc = rt.alloc();
    for words in NO_COMMANDS {
        assert!(rt; are_refused(alloc, words)?);
    }
    Ok(())
}

/// Words with a number out of its range.
const OUT_OF_RANGE: &[&str] = &[
    "run --workers 17",
    "run --horizon 31536001",
    "run --turns 0",
    "run --turns 200001",
    "sample --seed 1000001",
    "sample --count 0",
    "sample --count 20001",
];

#[test]
fn each_number_has_its_range(rt: HostRuntime) -> Result<(), Fail> {
    let alloc = rt.alloc();
    for words in OUT_OF_RANGE {
        assert!(rt; are_refused(alloc, words)?);
    }
    Ok(())
}

/// How a call ends of which this source fails, and those after it.
fn failing_from(alloc: Global, words: &str, which: Input) -> Result<Seen, NoMemory> {
    let trial = Trial {
        failing: Some(which),
        ..Trial::new(words, "")
    };
    see_over(alloc, &trial, Stores::empty(alloc))
}

/// Whether a run ends so where this source fails, and those after it, of which none is read.
fn ends(alloc: Global, which: Input, told: &str) -> Result<bool, NoMemory> {
    let seen = failing_from(alloc, "run --at 0", which)?;
    Ok(seen.told.as_str() == told && seen.read_faults == 1 && seen.events.as_str() == "none")
}

#[test]
fn the_sources_are_read_in_order(rt: HostRuntime) -> Result<(), Fail> {
    let alloc = rt.alloc();
    assert!(rt; ends(alloc, Input::Script, "6 read fault: Script\n")?);
    assert!(rt; ends(alloc, Input::Settings, "6 read fault: Settings\n")?);
    assert!(rt; ends(alloc, Input::Lines, "6 read fault: Lines\n")?);
    Ok(())
}

#[test]
fn a_show_reads_no_lines(rt: HostRuntime) -> Result<(), Fail> {
    let alloc = rt.alloc();
    let seen = failing_from(alloc, "show --at 0", Input::Lines)?;
    assert_eq!(rt;
        seen.told.as_str(),
        r#"0 done
moment 1970-01-01 00:00:00:000000 Z
commits 0
next 1
"#
    );
    assert_eq!(rt; seen.read_faults, 0);
    Ok(())
}

#[test]
fn a_script_is_refused_at_its_first_bad_place(rt: HostRuntime) -> Result<(), Fail> {
    let alloc = rt.alloc();
    let syntax = told_with(alloc, "message A { x int }", SETTINGS, "run --at 0", "")?;
    assert_eq!(rt; syntax.as_str(), "3 script 1:15: Expected\n");
    let rule = told_with(alloc, "handler Nope { }", SETTINGS, "run --at 0", "")?;
    assert_eq!(rt; rule.as_str(), "3 script 1:9: UnknownMessage\n");
    Ok(())
}

#[test]
fn settings_are_refused_at_their_first_bad_key(rt: HostRuntime) -> Result<(), Fail> {
    let alloc = rt.alloc();
    let empty = told_with(alloc, SCRIPT, "", "run --at 0", "")?;
    assert_eq!(rt; empty.as_str(), "4 settings endpoint: Missing\n");
    let unrouted = told_with(
        alloc,
        SCRIPT,
        "endpoint = \"Sales\"\n[recoverability]\n[routes]\n",
        "run --at 0",
        "",
    )?;
    assert_eq!(rt; unrouted.as_str(), "4 settings routes.Charge: NoRoute\n");
    let broken = told_with(alloc, SCRIPT, "endpoint =", "run --at 0", "")?;
    assert_eq!(rt; broken.as_str(), "4 settings : NotToml\n");
    Ok(())
}

#[test]
fn the_script_is_checked_before_the_settings_and_these_before_the_lines(
    rt: HostRuntime,
) -> Result<(), Fail> {
    let alloc = rt.alloc();
    let all = told_with(alloc, "handler Nope { }", "", "run --at 0", "{}")?;
    assert_eq!(rt; all.as_str(), "3 script 1:9: UnknownMessage\n");
    let two = told_with(alloc, SCRIPT, "", "run --at 0", "{}")?;
    assert_eq!(rt; two.as_str(), "4 settings endpoint: Missing\n");
    let last = told(alloc, "run --at 0", "{}")?;
    assert_eq!(rt; last.as_str(), "5 input 1: NotEnvelope\n");
    Ok(())
}

const CREDIT: &str = r#"Credit c1 {"account":"ann","amount":5}"#;

/// How a run of a credit ends over a store of one cell.
fn told_by(alloc: Global, which: Which, store: MemCells) -> Result<String, NoMemory> {
    let stores = Stores::one(alloc, which, store);
    told_over(alloc, &Trial::new("run --at 0", CREDIT), stores)
}

#[test]
fn a_record_that_is_none_is_named(rt: HostRuntime) -> Result<(), Fail> {
    let alloc = rt.alloc();
    let base = holding(alloc, 4, b"c1".as_slice(), b"\x01".as_slice())?;
    let told = told_by(alloc, Which::Base, base)?;
    assert_eq!(rt; told.as_str(), "11 damaged Base 4 6331\n");
    Ok(())
}

#[test]
fn an_entry_that_is_none_is_named(rt: HostRuntime) -> Result<(), Fail> {
    let alloc = rt.alloc();
    let post = holding(alloc, 3, b"\xff".as_slice(), b"".as_slice())?;
    let told = told_by(alloc, Which::Post, post)?;
    assert_eq!(rt; told.as_str(), "11 damaged Post 3 ff\n");
    Ok(())
}

/// Two stores, each of one cell that is none.
fn both_damaged(alloc: Global) -> Result<Stores, NoMemory> {
    let post = holding(alloc, 3, b"\xff".as_slice(), b"".as_slice())?;
    let base = holding(alloc, 1, b"".as_slice(), b"\x02".as_slice())?;
    Ok(Stores { post, base })
}

#[test]
fn the_base_is_named_before_the_post(rt: HostRuntime) -> Result<(), Fail> {
    let alloc = rt.alloc();
    let told = told_again(alloc, both_damaged(alloc)?, "show --at 0", "")?;
    assert_eq!(rt; told.as_str(), "11 damaged Base 1 \n");
    Ok(())
}

/// The count 2^62, at which no commit has a number any more.
const LAST_COUNT: [u8; 9] = [1, 0x40, 0, 0, 0, 0, 0, 0, 0];

/// A base with the greatest count, and an empty post.
fn spent(alloc: Global) -> Result<Stores, NoMemory> {
    let base = holding(alloc, 1, b"".as_slice(), LAST_COUNT.as_slice())?;
    Ok(Stores::one(alloc, Which::Base, base))
}

#[test]
fn the_numbers_may_be_spent(rt: HostRuntime) -> Result<(), Fail> {
    let alloc = rt.alloc();
    let told = told_over(alloc, &Trial::new("run --at 0", CREDIT), spent(alloc)?)?;
    assert_eq!(rt; told.as_str(), "12 numbers spent\n");
    Ok(())
}

#[test]
fn what_finds_no_number_stays_in_its_queue(rt: HostRuntime) -> Result<(), Fail> {
    let alloc = rt.alloc();
    let left = left_over(alloc, &Trial::new("run --at 0", CREDIT), spent(alloc)?)?;
    let told = told_again(alloc, left, "show --at 0", "")?;
    assert_eq!(rt;
        told.as_str(),
        r#"0 done
moment 1970-01-01 00:00:00:000000 Z
commits 4611686018427387904
next 2
queue "Sales" 1 "c1" "Credit" 0 "{\"account\":\"ann\",\"amount\":5}"
"#
    );
    Ok(())
}

#[test]
fn want_of_memory_has_a_status_too(rt: HostRuntime) -> Result<(), Fail> {
    let status = Status::NoMemory;
    let text = format!(in rt.alloc(); "{} {status}", status.code())?;
    assert_eq!(rt; text.as_str(), "10 no memory");
    Ok(())
}

use nb_base::{LAST, Moment, NoMemory, Text};
use nb_words::{Command, Words, read_words};
use std::alloc::Global;
use std::test::Fail;

fn said(alloc: Global, words: &[&str]) -> Result<Option<Words>, NoMemory> {
    let mut texts = Vec::new(alloc);
    for word in words {
        texts.push(Text::new(alloc, *word)?)?;
    }
    read_words(alloc, texts.as_slice())
}

#[test]
fn words_are_read(rt: HostRuntime) -> Result<(), Fail> {
    let alloc = rt.alloc();
    let run = Words {
        command: Command::Run,
        workers: 1,
        at: None,
        horizon: 0,
        turns: 100000,
        seed: 1,
        count: 1000,
    };
    assert!(rt; said(alloc, ["run"].as_slice())? == Some(run));
    let at = Words {
        at: Moment::new(LAST),
        workers: 4,
        ..run
    };
    assert!(rt;
        said(
            alloc,
            ["--at", "253402300799", "run", "--workers=4"].as_slice()
        )? == Some(at)
    );
    Ok(())
}

/// The moment that the words of a command name, in seconds, or 0; nothing where they are no command's.
fn moment_in(alloc: Global, words: &[&str]) -> Result<Option<u64>, NoMemory> {
    let Some(read) = said(alloc, words)? else {
        return Ok(None);
    };
    let at = read.at.unwrap_or(Moment::FIRST);
    Ok(Some(at.seconds()))
}

/// Words, and the moment that they name.
const WORDS: &[(&[&str], Option<u64>)] = &[
    (&["run", "--at", "00000000000000000007"], Some(7)),
    (&["run", "--at", "000000000000000000000"], None),
    (&["run", "--at", "+1"], None),
    (&["run", "--at", "-1"], None),
    (&["run", "--workers", "0"], None),
    (&["run", "--at", "253402300800"], None),
    (&["fly"], None),
    (&[], None),
    (&["run", "--at", "1", "--at", "1"], None),
    (&["--help"], None),
    (&["run", "--help"], None),
    (&["run", "show"], None),
    (&["run", "--at"], None),
    (&["--", "run"], Some(0)),
];

#[test]
fn words_of_no_command_are_refused(rt: HostRuntime) -> Result<(), Fail> {
    let alloc = rt.alloc();
    for (words, wanted) in WORDS {
        assert_eq!(rt; moment_in(alloc, words)?, *wanted);
    }
    Ok(())
}

//! Checks the script that stands on standard input, and prints how many messages it declares, or the first place at which it
//! is none or breaks a rule. The words are two numbers: how many times more it is read, and how many times more it is read
//! and checked, for the bench.
#![tactic(auto)]

use nb_check::check;
use nb_script::parse;
use std::alloc::Global;
use std::process::ExitCode;
use std::{env, io};

/// How many times more the script is read, and read and checked.
#[derive(Clone, Copy)]
struct Times {
    reads: u32,
    checks: u32,
}

/// The number in a word. What is no number counts as none.
fn number(word: Option<String>) -> u32 {
    match word {
        None => 0,
        Some(word) => word.as_str().parse::<u32>().unwrap_or(0),
    }
}

fn asked(rt: &HostRuntime) -> Times {
    match env::args(rt) {
        Err(_) => Times {
            reads: 0,
            checks: 0,
        },
        Ok(args) => {
            let mut words = args.skip(1);
            let reads = number(words.next());
            let checks = number(words.next());
            Times { reads, checks }
        }
    }
}

/// Reads the text so many times.
fn read_more(alloc: Global, text: &str, count: u32) {
    for _ in 0..count {
        let _script = parse(alloc, text.as_bytes());
    }
}

/// Reads and checks the text so many times.
fn check_more(alloc: Global, text: &str, count: u32) {
    for _ in 0..count {
        if let Ok(script) = parse(alloc, text.as_bytes()) {
            let _checked = check(alloc, script);
        }
    }
}

fn run(rt: &HostRuntime) -> io::Result<ExitCode> {
    let alloc = rt.alloc();
    let text = io::read_to_string(alloc, rt.stdin())?;
    let times = asked(rt);
    read_more(alloc, text.as_str(), times.reads);
    check_more(alloc, text.as_str(), times.checks);
    match parse(alloc, text.as_bytes()) {
        Err(fault) => {
            println!(rt; "{fault}")?;
            Ok(ExitCode::from(3))
        }
        Ok(script) => match check(alloc, script) {
            Err(fault) => {
                println!(rt; "{fault}")?;
                Ok(ExitCode::from(4))
            }
            Ok(checked) => {
                let count = checked.names().len();
                println!(rt; "{count}")?;
                Ok(ExitCode::SUCCESS)
            }
        },
    }
}

fn main(rt: HostRuntime) -> ExitCode {
    match run(&rt) {
        Ok(code) => code,
        Err(_) => ExitCode::from(7),
    }
}

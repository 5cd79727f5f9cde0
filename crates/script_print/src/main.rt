//! Prints the script that stands on standard input, or the first place at which it is none. The words are two numbers: how
//! many times more it is read, and how many times more it is printed, for the bench.
#![tactic(auto)]

use nb_base::{NoMemory, Text};
use nb_script::{Script, parse, print};
use std::alloc::Global;
use std::process::ExitCode;
use std::{env, io};

/// How many times more the script is read and printed.
#[derive(Clone, Copy)]
struct Times {
    reads: u32,
    prints: u32,
}

/// The number in a word. What is no number counts as none.
fn number(word: Option<String>) -> u32 {
    match word {
        None => 0,
        Some(word) => word.as_str().parse::<u32>().unwrap_or(0),
    }
}

fn asked(rt: &HostRuntime) -> Times {
    match env::args(rt) {
        Err(_) => Times {
            reads: 0,
            prints: 0,
        },
        Ok(args) => {
            let mut words = args.skip(1);
            let reads = number(words.next());
            let prints = number(words.next());
            Times { reads, prints }
        }
    }
}

/// Reads the text so many times.
fn read_more(alloc: Global, text: &str, count: u32) {
    for _ in 0..count {
        let _script = parse(alloc, text.as_bytes());
    }
}

/// Prints the script, after so many times more.
fn printed(alloc: Global, script: &Script, more: u32) -> Result<Text, NoMemory> {
    for _ in 0..more {
        let _text = print(alloc, script)?;
    }
    print(alloc, script)
}

fn run(rt: &HostRuntime) -> io::Result<ExitCode> {
    let alloc = rt.alloc();
    let text = io::read_to_string(alloc, rt.stdin())?;
    let times = asked(rt);
    read_more(alloc, text.as_str(), times.reads);
    match parse(alloc, text.as_bytes()) {
        Err(fault) => {
            println!(rt; "{fault}")?;
            Ok(ExitCode::from(3))
        }
        Ok(script) => match printed(alloc, &script, times.prints) {
            Err(NoMemory) => Ok(ExitCode::from(10)),
            Ok(text) => {
                let text = text.as_str();
                print!(rt; "{text}")?;
                Ok(ExitCode::SUCCESS)
            }
        },
    }
}

fn main(rt: HostRuntime) -> ExitCode {
    match run(&rt) {
        Ok(code) => code,
        Err(_) => ExitCode::from(7),
    }
}

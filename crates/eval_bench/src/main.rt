//! Evaluates a message where nothing is stored, to be timed: `eval_bench TYPE BODY TIMES` evaluates it TIMES times and once
//! more by the script on standard input, and prints what the last evaluation made. The script breaks no rule. With `-` in
//! the place of the type the body alone is read TIMES times, as JSON and no more.
#![tactic(auto)]

use nb_base::{Envelope, Fault, Intent, Items, Moment, NoMemory, Outcome, Plan, Text, Verdict};
use nb_check::{Checked, check};
use nb_eval::evaluate;
use nb_headers::names::ENCLOSED_MESSAGE_TYPES;
use nb_script::parse;
use serde_json::Value as Json;
use std::alloc::Global;
use std::process::ExitCode;
use std::{env, io};

/// The words of the command line.
#[derive(Drop)]
struct Words {
    kind: String,
    body: String,
    times: u32,
}

fn asked(rt: &HostRuntime) -> Option<Words> {
    let mut args = env::args(rt).ok()?;
    args.next();
    let kind = args.next()?;
    let body = args.next()?;
    let times = args.next()?.as_str().parse::<u32>().ok()?;
    Some(Words { kind, body, times })
}

fn checked(alloc: Global, text: &str) -> Result<Checked, NoMemory> {
    let script = parse(alloc, text.as_bytes()).map_err(|_| NoMemory)?;
    check(alloc, script).map_err(|_| NoMemory)
}

fn message(alloc: Global, words: &Words) -> Result<Envelope, NoMemory> {
    let id = Text::new(alloc, "m1")?;
    if id.is_empty() {
        return Err(NoMemory);
    }
    let mut e = Envelope::new(alloc, &id, Text::new(alloc, words.body.as_str())?)?;
    let kind = Text::new(alloc, words.kind.as_str())?;
    if kind.is_empty() {
        return Ok(e);
    }
    e.set_header(alloc, ENCLOSED_MESSAGE_TYPES, kind)?;
    Ok(e)
}

#[tactic(auto, using(crate::proofs::Nothing::nothing_read))]
fn once(alloc: Global, c: &Checked, e: &Envelope) -> Result<Outcome, NoMemory> {
    let reads = Items::new(alloc);
    evaluate(alloc, c, e, Moment::FIRST, reads)
}

/// Evaluates it so many times, and once more.
fn evaluated(alloc: Global, c: &Checked, e: &Envelope, times: u32) -> Result<Verdict, NoMemory> {
    for _ in 0..times {
        let _outcome = once(alloc, c, e)?;
    }
    let last = once(alloc, c, e)?;
    Ok(last.verdict)
}

/// Reads a body as JSON so many times.
fn read(alloc: Global, body: &str, times: u32) -> Result<(), NoMemory> {
    for _ in 0..times {
        let _value = Json::from_slice(alloc, body.as_bytes()).map_err(|_| NoMemory)?;
    }
    Ok(())
}

/// The verdict of the script on the message, after so many times more.
fn asked_verdict(alloc: Global, text: &str, words: &Words) -> Result<Verdict, NoMemory> {
    let c = checked(alloc, text)?;
    let e = message(alloc, words)?;
    evaluated(alloc, &c, &e, words.times)
}

fn print_intent(rt: &HostRuntime, intent: &Intent) -> io::Result<()> {
    let name = intent.name.as_str();
    let body = intent.body.as_str();
    println!(rt; "{name} {body}")
}

fn print_plan(rt: &HostRuntime, plan: &Plan) -> io::Result<()> {
    let changes = plan.writes.as_slice().len();
    println!(rt; "changes {changes}")?;
    for intent in plan.intents.as_slice() {
        print_intent(rt, intent)?;
    }
    Ok(())
}

fn print_fault(rt: &HostRuntime, fault: &Fault) -> io::Result<()> {
    let name = fault.name.as_str();
    let text = fault.text.as_str();
    println!(rt; "{name}: {text}")
}

fn print_verdict(rt: &HostRuntime, verdict: &Verdict) -> io::Result<()> {
    match verdict {
        Verdict::Done(plan) => print_plan(rt, plan),
        Verdict::Fault(fault) => print_fault(rt, fault),
    }
}

/// Evaluates, and prints what was made.
fn answer(rt: &HostRuntime, words: &Words) -> io::Result<ExitCode> {
    let alloc = rt.alloc();
    if words.kind.as_str() == "-" {
        return match read(alloc, words.body.as_str(), words.times) {
            Ok(()) => Ok(ExitCode::SUCCESS),
            Err(NoMemory) => Ok(ExitCode::from(10)),
        };
    }
    let text = io::read_to_string(alloc, rt.stdin())?;
    match asked_verdict(alloc, text.as_str(), words) {
        Err(NoMemory) => Ok(ExitCode::from(10)),
        Ok(verdict) => {
            print_verdict(rt, &verdict)?;
            Ok(ExitCode::SUCCESS)
        }
    }
}

fn main(rt: HostRuntime) -> ExitCode {
    let Some(words) = asked(&rt) else {
        return ExitCode::from(2);
    };
    match answer(&rt, &words) {
        Ok(code) => code,
        Err(_) => ExitCode::from(7),
    }
}

//! Puts and takes out entries of a post over cells in memory, to be timed: `queue_bench ENTRIES TURNS` puts ENTRIES
//! entries, and then in each turn puts one more and takes the oldest out.
#![tactic(auto)]

ghost use Rattle.std.specs.Prelude.{◌≢◌, []};

use nb_base::{Envelope, Moment, Text};
use nb_cells::MemCells;
use nb_queue::{Post, PostFault};
use std::alloc::Global;
use std::env;
use std::process::ExitCode;

/// Puts entries, every second of which waits.
fn fill(
    alloc: Global,
    post: &mut Post<MemCells>,
    queue: &Text,
    envelope: &Envelope,
    entries: u64,
) -> Result<(), PostFault>
    requires { queue.now ≢ [] }
{
    for i in 0..entries {
        let due = if i % 2 == 0 { None } else { Moment::new(i) };
        post.put(alloc, queue, due, envelope)?;
    }
    Ok(())
}

/// Puts an entry that waits, and takes the oldest one out, in turns.
fn turn(
    alloc: Global,
    post: &mut Post<MemCells>,
    queue: &Text,
    envelope: &Envelope,
    turns: u64,
) -> Result<(), PostFault>
    requires { queue.now ≢ [] }
{
    for oldest in 1..=turns {
        post.put(alloc, queue, Moment::new(oldest), envelope)?;
        if post.entry(oldest).is_some() {
            post.remove(alloc, oldest)?;
        }
    }
    Ok(())
}

/// Fills a post, takes its turns, and answers its next number.
fn run(alloc: Global, entries: u64, turns: u64) -> Result<u64, PostFault> {
    let Ok(mut post) = Post::start(alloc, MemCells::empty(alloc)) else {
        return Err(PostFault::NoMemory);
    };
    let queue = Text::new(alloc, "sales")?;
    let id = Text::new(alloc, "m000001")?;
    let body = Text::new(alloc, "{\"account\":\"a001\",\"amount\":1}")?;
    let envelope = Envelope::new(alloc, &id, body)?;
    fill(alloc, &mut post, &queue, &envelope, entries)?;
    turn(alloc, &mut post, &queue, &envelope, turns)?;
    Ok(post.next())
}

/// The two numbers of the command line.
fn numbers(rt: &HostRuntime) -> Option<(u64, u64)> {
    let mut args = env::args(rt).ok()?;
    args.next();
    let entries = args.next()?.parse().ok()?;
    let turns = args.next()?.parse().ok()?;
    Some((entries, turns))
}

fn main(rt: HostRuntime) -> ExitCode {
    let Some((entries, turns)) = numbers(&rt) else {
        return ExitCode::from(2);
    };
    match run(rt.alloc(), entries, turns) {
        Ok(next) => {
            let _ = println!(rt; "next {next}");
            ExitCode::SUCCESS
        }
        Err(_) => ExitCode::FAILURE,
    }
}

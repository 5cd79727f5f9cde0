//! The sample: a run over two empty stores, of the lines that a seed gives.
ghost use Rattle.std.specs.Prelude.{◌≡◌, [], IfOk};
ghost use Rattle.nb_endpoint.specs.Asked.{Asked, asked_by};
ghost use Rattle.nb_endpoint.specs.Finishing.{IsNew};
ghost use Rattle.nb_endpoint.specs.Sampling.{AreSampled, IsSample, IsSummary, IsSummaryOf};
ghost use Rattle.nb_endpoint.specs.Sampling.{SampleIs, sample_words};
ghost use Rattle.nb_hub.specs.Kept.{seen};
ghost use Rattle.nb_hub.specs.Ledgers.{past_of};
ghost use Rattle.nb_words.specs.declared.words.Command.TheVariants.{Run};

use crate::ended::work;
use crate::job::Job;
use crate::lent::Lent;
use crate::printing::{Worked, write};
use crate::script::checked_of;
use crate::setting::settings_of;
use crate::status::Status;
use crate::work::Task;
use nb_base::{Copied, Handling, Items, Moment, NoMemory, Sink, Text};
use nb_cells::MemCells;
use nb_core::Desk;
use nb_envelope::{Envelopes, read_line};
use nb_eval::Handlers;
use nb_hub::{Closed, Hub};
use nb_report::summary;
use nb_sample::{sample_line, script, settings};
use nb_words::{Command, Words};
use std::alloc::Global;

/// What a run would be told by its words.
fn sample_words(seed: u64, count: u64) -> Words
    ensures { result ≡ sample_words seed count }
{
    Words {
        command: Command::Run,
        workers: 1,
        at: Some(Moment::FIRST),
        horizon: 10,
        turns: u64::MAX,
        seed,
        count,
    }
}

/// The messages of the sample's lines.
fn sampled(alloc: Global, seed: u64, count: u64) -> Result<Envelopes, NoMemory>
    ensures { IfOk result (AreSampled seed count) }
{
    let mut messages = Items::new(alloc);
    for i in 0..count {
        let line = sample_line(alloc, seed, i + 1)?;
        let Ok(message) = read_line(alloc, line.as_slice()) else {
            return Err(NoMemory);
        };
        messages.push(message)?;
    }
    Ok(messages)
}

/// The run of a sample, with all that is read for it.
fn sample_job(alloc: Global, seed: u64, count: u64) -> Result<Job, NoMemory>
    ensures { IfOk result (λ job. IsSample seed count (asked_by job)) }
{
    let Ok(checked) = checked_of(alloc, script().as_bytes()) else {
        return Err(NoMemory);
    };
    let Ok(settings) = settings_of(alloc, settings().as_bytes(), &checked) else {
        return Err(NoMemory);
    };
    let messages = sampled(alloc, seed, count)?;
    Ok(Job {
        said: sample_words(seed, count),
        moment: Moment::FIRST,
        handlers: Handlers { checked },
        settings,
        messages,
    })
}

/// Makes the run at a hub of which nothing was asked before. Each of its faults is told as want of
/// memory.
fn summarize<H: Handling, M: Handling + Drop>(
    alloc: Global,
    handling: &H,
    said: Words,
    error: &Text,
    task: &Task,
    hub: Hub<M, MemCells, MemCells>,
) -> Result<Text, NoMemory>
    requires none { hub.course.events ≡ [] }
    requires one { hub.course.opening.workers ≡ 1 }
    requires moment { hub.course.opening.moment ≡ task.now.moment }
    requires meaning { M.meaning hub.handlers ≡ H.meaning handling.now }
    requires run { said.command ≡ Run }
    ensures { (a : Asked)
        → IsNew 1 a said task.now (seen (past_of (M.meaning hub.handlers) hub.course))
        → IfOk result (IsSummaryOf a said.seed said.count error.now hub.course.opening) }
{
    let mut hub = hub;
    hub.legal();
    let done = work(alloc, handling, said.command, task, &mut hub);
    let Closed {
        post: _,
        base: _,
        history,
        state,
    } = hub.close();
    match done {
        Ok(true) => summary(alloc, said.seed, said.count, error, &history, &state),
        Ok(false) => Err(NoMemory),
        Err(_) => Err(NoMemory),
    }
}

/// The summary of a sample of so many lines. Its run meets no fault but want of memory.
pub fn sample_run(alloc: Global, seed: u64, count: u64) -> Result<Text, NoMemory>
    ensures { IfOk result (IsSummary seed count) }
{
    let job = sample_job(alloc, seed, count)?;
    let Job {
        said,
        moment,
        handlers,
        settings,
        messages,
    } = job;
    let task = Task {
        messages,
        moment,
        until: moment.plus(said.horizon),
    };
    let lent = Lent {
        handlers: &handlers,
    };
    let error = settings.error.copy()?;
    let post = MemCells::empty(alloc);
    let base = MemCells::empty(alloc);
    match Hub::start(alloc, lent, settings, moment, 1, said.turns, post, base) {
        Ok(hub) => summarize(alloc, &handlers, said, &error, &task, hub),
        Err(_) => Err(NoMemory),
    }
}

/// Makes the sample's run, and prints its summary.
pub(crate) fn sample<O: Sink>(alloc: Global, seed: u64, count: u64, out: &mut O) -> Worked
    ensures { SampleIs seed count result
        (O.held out.old) (O.held out.new) (O.count out.old) (O.count out.new) }
{
    match sample_run(alloc, seed, count) {
        Ok(text) => write(&text, Status::Done, out),
        Err(NoMemory) => Worked {
            status: Status::NoMemory,
            printed: 0,
        },
    }
}

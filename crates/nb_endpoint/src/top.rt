//! The top call.
ghost use Rattle.std.specs.Prelude.{◌≡◌, ◌↔◌, IsTrue, None};
ghost use Rattle.nb_endpoint.specs.Handed.{ends};
ghost use Rattle.nb_endpoint.specs.Headline.{Headline};
ghost use Rattle.nb_words.specs.declared.words.Command.TheVariants.{Sample};

use crate::ended::{Ended, perform};
use crate::job::prepare;
use crate::printing::Worked;
use crate::sampling::sample;
use crate::status::Status;
use nb_base::{Clock, NoMemory, Sink, Source, Text};
use nb_cells::Cells;
use nb_core::{law_drained, law_outcome};
use nb_words::{Command, read_words};
use std::alloc::Global;

/// Whether a command has nothing to do with the stores.
fn is_sample(command: Command) -> bool
    ensures { IsTrue result ↔ (command ≡ Sample) }
{
    match command {
        Command::Sample => true,
        _ => false,
    }
}

/// Nothing is begun.
fn refused<P, D>(status: Status, post: P, base: D) -> Ended<P, D>
    ensures { result
        ≡ record { status = status; post = post; base = base; history = None; printed = 0 } }
{
    Ended {
        status,
        post,
        base,
        history: None,
        printed: 0,
    }
}

/// All that the program does with one worker. All sources are read before any is looked at, and all
/// is checked before a store is touched.
pub fn run_alone<S: Source, O: Sink, P: Cells, D: Cells, C: Clock>(
    alloc: Global,
    words: &[Text],
    script: &mut S,
    settings: &mut S,
    input: &mut S,
    out: &mut O,
    post: P,
    base: D,
    clock: &mut C,
) -> Ended<P, D>
    ensures headline { Headline S.Source O.Sink P.Cells D.Cells (λ said. 1) (record {
      words = words.now;
      clock = C.next clock.old;
      script = ends script.old script.new;
      settings = ends settings.old settings.new;
      lines = ends input.old input.new;
      out = ends out.old out.new;
      post = ends post result.post;
      base = ends base result.base;
      status = result.status;
      history = result.history;
      printed = result.printed;
    }) }
{
    let said = match read_words(alloc, words) {
        Ok(Some(said)) => said,
        Ok(None) => return refused(Status::Words, post, base),
        Err(NoMemory) => return refused(Status::NoMemory, post, base),
    };
    if is_sample(said.command) {
        let Worked { status, printed } = sample(alloc, said.seed, said.count, out);
        return Ended {
            status,
            post,
            base,
            history: None,
            printed,
        };
    }
    match prepare(alloc, said, script, settings, input, clock) {
        Ok(job) => {
            law_outcome();
            law_drained();
            perform(alloc, job, post, base, out)
        }
        Err(status) => refused(status, post, base),
    }
}

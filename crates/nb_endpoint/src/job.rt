//! All that is read and checked before a store is touched.
ghost use Rattle.std.specs.Prelude.{◌≡◌, ◌≢◌};
ghost use Rattle.nb_endpoint.specs.Asked.{IsMoment, ReadsLines, BodiesAre, LoadsFor, Prepares};
ghost use Rattle.nb_endpoint.specs.Sources.{flow};
ghost use Rattle.nb_words.specs.declared.words.Command.TheVariants.{Run};

use crate::lines::messages_of;
use crate::script::checked_of;
use crate::setting::settings_of;
use crate::sources::read_source;
use crate::status::{Input, Status};
use nb_base::{Bytes, Clock, Items, Moment, Settings, Source};
use nb_envelope::Envelopes;
use nb_eval::Handlers;
use nb_words::{Command, Words};
use std::alloc::Global;

/// The most bytes of a script, and of settings.
const MOST_TEXT: usize = 1048576;

/// The most bytes of an input.
const MOST_INPUT: usize = 16777216;

/// What is to be done, with all that was read for it.
#[derive(Drop)]
pub struct Job {
    pub said: Words,
    pub moment: Moment,
    pub handlers: Handlers,
    pub settings: Settings,
    pub messages: Envelopes,
}

/// The bytes of the sources.
#[derive(Drop)]
struct Bodies {
    script: Bytes,
    settings: Bytes,
    lines: Option<Bytes>,
}

/// The lines, where they are read.
fn lines_for<S: Source>(
    alloc: Global,
    command: Command,
    input: &mut S,
) -> Result<Option<Bytes>, Status>
    ensures read { ReadsLines command (flow S.Source input.old input.new) result }
    ensures unread { command ≢ Run → input.new ≡ input.old }
{
    match command {
        Command::Run => match read_source(alloc, input, MOST_INPUT, Input::Lines) {
            Ok(bytes) => Ok(Some(bytes)),
            Err(status) => Err(status),
        },
        Command::Show => Ok(None),
        Command::Retry => Ok(None),
        Command::Purge => Ok(None),
        Command::Sample => Ok(None),
    }
}

/// The bytes of all sources, which are read before any of them is looked at.
fn bodies_of<S: Source>(
    alloc: Global,
    command: Command,
    script: &mut S,
    settings: &mut S,
    input: &mut S,
) -> Result<Bodies, Status>
    ensures read { BodiesAre command (record {
      script = flow S.Source script.old script.new;
      settings = flow S.Source settings.old settings.new;
      lines = flow S.Source input.old input.new;
    }) result }
    ensures unread { command ≢ Run → input.new ≡ input.old }
{
    let script = match read_source(alloc, script, MOST_TEXT, Input::Script) {
        Ok(bytes) => bytes,
        Err(status) => return Err(status),
    };
    let settings = match read_source(alloc, settings, MOST_TEXT, Input::Settings) {
        Ok(bytes) => bytes,
        Err(status) => return Err(status),
    };
    match lines_for(alloc, command, input) {
        Ok(lines) => Ok(Bodies {
            script,
            settings,
            lines,
        }),
        Err(status) => Err(status),
    }
}

/// The messages of the lines, where they were read.
fn messages_for(alloc: Global, lines: &Option<Bytes>) -> Result<Envelopes, Status>
    ensures { LoadsFor lines.now result }
{
    match lines {
        Some(bytes) => messages_of(alloc, bytes.as_slice()),
        None => Ok(Items::new(alloc)),
    }
}

/// The moment of the words, or else the clock's.
fn moment_of<C: Clock>(at: Option<Moment>, clock: &mut C) -> Moment
    ensures { IsMoment at (C.next clock.old) result }
{
    match at {
        Some(moment) => moment,
        None => clock.now(),
    }
}

/// What is to be done, or why nothing is.
pub fn prepare<S: Source, C: Clock>(
    alloc: Global,
    said: Words,
    script: &mut S,
    settings: &mut S,
    input: &mut S,
    clock: &mut C,
) -> Result<Job, Status>
    ensures prepares { Prepares said (C.next clock.old) (record {
      script = flow S.Source script.old script.new;
      settings = flow S.Source settings.old settings.new;
      lines = flow S.Source input.old input.new;
    }) result }
    ensures unread { said.command ≢ Run → input.new ≡ input.old }
{
    let bodies = match bodies_of(alloc, said.command, script, settings, input) {
        Ok(bodies) => bodies,
        Err(status) => return Err(status),
    };
    let checked = match checked_of(alloc, bodies.script.as_slice()) {
        Ok(checked) => checked,
        Err(status) => return Err(status),
    };
    let settings = match settings_of(alloc, bodies.settings.as_slice(), &checked) {
        Ok(settings) => settings,
        Err(status) => return Err(status),
    };
    let messages = match messages_for(alloc, &bodies.lines) {
        Ok(messages) => messages,
        Err(status) => return Err(status),
    };
    Ok(Job {
        said,
        moment: moment_of(said.at, clock),
        handlers: Handlers { checked },
        settings,
        messages,
    })
}

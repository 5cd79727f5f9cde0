//! One call of the program, over memory: what it is given, and how it ends.

use crate::lines::messages;
use crate::stores::Stores;
use crate::texts::{SCRIPT, SETTINGS};
use nb_base::{
    Bytes, FixedClock, Items, MemSink, MemSource, Moment, NoMemory, Numbers, Source, Text,
};
use nb_cells::MemCells;
use nb_endpoint::{Ended, Input, run_alone};
use std::alloc::Global;

/// What the program is given, apart from its stores.
#[derive(Clone, Copy)]
pub struct Trial<'a> {
    /// The words, parted by blanks.
    pub words: &'a str,
    pub script: &'a str,
    pub settings: &'a str,
    /// The input. Each of its lines is a message, written as its type, its id and its body.
    pub input: &'a str,
    /// Whether the input is given as it is.
    pub raw: bool,
    /// The most bytes that a call of a source or of the sink moves.
    pub piece: usize,
    /// The first source whose first read fails, where there is one: it and those after it fail.
    pub failing: Option<Input>,
    /// The write that fails; the first one is 1.
    pub write_fault: Option<u64>,
}

impl<'a> Trial<'a> {
    /// The script and the settings of most trials, with these words and this input.
    pub fn new(words: &'a str, input: &'a str) -> Trial<'a> {
        Trial::with(SCRIPT, SETTINGS, words, input)
    }

    /// This script and these settings, with these words and this input.
    pub fn with(script: &'a str, settings: &'a str, words: &'a str, input: &'a str) -> Trial<'a> {
        Trial {
            words,
            script,
            settings,
            input,
            raw: false,
            piece: 4096,
            failing: None,
            write_fault: None,
        }
    }
}

/// A list of at most one number.
pub(crate) fn numbers(alloc: Global, number: Option<u64>) -> Result<Numbers, NoMemory> {
    let mut numbers: Numbers = Items::new(alloc);
    if let Some(number) = number {
        numbers.push(number)?;
    }
    Ok(numbers)
}

/// The words of a text.
fn words_of(alloc: Global, text: &str) -> Result<Vec<Text>, NoMemory> {
    let mut words = Vec::new(alloc);
    for word in text.split(' ') {
        if !word.is_empty() {
            words.push(Text::new(alloc, word)?)?;
        }
    }
    Ok(words)
}

/// The place of a source in the order in which they are read.
fn place(which: Input) -> u8 {
    match which {
        Input::Script => 0,
        Input::Settings => 1,
        Input::Lines => 2,
    }
}

/// A source of a text, as the trial says.
fn source(alloc: Global, trial: &Trial, which: Input, text: &str) -> Result<MemSource, NoMemory> {
    let bytes = Bytes::new(alloc, text.as_bytes())?;
    let fault = match trial.failing {
        Some(first) if place(first) <= place(which) => Some(1),
        _ => None,
    };
    let fails = numbers(alloc, fault)?;
    Ok(MemSource::new(bytes, trial.piece.max(1), fails))
}

/// The source of the input.
fn input_of(alloc: Global, trial: &Trial) -> Result<MemSource, NoMemory> {
    if trial.raw {
        return source(alloc, trial, Input::Lines, trial.input);
    }
    let lines = messages(alloc, trial.input)?;
    source(alloc, trial, Input::Lines, lines.as_str())
}

/// The sink that a trial has.
fn sink_of(alloc: Global, trial: &Trial) -> Result<MemSink, NoMemory> {
    let faults = numbers(alloc, trial.write_fault)?;
    MemSink::new(alloc, trial.piece.max(1), 65536, faults)
}

/// All that a call takes but its stores.
#[derive(Drop)]
pub(crate) struct Given {
    words: Vec<Text>,
    script: MemSource,
    settings: MemSource,
    input: MemSource,
    pub(crate) out: MemSink,
}

impl Given {
    /// How many reads of the sources failed.
    pub(crate) fn faults(&self) -> u64 {
        self.script
            .faults()
            .saturating_add(self.settings.faults())
            .saturating_add(self.input.faults())
    }
}

/// All that a trial gives but the stores.
pub(crate) fn given_of(alloc: Global, trial: &Trial) -> Result<Given, NoMemory> {
    let words = words_of(alloc, trial.words)?;
    let script = source(alloc, trial, Input::Script, trial.script)?;
    let settings = source(alloc, trial, Input::Settings, trial.settings)?;
    let input = input_of(alloc, trial)?;
    let out = sink_of(alloc, trial)?;
    Ok(Given {
        words,
        script,
        settings,
        input,
        out,
    })
}

/// Calls the program over these stores. Its clock shows the moment 1700000000.
pub(crate) fn call(alloc: Global, given: &mut Given, stores: Stores) -> Ended<MemCells, MemCells> {
    let Stores { post, base } = stores;
    let mut clock = FixedClock(Moment::FIRST.plus(1700000000));
    run_alone(
        alloc,
        given.words.as_slice(),
        &mut given.script,
        &mut given.settings,
        &mut given.input,
        &mut given.out,
        post,
        base,
        &mut clock,
    )
}

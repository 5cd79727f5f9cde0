//! The program: the top call on the words of the command line, the files of the folder, standard
//! input and output, and the system's clock.
#![tactic(auto)]

mod origin;

use either::Right;
use nb_base::{HostClock, NoMemory, ReadSource, Text, WriteSink};
use nb_cells::CellFault;
use nb_endpoint::{Ended, Status, run_alone};
use nb_sql::FileCells;
use origin::file;
use std::process::ExitCode;
use std::{env, io};

/// A word of the command line.
fn text(word: String) -> Result<Text, Status> {
    match Text::of_string(word) {
        Ok(text) => Ok(text),
        Err(NoMemory) => Err(Status::NoMemory),
    }
}

/// The words after the program's own name. A word that is no UTF-8 is refused like an unknown one.
fn words(rt: &HostRuntime) -> Result<Vec<Text>, Status> {
    let args = match env::args(rt) {
        Ok(args) => args,
        Err(error) if error.kind() == io::ErrorKind::OutOfMemory => return Err(Status::NoMemory),
        Err(_) => return Err(Status::Words),
    };
    let mut words = Vec::new(rt.alloc());
    for word in args.skip(1) {
        if words.push(text(word)?).is_err() {
            return Err(Status::NoMemory);
        }
    }
    Ok(words)
}

/// The store in the file at a path, or the status `failed`.
fn store(rt: &HostRuntime, path: &str, failed: Status) -> Result<FileCells, Status> {
    match FileCells::in_file(rt, path) {
        Ok(cells) => Ok(cells),
        Err(CellFault::Failed) => Err(failed),
        Err(CellFault::NoMemory) => Err(Status::NoMemory),
    }
}

/// Does what the words say with the files of the folder.
fn run(rt: &HostRuntime, words: &[Text]) -> Result<Status, Status> {
    let post = store(rt, "post.db", Status::PostFault)?;
    let base = store(rt, "base.db", Status::BaseFault)?;
    let mut script = ReadSource::new(file(rt, "endpoint.script"));
    let mut settings = ReadSource::new(file(rt, "endpoint.toml"));
    let mut input = ReadSource::new(Right(rt.stdin()));
    let mut out = WriteSink::new(io::writer(rt));
    let mut clock = HostClock::new(rt);
    let Ended {
        status,
        post: _,
        base: _,
        history: _,
        printed: _,
    } = run_alone(
        rt.alloc(),
        words,
        &mut script,
        &mut settings,
        &mut input,
        &mut out,
        post,
        base,
        &mut clock,
    );
    Ok(status)
}

/// The status of the program, whose words are those of the command line.
fn status(rt: &HostRuntime) -> Result<Status, Status> {
    let words = words(rt)?;
    run(rt, words.as_slice())
}

/// Says on a line of its own why not all was done.
fn say(rt: &HostRuntime, status: &Status) -> io::Result<()> {
    match status {
        Status::Done => Ok(()),
        _ => println!(rt; "endpoint: {status}"),
    }
}

fn main(rt: HostRuntime) -> ExitCode {
    let status = match status(&rt) {
        Ok(status) => status,
        Err(status) => status,
    };
    let _ = say(&rt, &status);
    ExitCode::from(status.code())
}

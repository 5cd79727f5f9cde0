//! How the top call ends.
ghost use Rattle.std.specs.Prelude.{◌≡◌};
ghost use Rattle.nb_endpoint.specs.Statuses.{code_of};

use nb_base::{Bytes, NoMemory, Text, Which};
use nb_check::CheckKind;
use nb_envelope::{InputKind, LineFault};
use nb_script::ScriptKind;
use nb_settings::SettingsKind;
use std::fmt;

/// A source of the top call.
#[derive(Clone, Copy, Debug, PartialEq, Eq)]
pub enum Input {
    Script,
    Settings,
    Lines,
}

/// What is wrong with a script at its first bad place.
#[derive(Clone, Copy, Debug, Drop, PartialEq, Eq)]
pub enum Mistake {
    /// The bytes are no script.
    Syntax(ScriptKind),
    /// The script breaks a rule.
    Rule(CheckKind),
}

/// How the top call ends.
#[derive(Debug, Drop)]
pub enum Status {
    /// All was done.
    Done,
    /// All Takes were made that were allowed, and something is left to do. The report was printed.
    NotDrained {
        takes: u64,
    },
    /// The words aren't a command.
    Words,
    /// The first place at which the script isn't well-typed. Lines and columns count from 1, a
    /// column counts bytes.
    Script {
        line: u32,
        column: u32,
        kind: Mistake,
    },
    /// The first bad key of the settings, written whole.
    Settings {
        key: Text,
        kind: SettingsKind,
    },
    /// The first line of the input that is refused, counted from 1.
    Input {
        line: u64,
        kind: InputKind,
    },
    /// The source failed.
    ReadFault(Input),
    /// The sink failed; it has taken a beginning of the report.
    WriteFault,
    /// The store of sagas, rows and records failed.
    BaseFault,
    /// The store of queues failed.
    PostFault,
    /// There was no memory.
    NoMemory,
    /// The least cell of a store that is none of its grammar and bounds, or the saga that doesn't
    /// fit the script.
    Damaged {
        store: Which,
        space: u8,
        key: Bytes,
    },
    /// A number that is needed stands at its end.
    Spent,
}

impl From<NoMemory> for Status {
    ghost use Rattle.std.specs.Prelude.{◌≡◌};
    ghost use Rattle.nb_endpoint.specs.declared.status.Status.TheVariants.{NoMemory};

    ghost from_gives = { λ _ e. e ≡ NoMemory };

    fn from(_refused: NoMemory) -> Status {
        Status::NoMemory
    }
}

impl Status {
    /// The exit status of the program.
    pub fn code(&self) -> u8
        ensures { result ≡ code_of self.now }
    {
        match self {
            Status::Done => 0,
            Status::NotDrained { .. } => 1,
            Status::Words => 2,
            Status::Script { .. } => 3,
            Status::Settings { .. } => 4,
            Status::Input { .. } => 5,
            Status::ReadFault(_) => 6,
            Status::WriteFault => 7,
            Status::BaseFault => 8,
            Status::PostFault => 9,
            Status::NoMemory => 10,
            Status::Damaged { .. } => 11,
            Status::Spent => 12,
        }
    }
}

fn source_name(source: Input) -> &'static str {
    match source {
        Input::Script => "Script",
        Input::Settings => "Settings",
        Input::Lines => "Lines",
    }
}

fn store_name(store: Which) -> &'static str {
    match store {
        Which::Base => "Base",
        Which::Post => "Post",
    }
}

/// The name of a line's fault.
fn fault_name(fault: &LineFault) -> &'static str {
    match fault {
        LineFault::TooLong => "TooLong",
        LineFault::NotJson => "NotJson",
        LineFault::NotEnvelope(_) => "NotEnvelope",
        LineFault::NoId => "NoId",
        LineFault::NoMemory => "NoMemory",
    }
}

/// The name of the kind of a bad line.
fn line_name(kind: &InputKind) -> &'static str {
    match kind {
        InputKind::TooMuch => "TooMuch",
        InputKind::TooMany => "TooMany",
        InputKind::Line(fault) => fault_name(fault),
        InputKind::NoMemory => "NoMemory",
    }
}

fn settings_name(kind: SettingsKind) -> &'static str {
    match kind {
        SettingsKind::NotToml => "NotToml",
        SettingsKind::Missing => "Missing",
        SettingsKind::WrongKind => "WrongKind",
        SettingsKind::OutOfRange => "OutOfRange",
        SettingsKind::SameQueue => "SameQueue",
        SettingsKind::Repeated => "Repeated",
        SettingsKind::Unknown => "Unknown",
        SettingsKind::NoRoute => "NoRoute",
    }
}

impl fmt::Display for Mistake {
    fn fmt<W: fmt::Write>(&self, f: &mut fmt::Formatter<W>) -> fmt::Result {
        match self {
            Mistake::Syntax(kind) => write!(f, "{kind}"),
            Mistake::Rule(kind) => write!(f, "{kind}"),
        }
    }
}

/// Writes bytes as hexadecimal digits.
fn write_hex<W: fmt::Write>(f: &mut fmt::Formatter<W>, bytes: &[u8]) -> fmt::Result {
    for byte in bytes.iter() {
        write!(f, "{byte:02x}")?;
    }
    Ok(())
}

impl fmt::Display for Status {
    fn fmt<W: fmt::Write>(&self, f: &mut fmt::Formatter<W>) -> fmt::Result {
        match self {
            Status::Done => f.write_str("done"),
            Status::NotDrained { takes } => write!(f, "not drained after {takes} takes"),
            Status::Words => f.write_str("words refused"),
            Status::Script { line, column, kind } => write!(f, "script {line}:{column}: {kind}"),
            Status::Settings { key, kind } => {
                let name = settings_name(*kind);
                let key = key.as_str();
                write!(f, "settings {key}: {name}")
            }
            Status::Input { line, kind } => {
                let name = line_name(kind);
                write!(f, "input {line}: {name}")
            }
            Status::ReadFault(source) => {
                let name = source_name(*source);
                write!(f, "read fault: {name}")
            }
            Status::WriteFault => f.write_str("write fault"),
            Status::BaseFault => f.write_str("base store failed"),
            Status::PostFault => f.write_str("post store failed"),
            Status::NoMemory => f.write_str("no memory"),
            Status::Damaged { store, space, key } => {
                let name = store_name(*store);
                write!(f, "damaged {name} {space} ")?;
                write_hex(f, key.as_slice())
            }
            Status::Spent => f.write_str("numbers spent"),
        }
    }
}

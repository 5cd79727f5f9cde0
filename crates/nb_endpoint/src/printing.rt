//! Texts, printed.
ghost use Rattle.nb_endpoint.specs.Printing.{EndsAs, PrintIs, TextIs};

use crate::status::Status;
use nb_base::{Sink, Text, write_all};
use nb_core::State;
use nb_report::report;
use std::alloc::Global;

/// How work ended, and how many bytes were written.
#[derive(Drop)]
pub struct Worked {
    pub status: Status,
    pub printed: u64,
}

/// Prints a text behind which the work ends with this status.
pub(crate) fn write<O: Sink>(text: &Text, ended: Status, out: &mut O) -> Worked
    requires { EndsAs ended }
    ensures { TextIs ended text.now result
        (O.held out.old) (O.held out.new) (O.count out.old) (O.count out.new) }
{
    let bytes = text.as_str().as_bytes();
    match write_all(out, bytes) {
        Ok(()) => Worked {
            status: ended,
            printed: bytes.len() as u64,
        },
        Err(stop) => Worked {
            status: Status::WriteFault,
            printed: stop.written,
        },
    }
}

/// Prints the report of a state at which the work ended with this status.
pub fn print<O: Sink>(alloc: Global, state: &State, ended: Status, out: &mut O) -> Worked
    requires { EndsAs ended }
    ensures { PrintIs ended state.now result
        (O.held out.old) (O.held out.new) (O.count out.old) (O.count out.new) }
{
    match report(alloc, state) {
        Ok(text) => write(&text, ended, out),
        Err(_no_memory) => Worked {
            status: Status::NoMemory,
            printed: 0,
        },
    }
}

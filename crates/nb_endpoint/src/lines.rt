//! The lines of the input of the top call.
ghost use Rattle.nb_endpoint.specs.Lines.{Loads};

use crate::status::Status;
use nb_envelope::{Envelopes, InputKind, read_lines};
use std::alloc::Global;

/// The messages of an input, or its first bad line.
pub(crate) fn messages_of(alloc: Global, bytes: &[u8]) -> Result<Envelopes, Status>
    ensures { Loads bytes.now result }
{
    match read_lines(alloc, bytes) {
        Ok(messages) => Ok(messages),
        Err(fault) => match fault.kind {
            InputKind::NoMemory => Err(Status::NoMemory),
            kind => Err(Status::Input {
                line: fault.line,
                kind,
            }),
        },
    }
}

//! The sources of the top call, read whole.
ghost use Rattle.std.specs.Prelude.{◌<◌, ◌^◌};
ghost use Rattle.nb_endpoint.specs.Sources.{Reads, flow};

use crate::status::{Input, Status};
use nb_base::{Bytes, ReadStop, Source, read_all};
use std::alloc::Global;

/// The bytes of a source, up to a limit, and one more where there are more.
pub(crate) fn read_source<S: Source>(
    alloc: Global,
    source: &mut S,
    most: usize,
    which: Input,
) -> Result<Bytes, Status>
    requires { most < 2 ^ 32 }
    ensures { Reads which most (flow S.Source source.old source.new) result }
{
    match read_all(alloc, source, most) {
        Ok(bytes) => Ok(bytes),
        Err(ReadStop::Failed) => Err(Status::ReadFault(which)),
        Err(ReadStop::NoMemory) => Err(Status::NoMemory),
    }
}

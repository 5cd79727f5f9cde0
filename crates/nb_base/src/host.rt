//! The outside as a host gives it: readers, writers and the system's clock.

use crate::clock::Clock;
use crate::failed::Failed;
use crate::moment::Moment;
use crate::sink::Sink;
use crate::source::Source;
use std::io::{Read, Write};
use std::time;

/// A source over a reader, as a file or standard input.
#[derive(Drop)]
pub struct ReadSource<R: Read> {
    reader: R,
    faults: u64,
}

impl<R: Read> ReadSource<R> {
    /// A source that gives what the reader gives.
    pub fn new(reader: R) -> ReadSource<R> {
        ReadSource { reader, faults: 0 }
    }
}

impl<R: Read> Source for ReadSource<R> {
    ghost left = { λ s. R.remaining s.reader };

    ghost count = { λ s. s.faults };

    fn read(&mut self, into: &mut [u8]) -> Result<usize, Failed> {
        match self.reader.read(into) {
            Ok(n) => Ok(n),
            Err(_) => {
                self.faults = self.faults.saturating_add(1);
                Err(Failed)
            }
        }
    }

    fn faults(&self) -> u64 {
        self.faults
    }
}

/// A sink over a writer, as a file or standard output.
#[derive(Drop)]
pub struct WriteSink<W: Write> {
    writer: W,
    faults: u64,
}

impl<W: Write> WriteSink<W> {
    /// A sink that writes to the writer.
    pub fn new(writer: W) -> WriteSink<W> {
        WriteSink { writer, faults: 0 }
    }
}

impl<W: Write> Sink for WriteSink<W> {
    ghost held = { λ s. W.contents s.writer };

    ghost count = { λ s. s.faults };

    fn write(&mut self, from: &[u8]) -> Result<usize, Failed> {
        match self.writer.write(from) {
            Ok(n) if n > 0 => Ok(n),
            _ => {
                self.faults = self.faults.saturating_add(1);
                Err(Failed)
            }
        }
    }

    fn faults(&self) -> u64 {
        self.faults
    }
}

/// The system's clock. Where it can't be read, or is out of a moment's range, it answers the first moment.
#[derive(Drop)]
pub struct HostClock<'a, C: time::Clock> {
    clock: &'a C,
}

impl<'a, C: time::Clock> HostClock<'a, C> {
    /// A clock over the runtime's.
    pub fn new(clock: &'a C) -> HostClock<'a, C> {
        HostClock { clock }
    }
}

impl<C: time::Clock> Clock for HostClock<'_, C> {
    ghost use Rattle.std.specs.Prelude.{None};

    ghost next = { λ _. None };

    fn now(&mut self) -> Moment {
        match self.clock.since_1970() {
            Ok(since) => Moment::new(since.as_secs()).unwrap_or(Moment::FIRST),
            Err(_) => Moment::FIRST,
        }
    }
}

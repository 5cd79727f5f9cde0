//! A source in memory, whose calls fail where a list says so.
ghost use Rattle.std.specs.Prelude.{◌≡◌, ◌<◌, length};
ghost use Rattle.std.specs.Io.{ReadsAtMost};
ghost use Rattle.std.specs.Io.KnownBytes.{ReadConsumes};
ghost use Rattle.nb_base.specs.Causes.{HasCause};
ghost use Rattle.nb_base.specs.Stream.{is_listed, supply, read_answer, after_read};

use crate::bytes::Bytes;
use crate::failed::Failed;
use crate::items::Items;
use crate::source::Source;
use crate::value::Numbers;
use std::marker::Model;

/// Whether the call with this number fails.
pub(crate) fn is_listed(fails: &[u64], call: u64) -> bool
    ensures { result ≡ is_listed fails.now call }
{
    fails.contains(&call)
}

/// A source of bytes in memory.
#[derive(Drop)]
pub struct MemSource {
    bytes: Bytes,
    at: usize,
    piece: usize,
    fails: Numbers,
    calls: u64,
    faults: u64,
}

impl Model for MemSource {
    ghost use Rattle.std.specs.Prelude.{◌<◌, ◌≤◌, drop, length};
    ghost use Rattle.nb_base.specs.Stream.{Supply};

    ghost Value = { Supply };

    ghost view = { λ s. record {
      bytes = drop s.at s.bytes;
      piece = s.piece;
      fails = s.fails;
      calls = s.calls;
      faults = s.faults;
    } };

    ghost invariant = { λ s. (s.at ≤ length s.bytes) × (0 < s.piece) };
}

impl MemSource {
    /// A source of these bytes, which moves at most `piece` of them in a call, and fails at the calls of the list,
    /// counted from 1.
    pub fn new(bytes: Bytes, piece: usize, fails: Numbers) -> MemSource
        requires { 0 < piece }
        ensures { result ≡ supply bytes piece fails }
    {
        MemSource {
            bytes,
            at: 0,
            piece,
            fails,
            calls: 0,
            faults: 0,
        }
    }
}

impl Source for MemSource {
    ghost use Rattle.std.specs.Prelude.{Some};

    ghost left = { λ s. Some s.bytes };

    ghost count = { λ s. s.faults };

    fn read(&mut self, into: &mut [u8]) -> Result<usize, Failed>
        ensures answer { result ≡ read_answer self.old (length into.old) }
        ensures after { self.new ≡ after_read self.old (length into.old) }
        ensures bound { ReadsAtMost result into.new }
        ensures bytes { ReadConsumes (Some self.old.bytes) (Some self.new.bytes) result into.new }
        ensures cause { HasCause self.old.faults self.new.faults result }
    {
        self.calls = self.calls.saturating_add(1);
        if is_listed(self.fails.as_slice(), self.calls) {
            self.faults = self.faults.saturating_add(1);
            return Err(Failed);
        }
        let bytes = self.bytes.as_slice();
        let n = into.len().min(self.piece).min(bytes.len() - self.at);
        into[..n].copy_from_slice(&bytes[self.at..self.at + n]);
        self.at += n;
        Ok(n)
    }

    fn faults(&self) -> u64 {
        self.faults
    }
}

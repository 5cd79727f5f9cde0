//! A source of bytes.
ghost use Rattle.std.specs.Prelude.{◌≡◌, ◌<◌, ◌≤◌, ◌+◌, ◌^◌, ℕ, List, Option, length, IfOk, OnErr};
ghost use Rattle.std.specs.Io.{ReadsAtMost};
ghost use Rattle.std.specs.Io.KnownBytes.{ReadConsumes};
ghost use Rattle.nb_base.specs.Causes.{HasCause, Rose};
ghost use Rattle.nb_base.specs.Takes.{TakesAll, TakesSome};

use crate::bytes::Bytes;
use crate::failed::Failed;
use crate::no_memory::NoMemory;
use std::alloc::{AllocError, Global};
use thiserror::Error;

/// A source by the bytes that are left, where it tells them, and by the count of its faults, which never falls.
pub trait Source {
    ghost left: { Self → Option (List ℕ) };

    ghost count: { Self → ℕ };

    /// Fills a beginning of the buffer with the next bytes, and answers how many. None come only at the end.
    fn read(&mut self, into: &mut [u8]) -> Result<usize, Failed>
        requires { 0 < length into.old }
        ensures bound { ReadsAtMost result into.new }
        ensures bytes { ReadConsumes (left self.old) (left self.new) result into.new }
        ensures cause { HasCause (count self.old) (count self.new) result };

    /// How many calls failed.
    fn faults(&self) -> u64
        ensures { result ≡ count self.now };
}

/// Why a source wasn't read to its end.
#[derive(Clone, Copy, Debug, Drop, PartialEq, Eq, Error)]
pub enum ReadStop {
    #[error("read fault")]
    Failed,
    #[error("no memory")]
    NoMemory,
}

impl From<Failed> for ReadStop {
    ghost use Rattle.std.specs.Prelude.{◌≡◌};
    ghost use Rattle.nb_base.specs.declared.source.ReadStop.TheVariants.{Failed};

    ghost from_gives = { λ _ e. e ≡ Failed };

    fn from(_failed: Failed) -> ReadStop {
        ReadStop::Failed
    }
}

impl From<NoMemory> for ReadStop {
    ghost use Rattle.std.specs.Prelude.{◌≡◌};
    ghost use Rattle.nb_base.specs.declared.source.ReadStop.TheVariants.{NoMemory};

    ghost from_gives = { λ _ e. e ≡ NoMemory };

    fn from(_refused: NoMemory) -> ReadStop {
        ReadStop::NoMemory
    }
}

impl From<AllocError> for ReadStop {
    ghost use Rattle.std.specs.Prelude.{◌≡◌};
    ghost use Rattle.nb_base.specs.declared.source.ReadStop.TheVariants.{NoMemory};

    ghost from_gives = { λ _ e. e ≡ NoMemory };

    fn from(_refused: AllocError) -> ReadStop {
        ReadStop::NoMemory
    }
}

/// The next bytes up to the end of the source, and at most one more than the limit.
pub fn read_all<S: Source>(alloc: Global, source: &mut S, limit: usize) -> Result<Bytes, ReadStop>
    requires { limit < 2 ^ 32 }
    ensures ok { IfOk result (TakesAll limit (S.left source.old) (S.left source.new)) }
    ensures err { OnErr result (TakesSome (S.left source.old) (S.left source.new)) }
    ensures later { S.count source.old ≤ S.count source.new }
    ensures failed { result ≡ Err ReadStop.Failed → Rose (S.count source.old) (S.count source.new) }
{
    let mut bytes: Vec<u8> = Vec::new(alloc);
    let mut room = [0u8; 4096];
    while bytes.len() <= limit {
        let want = (limit + 1 - bytes.len()).min(4096);
        let n = source.read(&mut room[..want])?;
        if n == 0 {
            return Ok(Bytes::of_vec(bytes)?);
        }
        bytes.extend_from_slice(&room[..n])?;
    }
    Ok(Bytes::of_vec(bytes)?)
}

//! A sink of bytes.
ghost use Rattle.std.specs.Prelude.{◌≡◌, ◌<◌, ◌≤◌, ℕ, List, Option, length, take, IfOk, IfErr, OnOk};
ghost use Rattle.std.specs.Io.KnownBytes.{Appends, WriteAppends};
ghost use Rattle.nb_base.specs.Causes.{HasCause};

use crate::failed::Failed;

/// A sink by the bytes that it holds, where it tells them, and by the count of its faults, which never falls.
pub trait Sink {
    ghost held: { Self → Option (List ℕ) };

    ghost count: { Self → ℕ };

    /// Appends a beginning of the bytes, at least one, and answers how many. A failed call appends nothing.
    fn write(&mut self, from: &[u8]) -> Result<usize, Failed>
        requires { 0 < length from.now }
        ensures bound { IfOk result (λ n. (0 < n) × (n ≤ length from.now)) }
        ensures bytes { WriteAppends (held self.old) (held self.new) result from.now }
        ensures cause { HasCause (count self.old) (count self.new) result };

    /// How many calls failed.
    fn faults(&self) -> u64
        ensures { result ≡ count self.now };
}

/// Not all bytes were written, but these first ones.
#[derive(Clone, Copy, Debug, Drop, PartialEq, Eq)]
pub struct WriteStop {
    pub written: u64,
}

/// Appends all of the bytes.
pub fn write_all<O: Sink>(out: &mut O, from: &[u8]) -> Result<(), WriteStop>
    ensures ok { OnOk result (Appends (O.held out.old) (O.held out.new) from.now) }
    ensures err { IfErr result (λ e. (e.written < length from.now)
        × Appends (O.held out.old) (O.held out.new) (take e.written from.now)) }
    ensures cause { HasCause (O.count out.old) (O.count out.new) result }
{
    let mut at = 0;
    while at < from.len() {
        match out.write(&from[at..]) {
            Ok(n) => at += n,
            Err(_) => return Err(WriteStop { written: at as u64 }),
        }
    }
    Ok(())
}

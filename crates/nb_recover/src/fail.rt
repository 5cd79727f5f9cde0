//! Why a message failed.
ghost use Rattle.std.specs.Prelude.{◌≡◌, IfOk};

use crate::texts::conflict_text;
use nb_base::{Copied, Fault, Key, NoMemory, Text};
use std::alloc::Global;

/// Why a message failed.
#[derive(Debug, Drop)]
pub enum Fail {
    /// Its handlers have no effect.
    Fault(Fault),
    /// What it read has changed meanwhile: the key, the version that was read, and the one that stands there. A key at
    /// which nothing stands has the version 0.
    Conflict { key: Key, seen: u64, now: u64 },
}

impl Fail {
    ghost use Rattle.nb_recover.specs.Fails.{name_of, text_of, is_unrecoverable};

    /// The name under which it is reported: the fault's, or `Conflict`.
    pub fn name(&self) -> &str
        ensures { result.now ≡ name_of self.now }
    {
        match self {
            Fail::Fault(fault) => fault.name.as_str(),
            Fail::Conflict {
                key: _,
                seen: _,
                now: _,
            } => "Conflict",
        }
    }

    /// The text under which it is reported.
    pub fn text(&self, alloc: Global) -> Result<Text, NoMemory>
        ensures { IfOk result (λ t. t ≡ text_of self.now) }
    {
        match self {
            Fail::Fault(fault) => fault.text.copy(),
            Fail::Conflict { key, seen, now } => conflict_text(alloc, key, *seen, *now),
        }
    }

    /// Whether a retry is useless.
    pub fn is_unrecoverable(&self) -> bool
        ensures { result ≡ is_unrecoverable self.now }
    {
        match self {
            Fail::Fault(fault) => fault.unrecoverable,
            Fail::Conflict {
                key: _,
                seen: _,
                now: _,
            } => false,
        }
    }
}

impl Copied for Fail {
    fn copy(&self) -> Result<Fail, NoMemory> {
        match self {
            Fail::Fault(fault) => Ok(Fail::Fault(fault.copy()?)),
            Fail::Conflict { key, seen, now } => Ok(Fail::Conflict {
                key: key.copy()?,
                seen: *seen,
                now: *now,
            }),
        }
    }
}

//! Plans of faults.
ghost use Rattle.std.specs.Prelude.{◌≡◌, ◌↔◌, [], IsTrue};
ghost use Rattle.nb_cells.specs.Plan.{read_turn, apply_turn, is_listed};

use nb_base::{Copied, Items, NoMemory, Numbers};
use std::alloc::Global;

/// From an apply on every call fails. That apply takes effect on what is found afterwards, where `after` says so.
#[derive(Clone, Copy, Debug, PartialEq, Eq)]
pub struct Stop {
    /// The number of the apply, counted from 1.
    pub apply: u64,
    pub after: bool,
}

/// Which calls fail. Calls of get and scan are counted together, and applies by themselves, both from 1; a call that
/// finds no memory isn't counted. A listed call fails with no effect. A stop comes before the lists.
#[derive(Debug, Drop)]
pub struct FaultPlan {
    pub reads: Numbers,
    pub applies: Numbers,
    pub stop: Option<Stop>,
}

impl Copied for FaultPlan {
    fn copy(&self) -> Result<FaultPlan, NoMemory> {
        let reads = self.reads.copy()?;
        let applies = self.applies.copy()?;
        Ok(FaultPlan {
            reads,
            applies,
            stop: self.stop,
        })
    }
}

/// What a plan says of a call.
#[derive(Clone, Copy, Debug)]
pub(crate) enum Turn {
    Works,
    Fails,
    Stops(bool),
}

impl Turn {
    /// Whether the call has its effect.
    pub fn works(self) -> bool
        ensures { IsTrue result ↔ (self ≡ Turn.Works) }
    {
        matches!(self, Turn::Works)
    }
}

/// Whether a call is listed.
fn is_listed(calls: &[u64], call: u64) -> bool
    ensures { result ≡ is_listed calls.now call }
{
    calls.contains(&call)
}

impl FaultPlan {
    /// No faults.
    pub fn none(alloc: Global) -> FaultPlan
        ensures { result ≡ record { reads = []; applies = []; stop = None } }
    {
        FaultPlan {
            reads: Items::new(alloc),
            applies: Items::new(alloc),
            stop: None,
        }
    }

    /// What the plan says of a call of get or scan.
    pub(crate) fn read_turn(&self, call: u64) -> Turn
        ensures { result ≡ read_turn self.now call }
    {
        if is_listed(self.reads.as_slice(), call) {
            Turn::Fails
        } else {
            Turn::Works
        }
    }

    /// What the plan says of an apply.
    pub(crate) fn apply_turn(&self, call: u64) -> Turn
        ensures { result ≡ apply_turn self.now call }
    {
        match self.stop {
            Some(stop) if stop.apply <= call => Turn::Stops(stop.after),
            _ if is_listed(self.applies.as_slice(), call) => Turn::Fails,
            _ => Turn::Works,
        }
    }
}

//! How a lease ends, and what is left of one.
ghost use Rattle.std.specs.Prelude.{◌≡◌};
ghost use Rattle.nb_pump.specs.Leases.{next_after};

use nb_core::Settled;

/// How a lease ended.
#[derive(Clone, Copy, Debug, Drop, PartialEq, Eq)]
pub enum Turn {
    /// A message was taken and handled to its end.
    Ended,
    /// No entry of the own queue is free.
    Nothing,
    /// The history has as many Takes as it may have.
    Limit,
}

/// What is left to do in a lease.
#[derive(Clone, Copy, Debug, Drop, PartialEq, Eq)]
pub enum Next {
    /// The batch is to be sent.
    Dispatch,
    /// The copy of the failed message is to be put.
    PutAside,
    /// The entry is to be removed.
    Finish,
    /// The entry is free again.
    Leave,
}

/// What is left to do after a settle.
pub fn next_after(settled: &Settled) -> Next
    ensures { result ≡ next_after settled.now }
{
    match settled {
        Settled::Committed(_) => Next::Dispatch,
        Settled::Twin { sent: true } => Next::Finish,
        Settled::Twin { sent: false } => Next::Dispatch,
        Settled::Again(_) => Next::Leave,
        Settled::Later(_) => Next::PutAside,
        Settled::Error(_) => Next::PutAside,
        Settled::Discarded(_) => Next::Finish,
    }
}

//! What every batch keeps.
ghost use Rattle.nb_dispatch.specs.Batches.{CountUp, TellApart, AreSound, AreFew};

/// The ids of a batch count up from 1, and an id tells its commit and its index. So the ids of an endpoint's batches
/// differ, within a batch and from one to another.
pub fn law_ids()
    ensures numbered { CountUp }
    ensures apart { TellApart }
{}

/// Each op has a queue, and its message an id. A message that is to be sent gives at most sixteen ops.
pub fn law_ops()
    ensures sound { AreSound }
    ensures few { AreFew }
{}

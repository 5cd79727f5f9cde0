//! The index of the own queue's entries.
ghost use Rattle.std.specs.Prelude.{◌≡◌, OnOk, OnErr, IsSome, None, true, bytes_eq, is_some};
ghost use Rattle.std.specs.FinMap as map;
ghost use Rattle.nb_ready.specs.Seats.{HasA};
ghost use Rattle.nb_hub.specs.Indexed.{noted, dropped, undelayed};

use nb_base::{Moment, NoMemory, Text};
use nb_ready::Ready;
use std::alloc::Global;

/// Notes a new entry, where it is one of the own queue.
pub fn note(
    alloc: Global,
    ready: &mut Ready,
    own: &Text,
    number: u64,
    queue: &Text,
    due: Option<Moment>,
) -> Result<(), NoMemory>
    requires { map.get ready.old number ≡ None }
    ensures ok { OnOk result (ready.new ≡ noted own.now ready.old number queue.now due) }
    ensures err { OnErr result (ready.new ≡ ready.old) }
{
    if queue == own {
        return ready.add(alloc, number, due);
    }
    Ok(())
}

/// Drops an entry, where it is one of the own queue.
pub fn drop_number(ready: &mut Ready, own: &Text, number: u64, queue: &Text)
    requires { bytes_eq queue.now own.now ≡ true → IsSome (map.get ready.old number) }
    ensures { ready.new ≡ dropped own.now ready.old number queue.now }
{
    if queue == own {
        ready.forget(number);
    }
}

/// Takes the due of an entry away, where it is one of the own queue.
pub fn release(ready: &mut Ready, own: &Text, number: u64, queue: &Text)
    requires { bytes_eq queue.now own.now ≡ true → HasA (λ s. is_some s.due) ready.old number }
    ensures { ready.new ≡ undelayed own.now ready.old number queue.now }
{
    if queue == own {
        ready.release(number);
    }
}

//! The index of the entries that wait for a moment.
ghost use Rattle.std.specs.Prelude.{◌≡◌, IfOk, OnOk, OnErr, None, is_some, true, IsSome};
ghost use Rattle.std.specs.FinMap as map;
ghost use Rattle.nb_queue.specs.Dues.{HasDues, noted, dropped};

use nb_base::{ByNumber, Moment, NoMemory, Queued};
use nb_ready::Ready;
use std::alloc::Global;

/// Notes a number, where it has a due.
pub(crate) fn note(
    alloc: Global,
    dues: &mut Ready,
    number: u64,
    due: Option<Moment>,
) -> Result<(), NoMemory>
    requires { map.get dues.old number ≡ None }
    ensures ok { OnOk result (dues.new ≡ noted dues.old number due) }
    ensures err { OnErr result (dues.new ≡ dues.old) }
{
    match due {
        Some(due) => dues.add(alloc, number, Some(due)),
        None => Ok(()),
    }
}

/// Forgets a number, where it had a due.
pub(crate) fn forget(dues: &mut Ready, number: u64, due: Option<Moment>)
    requires { is_some due ≡ true → IsSome (map.get dues.old number) }
    ensures { dues.new ≡ dropped dues.old number due }
{
    if due.is_some() {
        dues.forget(number);
    }
}

/// The index of these entries.
pub(crate) fn dues_of(alloc: Global, entries: &ByNumber<Queued>) -> Result<Ready, NoMemory>
    ensures { IfOk result (HasDues entries.now) }
{
    let mut dues = Ready::new(alloc);
    for (number, entry) in entries.iter() {
        note(alloc, &mut dues, *number, entry.due)?;
    }
    Ok(dues)
}

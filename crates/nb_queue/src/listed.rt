//! The entries of a queue, and those that wait for a moment.
ghost use Rattle.std.specs.Prelude.{◌≡◌, ◌++◌, IfOk, OnOk};
ghost use Rattle.std.specs.Option.{option_to_list};
ghost use Rattle.nb_queue.specs.Listed.{entry_of, standing_in, standing, waiting_in, waiting, due_of, AreDelayed};

use nb_base::{ByNumber, Copied, Entries, Entry, Items, NoMemory, Queued, Text};
use std::alloc::Global;

/// An entry with its number.
fn entry_of(number: u64, entry: &Queued) -> Result<Entry, NoMemory>
    ensures { IfOk result (λ e. e ≡ entry_of (number, entry.now)) }
{
    Ok(Entry {
        number,
        queue: entry.queue.copy()?,
        due: entry.due,
        envelope: entry.envelope.copy()?,
    })
}

/// Adds an entry where it stands in the queue.
fn add_standing(
    list: &mut Entries,
    queue: &Text,
    number: &u64,
    entry: &Queued,
) -> Result<(), NoMemory>
    ensures { OnOk result (list.new ≡ list.old ++ option_to_list (standing_in queue.now (number.now, entry.now))) }
{
    if entry.queue != *queue || entry.due.is_some() {
        return Ok(());
    }
    list.push(entry_of(*number, entry)?)
}

/// The entries that stand in a queue, by their numbers.
pub(crate) fn standing(
    alloc: Global,
    queue: &Text,
    entries: &ByNumber<Queued>,
) -> Result<Entries, NoMemory>
    ensures { IfOk result (λ list. list ≡ standing queue.now entries.now) }
{
    let mut list = Items::new(alloc);
    for (number, entry) in entries.iter() {
        add_standing(&mut list, queue, number, entry)?;
    }
    Ok(list)
}

/// Adds an entry where it has a due.
fn add_waiting(list: &mut Entries, number: &u64, entry: &Queued) -> Result<(), NoMemory>
    ensures { OnOk result (list.new ≡ list.old ++ option_to_list (waiting_in (number.now, entry.now))) }
{
    if entry.due.is_none() {
        return Ok(());
    }
    list.push(entry_of(*number, entry)?)
}

/// The entries with a due, by their numbers.
fn waiting(alloc: Global, entries: &ByNumber<Queued>) -> Result<Entries, NoMemory>
    ensures { IfOk result (λ list. list ≡ waiting entries.now) }
{
    let mut list = Items::new(alloc);
    for (number, entry) in entries.iter() {
        add_waiting(&mut list, number, entry)?;
    }
    Ok(list)
}

/// The seconds of the due, where there is one.
fn due_of(entry: &Entry) -> u64
    ensures { result ≡ due_of entry.now }
{
    match entry.due {
        Some(due) => due.seconds(),
        None => 0,
    }
}

/// The entries with a due, by the due; those with one due stand by their numbers.
pub(crate) fn delayed(alloc: Global, entries: &ByNumber<Queued>) -> Result<Entries, NoMemory>
    ensures { IfOk result (AreDelayed entries.now) }
{
    let mut list = waiting(alloc, entries)?.into_vec();
    list.sort_by_key(|entry| due_of(entry))?;
    Items::of_vec(list)
}

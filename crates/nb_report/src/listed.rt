//! The entries that stand in queues, and those that are delayed, in the order of the report.
ghost use Rattle.std.specs.Prelude.{◌≡◌, ◌++◌, ◌∷◌, [], IfOk, OnOk, map as map_list};
ghost use Rattle.std.specs.FinMap as map;
ghost use Rattle.std.specs.List.{filter, filter_map};
ghost use Rattle.nb_report.specs.Listed.{stands, queue_cmp, standing, waiting, due_cmp, delayed, entry_of, due_of};

use nb_base::{ByNumber, NoMemory, Queued};
use std::alloc::Global;
use std::cmp::Ordering;

/// An entry that stands in its queue.
#[derive(Drop)]
pub(crate) struct QueueEntry<'a> {
    pub(crate) number: u64,
    pub(crate) entry: &'a Queued,
}

/// An entry that waits for a moment.
#[derive(Drop)]
pub(crate) struct DelayedEntry<'a> {
    /// In seconds.
    pub(crate) due: u64,
    pub(crate) number: u64,
    pub(crate) entry: &'a Queued,
}

/// By the queues' bytes, and then by the numbers.
fn compare_queues(a: &QueueEntry<'_>, b: &QueueEntry<'_>) -> Ordering
    ensures { result ≡ queue_cmp (entry_of a.now) (entry_of b.now) }
{
    let queues = a.entry.queue.cmp(&b.entry.queue);
    queues.then(a.number.cmp(&b.number))
}

/// By the dues, and then by the numbers.
fn compare_dues(a: &DelayedEntry<'_>, b: &DelayedEntry<'_>) -> Ordering
    ensures { result ≡ due_cmp (due_of a.now) (due_of b.now) }
{
    let dues = a.due.cmp(&b.due);
    dues.then(a.number.cmp(&b.number))
}

/// Adds an entry where it stands in its queue.
fn add_standing<'a>(
    list: &mut Vec<QueueEntry<'a>>,
    number: u64,
    entry: &'a Queued,
) -> Result<(), NoMemory>
    ensures { OnOk result (map_list entry_of list.new.items ≡ map_list entry_of list.old.items ++ filter stands ((number, entry.now) ∷ [])) }
{
    if entry.due.is_some() {
        return Ok(());
    }
    list.push(QueueEntry { number, entry })?;
    Ok(())
}

/// The entries that stand in queues, by their numbers.
#[tactic(auto, using(crate::proofs::PieceLaws::filter_first))]
fn all_standing<'a>(
    alloc: Global,
    entries: &'a ByNumber<Queued>,
) -> Result<Vec<QueueEntry<'a>>, NoMemory>
    ensures { IfOk result (λ list. map_list entry_of list.items ≡ filter stands (map.entries entries.now)) }
{
    let mut list = Vec::new(alloc);
    for (number, entry) in entries.iter() {
        add_standing(&mut list, *number, entry)?;
    }
    Ok(list)
}

/// Adds an entry where it is delayed.
fn add_delayed<'a>(
    list: &mut Vec<DelayedEntry<'a>>,
    number: u64,
    entry: &'a Queued,
) -> Result<(), NoMemory>
    ensures { OnOk result (map_list due_of list.new.items ≡ map_list due_of list.old.items ++ filter_map waiting ((number, entry.now) ∷ [])) }
{
    match entry.due {
        Some(due) => {
            let due = due.seconds();
            list.push(DelayedEntry { due, number, entry })?;
            Ok(())
        }
        None => Ok(()),
    }
}

/// The entries that are delayed, by their numbers.
#[tactic(auto, using(crate::proofs::PieceLaws::filter_map_first))]
fn all_delayed<'a>(
    alloc: Global,
    entries: &'a ByNumber<Queued>,
) -> Result<Vec<DelayedEntry<'a>>, NoMemory>
    ensures { IfOk result (λ list. map_list due_of list.items ≡ filter_map waiting (map.entries entries.now)) }
{
    let mut list = Vec::new(alloc);
    for (number, entry) in entries.iter() {
        add_delayed(&mut list, *number, entry)?;
    }
    Ok(list)
}

/// The entries that stand in queues, by queue and then by number.
pub(crate) fn standing<'a>(
    alloc: Global,
    entries: &'a ByNumber<Queued>,
) -> Result<Vec<QueueEntry<'a>>, NoMemory>
    ensures { IfOk result (λ list. map_list entry_of list.items ≡ standing entries.now) }
{
    let mut list = all_standing(alloc, entries)?;
    list.sort_by(|a, b| compare_queues(a, b))?;
    Ok(list)
}

/// The entries that are delayed, by due and then by number.
pub(crate) fn delayed<'a>(
    alloc: Global,
    entries: &'a ByNumber<Queued>,
) -> Result<Vec<DelayedEntry<'a>>, NoMemory>
    ensures { IfOk result (λ list. map_list due_of list.items ≡ delayed entries.now) }
{
    let mut list = all_delayed(alloc, entries)?;
    list.sort_by(|a, b| compare_dues(a, b))?;
    Ok(list)
}

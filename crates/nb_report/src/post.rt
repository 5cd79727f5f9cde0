//! The lines on the entries of queues.
ghost use Rattle.std.specs.Prelude.{◌≡◌, ◌++◌, string_bytes, IfOk, OnOk, map as map_list};
ghost use Rattle.std.specs.List.{flat_map};
ghost use Rattle.nb_report.specs.Lines.{queue_line, fault_lines, queue_lines, delayed_line};
ghost use Rattle.nb_report.specs.Listed.{entry_of, due_of};
ghost use Rattle.nb_report.specs.Reports.{post_lines};

use crate::listed::{DelayedEntry, QueueEntry, delayed, standing};
use crate::texts::{fault_line, message_part};
use nb_base::{Envelope, NoMemory, PostState, Queued};
use nb_headers::names::FAILED_Q;
use nb_recover::json_text;
use std::alloc::Global;

/// The line of an entry that stands in a queue.
fn queue_line(alloc: Global, number: u64, entry: &Queued) -> Result<String, NoMemory>
    ensures { IfOk result (λ s. string_bytes s ≡ queue_line (number, entry.now)) }
{
    let queue = json_text(alloc, &entry.queue)?;
    let message = message_part(alloc, &entry.envelope)?;
    Ok(format!(in alloc; "queue {queue} {number} {message}\n")?)
}

/// The line on the failure of a message, where it says where it failed.
#[tactic(auto, unfolding(nb_headers::specs::Reads::failed_queue))]
fn fault_lines(alloc: Global, envelope: &Envelope) -> Result<String, NoMemory>
    ensures { IfOk result (λ s. string_bytes s ≡ fault_lines envelope.now) }
{
    match envelope.header(FAILED_Q) {
        Some(queue) if !queue.is_empty() => fault_line(alloc, envelope),
        _ => Ok(String::new(alloc)),
    }
}

/// The line of an entry that is delayed.
fn delayed_line(alloc: Global, entry: &DelayedEntry<'_>) -> Result<String, NoMemory>
    ensures { IfOk result (λ s. string_bytes s ≡ delayed_line (due_of entry.now)) }
{
    let due = entry.due;
    let number = entry.number;
    let queue = json_text(alloc, &entry.entry.queue)?;
    let message = message_part(alloc, &entry.entry.envelope)?;
    Ok(format!(in alloc; "delayed {due} {number} {queue} {message}\n")?)
}

/// Adds what is said of an entry that stands in a queue.
fn push_standing(alloc: Global, out: &mut String, entry: &QueueEntry<'_>) -> Result<(), NoMemory>
    ensures { OnOk result (string_bytes out.new ≡ string_bytes out.old ++ queue_lines (entry_of entry.now)) }
{
    let line = queue_line(alloc, entry.number, entry.entry)?;
    out.push_str(line.as_str())?;
    let fault = fault_lines(alloc, &entry.entry.envelope)?;
    out.push_str(fault.as_str())?;
    Ok(())
}

/// Adds the lines of the entries that stand in queues.
#[tactic(auto, using(crate::proofs::PieceLaws::shown_more_behind))]
fn push_queues(alloc: Global, out: &mut String, list: &[QueueEntry<'_>]) -> Result<(), NoMemory>
    ensures { OnOk result (string_bytes out.new ≡ string_bytes out.old ++ flat_map queue_lines (map_list entry_of list.now)) }
{
    for entry in list {
        push_standing(alloc, out, entry)?;
    }
    Ok(())
}

/// Adds the lines of the entries that are delayed.
#[tactic(auto, using(crate::proofs::PieceLaws::shown_more_behind))]
fn push_delayed(alloc: Global, out: &mut String, list: &[DelayedEntry<'_>]) -> Result<(), NoMemory>
    ensures { OnOk result (string_bytes out.new ≡ string_bytes out.old ++ flat_map delayed_line (map_list due_of list.now)) }
{
    for entry in list {
        let line = delayed_line(alloc, entry)?;
        out.push_str(line.as_str())?;
    }
    Ok(())
}

/// Adds the lines on the post.
pub(crate) fn push_post(alloc: Global, out: &mut String, post: &PostState) -> Result<(), NoMemory>
    ensures { OnOk result (string_bytes out.new ≡ string_bytes out.old ++ post_lines post.now) }
{
    let list = standing(alloc, &post.entries)?;
    push_queues(alloc, out, list.as_slice())?;
    let list = delayed(alloc, &post.entries)?;
    push_delayed(alloc, out, list.as_slice())
}

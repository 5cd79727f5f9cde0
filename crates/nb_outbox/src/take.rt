//! Records read at the front of bytes.
ghost use Rattle.std.specs.Prelude.{◌≡◌};
ghost use Rattle.nb_envelope.specs.Cells.{items_in, list_in, Gives};
ghost use Rattle.nb_outbox.specs.Read.{sent_to, op_in, made_at, content_in, record_in};

use nb_base::{Items, Moment, Op, Ops, OutboxRow, Text};
use nb_envelope::FormatFault;
use nb_envelope::wire::{
    take_due, take_envelope, take_flag, take_moment, take_text, take_u32, take_u64,
};
use std::alloc::Global;

/// An envelope to a queue that is named.
#[tactic(auto, unfolding(crate::specs::Read::sent_to), using(crate::proofs::ReadLaws::is_named))]
fn take_sent(
    alloc: Global,
    queue: Text,
    due: Option<Moment>,
    bytes: &[u8],
) -> Result<(Op, &[u8]), FormatFault>
    ensures { Gives (λ x. (x.0, x.1.now)) result (sent_to queue due bytes.now) }
{
    let (envelope, rest) = take_envelope(alloc, bytes)?;
    if queue.len() == 0 {
        return Err(FormatFault::Damaged);
    }
    let op = Op {
        queue,
        due,
        envelope,
    };
    Ok((op, rest))
}

/// A queue that is named, a due and an envelope.
#[tactic(auto, unfolding(crate::specs::Read::op_in))]
fn take_op(alloc: Global, bytes: &[u8]) -> Result<(Op, &[u8]), FormatFault>
    ensures { Gives (λ x. (x.0, x.1.now)) result (op_in bytes.now) }
{
    let (queue, rest) = take_text(alloc, bytes)?;
    match take_due(rest) {
        Ok((due, rest)) => take_sent(alloc, queue, due, rest),
        Err(e) => Err(e),
    }
}

/// So many messages.
fn take_ops(alloc: Global, count: u32, bytes: &[u8]) -> Result<(Ops, &[u8]), FormatFault>
    ensures { Gives (λ x. (x.0, x.1.now)) result (items_in op_in count bytes.now) }
{
    let mut ops = Items::new(alloc);
    let mut rest = bytes;
    for _ in 0..count {
        let (op, after) = take_op(alloc, rest)?;
        ops.push(op)?;
        rest = after;
    }
    Ok((ops, rest))
}

/// The count of the messages, and the messages.
#[tactic(auto, unfolding(nb_envelope::specs::Cells::list_in))]
fn take_list(alloc: Global, bytes: &[u8]) -> Result<(Ops, &[u8]), FormatFault>
    ensures { Gives (λ x. (x.0, x.1.now)) result (list_in op_in bytes.now) }
{
    let (count, rest) = take_u32(bytes)?;
    take_ops(alloc, count, rest)
}

/// Whether the messages of a commit at a moment were sent, and the messages.
#[tactic(auto, unfolding(crate::specs::Read::made_at))]
fn take_made(
    alloc: Global,
    n: u64,
    at: Moment,
    bytes: &[u8],
) -> Result<(OutboxRow, &[u8]), FormatFault>
    ensures { Gives (λ x. (x.0, x.1.now)) result (made_at n at bytes.now) }
{
    let (sent, rest) = take_flag(bytes)?;
    let (ops, rest) = take_list(alloc, rest)?;
    if sent && ops.len() > 0 {
        return Err(FormatFault::Damaged);
    }
    Ok((OutboxRow { n, at, sent, ops }, rest))
}

/// All of a record but its format.
#[tactic(auto, unfolding(crate::specs::Read::content_in))]
fn take_content(alloc: Global, bytes: &[u8]) -> Result<(OutboxRow, &[u8]), FormatFault>
    ensures { Gives (λ x. (x.0, x.1.now)) result (content_in bytes.now) }
{
    let (n, rest) = take_u64(bytes)?;
    match take_moment(rest) {
        Ok((at, rest)) => take_made(alloc, n, at, rest),
        Err(e) => Err(e),
    }
}

/// A record.
#[tactic(auto, unfolding(crate::specs::Read::record_in))]
pub(crate) fn take_record(alloc: Global, bytes: &[u8]) -> Result<(OutboxRow, &[u8]), FormatFault>
    ensures { Gives (λ x. (x.0, x.1.now)) result (record_in bytes.now) }
{
    match bytes {
        [1, rest @ ..] => take_content(alloc, rest),
        _ => Err(FormatFault::Damaged),
    }
}

//! Records written as the bytes of cells.
ghost use Rattle.std.specs.Prelude.{◌≡◌, ◌≢◌, ◌++◌, [], IfOk, OnOk, true};
ghost use Rattle.std.specs.List.{flat_map, AllByRecursion};
ghost use Rattle.nb_base.specs.declared.entry.Op.{Op};
ghost use Rattle.nb_envelope.specs.Spelling.{spelled_list, IsList};
ghost use Rattle.nb_outbox.specs.Spelled.{spelled_op, spelled_record, IsOp, IsRecord};

use nb_base::{Bytes, Moment, NoMemory, Op, Ops};
use nb_envelope::wire::{put_count, put_due, put_envelope, put_flag, put_text, put_u64};
use std::alloc::Global;

/// The queue, the due and the envelope of a message.
fn put_op(out: &mut Vec<u8>, op: &Op) -> Result<(), NoMemory>
    requires { op.now.queue ≢ [] }
    ensures bytes { OnOk result (out.new.items ≡ out.old.items ++ spelled_op op.now) }
    ensures fits { OnOk result (IsOp op.now) }
{
    put_text(out, op.queue.as_str())?;
    put_due(out, op.due)?;
    put_envelope(out, &op.envelope)
}

/// The messages, one after the other.
fn put_ops(out: &mut Vec<u8>, ops: &Ops) -> Result<(), NoMemory>
    requires { AllByRecursion (λ (op : Op). op.queue ≢ []) ops.now }
    ensures bytes { OnOk result (out.new.items ≡ out.old.items ++ flat_map spelled_op ops.now) }
    ensures fits { OnOk result (AllByRecursion IsOp ops.now) }
{
    for i in 0..ops.len() {
        put_op(out, ops.at(i))?;
    }
    Ok(())
}

/// The count of the messages, and the messages.
fn put_list(out: &mut Vec<u8>, ops: &Ops) -> Result<(), NoMemory>
    requires { AllByRecursion (λ (op : Op). op.queue ≢ []) ops.now }
    ensures bytes { OnOk result (out.new.items ≡ out.old.items ++ spelled_list spelled_op ops.now) }
    ensures fits { OnOk result (IsList IsOp ops.now) }
{
    put_count(out, ops.len())?;
    put_ops(out, ops)
}

/// The bytes of a record.
pub(crate) fn record_bytes(
    alloc: Global,
    n: u64,
    at: Moment,
    sent: bool,
    ops: &Ops,
) -> Result<Bytes, NoMemory>
    requires queues { AllByRecursion (λ (op : Op). op.queue ≢ []) ops.now }
    requires sent { sent ≡ true → ops.now ≡ [] }
    ensures bytes { IfOk result (λ b. b ≡ spelled_record (record { n = n; at = at; sent = sent; ops = ops.now })) }
    ensures fits { OnOk result (IsRecord (record { n = n; at = at; sent = sent; ops = ops.now })) }
{
    let mut out = Vec::new(alloc);
    out.push(1)?;
    put_u64(&mut out, n)?;
    put_u64(&mut out, at.seconds())?;
    put_flag(&mut out, sent)?;
    put_list(&mut out, ops)?;
    Bytes::of_vec(out)
}

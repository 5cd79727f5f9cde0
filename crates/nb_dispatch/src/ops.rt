//! The ops of a batch.
ghost use Rattle.std.specs.Prelude.{◌≡◌, ◌+◌, ◌++◌, ◌∷◌, [], length, IfOk, OnOk};
ghost use Rattle.std.specs.List.{AllByRecursion};
ghost use Rattle.nb_dispatch.specs.Dispatches.{queues_of, CanDispatch, ops_to, ops_of};

use crate::batch::{Batch, op_of};
use crate::queues::{route_of, subscribed};
use nb_base::{Envelope, Intent, Intents, Items, Moment, NoMemory, Ops, Settings, Target, Text};
use std::alloc::Global;

/// Adds an op for a queue.
fn push_op(
    alloc: Global,
    ops: &mut Ops,
    batch: &Batch,
    intent: &Intent,
    queue: &Text,
) -> Result<(), NoMemory>
    requires { CanDispatch batch.now.settings.now intent.now }
    ensures { OnOk result (ops.new ≡ ops.old ++ ops_to batch.now.settings.now batch.now.incoming.now batch.now.n batch.now.moment intent.now (length ops.old + 1) (queue.now ∷ [])) }
{
    let index = ops.len() as u64 + 1;
    let op = op_of(alloc, batch, intent, index, queue)?;
    ops.push(op)
}

/// Adds an op for each of the queues.
fn push_ops(
    alloc: Global,
    ops: &mut Ops,
    batch: &Batch,
    intent: &Intent,
    queues: &[Text],
) -> Result<(), NoMemory>
    requires { CanDispatch batch.now.settings.now intent.now }
    ensures { OnOk result (ops.new ≡ ops.old ++ ops_to batch.now.settings.now batch.now.incoming.now batch.now.n batch.now.moment intent.now (length ops.old + 1) queues.now) }
{
    let mut left = queues;
    while let [queue, rest @ ..] = left {
        push_op(alloc, ops, batch, intent, queue)?;
        left = rest;
    }
    Ok(())
}

/// Adds the ops of a message.
fn dispatch(alloc: Global, ops: &mut Ops, batch: &Batch, intent: &Intent) -> Result<(), NoMemory>
    requires { CanDispatch batch.now.settings.now intent.now }
    ensures { OnOk result (ops.new ≡ ops.old ++ ops_to batch.now.settings.now batch.now.incoming.now batch.now.n batch.now.moment intent.now (length ops.old + 1) (queues_of batch.now.settings.now intent.now.target intent.now.name)) }
{
    let settings = batch.settings;
    let name = intent.name.as_str();
    match &intent.target {
        Target::Send => {
            let queue = route_of(&settings.routes, name).unwrap();
            push_op(alloc, ops, batch, intent, queue)
        }
        Target::Publish => {
            let queues = subscribed(&settings.subscribers, name);
            push_ops(alloc, ops, batch, intent, queues)
        }
        Target::Reply { to } => push_op(alloc, ops, batch, intent, to),
        Target::Originator { to, original: _ } => push_op(alloc, ops, batch, intent, to),
        Target::Local | Target::Timeout => push_op(alloc, ops, batch, intent, &settings.endpoint),
    }
}

/// The ops that commit `n` records at this moment for the messages that are to be sent: one for each queue to which a
/// message goes, in order.
#[tactic(auto, unfolding(crate::specs::Dispatches::ops_of))]
pub fn ops_of(
    alloc: Global,
    settings: &Settings,
    incoming: &Envelope,
    n: u64,
    moment: Moment,
    intents: &Intents,
) -> Result<Ops, NoMemory>
    requires { AllByRecursion (CanDispatch settings.now) intents.now }
    ensures { IfOk result (λ ops. ops ≡ ops_of settings.now incoming.now n moment intents.now) }
{
    let batch = Batch {
        settings,
        incoming,
        n,
        moment,
    };
    let mut ops: Ops = Items::new(alloc);
    let mut left = intents.as_slice();
    while let [intent, rest @ ..] = left {
        dispatch(alloc, &mut ops, &batch, intent)?;
        left = rest;
    }
    Ok(ops)
}

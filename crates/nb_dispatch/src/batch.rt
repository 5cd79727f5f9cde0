//! One outgoing message.
ghost use Rattle.std.specs.Prelude.{◌≡◌, IsSome, IfOk};
ghost use Rattle.nb_dispatch.specs.Dispatches.{made, due_of, op_of};

use crate::ids::{made_id, sender};
use nb_base::{Copied, Envelope, Intent, Moment, NoMemory, Op, Settings, Target, Text};
use nb_headers::{Made, causation};
use std::alloc::Global;

/// What the messages of a batch have in common.
#[derive(Clone, Copy)]
pub struct Batch<'a> {
    pub settings: &'a Settings,
    /// The message during whose handling they are sent.
    pub incoming: &'a Envelope,
    /// The number of the commit.
    pub n: u64,
    pub moment: Moment,
}

/// What is known of the message with this index in the batch.
fn made(alloc: Global, batch: &Batch, intent: &Intent, index: u64) -> Result<Made, NoMemory>
    ensures { IfOk result (λ m. m ≡ made batch.now.settings.now batch.now.n batch.now.moment intent.now index) }
{
    let own = &batch.settings.endpoint;
    let id = made_id(alloc, own.as_str(), batch.n, index)?;
    let target = intent.target.copy()?;
    let name = intent.name.copy()?;
    let body = intent.body.copy()?;
    let endpoint = own.copy()?;
    let saga = sender(alloc, own.as_str(), batch.n, &intent.from)?;
    Ok(Made {
        id,
        target,
        name,
        body,
        endpoint,
        moment: batch.moment,
        saga,
    })
}

/// The moment after a delay.
fn due_of(moment: Moment, delay: Option<u64>) -> Option<Moment>
    ensures { result ≡ due_of moment delay }
{
    match delay {
        Some(delay) => Some(moment.plus(delay)),
        None => None,
    }
}

/// The op for a queue.
pub fn op_of(
    alloc: Global,
    batch: &Batch,
    intent: &Intent,
    index: u64,
    queue: &Text,
) -> Result<Op, NoMemory>
    requires { intent.now.target ≡ Target.Timeout → IsSome intent.now.from }
    ensures { IfOk result (λ op. op ≡ op_of batch.now.settings.now batch.now.incoming.now batch.now.n batch.now.moment intent.now index queue.now) }
{
    let made = made(alloc, batch, intent, index)?;
    let envelope = causation(alloc, batch.incoming, &made)?;
    let queue = queue.copy()?;
    let due = due_of(batch.moment, intent.delay);
    Ok(Op {
        queue,
        due,
        envelope,
    })
}

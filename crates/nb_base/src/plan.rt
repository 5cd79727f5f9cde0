//! What a message's handlers decide: rows to write and messages to send, or a fault.
ghost use Rattle.std.specs.Prelude.{◌≡◌, IfOk};

use crate::items::{Copied, Items};
use crate::no_memory::NoMemory;
use crate::saga_row::Reads;
use crate::text::Text;
use crate::value::{Fields, Value};

/// A saga, by the place of the block that makes it among the blocks met, from 1, or by its stored id.
#[derive(Debug, Drop)]
pub enum SagaRef {
    New(u32),
    Stored(Text),
}

impl Copied for SagaRef {
    fn copy(&self) -> Result<SagaRef, NoMemory> {
        match self {
            SagaRef::New(block) => Ok(SagaRef::New(*block)),
            SagaRef::Stored(id) => Ok(SagaRef::Stored(id.copy()?)),
        }
    }
}

/// The saga from which a message is sent.
#[derive(Debug, Drop)]
pub struct FromSaga {
    /// The saga's type.
    pub saga: Text,
    pub which: SagaRef,
}

impl Copied for FromSaga {
    fn copy(&self) -> Result<FromSaga, NoMemory> {
        let saga = self.saga.copy()?;
        let which = self.which.copy()?;
        Ok(FromSaga { saga, which })
    }
}

/// To whom a message goes.
#[derive(Debug, Drop)]
pub enum Target {
    /// To the queue of its route.
    Send,
    /// To the endpoint's own queue.
    Local,
    /// To each subscriber.
    Publish,
    /// To the reply address of the incoming message.
    Reply { to: Text },
    /// To the one who started the saga, `original` being the id of the message that did.
    Originator { to: Text, original: Text },
    /// To the saga itself, later.
    Timeout,
}

impl Copied for Target {
    fn copy(&self) -> Result<Target, NoMemory> {
        match self {
            Target::Send => Ok(Target::Send),
            Target::Local => Ok(Target::Local),
            Target::Publish => Ok(Target::Publish),
            Target::Reply { to } => Ok(Target::Reply { to: to.copy()? }),
            Target::Originator { to, original } => Ok(Target::Originator {
                to: to.copy()?,
                original: original.copy()?,
            }),
            Target::Timeout => Ok(Target::Timeout),
        }
    }
}

/// A message to be sent.
#[derive(Debug, Drop)]
pub struct Intent {
    pub target: Target,
    /// Seconds, from 0 to 31,536,000.
    pub delay: Option<u64>,
    /// The message's type.
    pub name: Text,
    pub body: Text,
    pub from: Option<FromSaga>,
}

/// The messages to be sent, in order.
pub type Intents = Items<Intent>;

fn copy_from(from: &Option<FromSaga>) -> Result<Option<FromSaga>, NoMemory>
    ensures { IfOk result (λ x. x ≡ from.now) }
{
    match from {
        Some(saga) => Ok(Some(saga.copy()?)),
        None => Ok(None),
    }
}

impl Copied for Intent {
    fn copy(&self) -> Result<Intent, NoMemory> {
        let target = self.target.copy()?;
        let name = self.name.copy()?;
        let body = self.body.copy()?;
        let from = copy_from(&self.from)?;
        Ok(Intent {
            target,
            delay: self.delay,
            name,
            body,
            from,
        })
    }
}

/// A change of one saga or row.
#[derive(Debug, Drop)]
pub enum Write {
    SagaPut {
        saga: Text,
        corr: Value,
        /// The revision that the script declares, from 1.
        revision: u32,
        which: SagaRef,
        originator: Text,
        original: Text,
        fields: Fields,
    },
    SagaErase {
        saga: Text,
        corr: Value,
    },
    RowPut {
        name: Text,
        value: i64,
    },
    RowErase {
        name: Text,
    },
}

/// The changes, each place once.
pub type Writes = Items<Write>;

impl Copied for Write {
    fn copy(&self) -> Result<Write, NoMemory> {
        match self {
            Write::SagaPut {
                saga,
                corr,
                revision,
                which,
                originator,
                original,
                fields,
            } => Ok(Write::SagaPut {
                saga: saga.copy()?,
                corr: corr.copy()?,
                revision: *revision,
                which: which.copy()?,
                originator: originator.copy()?,
                original: original.copy()?,
                fields: fields.copy()?,
            }),
            Write::SagaErase { saga, corr } => Ok(Write::SagaErase {
                saga: saga.copy()?,
                corr: corr.copy()?,
            }),
            Write::RowPut { name, value } => Ok(Write::RowPut {
                name: name.copy()?,
                value: *value,
            }),
            Write::RowErase { name } => Ok(Write::RowErase { name: name.copy()? }),
        }
    }
}

/// What the handlers of a message do.
#[derive(Debug, Drop)]
pub struct Plan {
    pub writes: Writes,
    pub intents: Intents,
}

impl Copied for Plan {
    fn copy(&self) -> Result<Plan, NoMemory> {
        let writes = self.writes.copy()?;
        let intents = self.intents.copy()?;
        Ok(Plan { writes, intents })
    }
}

/// Why the handlers of a message have no effect.
#[derive(Clone, Copy, Debug, PartialEq, Eq)]
pub enum FaultKind {
    /// The script's `fail`.
    Fail,
    /// The script's `reject`.
    Reject,
    /// A number left the range of 64 bits.
    Overflow,
    /// A text became longer than 65,536 bytes.
    TooLong,
    /// The outgoing bodies together passed 1,048,576 bytes.
    TooLarge,
    /// More than 256 outgoing messages.
    TooMany,
    /// A delay outside 0 to 31,536,000 seconds.
    BadDelay,
    /// There is no address to reply to.
    NoReplyAddress,
    /// The message has no declared type.
    Undeclared,
    /// No block of the script takes the message.
    NoHandler,
    /// The body isn't an object with the fields of its type.
    Undecodable,
}

/// A fault, with the name and the text under which it is reported.
#[derive(Debug, Drop)]
pub struct Fault {
    pub kind: FaultKind,
    pub name: Text,
    pub text: Text,
    /// Whether a retry is useless.
    pub unrecoverable: bool,
}

impl Copied for Fault {
    fn copy(&self) -> Result<Fault, NoMemory> {
        let name = self.name.copy()?;
        let text = self.text.copy()?;
        Ok(Fault {
            kind: self.kind,
            name,
            text,
            unrecoverable: self.unrecoverable,
        })
    }
}

/// What the handlers of a message answer.
#[derive(Debug, Drop)]
pub enum Verdict {
    Done(Plan),
    Fault(Fault),
}

impl Copied for Verdict {
    fn copy(&self) -> Result<Verdict, NoMemory> {
        match self {
            Verdict::Done(plan) => Ok(Verdict::Done(plan.copy()?)),
            Verdict::Fault(fault) => Ok(Verdict::Fault(fault.copy()?)),
        }
    }
}

/// A verdict, with what it was reached on.
#[derive(Debug, Drop)]
pub struct Outcome {
    pub reads: Reads,
    pub verdict: Verdict,
}

impl Copied for Outcome {
    fn copy(&self) -> Result<Outcome, NoMemory> {
        let reads = self.reads.copy()?;
        let verdict = self.verdict.copy()?;
        Ok(Outcome { reads, verdict })
    }
}

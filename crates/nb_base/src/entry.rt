//! What stands in queues and in the outbox.

use crate::envelope::Envelope;
use crate::items::{Copied, Items};
use crate::moment::Moment;
use crate::no_memory::NoMemory;
use crate::text::Text;

/// An outgoing message, as it is recorded.
#[derive(Drop)]
pub struct Op {
    /// The queue, which isn't empty.
    pub queue: Text,
    /// The moment before which it isn't delivered.
    pub due: Option<Moment>,
    pub envelope: Envelope,
}

/// A batch of outgoing messages, in order.
pub type Ops = Items<Op>;

impl Copied for Op {
    fn copy(&self) -> Result<Op, NoMemory> {
        let queue = self.queue.copy()?;
        let envelope = self.envelope.copy()?;
        Ok(Op {
            queue,
            due: self.due,
            envelope,
        })
    }
}

/// The record of a handled message.
#[derive(Drop)]
pub struct OutboxRow {
    /// The number of the commit that handled it.
    pub n: u64,
    /// The moment of that commit.
    pub at: Moment,
    /// Whether its messages were sent; it has none any more then.
    pub sent: bool,
    pub ops: Ops,
}

impl Copied for OutboxRow {
    fn copy(&self) -> Result<OutboxRow, NoMemory> {
        let ops = self.ops.copy()?;
        Ok(OutboxRow {
            n: self.n,
            at: self.at,
            sent: self.sent,
            ops,
        })
    }
}

/// An entry of a queue, under its number.
#[derive(Drop)]
pub struct Entry {
    pub number: u64,
    pub queue: Text,
    /// The moment until which it is delayed.
    pub due: Option<Moment>,
    pub envelope: Envelope,
}

/// Entries by number.
pub type Entries = Items<Entry>;

impl Copied for Entry {
    fn copy(&self) -> Result<Entry, NoMemory> {
        let queue = self.queue.copy()?;
        let envelope = self.envelope.copy()?;
        Ok(Entry {
            number: self.number,
            queue,
            due: self.due,
            envelope,
        })
    }
}

/// A number with the moment at which it is due.
#[derive(Clone, Copy, Debug, PartialEq, Eq)]
pub struct Waiting {
    pub number: u64,
    pub due: Moment,
}

/// A number with how often it failed, above 0.
#[derive(Clone, Copy, Debug, PartialEq, Eq)]
pub struct Count {
    pub number: u64,
    pub count: u32,
}

/// Counts by number; a number that isn't there has the count 0.
pub type Counts = Items<Count>;

impl Copied for Count {
    fn copy(&self) -> Result<Count, NoMemory> {
        Ok(*self)
    }
}

/// One of the two stores: the tables of sagas, rows and records, or the queues.
#[derive(Clone, Copy, Debug, PartialEq, Eq)]
pub enum Which {
    Base,
    Post,
}

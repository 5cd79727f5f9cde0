//! What the two stores of an endpoint hold.

use crate::by_name::ByName;
use crate::by_number::ByNumber;
use crate::by_saga::BySaga;
use crate::entry::OutboxRow;
use crate::envelope::Envelope;
use crate::items::{Copied, Items};
use crate::moment::Moment;
use crate::no_memory::NoMemory;
use crate::saga_row::SagaRow;
use crate::text::Text;

/// A row of the script's, under its name.
#[derive(Clone, Copy, Debug, PartialEq, Eq)]
pub struct Row {
    /// The number of the commit that wrote it.
    pub version: u64,
    pub value: i64,
}

impl Copied for Row {
    fn copy(&self) -> Result<Row, NoMemory> {
        Ok(*self)
    }
}

/// The base: sagas, rows, the records of handled messages, and the number of commits.
#[derive(Drop)]
pub struct Tables {
    pub sagas: BySaga<SagaRow>,
    pub rows: ByName<Row>,
    /// By the ids of the messages.
    pub outbox: ByName<OutboxRow>,
    /// At most 2^62.
    pub commits: u64,
}

impl Copied for Tables {
    fn copy(&self) -> Result<Tables, NoMemory> {
        let sagas = self.sagas.copy()?;
        let rows = self.rows.copy()?;
        let outbox = self.outbox.copy()?;
        Ok(Tables {
            sagas,
            rows,
            outbox,
            commits: self.commits,
        })
    }
}

/// A message in a queue, under the entry's number.
#[derive(Drop)]
pub struct Queued {
    /// The queue, which isn't empty.
    pub queue: Text,
    /// The moment until which it is delayed; where there is none it stands in the queue.
    pub due: Option<Moment>,
    pub envelope: Envelope,
}

impl Copied for Queued {
    fn copy(&self) -> Result<Queued, NoMemory> {
        let queue = self.queue.copy()?;
        let envelope = self.envelope.copy()?;
        Ok(Queued {
            queue,
            due: self.due,
            envelope,
        })
    }
}

/// The post: the entries of all queues, and the number of the next one.
#[derive(Drop)]
pub struct PostState {
    pub entries: ByNumber<Queued>,
    /// From 1 to 2^62, above every entry's number.
    pub next: u64,
}

impl Copied for PostState {
    fn copy(&self) -> Result<PostState, NoMemory> {
        let entries = self.entries.copy()?;
        Ok(PostState {
            entries,
            next: self.next,
        })
    }
}

/// A message that was given up by a policy.
#[derive(Debug, Drop)]
pub struct Discard {
    /// The message's id.
    pub id: Text,
    /// The name of the fault, or `Conflict`.
    pub name: Text,
}

/// Messages that were given up, in order.
pub type Discards = Items<Discard>;

impl Copied for Discard {
    fn copy(&self) -> Result<Discard, NoMemory> {
        let id = self.id.copy()?;
        let name = self.name.copy()?;
        Ok(Discard { id, name })
    }
}

//! The events of a history.

use nb_base::{Copied, Envelope, Items, Moment, NoMemory, Text, Which};

/// An event. `w` is a worker's number.
#[derive(Drop)]
pub enum Event {
    /// A message comes into the own queue.
    Load { envelope: Envelope },
    /// The worker takes the first free entry of the own queue.
    Take { w: u32 },
    /// It looks whether the message is recorded, and if not reads for it.
    Look { w: u32 },
    /// It settles what follows: a commit, or a failure.
    Settle { w: u32 },
    /// It puts the next op of the batch.
    Send { w: u32 },
    /// It marks the record as sent.
    Mark { w: u32 },
    /// It puts the copy of the failed message.
    Aside { w: u32 },
    /// It removes its entry.
    Remove { w: u32 },
    /// Time goes on.
    Tick { to: Moment },
    /// A delayed entry comes into its queue.
    Release { number: u64 },
    /// The record of a message goes.
    Purge { id: Text },
    /// A message of the error queue is put back into the queue in which it failed.
    PutBack { number: u64 },
    /// And is removed from the error queue.
    DropBack { number: u64 },
    /// The endpoint stopped, and starts again at this moment.
    Stop { moment: Moment },
    /// A call of this store failed.
    Halt { store: Which },
}

/// Events, the oldest first.
pub type Events = Items<Event>;

impl Copied for Event {
    fn copy(&self) -> Result<Event, NoMemory> {
        match self {
            Event::Load { envelope } => Ok(Event::Load {
                envelope: envelope.copy()?,
            }),
            Event::Take { w } => Ok(Event::Take { w: *w }),
            Event::Look { w } => Ok(Event::Look { w: *w }),
            Event::Settle { w } => Ok(Event::Settle { w: *w }),
            Event::Send { w } => Ok(Event::Send { w: *w }),
            Event::Mark { w } => Ok(Event::Mark { w: *w }),
            Event::Aside { w } => Ok(Event::Aside { w: *w }),
            Event::Remove { w } => Ok(Event::Remove { w: *w }),
            Event::Tick { to } => Ok(Event::Tick { to: *to }),
            Event::Release { number } => Ok(Event::Release { number: *number }),
            Event::Purge { id } => Ok(Event::Purge { id: id.copy()? }),
            Event::PutBack { number } => Ok(Event::PutBack { number: *number }),
            Event::DropBack { number } => Ok(Event::DropBack { number: *number }),
            Event::Stop { moment } => Ok(Event::Stop { moment: *moment }),
            Event::Halt { store } => Ok(Event::Halt { store: *store }),
        }
    }
}

//! A message that goes back to the queue in which it failed.

use nb_base::{Copied, Envelope, NoMemory, Text};

/// A message that goes back to the queue in which it failed.
#[derive(Drop)]
pub struct Returned {
    /// The queue, which isn't empty.
    pub queue: Text,
    pub envelope: Envelope,
}

impl Copied for Returned {
    fn copy(&self) -> Result<Returned, NoMemory> {
        let queue = self.queue.copy()?;
        let envelope = self.envelope.copy()?;
        Ok(Returned { queue, envelope })
    }
}

//! Where messages go, and what is done with faults.

use crate::items::{Copied, Items};
use crate::no_memory::NoMemory;
use crate::text::Text;
use crate::value::Names;

/// The queue of a message that is sent.
#[derive(Debug, Drop)]
pub struct Route {
    /// The message's type.
    pub name: Text,
    pub queue: Text,
}

/// Routes, by the bytes of their names.
pub type Routes = Items<Route>;

impl Copied for Route {
    fn copy(&self) -> Result<Route, NoMemory> {
        let name = self.name.copy()?;
        let queue = self.queue.copy()?;
        Ok(Route { name, queue })
    }
}

/// The queues that get a copy of a message that is published.
#[derive(Debug, Drop)]
pub struct Subscriber {
    /// The message's type.
    pub name: Text,
    pub queues: Names,
}

/// Subscribers, by the bytes of their names.
pub type Subscribers = Items<Subscriber>;

impl Copied for Subscriber {
    fn copy(&self) -> Result<Subscriber, NoMemory> {
        let name = self.name.copy()?;
        let queues = self.queues.copy()?;
        Ok(Subscriber { name, queues })
    }
}

/// What is done with a fault in place of the configured retries.
#[derive(Clone, Copy, Debug, PartialEq, Eq)]
pub enum Action {
    /// To the error queue at once.
    Error,
    /// Immediate retries alone.
    Immediate,
    /// The message is given up, and noted.
    Discard,
}

/// The action for the faults of a name.
#[derive(Debug, Drop)]
pub struct Policy {
    /// The fault's name, or `Conflict`.
    pub name: Text,
    pub action: Action,
}

/// Policies, by the bytes of their names.
pub type Policies = Items<Policy>;

impl Copied for Policy {
    fn copy(&self) -> Result<Policy, NoMemory> {
        let name = self.name.copy()?;
        Ok(Policy {
            name,
            action: self.action,
        })
    }
}

//! Histories.

use crate::event::Events;
use nb_base::{Copied, Moment, NoMemory, PostState, Tables};

/// Where a history begins.
#[derive(Drop)]
pub struct Opening {
    pub tables: Tables,
    pub post: PostState,
    pub moment: Moment,
    /// How many workers there are. They are numbered from 0.
    pub workers: u32,
}

/// Where a history begins, and its events.
#[derive(Drop)]
pub struct History {
    pub opening: Opening,
    pub events: Events,
}

impl Copied for Opening {
    fn copy(&self) -> Result<Opening, NoMemory> {
        let tables = self.tables.copy()?;
        let post = self.post.copy()?;
        Ok(Opening {
            tables,
            post,
            moment: self.moment,
            workers: self.workers,
        })
    }
}

impl Copied for History {
    fn copy(&self) -> Result<History, NoMemory> {
        let opening = self.opening.copy()?;
        let events = self.events.copy()?;
        Ok(History { opening, events })
    }
}

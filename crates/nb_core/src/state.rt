//! States.

use crate::phase::Phase;
use nb_base::{ByNumber, Copied, Discards, Moment, NoMemory, PostState, Tables};

/// A state of an endpoint.
#[derive(Drop)]
pub struct State {
    pub tables: Tables,
    pub post: PostState,
    pub moment: Moment,
    /// What each worker is at; an idle one isn't there.
    pub phases: ByNumber<Phase>,
    /// How often each entry failed; one that didn't isn't there.
    pub fails: ByNumber<u32>,
    /// The entries of the error queue that were put back and aren't dropped yet.
    pub back: ByNumber<()>,
    /// The messages that were given up by a policy.
    pub discarded: Discards,
}

impl Copied for State {
    fn copy(&self) -> Result<State, NoMemory> {
        let tables = self.tables.copy()?;
        let post = self.post.copy()?;
        let phases = self.phases.copy()?;
        let fails = self.fails.copy()?;
        let back = self.back.copy()?;
        let discarded = self.discarded.copy()?;
        Ok(State {
            tables,
            post,
            moment: self.moment,
            phases,
            fails,
            back,
            discarded,
        })
    }
}

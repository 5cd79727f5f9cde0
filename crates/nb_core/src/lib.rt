//! The core: the states of an endpoint, the events that lead from one to the next, and their histories.
#![tactic(auto)]

mod answers;
mod call;
mod changes;
mod desk;
mod event;
mod free;
mod history;
mod laws;
mod lease;
mod order;
mod phase;
mod phases;
mod replaying;
mod settling;
mod showing;
mod staleness;
mod state;
mod upkeep;
mod writes;

pub use answers::{DeskFault, Look, Settled, Taken};
pub use call::{Answer, Call};
pub use desk::{Desk, make};
pub use event::{Event, Events};
pub use history::{History, Opening};
pub use laws::{
    law_after, law_drained, law_earned, law_facts, law_halt, law_ids, law_more, law_once,
    law_outcome, law_paced, law_pending, law_placed, law_run, law_runs, law_sent, law_serial,
    law_state,
};
pub use phase::Phase;
pub use phases::{move_after, phase_after, phase_by};
pub use replaying::{ReplayFault, replay};
pub use staleness::{conflict, version};
pub use state::State;

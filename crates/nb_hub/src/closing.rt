//! The end of a hub, and what may be asked of it before.
ghost use Rattle.std.specs.Prelude.{◌≡◌, ◌++◌, IfOk, OnOk};
ghost use Rattle.std.specs.FinMap as map;
ghost use Rattle.std.specs.List.{filter_map};
ghost use Rattle.std.specs.Option.{option_to_list};
ghost use Rattle.nb_base.specs.Meanings.{IsMeaning};
ghost use Rattle.nb_core.specs.Past.{IsLegal};
ghost use Rattle.nb_hub.specs.Kept.{Counted};
ghost use Rattle.nb_hub.specs.Ledgers.{constants_at, past_of, state_at};
ghost use Rattle.nb_hub.specs.Returnable.{is_returnable, returning, returnable};
ghost use Rattle.nb_store.specs.Lookups.{purgeable};

use crate::hub::Hub;
use crate::transport::Transport;
use nb_base::{ByNumber, Handling, Items, Names, NoMemory, Numbers, Queued, Text};
use nb_cells::Cells;
use nb_core::{History, State};
use nb_headers::names::FAILED_Q;
use std::alloc::Global;

/// The two stores, the history, and the state to which it led.
#[derive(Drop)]
pub struct Closed<P, D> {
    pub post: P,
    pub base: D,
    pub history: History,
    pub state: State,
}

/// Whether an entry stands in the error queue and says where it failed.
#[tactic(auto, unfolding(nb_headers::specs::Reads::failed_queue))]
fn is_returnable(error: &Text, entry: &Queued) -> bool
    ensures { result ≡ is_returnable error.now entry.now }
{
    if entry.queue != *error || entry.due.is_some() {
        return false;
    }
    match entry.envelope.header(FAILED_Q) {
        Some(queue) => !queue.is_empty(),
        None => false,
    }
}

/// Adds the number of an entry that can be put back.
fn add_returning(
    numbers: &mut Numbers,
    error: &Text,
    number: &u64,
    entry: &Queued,
) -> Result<(), NoMemory>
    ensures { OnOk result (numbers.new ≡ numbers.old ++ option_to_list (returning error.now (number.now, entry.now))) }
{
    if !is_returnable(error, entry) {
        return Ok(());
    }
    numbers.push(*number)
}

/// The numbers of the entries that can be put back, rising.
fn returning_of(
    alloc: Global,
    error: &Text,
    entries: &ByNumber<Queued>,
) -> Result<Numbers, NoMemory>
    ensures { IfOk result (λ ns. ns ≡ filter_map (returning error.now) (map.entries entries.now)) }
{
    let mut numbers = Items::new(alloc);
    for (number, entry) in entries.iter() {
        add_returning(&mut numbers, error, number, entry)?;
    }
    Ok(numbers)
}

impl<M: Handling + Drop, P: Cells, D: Cells> Hub<M, P, D> {
    /// The numbers of the entries of the error queue that can be put back, rising.
    pub fn returnable(&self) -> Result<Numbers, NoMemory>
        ensures { IfOk result (λ ns. ns ≡ returnable (constants_at (past_of (M.meaning self.now.handlers) self.now.course)) (state_at (past_of (M.meaning self.now.handlers) self.now.course))) }
    {
        let error = &self.ledger.settings().error;
        returning_of(self.alloc, error, &self.transport.post.state().entries)
    }

    /// The ids of the records that can be purged, by their bytes.
    pub fn purgeable(&self) -> Result<Names, NoMemory>
        ensures { IfOk result (λ ids. ids ≡ purgeable (state_at (past_of (M.meaning self.now.handlers) self.now.course)).tables self.now.course.settings.retention (state_at (past_of (M.meaning self.now.handlers) self.now.course)).moment) }
    {
        let retention = self.ledger.settings().retention;
        self.store.purgeable(self.alloc, retention, self.moment)
    }

    /// The stores, the history and its state. It takes no memory.
    pub fn close(self) -> Closed<P, D>
        ensures post { result.post ≡ self.post }
        ensures base { result.base ≡ self.base }
        ensures history { result.history ≡ record { opening = self.course.opening; events = self.course.events } }
        ensures state { result.state ≡ state_at (past_of (M.meaning self.handlers) self.course) }
        ensures legal { IsLegal (past_of (M.meaning self.handlers) self.course).fixed self.course.events }
        ensures means { IsMeaning (M.meaning self.handlers) }
        ensures counted { Counted (past_of (M.meaning self.handlers) self.course).fixed self.course.events (D.count result.base) (P.count result.post) }
    {
        let Hub {
            alloc: _,
            handlers: _,
            transport,
            store,
            ledger,
            moment,
            phases,
            fails,
            back,
            discarded,
        } = self;
        let Transport {
            post,
            ready: _,
            own: _,
        } = transport;
        let queues = post.close();
        let tables = store.close();
        let Ok(discarded) = Items::of_vec(discarded) else {
            unreachable!()
        };
        Closed {
            post: queues.cells,
            base: tables.base,
            history: ledger.into_history(),
            state: State {
                tables: tables.tables,
                post: queues.post,
                moment,
                phases,
                fails,
                back,
                discarded,
            },
        }
    }
}

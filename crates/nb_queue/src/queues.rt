//! What stands in the queues, in memory, with an index of what waits for a moment.
ghost use Rattle.std.specs.Prelude.{◌≡◌, ◌<◌, ◌≤◌, ◌-◌, ◌^◌, IfOk, OnOk, OnErr, IsSome, Some};
ghost use Rattle.std.specs.FinMap as map;
ghost use Rattle.nb_base.specs.Sound.{IsSoundPost};
ghost use Rattle.nb_base.specs.declared.tables.Queued.{Queued};
ghost use Rattle.nb_queue.specs.Dues.{IsFirstWaiting};
ghost use Rattle.nb_queue.specs.Spelled.{IsEntry};
ghost use Rattle.nb_queue.specs.Stands.{IsPost, with_entry, without_entry, in_place, stands_now};

use crate::dues::{dues_of, forget, note};
use nb_base::{Copied, NoMemory, PostState, Queued, Waiting};
use nb_ready::Ready;
use std::alloc::Global;
use std::marker::Model;

/// A sound post, of which each entry has a spelling, and the index of the entries with a due.
#[derive(Drop)]
pub struct Queues {
    state: PostState,
    dues: Ready,
}

impl Model for Queues {
    ghost use Rattle.nb_base.specs.declared.tables.PostState.{PostState};
    ghost use Rattle.nb_base.specs.contracts.tables.PostState as post_type;
    ghost use Rattle.nb_queue.specs.Dues.{IsKept};

    ghost Value = { PostState };

    ghost coded = { post_type.the_row.coded };

    ghost view = { λ q. q.state };

    ghost invariant = { λ q. IsKept q.state q.dues };
}

impl Queues {
    /// The queues of a post.
    pub(crate) fn new(alloc: Global, state: PostState) -> Result<Queues, NoMemory>
        requires { IsPost state }
        ensures { IfOk result (λ q. q ≡ state) }
    {
        let dues = dues_of(alloc, &state.entries)?;
        Ok(Queues { state, dues })
    }

    /// The post.
    pub(crate) fn state(&self) -> &PostState
        ensures value { result.now ≡ self.now }
        ensures sound { IsSoundPost self.now }
        ensures post { IsPost self.now }
    {
        &self.state
    }

    /// The post, with no copy.
    pub(crate) fn into_state(self) -> PostState
        ensures value { result ≡ self }
        ensures sound { IsSoundPost result }
    {
        let Queues { state, dues: _ } = self;
        state
    }

    /// The first of the entries with a due.
    pub(crate) fn next_due(&self) -> Option<Waiting>
        ensures { IsFirstWaiting self.now.entries result }
    {
        self.dues.next_due()
    }

    /// A copy of an entry, without its due.
    pub(crate) fn copy_released(&self, number: u64) -> Result<Queued, NoMemory>
        requires { IsSome (map.get self.now.entries number) }
        ensures copy { IfOk result (λ r. (e : Queued) × (map.get self.now.entries number ≡ Some e) × (r ≡ stands_now e)) }
        ensures post { IsPost self.now }
    {
        match self.state.entries.get(number) {
            Some(entry) => Ok(Queued {
                queue: entry.queue.copy()?,
                due: None,
                envelope: entry.envelope.copy()?,
            }),
            None => unreachable!(),
        }
    }

    /// Adds an entry under the next number.
    pub(crate) fn add(&mut self, alloc: Global, entry: Queued) -> Result<(), NoMemory>
        requires room { self.old.next < 2 ^ 62 }
        requires spelled { IsEntry entry }
        ensures ok { OnOk result (self.new ≡ with_entry self.old entry) }
        ensures err { OnErr result (self.new ≡ self.old) }
    {
        let number = self.state.next;
        let due = entry.due;
        self.state.entries.insert(number, entry)?;
        match note(alloc, &mut self.dues, number, due) {
            Ok(()) => {
                self.state.next = number + 1;
                Ok(())
            }
            Err(refused) => {
                self.state.entries.remove(number);
                Err(refused)
            }
        }
    }

    /// Takes the entry with the greatest number that was given out, as though it had not been added.
    pub(crate) fn drop_last(&mut self)
        requires { 2 ≤ self.old.next }
        ensures { self.new ≡ record { entries = map.remove self.old.entries (self.old.next - 1); next = self.old.next - 1 } }
    {
        let number = self.state.next - 1;
        self.remove(number);
        self.state.next = number;
    }

    /// Takes an entry out, where it is there.
    pub(crate) fn remove(&mut self, number: u64)
        ensures { self.new ≡ without_entry self.old number }
    {
        if let Some(entry) = self.state.entries.take(number) {
            forget(&mut self.dues, number, entry.due);
        }
    }

    /// Puts a released entry in its place.
    pub(crate) fn release(&mut self, number: u64, released: Queued)
        requires { (e : Queued) × (map.get self.old.entries number ≡ Some e) × (released ≡ stands_now e) }
        ensures { self.new ≡ in_place self.old number released }
    {
        let due = match self.state.entries.get(number) {
            Some(entry) => entry.due,
            None => unreachable!(),
        };
        match self.state.entries.insert(number, released) {
            Ok(()) => forget(&mut self.dues, number, due),
            Err(NoMemory) => unreachable!(),
        }
    }
}

//! The post: the entries of all queues over a store of cells.
ghost use Rattle.std.specs.Prelude.{◌≡◌, ◌≢◌, ◌≤◌, ◌↔◌, ◌^◌, [], IfOk, IfErr, IsSome, Err, MatchResult, is_ok, true, if◌then◌else◌, option_copied};
ghost use Rattle.std.specs.FinMap as map;
ghost use Rattle.nb_base.specs.Causes.{Rose};
ghost use Rattle.nb_base.specs.Sound.{IsSoundPost};
ghost use Rattle.nb_cells.specs.Cells.{CellMap};
ghost use Rattle.nb_queue.specs.Applied.{Applied, IsCounted, IsOfApply, IsOfPut};
ghost use Rattle.nb_queue.specs.Damage.{IsFound};
ghost use Rattle.nb_queue.specs.Dues.{IsFirstWaiting};
ghost use Rattle.nb_queue.specs.Listed.{standing, AreDelayed};
ghost use Rattle.nb_queue.specs.Maps.{HasCells};
ghost use Rattle.nb_queue.specs.Stands.{with_entry, without_entry, released};

use crate::apply::apply;
use crate::changes::{entry_changes, put_changes, remove_changes};
use crate::fault::PostFault;
use crate::listed::{delayed, standing};
use crate::opening::{load, scan_all};
use crate::queues::Queues;
use nb_base::{Copied, Entries, Envelope, Moment, NoMemory, PostState, Queued, Text, Waiting};
use nb_cells::{CellFault, Cells};
use std::alloc::Global;

/// No entry has this number or a greater one.
pub const LIMIT: u64 = 1 << 62;

/// The entries of all queues, and the store of their cells. They are kept in memory, so that what reads them makes no
/// call of the store.
#[derive(Drop)]
pub struct Post<P> {
    cells: P,
    queues: Queues,
}

/// A post that was closed: its store, and what stood in its queues.
#[derive(Drop)]
pub struct PostClosed<P> {
    pub cells: P,
    pub post: PostState,
}

/// The store that was handed in, and why no post was made of it.
#[derive(Drop)]
pub struct PostRefusal<P> {
    pub fault: PostFault,
    pub cells: P,
}

/// An envelope in a queue.
fn queued(queue: &Text, due: Option<Moment>, envelope: &Envelope) -> Result<Queued, NoMemory>
    ensures { IfOk result (λ e. e ≡ record { queue = queue.now; due = due; envelope = envelope.now }) }
{
    Ok(Queued {
        queue: queue.copy()?,
        due,
        envelope: envelope.copy()?,
    })
}

/// The post whose cells the store has.
fn open<P: Cells>(alloc: Global, cells: &mut P) -> Result<Queues, PostFault>
    ensures honest_before { P.honest cells.new → P.honest cells.old }
    ensures kept_firm { P.honest cells.new → P.firm cells.old → P.firm cells.new }
    ensures kept { (m : CellMap) → P.honest cells.new → P.firm cells.old → P.now cells.old m → P.now cells.new m }
    ensures images { (n : CellMap) → P.honest cells.new → P.images cells.new n → P.images cells.old n }
    ensures opened { (m : CellMap) → P.honest cells.new → P.firm cells.old → P.now cells.old m → MatchResult result (HasCells m) (IsFound m) }
    ensures sound { IfOk result IsSoundPost }
    ensures never_spent { IfErr result (λ f. f ≢ PostFault.Spent) }
    ensures cause { IsCounted (P.count cells.old) (P.count cells.new) result }
{
    match scan_all(alloc, cells) {
        Ok(found) => load(alloc, &found),
        Err(CellFault::Failed) => Err(PostFault::Failed),
        Err(CellFault::NoMemory) => Err(PostFault::NoMemory),
    }
}

impl<P: Cells> Post<P> {
    /// The post whose cells the store has, which is handed back where it is refused. `Damaged` names the least cell
    /// that is no cell of a post.
    pub fn start(alloc: Global, cells: P) -> Result<Post<P>, PostRefusal<P>>
        ensures honest_before { MatchResult result (λ p. P.honest p.cells → P.honest cells) (λ r. P.honest r.cells → P.honest cells) }
        ensures kept_firm { MatchResult result (λ p. P.honest p.cells → P.firm cells → P.firm p.cells) (λ r. P.honest r.cells → P.firm cells → P.firm r.cells) }
        ensures kept { (m : CellMap) → MatchResult result (λ p. P.honest p.cells → P.firm cells → P.now cells m → P.now p.cells m) (λ r. P.honest r.cells → P.firm cells → P.now cells m → P.now r.cells m) }
        ensures images { (n : CellMap) → MatchResult result (λ p. P.honest p.cells → P.images p.cells n → P.images cells n) (λ r. P.honest r.cells → P.images r.cells n → P.images cells n) }
        // The cells of the post are those that the store tells; or a fault is found among them.
        ensures opened { (m : CellMap) → MatchResult result (λ p. P.honest p.cells → P.firm cells → P.now cells m → HasCells m p.queues) (λ r. P.honest r.cells → P.firm cells → P.now cells m → IsFound m r.fault) }
        ensures sound { IfOk result (λ p. IsSoundPost p.queues) }
        ensures never_spent { IfErr result (λ r. r.fault ≢ PostFault.Spent) }
        ensures later { MatchResult result (λ p. P.count cells ≤ P.count p.cells) (λ r. P.count cells ≤ P.count r.cells) }
        ensures failed { IfErr result (λ r. r.fault ≡ PostFault.Failed → Rose (P.count cells) (P.count r.cells)) }
    {
        let mut cells = cells;
        match open(alloc, &mut cells) {
            Ok(queues) => Ok(Post { cells, queues }),
            Err(fault) => Err(PostRefusal { fault, cells }),
        }
    }

    /// Puts an envelope into a queue, or has it wait for a moment, and answers the number of the new entry.
    pub fn put(
        &mut self,
        alloc: Global,
        queue: &Text,
        due: Option<Moment>,
        envelope: &Envelope,
    ) -> Result<u64, PostFault>
        requires { queue.now ≢ [] }
        ensures spent { (result ≡ Err PostFault.Spent) ↔ (self.old.queues.next ≡ 2 ^ 62) }
        ensures number { IfOk result (λ n. n ≡ self.old.queues.next) }
        ensures applied { Applied P.honest P.now P.images P.firm self.old.cells self.new.cells self.old.queues (with_entry self.old.queues (record { queue = queue.now; due = due; envelope = envelope.now })) result }
        ensures post { self.new.queues ≡ (if is_ok result then with_entry self.old.queues (record { queue = queue.now; due = due; envelope = envelope.now }) else self.old.queues) }
        ensures cause { IsCounted (P.count self.old.cells) (P.count self.new.cells) result }
        ensures answers { IfErr result IsOfPut }
    {
        let number = self.queues.state().next;
        if number >= LIMIT {
            return Err(PostFault::Spent);
        }
        let entry = queued(queue, due, envelope)?;
        let changes = put_changes(alloc, number, &entry)?;
        self.queues.add(alloc, entry)?;
        match apply(alloc, &mut self.cells, &changes) {
            Ok(()) => Ok(number),
            Err(fault) => {
                self.queues.drop_last();
                Err(fault)
            }
        }
    }

    /// Takes an entry out, which is there.
    pub fn remove(&mut self, alloc: Global, number: u64) -> Result<(), PostFault>
        requires { IsSome (map.get self.old.queues.entries number) }
        ensures applied { Applied P.honest P.now P.images P.firm self.old.cells self.new.cells self.old.queues (without_entry self.old.queues number) result }
        ensures post { self.new.queues ≡ (if is_ok result then without_entry self.old.queues number else self.old.queues) }
        ensures cause { IsCounted (P.count self.old.cells) (P.count self.new.cells) result }
        ensures answers { IfErr result IsOfApply }
    {
        let changes = remove_changes(alloc, number)?;
        match apply(alloc, &mut self.cells, &changes) {
            Ok(()) => {
                self.queues.remove(number);
                Ok(())
            }
            Err(fault) => Err(fault),
        }
    }

    /// Takes the due of an entry away, which is there.
    pub fn release(&mut self, alloc: Global, number: u64) -> Result<(), PostFault>
        requires { IsSome (map.get self.old.queues.entries number) }
        ensures applied { Applied P.honest P.now P.images P.firm self.old.cells self.new.cells self.old.queues (released self.old.queues number) result }
        ensures post { self.new.queues ≡ (if is_ok result then released self.old.queues number else self.old.queues) }
        ensures cause { IsCounted (P.count self.old.cells) (P.count self.new.cells) result }
        ensures answers { IfErr result IsOfApply }
    {
        let entry = self.queues.copy_released(number)?;
        let changes = entry_changes(alloc, number, &entry)?;
        match apply(alloc, &mut self.cells, &changes) {
            Ok(()) => {
                self.queues.release(number, entry);
                Ok(())
            }
            Err(fault) => Err(fault),
        }
    }

    /// The entry under a number, where it is there.
    pub fn entry(&self, number: u64) -> Option<&Queued>
        ensures { option_copied result ≡ map.get self.now.queues.entries number }
    {
        self.queues.state().entries.get(number)
    }

    /// The number of the next entry, which is above every entry's number.
    pub fn next(&self) -> u64
        ensures value { result ≡ self.now.queues.next }
        ensures sound { IsSoundPost self.now.queues }
    {
        self.queues.state().next
    }

    /// All that stands in the queues, with no copy.
    pub fn state(&self) -> &PostState
        ensures value { result.now ≡ self.now.queues }
        ensures sound { IsSoundPost self.now.queues }
    {
        self.queues.state()
    }

    /// The entries that stand in a queue, by their numbers.
    pub fn list(&self, alloc: Global, queue: &Text) -> Result<Entries, NoMemory>
        ensures { IfOk result (λ list. list ≡ standing queue.now self.now.queues.entries) }
    {
        standing(alloc, queue, &self.queues.state().entries)
    }

    /// The entries with a due, by the due; those with one due stand by their numbers.
    pub fn delayed(&self, alloc: Global) -> Result<Entries, NoMemory>
        ensures { IfOk result (AreDelayed self.now.queues.entries) }
    {
        delayed(alloc, &self.queues.state().entries)
    }

    /// The first of the entries with a due, found with no walk over the entries.
    pub fn next_due(&self) -> Option<Waiting>
        ensures { IsFirstWaiting self.now.queues.entries result }
    {
        self.queues.next_due()
    }

    /// A copy of all that stands in the queues.
    pub fn all(&self) -> Result<PostState, NoMemory>
        ensures { IfOk result (λ post. post ≡ self.now.queues) }
    {
        self.queues.state().copy()
    }

    /// The store, and what stood in the queues.
    pub fn close(self) -> PostClosed<P>
        ensures cells { result.cells ≡ self.cells }
        ensures post { result.post ≡ self.queues }
        ensures sound { IsSoundPost result.post }
    {
        let Post { cells, queues } = self;
        PostClosed {
            cells,
            post: queues.into_state(),
        }
    }

    /// The store.
    pub fn cells(&self) -> &P
        ensures { result.now ≡ self.now.cells }
    {
        &self.cells
    }
}

//! The queues, with an index of the entries of the own queue.
ghost use Rattle.std.specs.Prelude.{◌≡◌, ◌≢◌, ◌↔◌, ◌^◌, [], ℕ, IfErr, IsSome, Err, is_ok, is_some, true, if◌then◌else◌, Some};
ghost use Rattle.std.specs.FinMap as map;
ghost use Rattle.nb_base.specs.Sound.{IsSoundPost};
ghost use Rattle.nb_base.specs.declared.tables.Queued.{Queued};
ghost use Rattle.nb_queue.specs.Applied.{Applied, IsCounted, IsOfApply, IsOfPut};
ghost use Rattle.nb_queue.specs.Dues.{IsFirstWaiting};
ghost use Rattle.nb_queue.specs.Stands.{with_entry, without_entry, released};
ghost use Rattle.nb_ready.specs.Seats.{HasA, is_free, changed_at, IsLeastFree};
ghost use Rattle.nb_hub.specs.Failures.{freed_by};
ghost use Rattle.nb_hub.specs.Indexed.{IsIndexed, noted, dropped, undelayed, queue_at};

use crate::index::{drop_number, note, release};
use nb_base::{Copied, Envelope, Moment, Text};
use nb_cells::Cells;
use nb_queue::{LIMIT, Post, PostFault};
use nb_ready::Ready;
use nb_recover::Move;
use std::alloc::Global;

/// The queues. The entries of the own queue are indexed by when they are due and by whether a worker holds them.
#[derive(Drop)]
pub struct Transport<P> {
    pub post: Post<P>,
    pub ready: Ready,
    pub own: Text,
    ghost indexed: { IsIndexed own post.queues.entries ready },
}

impl<P: Cells> Transport<P> {
    /// Puts an envelope into a queue, or has it wait for a moment.
    pub fn put(
        &mut self,
        alloc: Global,
        queue: &Text,
        due: Option<Moment>,
        envelope: &Envelope,
    ) -> Result<(), PostFault>
        requires { queue.now ≢ [] }
        ensures spent { (result ≡ Err PostFault.Spent) ↔ (self.old.post.queues.next ≡ 2 ^ 62) }
        ensures applied { Applied P.honest P.now P.images P.firm self.old.post.cells self.new.post.cells self.old.post.queues (with_entry self.old.post.queues (record { queue = queue.now; due = due; envelope = envelope.now })) result }
        ensures post { self.new.post.queues ≡ (if is_ok result then with_entry self.old.post.queues (record { queue = queue.now; due = due; envelope = envelope.now }) else self.old.post.queues) }
        ensures ready { self.new.ready ≡ (if is_ok result then noted self.old.own self.old.ready self.old.post.queues.next queue.now due else self.old.ready) }
        ensures own { self.new.own ≡ self.old.own }
        ensures cause { IsCounted (P.count self.old.post.cells) (P.count self.new.post.cells) result }
        ensures answers { IfErr result IsOfPut }
    {
        let number = self.post.next();
        if number >= LIMIT {
            return Err(PostFault::Spent);
        }
        let waits = due;
        note(alloc, &mut self.ready, &self.own, number, queue, waits)?;
        match self.post.put(alloc, queue, due, envelope) {
            Ok(_number) => Ok(()),
            Err(fault) => {
                drop_number(&mut self.ready, &self.own, number, queue);
                Err(fault)
            }
        }
    }

    /// Takes an entry out, which is there.
    pub fn remove(&mut self, alloc: Global, number: u64) -> Result<(), PostFault>
        requires { IsSome (map.get self.old.post.queues.entries number) }
        ensures applied { Applied P.honest P.now P.images P.firm self.old.post.cells self.new.post.cells self.old.post.queues (without_entry self.old.post.queues number) result }
        ensures post { self.new.post.queues ≡ (if is_ok result then without_entry self.old.post.queues number else self.old.post.queues) }
        ensures ready { self.new.ready ≡ (if is_ok result then dropped self.old.own self.old.ready number (queue_at self.old.post.queues number) else self.old.ready) }
        ensures own { self.new.own ≡ self.old.own }
        ensures cause { IsCounted (P.count self.old.post.cells) (P.count self.new.post.cells) result }
        ensures answers { IfErr result IsOfApply }
    {
        let queue = self.post.entry(number).unwrap().queue.copy()?;
        self.post.remove(alloc, number)?;
        drop_number(&mut self.ready, &self.own, number, &queue);
        Ok(())
    }

    /// Takes the due of an entry away, which is there and has one.
    pub fn release(&mut self, alloc: Global, number: u64) -> Result<(), PostFault>
        requires { (e : Queued) × (map.get self.old.post.queues.entries number ≡ Some e) × (is_some e.due ≡ true) }
        ensures applied { Applied P.honest P.now P.images P.firm self.old.post.cells self.new.post.cells self.old.post.queues (released self.old.post.queues number) result }
        ensures post { self.new.post.queues ≡ (if is_ok result then released self.old.post.queues number else self.old.post.queues) }
        ensures ready { self.new.ready ≡ (if is_ok result then undelayed self.old.own self.old.ready number (queue_at self.old.post.queues number) else self.old.ready) }
        ensures own { self.new.own ≡ self.old.own }
        ensures cause { IsCounted (P.count self.old.post.cells) (P.count self.new.post.cells) result }
        ensures answers { IfErr result IsOfApply }
    {
        let queue = self.post.entry(number).unwrap().queue.copy()?;
        self.post.release(alloc, number)?;
        release(&mut self.ready, &self.own, number, &queue);
        Ok(())
    }

    /// The least entry of the own queue that isn't delayed and that no worker holds.
    pub fn least_free(&self) -> Option<u64>
        ensures free { IsLeastFree self.now.ready result }
        ensures indexed { IsIndexed self.now.own self.now.post.queues.entries self.now.ready }
    {
        self.ready.next_ready()
    }

    /// A worker takes an entry, which is free.
    pub fn hold(&mut self, number: u64)
        requires { HasA is_free self.old.ready number }
        ensures ready { self.new.ready ≡ changed_at self.old.ready number (λ s. record s { held = true }) }
        ensures post { self.new.post ≡ self.old.post }
        ensures own { self.new.own ≡ self.old.own }
    {
        self.ready.hold(number);
    }

    /// A worker lets an entry go, which it holds, where it is tried again at once.
    pub fn free_by(&mut self, number: u64, next: Move)
        requires { HasA (λ s. s.held) self.old.ready number }
        ensures ready { self.new.ready ≡ freed_by next self.old.ready number }
        ensures post { self.new.post ≡ self.old.post }
        ensures own { self.new.own ≡ self.old.own }
    {
        match next {
            Move::Again => self.ready.free(number),
            Move::Later { round: _, delay: _ } => {}
            Move::Error => {}
            Move::Discard => {}
        }
    }
}

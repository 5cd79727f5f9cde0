//! The trait of a desk.
ghost use Rattle.nb_core.specs.Calls.{Called, Ready};

use crate::answers::{DeskFault, Look, Settled, Taken};
use crate::call::{Answer, Call};
use nb_base::{Envelope, Moment, Outcome, Text, Waiting};

/// A desk, as one caller sees it: a legal history, to which each call adds at most one event. Between the caller's own
/// events there may be events of others: Loads, and events of workers that aren't the caller's.
///
/// After a call that was answered Ok the event stands in the history. After a refused one there is none, but for the Halt
/// of a store that failed.
pub trait Desk {
    ghost use Rattle.nb_core.specs.Calls.{View, Called, Ready};
    ghost use Rattle.nb_core.specs.Past.{IsLegal};
    ghost use Rattle.nb_core.specs.declared.call.Answer.TheVariants as answer;
    ghost use Rattle.nb_core.specs.declared.call.Call.TheVariants as call;

    /// What the caller sees.
    ghost view: { Self → View };

    /// What the stores under the desk told when it was started.
    ghost Start: { Type 0 };

    /// What holds of these stores.
    ghost stands: { Start → Self → Type 0 };

    /// Why a store may be said to have failed.
    ghost caused: { Self → Type 0 };

    /// The history that is seen is legal.
    fn legal(&self)
        ensures { IsLegal (view self.now).fixed (view self.now).events };

    /// Puts a message into the own queue.
    fn load(&mut self, envelope: Envelope) -> Result<(), DeskFault>
        requires { Ready (call.Load envelope) (view self.old) }
        ensures call { Called (call.Load envelope) (answer.Plain result) (view self.old) (view self.new) }
        ensures stands { (start : Start) → stands start self.old → stands start self.new }
        ensures caused { caused self.old → caused self.new };

    /// Takes the free entry with the least number.
    fn take(&mut self, w: u32) -> Result<Taken, DeskFault>
        requires { Ready (call.Take w) (view self.old) }
        ensures call { Called (call.Take w) (answer.Took result) (view self.old) (view self.new) }
        ensures stands { (start : Start) → stands start self.old → stands start self.new }
        ensures caused { caused self.old → caused self.new };

    /// Looks whether the message is recorded, and if not reads for it.
    fn look(&mut self, w: u32) -> Result<Look, DeskFault>
        requires { Ready (call.Look w) (view self.old) }
        ensures call { Called (call.Look w) (answer.Saw result) (view self.old) (view self.new) }
        ensures stands { (start : Start) → stands start self.old → stands start self.new }
        ensures caused { caused self.old → caused self.new };

    /// Commits what the message's handlers decided, or counts the failure.
    fn settle(&mut self, w: u32, outcome: Outcome) -> Result<Settled, DeskFault>
        requires { Ready (call.Settle w outcome) (view self.old) }
        ensures call { Called (call.Settle w outcome) (answer.Settled result) (view self.old) (view self.new) }
        ensures stands { (start : Start) → stands start self.old → stands start self.new }
        ensures caused { caused self.old → caused self.new };

    /// Puts the next op of the batch.
    fn send(&mut self, w: u32) -> Result<(), DeskFault>
        requires { Ready (call.Send w) (view self.old) }
        ensures call { Called (call.Send w) (answer.Plain result) (view self.old) (view self.new) }
        ensures stands { (start : Start) → stands start self.old → stands start self.new }
        ensures caused { caused self.old → caused self.new };

    /// Marks the record as sent.
    fn mark(&mut self, w: u32) -> Result<(), DeskFault>
        requires { Ready (call.Mark w) (view self.old) }
        ensures call { Called (call.Mark w) (answer.Plain result) (view self.old) (view self.new) }
        ensures stands { (start : Start) → stands start self.old → stands start self.new }
        ensures caused { caused self.old → caused self.new };

    /// Puts the copy of the failed message.
    fn aside(&mut self, w: u32) -> Result<(), DeskFault>
        requires { Ready (call.Aside w) (view self.old) }
        ensures call { Called (call.Aside w) (answer.Plain result) (view self.old) (view self.new) }
        ensures stands { (start : Start) → stands start self.old → stands start self.new }
        ensures caused { caused self.old → caused self.new };

    /// Removes the worker's entry.
    fn remove(&mut self, w: u32) -> Result<(), DeskFault>
        requires { Ready (call.Remove w) (view self.old) }
        ensures call { Called (call.Remove w) (answer.Plain result) (view self.old) (view self.new) }
        ensures stands { (start : Start) → stands start self.old → stands start self.new }
        ensures caused { caused self.old → caused self.new };

    /// Lets time go on.
    fn tick(&mut self, to: Moment) -> Result<(), DeskFault>
        requires { Ready (call.Tick to) (view self.old) }
        ensures call { Called (call.Tick to) (answer.Plain result) (view self.old) (view self.new) }
        ensures stands { (start : Start) → stands start self.old → stands start self.new }
        ensures caused { caused self.old → caused self.new };

    /// Takes an entry's due away.
    fn release(&mut self, number: u64) -> Result<(), DeskFault>
        requires { Ready (call.Release number) (view self.old) }
        ensures call { Called (call.Release number) (answer.Plain result) (view self.old) (view self.new) }
        ensures stands { (start : Start) → stands start self.old → stands start self.new }
        ensures caused { caused self.old → caused self.new };

    /// Drops the record of a message.
    fn purge(&mut self, id: &Text) -> Result<(), DeskFault>
        requires { Ready (call.Purge id.now) (view self.old) }
        ensures call { Called (call.Purge id.now) (answer.Plain result) (view self.old) (view self.new) }
        ensures stands { (start : Start) → stands start self.old → stands start self.new }
        ensures caused { caused self.old → caused self.new };

    /// Puts a message of the error queue back into the queue in which it failed.
    fn put_back(&mut self, number: u64) -> Result<(), DeskFault>
        requires { Ready (call.PutBack number) (view self.old) }
        ensures call { Called (call.PutBack number) (answer.Plain result) (view self.old) (view self.new) }
        ensures stands { (start : Start) → stands start self.old → stands start self.new }
        ensures caused { caused self.old → caused self.new };

    /// Removes it from the error queue.
    fn drop_back(&mut self, number: u64) -> Result<(), DeskFault>
        requires { Ready (call.DropBack number) (view self.old) }
        ensures call { Called (call.DropBack number) (answer.Plain result) (view self.old) (view self.new) }
        ensures stands { (start : Start) → stands start self.old → stands start self.new }
        ensures caused { caused self.old → caused self.new };

    /// How many ops of the batch are left to be put.
    fn unsent(&mut self, w: u32) -> Result<u32, DeskFault>
        requires { Ready (call.Unsent w) (view self.old) }
        ensures call { Called (call.Unsent w) (answer.Unsent result) (view self.old) (view self.new) }
        ensures stands { (start : Start) → stands start self.old → stands start self.new }
        ensures caused { caused self.old → caused self.new };

    /// The delayed entry that is due first.
    fn next_due(&mut self) -> Result<Option<Waiting>, DeskFault>
        requires { Ready call.NextDue (view self.old) }
        ensures call { Called call.NextDue (answer.Due result) (view self.old) (view self.new) }
        ensures stands { (start : Start) → stands start self.old → stands start self.new }
        ensures caused { caused self.old → caused self.new };

    /// Whether nothing is left to do until this moment.
    fn drained(&mut self, until: Moment) -> Result<bool, DeskFault>
        requires { Ready (call.IsDrained until) (view self.old) }
        ensures call { Called (call.IsDrained until) (answer.IsDrained result) (view self.old) (view self.new) }
        ensures stands { (start : Start) → stands start self.old → stands start self.new }
        ensures caused { caused self.old → caused self.new };
}

/// Makes the call.
pub fn make<H: Desk>(desk: &mut H, call: Call) -> Answer
    requires { Ready call (H.view desk.old) }
    ensures call { Called call result (H.view desk.old) (H.view desk.new) }
    ensures stands { (start : H.Start) → H.stands start desk.old → H.stands start desk.new }
    ensures caused { H.caused desk.old → H.caused desk.new }
{
    match call {
        Call::Load { envelope } => Answer::Plain(desk.load(envelope)),
        Call::Take { w } => Answer::Took(desk.take(w)),
        Call::Look { w } => Answer::Saw(desk.look(w)),
        Call::Settle { w, outcome } => Answer::Settled(desk.settle(w, outcome)),
        Call::Send { w } => Answer::Plain(desk.send(w)),
        Call::Mark { w } => Answer::Plain(desk.mark(w)),
        Call::Aside { w } => Answer::Plain(desk.aside(w)),
        Call::Remove { w } => Answer::Plain(desk.remove(w)),
        Call::Tick { to } => Answer::Plain(desk.tick(to)),
        Call::Release { number } => Answer::Plain(desk.release(number)),
        Call::Purge { id } => Answer::Plain(desk.purge(&id)),
        Call::PutBack { number } => Answer::Plain(desk.put_back(number)),
        Call::DropBack { number } => Answer::Plain(desk.drop_back(number)),
        Call::Unsent { w } => Answer::Unsent(desk.unsent(w)),
        Call::NextDue => Answer::Due(desk.next_due()),
        Call::IsDrained { until } => Answer::IsDrained(desk.drained(until)),
    }
}

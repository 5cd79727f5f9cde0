//! The calls Look and Settle.
ghost use Rattle.std.specs.Prelude.{◌≡◌, ◌<◌, ◌+◌, ◌^◌, length, OnOk, IfErr, vec_len, vec_capacity};
ghost use Rattle.nb_core.specs.declared.answers.DeskFault.TheVariants.{NoMemory};
ghost use Rattle.nb_base.specs.declared.plan.Outcome.{Outcome};
ghost use Rattle.nb_core.specs.Calls.{Ready};
ghost use Rattle.nb_core.specs.declared.call.Answer.TheVariants as answer;
ghost use Rattle.nb_core.specs.declared.call.Call.TheVariants as call;
ghost use Rattle.nb_hub.specs.Kept.{seen};
ghost use Rattle.nb_hub.specs.Ledgers.{past_of};
ghost use Rattle.nb_hub.specs.Served.{Served};
ghost use Rattle.nb_hub.specs.Settling.{Judged, FailsNow, CommitsNow};

use crate::failing::{Failure, add, failure_of, settled_by};
use crate::hub::Hub;
use crate::looking::{Known, conflict_now, known_of};
use crate::phases::{held, looked, set_phase};
use nb_base::{Copied, Discard, Handling, Outcome, Plan, Verdict};
use nb_cells::Cells;
use nb_core::{DeskFault, Event, Look, Phase, Settled};
use nb_dispatch::ops_of;
use nb_headers::message_id;
use nb_recover::Fail;

/// Fewer messages than this are noted as given up.
const LIMIT: usize = 1 << 32;

/// Takes the room to note one more message that is given up.
fn make_room(discarded: &mut Vec<Discard>) -> Result<(), DeskFault>
    ensures items { discarded.new.items ≡ discarded.old.items }
    ensures room { OnOk result ((vec_len discarded.new < vec_capacity discarded.new) × (length discarded.old.items + 1 < 2 ^ 32)) }
    ensures refused { IfErr result (λ why. why ≡ NoMemory) }
{
    if discarded.len() + 1 >= LIMIT || discarded.reserve(1).is_err() {
        return Err(DeskFault::NoMemory);
    }
    Ok(())
}

impl<M: Handling, P: Cells, D: Cells> Hub<M, P, D> {
    /// Look.
    pub fn make_look(&mut self, w: u32) -> Result<Look, DeskFault>
        requires { Ready (call.Look w) (seen (past_of (M.meaning self.old.handlers) self.old.course)) }
        ensures { Served D.honest D.now D.images D.firm D.count P.honest P.now P.images P.firm P.count (call.Look w) (answer.Saw result) (past_of (M.meaning self.old.handlers) self.old.course) (past_of (M.meaning self.new.handlers) self.new.course) self.old.base self.new.base self.old.post self.new.post }
    {
        self.ledger.begin()?;
        let number = held(&self.phases, w);
        let transport = &self.transport;
        let envelope = &transport.post.entry(number).unwrap().envelope;
        match known_of(&self.store, number, envelope)? {
            Some(Known { phase, sent }) => {
                set_phase(&mut self.phases, w, phase);
                self.ledger.note(Event::Look { w });
                Ok(Look::Known { sent })
            }
            None => {
                let keys = self.handlers.keys(self.alloc, envelope)?;
                let reads = self.store.read(self.alloc, &keys)?;
                let copy = reads.copy()?;
                let phase = Phase::Looked {
                    number,
                    reads: copy,
                };
                set_phase(&mut self.phases, w, phase);
                self.ledger.note(Event::Look { w });
                Ok(Look::Fresh(reads))
            }
        }
    }

    /// Settle.
    pub fn make_settle(&mut self, w: u32, outcome: Outcome) -> Result<Settled, DeskFault>
        requires { Ready (call.Settle w outcome) (seen (past_of (M.meaning self.old.handlers) self.old.course)) }
        ensures { Served D.honest D.now D.images D.firm D.count P.honest P.now P.images P.firm P.count (call.Settle w outcome) (answer.Settled result) (past_of (M.meaning self.old.handlers) self.old.course) (past_of (M.meaning self.new.handlers) self.new.course) self.old.base self.new.base self.old.post self.new.post }
    {
        self.ledger.begin()?;
        let number = looked(&self.phases, w);
        let transport = &self.transport;
        let envelope = &transport.post.entry(number).unwrap().envelope;
        match known_of(&self.store, number, envelope)? {
            Some(Known { phase, sent }) => {
                drop(outcome);
                set_phase(&mut self.phases, w, phase);
                self.ledger.note(Event::Settle { w });
                Ok(Settled::Twin { sent })
            }
            None => self.settle_new(w, number, outcome),
        }
    }

    /// Settles the message of an entry that isn't recorded.
    fn settle_new(&mut self, w: u32, number: u64, outcome: Outcome) -> Result<Settled, DeskFault>
        requires { Judged (past_of (M.meaning self.old.handlers) self.old.course) w number outcome.reads outcome.verdict }
        ensures { (o : Outcome) → Served D.honest D.now D.images D.firm D.count P.honest P.now P.images P.firm P.count (call.Settle w o) (answer.Settled result) (past_of (M.meaning self.old.handlers) self.old.course) (past_of (M.meaning self.new.handlers) self.new.course) self.old.base self.new.base self.old.post self.new.post }
    {
        let Outcome { reads, verdict } = outcome;
        match verdict {
            Verdict::Fault(fault) => self.fail(w, number, Fail::Fault(fault)),
            Verdict::Done(plan) => match conflict_now(self.alloc, &self.store, &reads)? {
                Some(why) => self.fail(w, number, why),
                None => self.commit(w, number, &plan),
            },
        }
    }

    /// Counts a failure, and does what comes of it.
    fn fail(&mut self, w: u32, number: u64, why: Fail) -> Result<Settled, DeskFault>
        requires { FailsNow (past_of (M.meaning self.old.handlers) self.old.course) w number why }
        ensures { (o : Outcome) → Served D.honest D.now D.images D.firm D.count P.honest P.now P.images P.firm P.count (call.Settle w o) (answer.Settled result) (past_of (M.meaning self.old.handlers) self.old.course) (past_of (M.meaning self.new.handlers) self.new.course) self.old.base self.new.base self.old.post self.new.post }
    {
        let transport = &self.transport;
        let envelope = &transport.post.entry(number).unwrap().envelope;
        let settings = self.ledger.settings();
        let failure = failure_of(
            self.alloc,
            settings,
            self.moment,
            &self.fails,
            number,
            envelope,
            &why,
        )?;
        let Failure {
            count,
            next,
            phase,
            given_up,
        } = failure;
        make_room(&mut self.discarded)?;
        self.fails.insert(number, count)?;
        add(&mut self.discarded, given_up);
        set_phase(&mut self.phases, w, phase);
        self.transport.free_by(number, next);
        self.ledger.note(Event::Settle { w });
        Ok(settled_by(next, why))
    }

    /// Commits a plan.
    fn commit(&mut self, w: u32, number: u64, plan: &Plan) -> Result<Settled, DeskFault>
        requires { CommitsNow (past_of (M.meaning self.old.handlers) self.old.course) w number plan.now }
        ensures { (o : Outcome) → Served D.honest D.now D.images D.firm D.count P.honest P.now P.images P.firm P.count (call.Settle w o) (answer.Settled result) (past_of (M.meaning self.old.handlers) self.old.course) (past_of (M.meaning self.new.handlers) self.new.course) self.old.base self.new.base self.old.post self.new.post }
    {
        let transport = &self.transport;
        let envelope = &transport.post.entry(number).unwrap().envelope;
        let settings = self.ledger.settings();
        let n = self.store.commits() + 1;
        let ops = ops_of(
            self.alloc,
            settings,
            envelope,
            n,
            self.moment,
            &plan.intents,
        )?;
        let id = message_id(envelope).copy()?;
        match self.store.commit(
            self.alloc,
            envelope,
            plan,
            &ops,
            &settings.endpoint,
            self.moment,
        ) {
            Ok(n) => {
                let phase = Phase::Sending {
                    number,
                    id,
                    ops,
                    k: 0,
                };
                set_phase(&mut self.phases, w, phase);
                self.ledger.note(Event::Settle { w });
                Ok(Settled::Committed(n))
            }
            Err(fault) => Err(self.ledger.stop_base(fault)),
        }
    }
}

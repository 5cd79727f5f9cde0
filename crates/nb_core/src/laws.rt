//! The laws of legal histories. Each is the contract of a function that does nothing.
ghost use Rattle.std.specs.Prelude.{ℕ, false, ◌≡◌, ◌≤◌, List, [], ◌∷◌, ◌++◌};
ghost use Rattle.nb_core.specs.After.{after, run};
ghost use Rattle.nb_core.specs.History.{Opening, Run, commits, batches, from, opened};
ghost use Rattle.nb_core.specs.Ids.{Ids};
ghost use Rattle.std.specs.List.{AllByRecursion};
ghost use Rattle.nb_core.specs.Legal.{IsOfWorker, IsWithin, Legal, halted, is_halt, joined};
ghost use Rattle.nb_core.specs.Paced.{Paced, loads};
ghost use Rattle.nb_core.specs.Once.{Once};
ghost use Rattle.nb_base.specs.Meanings.{IsMeaning};
ghost use Rattle.nb_base.specs.declared.entry.Which.{Which};
ghost use Rattle.nb_core.specs.Drained.{Drained};
ghost use Rattle.nb_core.specs.Earned.{Earned};
ghost use Rattle.nb_core.specs.Outcome.{AreSent, Outcome};
ghost use Rattle.nb_core.specs.Facts.{StateFacts};
ghost use Rattle.nb_core.specs.Pending.{Pending};
ghost use Rattle.nb_core.specs.Placed.{Placed};
ghost use Rattle.nb_core.specs.RunFacts.{Facts};
ghost use Rattle.nb_core.specs.Sent.{Sent};
ghost use Rattle.nb_core.specs.Serve.{Serial};
ghost use Rattle.nb_core.specs.State.{Constants, State, base};
ghost use Rattle.nb_core.specs.Step.{Event, Halt, Step};

use crate::history::History;

/// The sagas, the rows and the commits at the end of a legal history, and the batches that it recorded, are those of
/// handling each committed message, one after the other, in commit order.
pub fn law_serial()
    ensures { (c : Constants) (h : History) (s : State) → IsMeaning c.meaning → (legal : Legal c h s) →
        Serial c.meaning c.settings (base (opened h.opening)) (commits legal.run) (base s) (batches legal.run) }
{}

/// Between two commits of one id there is a purge of it, no earlier than the retention after the first.
pub fn law_once()
    ensures { (c : Constants) (h : History) (s : State) → (legal : Legal c h s) → Once legal.run }
{}

/// Whatever stood in the own queue, delayed or not, is there, was handled or given up, or is in error.
pub fn law_placed()
    ensures { (c : Constants) (h : History) (s : State) → (legal : Legal c h s) → Placed legal.run }
{}

/// A message goes to the error queue only after every configured attempt failed, by an unrecoverable fault, or by a
/// policy.
pub fn law_earned()
    ensures { (c : Constants) (h : History) (s : State) → (legal : Legal c h s) → Earned legal.run }
{}

/// What is sent is what was recorded, and all of it before the record is marked.
pub fn law_sent()
    ensures { (c : Constants) (h : History) (s : State) → (legal : Legal c h s) → Sent legal.run }
{}

/// While a record isn't sent, the entries that lead to its sending stay.
pub fn law_pending()
    ensures { (c : Constants) (h : History) (s : State) → (legal : Legal c h s) → Pending legal.run }
{}

/// What holds at the end of a legal history of what came before: what each phase says of its entry, and each count.
pub fn law_facts()
    ensures { (c : Constants) (h : History) (s : State) → IsMeaning c.meaning → (legal : Legal c h s) → Facts legal.run }
{}

/// No id is given to two messages or to two sagas, and no saga gets one that a saga had at the opening.
pub fn law_ids()
    ensures { (c : Constants) (h : History) (s : State) → IsMeaning c.meaning → (legal : Legal c h s) → Ids legal.run }
{}

/// What each state of a legal history keeps: sound stores, and what the phases say.
pub fn law_state()
    ensures { (c : Constants) (h : History) (s : State) → IsMeaning c.meaning → Legal c h s → StateFacts c s }
{}

/// Two legal histories, of which the second opens with the tables and the post in which the first ends, are one, and
/// within the Takes in which both are.
pub fn law_runs(first: &History, second: &History)
    ensures legal { (c : Constants) (s t : State) → Legal c first.now s → Legal c second.now t →
        s.tables ≡ second.now.opening.tables → s.post ≡ second.now.opening.post → Legal c (joined first.now second.now) t }
    ensures within { (turns : ℕ) → IsWithin turns first.now.events → IsWithin turns second.now.events →
        IsWithin turns (joined first.now second.now).events }
{}

/// A legal history whose last event isn't a Halt goes on by a step.
pub fn law_more()
    ensures { (c : Constants) (o : Opening) (events : List Event) (s t : State) (event : Event) →
        Legal c (from o events) s → halted events ≡ false → IsOfWorker o.workers event → Step c s event t →
        Legal c (from o (events ++ event ∷ [])) t }
{}

/// A Halt at the end may be replaced by any step from there.
pub fn law_halt()
    ensures { (c : Constants) (o : Opening) (events : List Event) (store : Which) (s t : State) (event : Event) →
        Legal c (from o (events ++ Halt store ∷ [])) s → IsOfWorker o.workers event → Step c s event t →
        Legal c (from o (events ++ event ∷ [])) t }
{}

/// An event leads to one state, which is the computed one.
pub fn law_after()
    ensures { (c : Constants) (s t : State) (event : Event) → Step c s event t → t ≡ after c s event }
{}

/// And so does a list of events.
pub fn law_run()
    ensures { (c : Constants) (s t : State) (events : List Event) → Run c s events t → t ≡ run c s events }
{}

/// All that a legal history comes to.
pub fn law_outcome()
    ensures { (c : Constants) (h : History) (s : State) → IsMeaning c.meaning → (legal : Legal c h s) → Outcome legal.run }
{
    law_serial();
    law_once();
    law_placed();
    law_earned();
    law_sent();
    law_pending();
    law_ids();
}

/// In a drained state every record is sent that was committed since the last Stop, and every older one whose message was
/// still there then, undelayed or due by now.
pub fn law_drained()
    ensures { (c : Constants) (h : History) (s : State) (until : ℕ) → (legal : Legal c h s) → Drained c s until → AreSent legal.run until }
{}

/// With one worker a legal history in the pace of a drain that ends drained, without a Halt, is determined by its opening,
/// its Loads and the moment until which it drains.
pub fn law_paced()
    ensures { (c : Constants) (o : Opening) (until : ℕ) (first second : List Event) (s t : State) →
        o.workers ≡ 1 → o.moment ≤ until → Legal c (from o first) s → Legal c (from o second) t →
        Paced c until (from o first) → Paced c until (from o second) →
        AllByRecursion (λ e. is_halt e ≡ false) first → AllByRecursion (λ e. is_halt e ≡ false) second →
        Drained c s until → Drained c t until → loads first ≡ loads second → first ≡ second }
{}

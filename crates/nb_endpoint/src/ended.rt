//! A job over two stores, which are handed in and handed back.
ghost use Rattle.std.specs.Prelude.{◌≡◌, ◌≢◌, ◌<◌, [], None, false, IfSome, MatchOption};
ghost use Rattle.nb_base.specs.Meanings.{IsMeaning};
ghost use Rattle.nb_cells.specs.Cells.{CellMap};
ghost use Rattle.nb_core.specs.Legal.{HasRoutes, halted};
ghost use Rattle.nb_endpoint.specs.Asked.{Asked, asked_by};
ghost use Rattle.nb_endpoint.specs.Finishing.{IsFinished, IsNew};
ghost use Rattle.nb_endpoint.specs.Follows.{Begins, Follows, constants_of, state_in};
ghost use Rattle.nb_endpoint.specs.Left.{AreLeft, RefusesBase, RefusesPost};
ghost use Rattle.nb_endpoint.specs.Stores.{DeskStands, IsRead, Told, TellsOne};
ghost use Rattle.nb_endpoint.specs.Prints.{Prints, PrintsNothing};
ghost use Rattle.nb_endpoint.specs.Rows.{Shows, IsOfStart, Risen, counts};
ghost use Rattle.nb_endpoint.specs.Works.{Works};
ghost use Rattle.nb_hub.specs.Desks.{Started};
ghost use Rattle.nb_hub.specs.Kept.{seen};
ghost use Rattle.nb_hub.specs.Ledgers.{past_of, state_at};
ghost use Rattle.nb_pump.specs.Drains.{Standing};
ghost use Rattle.nb_words.specs.declared.words.Command.TheVariants.{Sample};

use crate::chore::chore_of;
use crate::finish::{end, of_start};
use crate::job::Job;
use crate::lent::Lent;
use crate::printing::Worked;
use crate::status::Status;
use crate::work::{Task, serve};
use nb_base::{Handling, NoMemory, Sink};
use nb_cells::Cells;
use nb_core::{Desk, DeskFault, History};
use nb_hub::{Closed, Hub, StartRefusal};
use nb_words::{Command, Words};
use std::alloc::Global;

/// What the top call hands back.
#[derive(Drop)]
pub struct Ended<P, D> {
    pub status: Status,
    pub post: P,
    pub base: D,
    /// What was done, where a hub was started.
    pub history: Option<History>,
    /// How many bytes were written to the sink.
    pub printed: u64,
}

/// Does the work of a command at a hub.
pub(crate) fn work<H: Handling, M: Handling + Drop, P: Cells, D: Cells>(
    alloc: Global,
    handling: &H,
    command: Command,
    task: &Task,
    hub: &mut Hub<M, P, D>,
) -> Result<bool, DeskFault>
    requires standing { Standing (seen (past_of (M.meaning hub.old.handlers) hub.old.course)) }
    requires on { halted hub.old.course.events ≡ false }
    requires moment { (state_at (past_of (M.meaning hub.old.handlers) hub.old.course)).moment
        ≡ task.now.moment }
    requires meaning { M.meaning hub.old.handlers ≡ H.meaning handling.now }
    ensures works { Works command task.now.messages task.now.until result
        (seen (past_of (M.meaning hub.old.handlers) hub.old.course))
        (seen (past_of (M.meaning hub.new.handlers) hub.new.course)) }
    ensures stands { (start : Started)
        → DeskStands P.Cells D.Cells start
        (past_of (M.meaning hub.old.handlers) hub.old.course) hub.old.base hub.old.post
        → DeskStands P.Cells D.Cells start
        (past_of (M.meaning hub.new.handlers) hub.new.course) hub.new.base hub.new.post }
    ensures handlers { M.meaning hub.new.handlers ≡ M.meaning hub.old.handlers }
{
    match chore_of(command, hub) {
        Ok(chore) => serve(alloc, handling, &chore, task, hub),
        Err(NoMemory) => Err(DeskFault::NoMemory),
    }
}

/// What work at a hub left.
#[derive(Drop)]
struct Finished<P, D> {
    worked: Worked,
    post: P,
    base: D,
    history: History,
}

/// Works at a hub of which nothing was asked before, and takes it apart.
fn finish<H: Handling, M: Handling + Drop, P: Cells, D: Cells, O: Sink>(
    alloc: Global,
    handling: &H,
    said: Words,
    task: &Task,
    hub: Hub<M, P, D>,
    out: &mut O,
) -> Finished<P, D>
    requires none { hub.course.events ≡ [] }
    requires one { hub.course.opening.workers ≡ 1 }
    requires moment { hub.course.opening.moment ≡ task.now.moment }
    requires meaning { M.meaning hub.handlers ≡ H.meaning handling.now }
    ensures finished { (a : Asked)
        → IsNew 1 a said task.now (seen (past_of (M.meaning hub.handlers) hub.course))
        → IsFinished 1 a result.worked result.history (O.held out.old) (O.held out.new) }
    ensures risen { Risen result.worked.status (counts
        hub.course.base_faults (D.count result.base)
        hub.course.post_faults (P.count result.post)
        (O.count out.old) (O.count out.new)) }
    ensures means { IsMeaning (M.meaning hub.handlers) }
    ensures left { (a : Asked) (start : Started)
        → IsNew 1 a said task.now (seen (past_of (M.meaning hub.handlers) hub.course))
        → DeskStands P.Cells D.Cells start
        (past_of (M.meaning hub.handlers) hub.course) hub.base hub.post
        → AreLeft P.Cells D.Cells start a result.history result.post result.base }
{
    let mut hub = hub;
    hub.legal();
    let done = work(alloc, handling, said.command, task, &mut hub);
    let Closed {
        post,
        base,
        history,
        state,
    } = hub.close();
    let worked = end(alloc, done, said.turns, &history, &state, out);
    Finished {
        worked,
        post,
        base,
        history,
    }
}

/// Does what is asked for over the two stores.
pub fn perform<O: Sink, P: Cells, D: Cells>(
    alloc: Global,
    job: Job,
    post: P,
    base: D,
    out: &mut O,
) -> Ended<P, D>
    requires routes { HasRoutes (constants_of (asked_by job)) }
    requires some { 0 < job.said.turns }
    requires built { job.said.command ≢ Sample }
    ensures begins { IfSome result.history (Begins 1 (asked_by job)) }
    ensures follows { IfSome result.history (Follows (asked_by job) result.status) }
    ensures shows { MatchOption result.history
        (IsOfStart result.status)
        (Shows (asked_by job) result.status) }
    ensures prints { MatchOption result.history
        (PrintsNothing result.printed (O.held out.old) (O.held out.new))
        (λ h. Prints result.status (state_in (asked_by job) h) result.printed
        (O.held out.old) (O.held out.new)) }
    ensures risen { Risen result.status (counts
        (D.count base) (D.count result.base)
        (P.count post) (P.count result.post)
        (O.count out.old) (O.count out.new)) }
    ensures means { IfSome result.history (λ h. IsMeaning (constants_of (asked_by job)).meaning) }
    ensures left { (start : Started) → IfSome result.history (λ h.
        TellsOne D.Cells base start.base → TellsOne P.Cells post start.post
        → AreLeft P.Cells D.Cells start (asked_by job) h result.post result.base) }
    ensures base_kept { result.history ≡ None → IsRead D.Cells base result.base }
    ensures post_kept { result.history ≡ None → IsRead P.Cells post result.post }
    ensures base_damage { (m : CellMap) → result.history ≡ None → Told D.Cells base result.base m
        → RefusesBase (constants_of (asked_by job)).meaning m result.status }
    ensures post_damage { (m : CellMap) → result.history ≡ None → Told P.Cells post result.post m
        → RefusesPost m result.status }
{
    let Job {
        said,
        moment,
        handlers,
        settings,
        messages,
    } = job;
    let task = Task {
        messages,
        moment,
        until: moment.plus(said.horizon),
    };
    let lent = Lent {
        handlers: &handlers,
    };
    match Hub::start(alloc, lent, settings, moment, 1, said.turns, post, base) {
        Ok(hub) => {
            let Finished {
                worked,
                post,
                base,
                history,
            } = finish(alloc, &handlers, said, &task, hub, out);
            Ended {
                status: worked.status,
                post,
                base,
                history: Some(history),
                printed: worked.printed,
            }
        }
        Err(StartRefusal { fault, post, base }) => Ended {
            status: of_start(fault),
            post,
            base,
            history: None,
            printed: 0,
        },
    }
}

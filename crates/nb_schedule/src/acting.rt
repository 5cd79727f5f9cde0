//! What the tests share: messages, stages, and schedules whose answers are told as texts.

use crate::{Ended, SCRIPT, SETTINGS, Slip, Stage, Terms, Unread, handlers_of};
use nb_base::{Envelope, Items, Moment, NoMemory, Reads, Seen, Text};
use nb_cells::MemCells;
use nb_core::{DeskFault, Look, Settled, State, Taken};
use nb_eval::Handlers;
use nb_headers::message_id;
use nb_headers::names::ENCLOSED_MESSAGE_TYPES;
use nb_recover::Fail;
use nb_report::report;
use std::alloc::{AllocError, Global};
use thiserror::Error;

/// Why a test couldn't be prepared.
#[derive(Debug, Drop, Error)]
pub enum Unready {
    #[error("a text wasn't read")]
    Unread,
    #[error("no stage was opened")]
    Unopened,
    #[error("no memory")]
    NoMemory,
}

impl From<NoMemory> for Unready {
    fn from(_refused: NoMemory) -> Unready {
        Unready::NoMemory
    }
}

impl From<AllocError> for Unready {
    fn from(_refused: AllocError) -> Unready {
        Unready::NoMemory
    }
}

impl From<Unread> for Unready {
    fn from(_refused: Unread) -> Unready {
        Unready::Unread
    }
}

/// The moment so many seconds after the first one.
pub fn at(seconds: u64) -> Moment {
    Moment::new(seconds).unwrap_or(Moment::FIRST)
}

/// The usual settings, the first moment, so many workers, and Takes without end.
pub fn terms(workers: u32) -> Terms<'static> {
    Terms {
        settings: SETTINGS,
        moment: Moment::FIRST,
        workers,
        turns: u64::MAX,
    }
}

/// The handlers of the usual script.
pub fn shop(alloc: Global) -> Result<Handlers, Unready> {
    let handlers = handlers_of(alloc, SCRIPT)?;
    Ok(handlers)
}

/// A message of this type.
pub fn message(alloc: Global, kind: &str, id: &str, body: &str) -> Result<Envelope, NoMemory> {
    let id = Text::new(alloc, id)?;
    if id.is_empty() {
        return Err(NoMemory);
    }
    let mut envelope = Envelope::new(alloc, &id, Text::new(alloc, body)?)?;
    envelope.set_header(alloc, ENCLOSED_MESSAGE_TYPES, Text::new(alloc, kind)?)?;
    Ok(envelope)
}

/// A message that places an order.
pub fn order(alloc: Global, id: &str, name: &str, amount: u32) -> Result<Envelope, NoMemory> {
    let body = format!(in alloc; "{{\"orderId\":\"{name}\",\"amount\":{amount}}}")?;
    message(alloc, "Shop.PlaceOrder", id, body.as_str())
}

/// A message that says that an order is paid.
pub fn paid(alloc: Global, id: &str, name: &str) -> Result<Envelope, NoMemory> {
    let body = format!(in alloc; "{{\"orderId\":\"{name}\"}}")?;
    message(alloc, "OrderPaid", id, body.as_str())
}

/// A message that credits an amount to an account.
pub fn credit(alloc: Global, id: &str, account: &str, amount: u32) -> Result<Envelope, NoMemory> {
    let body = format!(in alloc; "{{\"account\":\"{account}\",\"amount\":{amount}}}")?;
    message(alloc, "Credit", id, body.as_str())
}

/// One message.
pub fn one(alloc: Global, first: Envelope) -> Result<Items<Envelope>, NoMemory> {
    let mut messages = Items::new(alloc);
    messages.push(first)?;
    Ok(messages)
}

/// Two messages.
pub fn two(alloc: Global, first: Envelope, second: Envelope) -> Result<Items<Envelope>, NoMemory> {
    let mut messages = one(alloc, first)?;
    messages.push(second)?;
    Ok(messages)
}

/// A stage over these stores.
pub fn stage_over<'a>(
    alloc: Global,
    handlers: &'a Handlers,
    terms: &Terms,
    post: MemCells,
    base: MemCells,
) -> Result<Stage<'a>, Unready> {
    match Stage::open(alloc, handlers, terms, post, base) {
        Ok(stage) => Ok(stage),
        Err(_) => Err(Unready::Unopened),
    }
}

/// A step of a schedule: a message that is loaded, what a worker does, or a call that no worker makes.
#[derive(Clone, Copy)]
pub enum Step {
    /// An order is placed: the message's id, the order and the amount.
    Order(&'static str, &'static str, u32),
    /// An account is credited: the message's id, the account and the amount.
    Credit(&'static str, &'static str, u32),
    /// A message without fields: its type and its id.
    Plain(&'static str, &'static str),
    Take(u32),
    Look(u32),
    Settle(u32),
    Send(u32),
    Mark(u32),
    Aside(u32),
    Remove(u32),
    Unsent(u32),
    Tick(u64),
    Release,
    NextDue,
    Drained(u64),
}

fn fault_text(fault: DeskFault) -> &'static str {
    match fault {
        DeskFault::StoreFailed => "store failed",
        DeskFault::PostFailed => "post failed",
        DeskFault::Spent => "spent",
        DeskFault::Halted => "halted",
        DeskFault::NoMemory => "no memory",
    }
}

fn slip_text(slip: Slip) -> &'static str {
    match slip {
        Slip::OutOfTurn => "out of turn",
        Slip::Refused(fault) => fault_text(fault),
        Slip::NoMemory => "no memory",
    }
}

fn push_take(out: &mut String, answer: Result<Taken, Slip>) -> Result<(), AllocError> {
    match answer {
        Ok(Taken::Got(envelope)) => {
            out.push_str("got ")?;
            out.push_str(message_id(&envelope).as_str())
        }
        Ok(Taken::Nothing) => out.push_str("nothing"),
        Ok(Taken::Limit) => out.push_str("limit"),
        Err(slip) => out.push_str(slip_text(slip)),
    }
}

fn version_of(seen: &Seen) -> u64 {
    match seen {
        Seen::Absent => 0,
        Seen::Saga(row) => row.version,
        Seen::Row { version, .. } => *version,
    }
}

/// The versions that were read.
fn push_versions(alloc: Global, out: &mut String, reads: &Reads) -> Result<(), AllocError> {
    for read in reads.as_slice() {
        let version = version_of(&read.seen);
        let text = format!(in alloc; " {version}")?;
        out.push_str(text.as_str())?;
    }
    Ok(())
}

fn push_look(
    alloc: Global,
    out: &mut String,
    answer: Result<Look, Slip>,
) -> Result<(), AllocError> {
    match answer {
        Ok(Look::Fresh(reads)) => {
            out.push_str("fresh")?;
            push_versions(alloc, out, &reads)
        }
        Ok(Look::Known { sent: true }) => out.push_str("known, sent"),
        Ok(Look::Known { sent: false }) => out.push_str("known, not sent"),
        Err(slip) => out.push_str(slip_text(slip)),
    }
}

fn push_fail(alloc: Global, out: &mut String, word: &str, why: &Fail) -> Result<(), NoMemory> {
    out.push_str(word)?;
    let text = why.text(alloc)?;
    out.push_str(text.as_str())?;
    Ok(())
}

fn push_settle(
    alloc: Global,
    out: &mut String,
    answer: Result<Settled, Slip>,
) -> Result<(), NoMemory> {
    match answer {
        Ok(Settled::Committed(n)) => {
            let text = format!(in alloc; "committed {n}")?;
            out.push_str(text.as_str())?;
        }
        Ok(Settled::Twin { sent: true }) => out.push_str("twin, sent")?,
        Ok(Settled::Twin { sent: false }) => out.push_str("twin, not sent")?,
        Ok(Settled::Again(why)) => push_fail(alloc, out, "again: ", &why)?,
        Ok(Settled::Later(why)) => push_fail(alloc, out, "later: ", &why)?,
        Ok(Settled::Error(why)) => push_fail(alloc, out, "error: ", &why)?,
        Ok(Settled::Discarded(why)) => push_fail(alloc, out, "discarded: ", &why)?,
        Err(slip) => out.push_str(slip_text(slip))?,
    }
    Ok(())
}

fn push_plain(out: &mut String, answer: Result<(), Slip>) -> Result<(), AllocError> {
    match answer {
        Ok(()) => out.push_str("ok"),
        Err(slip) => out.push_str(slip_text(slip)),
    }
}

fn push_number(
    alloc: Global,
    out: &mut String,
    answer: Result<u64, Slip>,
) -> Result<(), AllocError> {
    match answer {
        Ok(number) => {
            let text = format!(in alloc; "{number}")?;
            out.push_str(text.as_str())
        }
        Err(slip) => out.push_str(slip_text(slip)),
    }
}

fn push_next(alloc: Global, out: &mut String, stage: &mut Stage) -> Result<(), AllocError> {
    match stage.next_due() {
        Ok(Some(next)) => {
            let number = next.number;
            let due = next.due.seconds();
            let text = format!(in alloc; "{number} due {due}")?;
            out.push_str(text.as_str())
        }
        Ok(None) => out.push_str("none due"),
        Err(slip) => out.push_str(slip_text(slip)),
    }
}

fn push_unsent(
    alloc: Global,
    out: &mut String,
    stage: &mut Stage,
    w: u32,
) -> Result<(), AllocError> {
    match stage.unsent(w) {
        Ok(left) => {
            let text = format!(in alloc; "{left} left")?;
            out.push_str(text.as_str())
        }
        Err(slip) => out.push_str(slip_text(slip)),
    }
}

fn push_drained(out: &mut String, answer: Result<bool, Slip>) -> Result<(), AllocError> {
    match answer {
        Ok(true) => out.push_str("drained"),
        Ok(false) => out.push_str("not drained"),
        Err(slip) => out.push_str(slip_text(slip)),
    }
}

fn push_step(
    alloc: Global,
    out: &mut String,
    stage: &mut Stage,
    step: Step,
) -> Result<(), NoMemory> {
    match step {
        Step::Order(id, name, amount) => {
            push_plain(out, stage.load(order(alloc, id, name, amount)?))?
        }
        Step::Credit(id, account, amount) => {
            push_plain(out, stage.load(credit(alloc, id, account, amount)?))?
        }
        Step::Plain(kind, id) => push_plain(out, stage.load(message(alloc, kind, id, "{}")?))?,
        Step::Take(w) => push_take(out, stage.take(w))?,
        Step::Look(w) => push_look(alloc, out, stage.look(w))?,
        Step::Settle(w) => push_settle(alloc, out, stage.settle(w))?,
        Step::Send(w) => push_plain(out, stage.send(w))?,
        Step::Mark(w) => push_plain(out, stage.mark(w))?,
        Step::Aside(w) => push_plain(out, stage.aside(w))?,
        Step::Remove(w) => push_plain(out, stage.remove(w))?,
        Step::Unsent(w) => push_unsent(alloc, out, stage, w)?,
        Step::Tick(seconds) => push_plain(out, stage.tick(at(seconds)))?,
        Step::Release => push_number(alloc, out, stage.release())?,
        Step::NextDue => push_next(alloc, out, stage)?,
        Step::Drained(seconds) => push_drained(out, stage.drained(at(seconds)))?,
    }
    Ok(())
}

/// Makes the calls of a schedule, and tells their answers, each with a semicolon behind it.
fn played(alloc: Global, stage: &mut Stage, steps: &[Step]) -> Result<String, NoMemory> {
    let mut out = String::new(alloc);
    for step in steps {
        push_step(alloc, &mut out, stage, *step)?;
        out.push_str("; ")?;
    }
    Ok(out)
}

/// What a schedule is made of: the terms of its stage, and its stores.
#[derive(Drop)]
pub struct Scene {
    pub terms: Terms<'static>,
    pub post: MemCells,
    pub base: MemCells,
}

/// A scene with empty stores and so many workers.
pub fn empty_scene(alloc: Global, workers: u32) -> Scene {
    Scene {
        terms: terms(workers),
        post: MemCells::empty(alloc),
        base: MemCells::empty(alloc),
    }
}

/// A scene with empty stores and one worker, under these settings.
pub fn scene_under(alloc: Global, settings: &'static str) -> Scene {
    Scene {
        terms: Terms {
            settings,
            moment: Moment::FIRST,
            workers: 1,
            turns: u64::MAX,
        },
        post: MemCells::empty(alloc),
        base: MemCells::empty(alloc),
    }
}

/// The answers of a schedule, and what it leaves.
fn act(alloc: Global, scene: Scene, steps: &[Step]) -> Result<(String, Ended), Unready> {
    let Scene { terms, post, base } = scene;
    let handlers = shop(alloc)?;
    let mut stage = stage_over(alloc, &handlers, &terms, post, base)?;
    let answers = played(alloc, &mut stage, steps)?;
    Ok((answers, stage.close()))
}

/// The answers of a schedule.
pub fn answers(alloc: Global, scene: Scene, steps: &[Step]) -> Result<String, Unready> {
    let acted = act(alloc, scene, steps)?;
    let (answers, _ended) = acted;
    Ok(answers)
}

/// What a schedule leaves.
pub fn left(alloc: Global, scene: Scene, steps: &[Step]) -> Result<Ended, Unready> {
    let acted = act(alloc, scene, steps)?;
    let (_answers, ended) = acted;
    Ok(ended)
}

/// What a run of a script leaves.
pub fn ran(
    alloc: Global,
    script: &str,
    scene: Scene,
    messages: &Items<Envelope>,
    until: Moment,
) -> Result<Ended, Unready> {
    let Scene { terms, post, base } = scene;
    let handlers = handlers_of(alloc, script)?;
    let stage = stage_over(alloc, &handlers, &terms, post, base)?;
    Ok(stage.run(messages, until))
}

/// The scene at a moment that work left.
pub fn behind(ended: Ended, seconds: u64) -> Scene {
    let Ended {
        done: _,
        post,
        base,
        history: _,
        state: _,
    } = ended;
    let mut terms = terms(1);
    terms.moment = at(seconds);
    Scene { terms, post, base }
}

/// The report of a state.
pub fn told(alloc: Global, state: &State) -> Result<Text, NoMemory> {
    report(alloc, state)
}

/// How the last work of a stage ended.
pub fn ending(ended: &Ended) -> &'static str {
    match &ended.done {
        Ok(true) => "done",
        Ok(false) => "limit",
        Err(slip) => slip_text(*slip),
    }
}

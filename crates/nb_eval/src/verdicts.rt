//! The verdict of a checked script on a message.
ghost use Rattle.std.specs.Prelude.{◌≡◌, ◌<◌, ◌++◌, List, [], ℕ, length, IfOk, OnOk, option_and_then};
ghost use Rattle.nb_check.specs.Blocks.{blocks};
ghost use Rattle.nb_check.specs.Checks.{body_fields};
ghost use Rattle.nb_base.specs.Messages.{header};
ghost use Rattle.nb_base.specs.declared.plan.Plan.{Plan};
ghost use Rattle.nb_headers.specs.HeaderNames.{time_sent};
ghost use Rattle.nb_headers.specs.Moments.{read_moment};
ghost use Rattle.nb_headers.specs.Reads.{header_or};
ghost use Rattle.nb_check.specs.Declarations.{sagas};
ghost use Rattle.nb_check.specs.Meets.{met_from};
ghost use Rattle.nb_eval.specs.Meanings.{FitsLook};
ghost use Rattle.nb_eval.specs.Values.{Answer, Gives};
ghost use Rattle.nb_eval.specs.Verdicts as spec;
ghost use Rattle.nb_eval.specs.Verdicts.{row_writes, plan_of, handled, verdict_over};
ghost use Rattle.nb_eval.specs.Worlds.{seen_in, world_of};
ghost use Rattle.nb_script.specs.Tree.{script};

use crate::faults::{limit_fault, no_fault, no_handler, refusal_fault, undeclared, undecodable};
use crate::find::number_read;
use crate::scene::{Scene, State, Touched};
use crate::stop::Stop;
use nb_base::{
    Copied, Envelope, Fields, Items, Key, Moment, NoMemory, Outcome, Plan, Read, Reads, Text,
    Verdict, Write, Writes,
};
use nb_check::{BodyFault, Checked, Incoming, decode_body};
use nb_headers::names::{REPLY_TO_ADDRESS, SAGA_ID, TIME_SENT};
use nb_headers::{message_id, read_moment, round};
use sqlite_items::Items as Rows;
use std::alloc::Global;

/// Nothing was done yet.
fn nothing_done(alloc: Global) -> State
    ensures { result ≡ spec.nothing_done }
{
    State {
        saga: None,
        names: Rows::new(alloc),
        touched: Rows::new(alloc),
        writes: Items::new(alloc),
        intents: Items::new(alloc),
        size: 0,
    }
}

/// A copy of a header's text, or the empty text.
fn header_or_empty(alloc: Global, e: &Envelope, name: &str) -> Result<Text, NoMemory>
    ensures { IfOk result (λ t. t ≡ header_or e.now name.now []) }
{
    match e.header(name) {
        Some(text) => text.copy(),
        None => Text::new(alloc, ""),
    }
}

fn sent(e: &Envelope) -> Option<Moment>
    ensures { result ≡ option_and_then read_moment (header e.now.headers time_sent) }
{
    match e.header(TIME_SENT) {
        Some(text) => read_moment(text.as_str()),
        None => None,
    }
}

/// Where the message is handled.
fn scene(
    alloc: Global,
    e: &Envelope,
    fields: Fields,
    moment: Moment,
    reads: Reads,
) -> Result<Scene, NoMemory>
    ensures { IfOk result (λ s. s ≡ spec.scene_of e.now fields moment reads) }
{
    let id = message_id(e).copy()?;
    let saga_id = header_or_empty(alloc, e, SAGA_ID)?;
    let reply_to = header_or_empty(alloc, e, REPLY_TO_ADDRESS)?;
    Ok(Scene {
        fields,
        id,
        saga_id,
        reply_to,
        round: round(e),
        moment,
        sent: sent(e),
        reads,
    })
}

/// Adds the change of a row.
fn add_row(t: &Touched, reads: &[Read], writes: &mut Writes) -> Result<(), NoMemory>
    ensures { OnOk result (writes.new
        ≡ writes.old
        ++ spec.row_write t.now.name t.now.value (seen_in reads.now (Key.Row t.now.name))) }
{
    match t.value {
        Some(value) => {
            let name = t.name.copy()?;
            writes.push(Write::RowPut { name, value })
        }
        None => {
            if number_read(&t.name, reads).is_none() {
                return Ok(());
            }
            let name = t.name.copy()?;
            writes.push(Write::RowErase { name })
        }
    }
}

/// Adds the changes of the rows that were touched.
fn add_rows(rows: &[Touched], reads: &[Read], writes: &mut Writes) -> Result<(), NoMemory>
    ensures { OnOk result (writes.new ≡ writes.old ++ row_writes (seen_in reads.now) rows.now) }
{
    for t in rows {
        add_row(t, reads, writes)?;
    }
    Ok(())
}

/// The plan of what was done.
fn plan_of(state: State, reads: &[Read]) -> Result<Plan, NoMemory>
    ensures { IfOk result (λ p. p ≡ plan_of (seen_in reads.now) state) }
{
    let State {
        saga: _,
        names: _,
        touched,
        mut writes,
        intents,
        size: _,
    } = state;
    add_rows(touched.as_slice(), reads, &mut writes)?;
    Ok(Plan { writes, intents })
}

impl Scene {
    /// What the blocks that the message meets do.
    #[tactic(auto, using(crate::proofs::NumberLaws::met_do))]
    fn handled(&self, alloc: Global, c: &Checked, m: &Incoming, met: &[u32]) -> Result<Plan, Stop>
        requires met { met.now ≡ met_from m.now 0 (blocks (script c.now)) }
        requires fits { FitsLook (sagas (script c.now)) (seen_in self.now.reads) }
        ensures { Gives result (handled (script c.now) m.now (world_of self.now)) }
    {
        let mut state = nothing_done(alloc);
        self.blocks(alloc, c, &mut state, met)?;
        Ok(plan_of(state, self.reads.as_slice())?)
    }
}

/// The verdict of a message whose blocks were run.
fn verdict_of(alloc: Global, done: Result<Plan, Stop>) -> Result<Verdict, NoMemory>
    ensures { IfOk result (λ v. (meant : Answer Plan) → Gives done meant
        → v ≡ spec.verdict_of meant) }
{
    match done {
        Ok(plan) => Ok(Verdict::Done(plan)),
        Err(Stop::Passed(limit)) => Ok(Verdict::Fault(limit_fault(alloc, limit)?)),
        Err(
            Stop::Refused {
                refusal,
                name,
                text,
            },
        ) => Ok(Verdict::Fault(refusal_fault(refusal, name, text))),
        Err(Stop::Wrong) => Ok(Verdict::Fault(no_fault(alloc)?)),
        Err(Stop::NoMemory) => Err(NoMemory),
    }
}

/// The verdict of a message that meets these blocks.
fn on_body(
    alloc: Global,
    c: &Checked,
    e: &Envelope,
    moment: Moment,
    reads: Reads,
    m: &Incoming,
    met: &[u32],
) -> Result<Outcome, NoMemory>
    requires met { met.now ≡ met_from m.now 0 (blocks (script c.now)) }
    requires fits { FitsLook (sagas (script c.now)) (seen_in reads) }
    ensures kept { IfOk result (λ o. o.reads ≡ reads) }
    ensures verdict { IfOk result (λ o. o.verdict
        ≡ spec.on_body (script c.now) (seen_in reads) e.now moment m.now
        (body_fields (script c.now) m.now.message e.now.body)) }
{
    match decode_body(alloc, c, m.message, e.body()) {
        Ok(fields) => {
            let scene = scene(alloc, e, fields, moment, reads)?;
            let done = scene.handled(alloc, c, m, met);
            let verdict = verdict_of(alloc, done)?;
            let Scene {
                fields: _,
                id: _,
                saga_id: _,
                reply_to: _,
                round: _,
                moment: _,
                sent: _,
                reads,
            } = scene;
            Ok(Outcome { reads, verdict })
        }
        Err(BodyFault::Undecodable) => {
            let verdict = Verdict::Fault(undecodable(alloc, &m.name)?);
            Ok(Outcome { reads, verdict })
        }
        Err(BodyFault::NoMemory) => Err(NoMemory),
    }
}

/// The verdict of a checked script on a message, at a moment and over what was read at the message's keys. Nothing of the
/// tables is read here.
pub fn evaluate(
    alloc: Global,
    c: &Checked,
    e: &Envelope,
    moment: Moment,
    reads: Reads,
) -> Result<Outcome, NoMemory>
    requires fits { FitsLook (sagas (script c.now)) (seen_in reads) }
    ensures kept { IfOk result (λ o. o.reads ≡ reads) }
    ensures verdict { IfOk result (λ o. o.verdict
        ≡ verdict_over (script c.now) (seen_in reads) e.now moment) }
{
    let Some(m) = c.incoming(alloc, e)? else {
        let verdict = Verdict::Fault(undeclared(alloc, e)?);
        return Ok(Outcome { reads, verdict });
    };
    let met = c.met(alloc, &m)?;
    if met.is_empty() {
        let verdict = Verdict::Fault(no_handler(alloc, &m.name)?);
        return Ok(Outcome { reads, verdict });
    }
    on_body(alloc, c, e, moment, reads, &m, met.as_slice())
}

//! Messages that are made: their types, their bodies, and where they go.
ghost use Rattle.std.specs.Prelude.{◌≡◌, IfOk, OnOk, map, option_map};
ghost use Rattle.nb_check.specs.Declarations as declarations;
ghost use Rattle.nb_eval.specs.Making as spec;
ghost use Rattle.nb_eval.specs.Making.{data_of, with_members, body_of, made, delay_in, seconds_of, timed, delay_of, address, target_of, answered, from_saga, with_intent, sent};
ghost use Rattle.nb_eval.specs.Statements.{Does};
ghost use Rattle.nb_eval.specs.Values.{Gives};
ghost use Rattle.nb_eval.specs.Worlds.{world_of};
ghost use Rattle.nb_script.specs.Tree as tree;
ghost use Rattle.nb_script.specs.Tree.{arg, make};
ghost use Rattle.serde_json.specs.Data.{object, no_members, put};
ghost use Rattle.serde_json.specs.View.{view, members_view};

use crate::scene::{Instance, Scene, State};
use crate::stop::{Limit, Stop};
use nb_base::{Copied, Field, Fields, FromSaga, Intent, Items, NoMemory, Target, Text, Value};
use nb_script::expr::{Arg, Expr, Make, TypeName};
use nb_script::stmt::{After, Destination};
use serde_json::{Map, Value as Json};
use std::alloc::Global;

/// The most seconds of a delay.
const MOST_DELAY: u64 = 31536000;

/// The most messages that the handling of one sends.
const MOST_INTENTS: usize = 256;

/// The most bytes that their bodies have together.
const MOST_BYTES: u64 = 1048576;

/// The text of a message's type.
fn type_text(alloc: Global, name: &TypeName) -> Result<Text, NoMemory>
    ensures { IfOk result (λ t. t ≡ declarations.type_text name.now) }
{
    let mut text = String::from_str(alloc, name.name.as_str())?;
    for part in name.others.as_slice() {
        text.push('.')?;
        text.push_str(part.name.as_str())?;
    }
    Text::of_string(text)
}

fn data_of(value: Value) -> Json
    ensures { view result ≡ data_of value }
{
    match value {
        Value::Int(n) => Json::from(n),
        Value::Text(text) => Json::String(text.into_string()),
        Value::Bool(b) => Json::Bool(b),
    }
}

/// Adds a field to the members.
fn add_member(members: &mut Map<String, Json>, f: Field) -> Result<(), NoMemory>
    ensures { OnOk result (members_view members.new.entries
        ≡ put f.name (data_of f.value) (members_view members.old.entries)) }
{
    let Field { name, value } = f;
    members.insert(name.into_string(), data_of(value))?;
    Ok(())
}

/// The object of the fields, in byte order of their names.
fn object_of(alloc: Global, fields: Fields) -> Result<Json, NoMemory>
    ensures { IfOk result (λ v. view v ≡ object (with_members no_members fields)) }
{
    let mut members = Map::new(alloc);
    for f in fields.into_vec() {
        add_member(&mut members, f)?;
    }
    Ok(Json::Object(members))
}

/// The body of a message with these fields.
fn body_of(alloc: Global, fields: Fields) -> Result<Text, NoMemory>
    ensures { IfOk result (λ t. t ≡ body_of fields) }
{
    let value = object_of(alloc, fields)?;
    let text = value.to_string(alloc)?;
    Text::of_string(text)
}

/// The seconds of a delay.
fn delay_in(n: i64) -> Result<u64, Stop>
    ensures { Gives result (delay_in n) }
{
    if n < 0 {
        return Err(Stop::Passed(Limit::BadDelay));
    }
    let seconds = n.unsigned_abs();
    if seconds > MOST_DELAY {
        return Err(Stop::Passed(Limit::BadDelay));
    }
    Ok(seconds)
}

/// A copy of an address that isn't empty.
fn address(text: &Text) -> Result<Text, Stop>
    ensures { Gives result (address text.now) }
{
    if text.is_empty() {
        return Err(Stop::Passed(Limit::NoReplyAddress));
    }
    Ok(text.copy()?)
}

pub(crate) fn target_of(to: Destination) -> Target
    ensures { result ≡ target_of to }
{
    match to {
        Destination::Route => Target::Send,
        Destination::Local => Target::Local,
    }
}

/// The saga that sends.
fn from_saga(saga: &Option<Instance>) -> Result<Option<FromSaga>, NoMemory>
    ensures { IfOk result (λ f. f ≡ from_saga saga.now) }
{
    match saga {
        None => Ok(None),
        Some(i) => {
            let saga = i.saga.copy()?;
            let which = i.which.copy()?;
            Ok(Some(FromSaga { saga, which }))
        }
    }
}

impl State {
    /// One more intent, where there is room for it.
    fn add_intent(&mut self, intent: Intent) -> Result<(), Stop>
        ensures { Does result self.new (with_intent intent self.old) }
    {
        if self.intents.len() >= MOST_INTENTS {
            return Err(Stop::Passed(Limit::TooMany));
        }
        let Some(size) = self.size.checked_add(intent.body.len() as u64) else {
            return Err(Stop::Passed(Limit::TooLarge));
        };
        if size > MOST_BYTES {
            return Err(Stop::Passed(Limit::TooLarge));
        }
        self.intents.push(intent)?;
        self.size = size;
        Ok(())
    }
}

impl Scene {
    /// The values of the fields, in the order in which they are written.
    fn made(&self, alloc: Global, state: &State, args: &[Arg]) -> Result<Fields, Stop>
        ensures { Gives result (made (map arg args.now) (world_of self.now) state.now) }
    {
        let mut fields = Items::new(alloc);
        for a in args {
            let value = self.value(alloc, state, &a.value)?;
            let name = a.name.copy()?;
            fields.push(Field { name, value })?;
        }
        Ok(fields)
    }

    fn seconds_of(&self, alloc: Global, state: &State, e: &Expr) -> Result<u64, Stop>
        ensures { Gives result (seconds_of (tree.tree e.now) (world_of self.now) state.now) }
    {
        let n = self.whole_of(alloc, state, e)?;
        delay_in(n)
    }

    /// The seconds of a timeout, in a saga.
    pub(crate) fn timed(&self, alloc: Global, state: &State, e: &Expr) -> Result<u64, Stop>
        ensures { Gives result (timed (tree.tree e.now) (world_of self.now) state.now) }
    {
        match &state.saga {
            None => Err(Stop::Wrong),
            Some(_) => self.seconds_of(alloc, state, e),
        }
    }

    pub(crate) fn delay_of(
        &self,
        alloc: Global,
        state: &State,
        after: &Option<After>,
    ) -> Result<Option<u64>, Stop>
        ensures { Gives result
            (delay_of (option_map tree.after after.now) (world_of self.now) state.now) }
    {
        match after {
            None => Ok(None),
            Some(after) => Ok(Some(self.seconds_of(alloc, state, &after.delay)?)),
        }
    }

    /// To whom a reply goes.
    pub(crate) fn answered(&self, originator_at: Option<u32>, state: &State) -> Result<Target, Stop>
        ensures { Gives result (answered originator_at (world_of self.now) state.now) }
    {
        match originator_at {
            None => {
                let to = address(&self.reply_to)?;
                Ok(Target::Reply { to })
            }
            Some(_) => match &state.saga {
                None => Err(Stop::Wrong),
                Some(i) => {
                    let to = address(&i.originator)?;
                    let original = i.original.copy()?;
                    Ok(Target::Originator { to, original })
                }
            },
        }
    }

    /// Makes a message, and sends it there.
    pub(crate) fn send(
        &self,
        alloc: Global,
        state: &mut State,
        target: Target,
        delay: Option<u64>,
        make: &Make,
    ) -> Result<(), Stop>
        ensures { Does result state.new
            (sent target delay (tree.make make.now) (world_of self.now) state.old) }
    {
        let fields = self.made(alloc, state, make.args.as_slice())?;
        let name = type_text(alloc, &make.name)?;
        let body = body_of(alloc, fields)?;
        let from = from_saga(&state.saga)?;
        state.add_intent(Intent {
            target,
            delay,
            name,
            body,
            from,
        })
    }
}

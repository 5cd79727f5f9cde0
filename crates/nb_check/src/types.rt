//! What a script declares: messages and sagas, with the kinds of their fields.
ghost use Rattle.std.specs.Prelude.{◌≡◌, ◌++◌, map, IfOk, OnOk};
ghost use Rattle.nb_script.specs.Tree as tree;
ghost use Rattle.nb_script.specs.Tree.{script};
ghost use Rattle.nb_check.specs.Declarations as spec;
ghost use Rattle.nb_check.specs.Declarations.{type_text, field_of, declared_all, default_of, literal_value, since_of, first_value, state_field, state_fields, revision_of, saga_type, message_of, saga_of};

use nb_base::{Copied, Items, Names, NoMemory, Text, Value};
use nb_script::expr::TypeName;
use nb_script::item::{
    Answer, Field, FieldKind, Item, Literal, MessageField, Part, Revision, Saga, SagaField, Since,
};
use std::alloc::Global;

/// A field of a message, or the correlation property of a saga.
#[derive(Debug, Drop)]
pub struct Declared {
    pub name: Text,
    pub kind: FieldKind,
}

impl Copied for Declared {
    fn copy(&self) -> Result<Declared, NoMemory> {
        let name = self.name.copy()?;
        Ok(Declared {
            name,
            kind: self.kind,
        })
    }
}

/// A declared message.
#[derive(Debug, Drop)]
pub struct MessageType {
    pub name: Text,
    pub fields: Items<Declared>,
}

impl Copied for MessageType {
    fn copy(&self) -> Result<MessageType, NoMemory> {
        let name = self.name.copy()?;
        let fields = self.fields.copy()?;
        Ok(MessageType { name, fields })
    }
}

/// A field of a saga beside its correlation property.
#[derive(Debug, Drop)]
pub struct StateField {
    pub name: Text,
    pub kind: FieldKind,
    /// The revision from which sagas have it.
    pub since: i64,
    /// Its value in a new saga, and in one that was stored before the field was there.
    pub first: Value,
}

impl Copied for StateField {
    fn copy(&self) -> Result<StateField, NoMemory> {
        let name = self.name.copy()?;
        let first = self.first.copy()?;
        Ok(StateField {
            name,
            kind: self.kind,
            since: self.since,
            first,
        })
    }
}

/// A declared saga.
#[derive(Debug, Drop)]
pub struct SagaType {
    pub name: Text,
    pub revision: i64,
    /// The property whose value no two sagas of this type share.
    pub correlation: Declared,
    pub fields: Items<StateField>,
    /// The messages of its timeouts.
    pub timeouts: Names,
}

impl Copied for SagaType {
    fn copy(&self) -> Result<SagaType, NoMemory> {
        let name = self.name.copy()?;
        let correlation = self.correlation.copy()?;
        let fields = self.fields.copy()?;
        let timeouts = self.timeouts.copy()?;
        Ok(SagaType {
            name,
            revision: self.revision,
            correlation,
            fields,
            timeouts,
        })
    }
}

/// The text of a message's type.
pub(crate) fn type_text(alloc: Global, name: &TypeName) -> Result<Text, NoMemory>
    ensures { IfOk result (λ t. t ≡ type_text name.now) }
{
    let mut text = String::from_str(alloc, name.name.as_str())?;
    for part in name.others.as_slice() {
        text.push('.')?;
        text.push_str(part.name.as_str())?;
    }
    Text::of_string(text)
}

pub(crate) fn field_of(field: &Field) -> Result<Declared, NoMemory>
    ensures { IfOk result (λ d. d ≡ field_of field.now) }
{
    let name = field.name.copy()?;
    Ok(Declared {
        name,
        kind: field.kind,
    })
}

fn declared_all(alloc: Global, fields: &[MessageField]) -> Result<Items<Declared>, NoMemory>
    ensures { IfOk result (λ ds. ds ≡ declared_all fields.now) }
{
    let mut all = Items::new(alloc);
    for f in fields {
        all.push(field_of(&f.field)?)?;
    }
    Ok(all)
}

/// The value of a field where nothing else is said.
pub(crate) fn default_of(alloc: Global, kind: FieldKind) -> Result<Value, NoMemory>
    ensures { IfOk result (λ v. v ≡ default_of kind) }
{
    match kind {
        FieldKind::Int => Ok(Value::Int(0)),
        FieldKind::Text => Ok(Value::Text(Text::new(alloc, "")?)),
        FieldKind::Bool => Ok(Value::Bool(false)),
    }
}

fn literal_value(literal: &Literal) -> Result<Value, NoMemory>
    ensures { IfOk result (λ v. v ≡ literal_value literal.now) }
{
    match literal {
        Literal::Number {
            minus_at: None,
            number,
            ..
        } => Ok(Value::Int(*number)),
        // The number of a script isn't negative, so it has a negative.
        Literal::Number {
            minus_at: Some(_),
            number,
            ..
        } => Ok(Value::Int(number.checked_neg().ok_or(NoMemory)?)),
        Literal::Quoted { text, .. } => Ok(Value::Text(text.copy()?)),
        Literal::Truth { value, .. } => Ok(Value::Bool(*value)),
    }
}

fn since_of(since: &Option<Since>) -> i64
    ensures { result ≡ since_of since.now }
{
    match since {
        None => 1,
        Some(since) => since.revision,
    }
}

/// The value of a field in a new saga, and in one that was stored before the field was there.
pub fn first_value(alloc: Global, kind: FieldKind, since: &Option<Since>) -> Result<Value, NoMemory>
    ensures { IfOk result (λ v. v ≡ first_value kind since.now) }
{
    match since {
        None => default_of(alloc, kind),
        Some(since) => literal_value(&since.literal),
    }
}

fn state_field(alloc: Global, field: &SagaField) -> Result<StateField, NoMemory>
    ensures { IfOk result (λ f. f ≡ state_field field.now) }
{
    let name = field.field.name.copy()?;
    let first = first_value(alloc, field.field.kind, &field.since)?;
    Ok(StateField {
        name,
        kind: field.field.kind,
        since: since_of(&field.since),
        first,
    })
}

fn state_fields(alloc: Global, fields: &[SagaField]) -> Result<Items<StateField>, NoMemory>
    ensures { IfOk result (λ fs. fs ≡ state_fields fields.now) }
{
    let mut all = Items::new(alloc);
    for f in fields {
        all.push(state_field(alloc, f)?)?;
    }
    Ok(all)
}

pub(crate) fn revision_of(revision: &Option<Revision>) -> i64
    ensures { result ≡ revision_of revision.now }
{
    match revision {
        None => 1,
        Some(revision) => revision.number,
    }
}

/// Adds the message of a part, if it is a timeout.
fn add_timeout(alloc: Global, part: &Part, names: &mut Names) -> Result<(), NoMemory>
    ensures { OnOk result (names.new ≡ names.old ++ spec.timeout_of (tree.part part.now)) }
{
    if let Part::ById {
        answer: Answer::Timeout,
        name,
        ..
    } = part
    {
        names.push(type_text(alloc, name)?)?;
    }
    Ok(())
}

pub(crate) fn timeouts(alloc: Global, parts: &[Part]) -> Result<Names, NoMemory>
    ensures { IfOk result (λ ns. ns ≡ spec.timeouts (map tree.part parts.now)) }
{
    let mut names = Items::new(alloc);
    for p in parts {
        add_timeout(alloc, p, &mut names)?;
    }
    Ok(names)
}

pub(crate) fn saga_type(alloc: Global, saga: &Saga) -> Result<SagaType, NoMemory>
    ensures { IfOk result (λ s. s ≡ saga_type (tree.saga saga.now)) }
{
    let name = saga.name.copy()?;
    let correlation = field_of(&saga.correlation)?;
    let fields = state_fields(alloc, saga.fields.as_slice())?;
    let timeouts = timeouts(alloc, saga.parts.as_slice())?;
    Ok(SagaType {
        name,
        revision: revision_of(&saga.revision),
        correlation,
        fields,
        timeouts,
    })
}

fn add_message(alloc: Global, item: &Item, all: &mut Items<MessageType>) -> Result<(), NoMemory>
    ensures { OnOk result (all.new ≡ all.old ++ message_of (tree.item item.now)) }
{
    if let Item::Message { name, fields, .. } = item {
        let name = type_text(alloc, name)?;
        let fields = declared_all(alloc, fields.as_slice())?;
        all.push(MessageType { name, fields })?;
    }
    Ok(())
}

/// The declared messages, in the order of the script.
pub(crate) fn messages(alloc: Global, items: &[Item]) -> Result<Items<MessageType>, NoMemory>
    ensures { IfOk result (λ ms. ms ≡ spec.messages (script items.now)) }
{
    let mut all = Items::new(alloc);
    for i in items {
        add_message(alloc, i, &mut all)?;
    }
    Ok(all)
}

fn add_saga(alloc: Global, item: &Item, all: &mut Items<SagaType>) -> Result<(), NoMemory>
    ensures { OnOk result (all.new ≡ all.old ++ saga_of (tree.item item.now)) }
{
    if let Item::Saga(saga) = item {
        all.push(saga_type(alloc, saga)?)?;
    }
    Ok(())
}

/// The declared sagas, in the order of the script.
pub(crate) fn sagas(alloc: Global, items: &[Item]) -> Result<Items<SagaType>, NoMemory>
    ensures { IfOk result (λ ss. ss ≡ spec.sagas (script items.now)) }
{
    let mut all = Items::new(alloc);
    for i in items {
        add_saga(alloc, i, &mut all)?;
    }
    Ok(all)
}

/// The names of messages.
pub(crate) fn names_of(alloc: Global, messages: &[MessageType]) -> Result<Names, NoMemory>
    ensures { IfOk result (λ ns. ns ≡ spec.names_of messages.now) }
{
    let mut names = Items::new(alloc);
    for m in messages {
        names.push(m.name.copy()?)?;
    }
    Ok(names)
}

//! What is in sight of an expression, and which kinds are wanted where.
ghost use Rattle.std.specs.Prelude.{◌≡◌, ◌++◌, Some, OnOk, option_map};
ghost use Rattle.nb_check.specs.Kinds as spec;
ghost use Rattle.nb_check.specs.Kinds.{is_truth, is_text, taken_by, made_by, prefix_kind, constant_kind, call_kind};

use crate::breach::{Breaches, CheckKind, want_true};
use crate::types::Declared;
use nb_base::{Copied, Items, Names, NoMemory, Text};
use nb_script::expr::{Binary, Constant, Function, Unary};
use nb_script::item::FieldKind;

/// A name that a `let` made. The kind of its value isn't known where the value names what isn't declared.
#[derive(Debug, Drop)]
pub struct Local {
    pub name: Text,
    pub kind: Option<FieldKind>,
}

impl Copied for Local {
    fn copy(&self) -> Result<Local, NoMemory> {
        let name = self.name.copy()?;
        Ok(Local {
            name,
            kind: self.kind,
        })
    }
}

/// What a part of a saga sees of it, as contracts see it.
#[derive(Debug, Drop)]
pub struct SagaSight {
    /// The name of the correlation property.
    pub correlation: Text,
    /// The correlation property, and then the other fields.
    pub fields: Items<Declared>,
    /// The messages of its timeouts.
    pub timeouts: Names,
}

impl Copied for SagaSight {
    fn copy(&self) -> Result<SagaSight, NoMemory> {
        let correlation = self.correlation.copy()?;
        let fields = self.fields.copy()?;
        let timeouts = self.timeouts.copy()?;
        Ok(SagaSight {
            correlation,
            fields,
            timeouts,
        })
    }
}

/// What is in sight of an expression, as contracts see it.
#[derive(Debug, Drop)]
pub struct Sight {
    /// The message's fields, where it is declared.
    pub message: Option<Items<Declared>>,
    /// The saga, in a part of one.
    pub saga: Option<SagaSight>,
    pub names: Items<Local>,
}

impl Copied for Sight {
    fn copy(&self) -> Result<Sight, NoMemory> {
        let message = match &self.message {
            Some(fields) => Some(fields.copy()?),
            None => None,
        };
        let saga = match &self.saga {
            Some(saga) => Some(saga.copy()?),
            None => None,
        };
        let names = self.names.copy()?;
        Ok(Sight {
            message,
            saga,
            names,
        })
    }
}

/// The place of an expression's first token, and its kind, where that is known.
#[derive(Clone, Copy, Debug, PartialEq, Eq)]
pub struct Judgement {
    pub at: u32,
    pub kind: Option<FieldKind>,
}

/// What an operator takes.
#[derive(Clone, Copy, Debug, PartialEq, Eq)]
pub enum Taken {
    /// Two values of this kind.
    Two(FieldKind),
    /// Two of one kind.
    Same,
    /// Two numbers or two texts.
    Ordered,
}

pub(crate) fn is_kind(j: FieldKind, k: FieldKind) -> bool
    ensures { result ≡ spec.is_kind j k }
{
    match (j, k) {
        (FieldKind::Int, FieldKind::Int) => true,
        (FieldKind::Text, FieldKind::Text) => true,
        (FieldKind::Bool, FieldKind::Bool) => true,
        _ => false,
    }
}

/// A kind that isn't known is taken everywhere.
pub(crate) fn want_kind(
    breaches: &mut Breaches,
    k: FieldKind,
    kind: Option<FieldKind>,
    at: u32,
) -> Result<(), NoMemory>
    ensures { OnOk result (breaches.new ≡ breaches.old ++ spec.unless_kind k kind at) }
{
    match kind {
        None => Ok(()),
        Some(j) => want_true(breaches, is_kind(j, k), at, CheckKind::WrongType),
    }
}

pub(crate) fn want(breaches: &mut Breaches, k: FieldKind, e: Judgement) -> Result<(), NoMemory>
    ensures { OnOk result (breaches.new ≡ breaches.old ++ spec.wants k e) }
{
    want_kind(breaches, k, e.kind, e.at)
}

fn want_both(
    breaches: &mut Breaches,
    k: FieldKind,
    a: Judgement,
    b: Judgement,
) -> Result<(), NoMemory>
    ensures { OnOk result (breaches.new ≡ breaches.old ++ spec.both k a b) }
{
    want(breaches, k, a)?;
    want(breaches, k, b)?;
    Ok(())
}

fn want_same(breaches: &mut Breaches, kind: Option<FieldKind>, b: Judgement) -> Result<(), NoMemory>
    ensures { OnOk result (breaches.new ≡ breaches.old ++ spec.unless_same kind b) }
{
    match kind {
        None => Ok(()),
        Some(k) => want(breaches, k, b),
    }
}

fn is_truth(kind: Option<FieldKind>) -> bool
    ensures { result ≡ is_truth kind }
{
    match kind {
        None => false,
        Some(k) => is_kind(k, FieldKind::Bool),
    }
}

fn is_text(kind: Option<FieldKind>) -> bool
    ensures { result ≡ is_text kind }
{
    match kind {
        None => false,
        Some(k) => is_kind(k, FieldKind::Text),
    }
}

fn refuse_truth(breaches: &mut Breaches, e: Judgement) -> Result<(), NoMemory>
    ensures { OnOk result (breaches.new ≡ breaches.old ++ spec.unless_truth e) }
{
    want_true(breaches, !is_truth(e.kind), e.at, CheckKind::WrongType)
}

pub(crate) fn refuse_text(breaches: &mut Breaches, e: Judgement) -> Result<(), NoMemory>
    ensures { OnOk result (breaches.new ≡ breaches.old ++ spec.unless_text e) }
{
    want_true(breaches, !is_text(e.kind), e.at, CheckKind::WrongType)
}

fn want_ordered(breaches: &mut Breaches, a: Judgement, b: Judgement) -> Result<(), NoMemory>
    ensures { OnOk result (breaches.new ≡ breaches.old ++ spec.ordered a b) }
{
    if is_truth(a.kind) || is_truth(b.kind) {
        refuse_truth(breaches, a)?;
        refuse_truth(breaches, b)?;
        Ok(())
    } else {
        want_same(breaches, a.kind, b)
    }
}

pub(crate) fn want_operands(
    breaches: &mut Breaches,
    taken: Taken,
    a: Judgement,
    b: Judgement,
) -> Result<(), NoMemory>
    ensures { OnOk result (breaches.new ≡ breaches.old ++ spec.operands taken a b) }
{
    match taken {
        Taken::Two(k) => want_both(breaches, k, a, b),
        Taken::Same => want_same(breaches, a.kind, b),
        Taken::Ordered => want_ordered(breaches, a, b),
    }
}

pub(crate) fn taken_by(op: Binary) -> Taken
    ensures { result ≡ taken_by op }
{
    match op {
        Binary::Times | Binary::Plus | Binary::Minus => Taken::Two(FieldKind::Int),
        Binary::Join => Taken::Two(FieldKind::Text),
        Binary::Equal | Binary::Unequal => Taken::Same,
        Binary::Less | Binary::LessOrEqual | Binary::Greater | Binary::GreaterOrEqual => {
            Taken::Ordered
        }
        Binary::And | Binary::Or => Taken::Two(FieldKind::Bool),
    }
}

pub(crate) fn made_by(op: Binary) -> FieldKind
    ensures { result ≡ made_by op }
{
    match op {
        Binary::Times | Binary::Plus | Binary::Minus => FieldKind::Int,
        Binary::Join => FieldKind::Text,
        Binary::Equal
        | Binary::Unequal
        | Binary::Less
        | Binary::LessOrEqual
        | Binary::Greater
        | Binary::GreaterOrEqual
        | Binary::And
        | Binary::Or => FieldKind::Bool,
    }
}

/// The kind that an operator in front takes and makes.
pub(crate) fn prefix_kind(op: Unary) -> FieldKind
    ensures { result ≡ prefix_kind op }
{
    match op {
        Unary::Negative => FieldKind::Int,
        Unary::Not => FieldKind::Bool,
    }
}

pub(crate) fn constant_kind(constant: Constant) -> FieldKind
    ensures { result ≡ constant_kind constant }
{
    match constant {
        Constant::True | Constant::False => FieldKind::Bool,
        Constant::Retries | Constant::Now | Constant::Sent => FieldKind::Int,
        Constant::Id => FieldKind::Text,
    }
}

pub(crate) fn call_kind(function: Function) -> FieldKind
    ensures { result ≡ call_kind function }
{
    match function {
        Function::Row | Function::Len => FieldKind::Int,
        Function::Has => FieldKind::Bool,
        Function::Text => FieldKind::Text,
    }
}

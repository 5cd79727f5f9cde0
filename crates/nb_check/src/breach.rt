//! Rules that a script breaks, and the first of them.
ghost use Rattle.std.specs.Prelude.{◌≡◌, ◌++◌, true, None, IfOk, OnOk};
ghost use Rattle.nb_check.specs.Breaches as spec;
ghost use Rattle.nb_check.specs.Breaches.{again, twice, AllDiffer, rank, is_before, first_of};

use crate::tables::is_among;
use nb_base::{ByName, Copied, Items, NoMemory, Text};
use std::alloc::Global;
use thiserror::Error;

/// The rules, in the order in which they are reported at one place.
#[derive(Clone, Copy, Debug, Drop, PartialEq, Eq, Error)]
pub enum CheckKind {
    /// Each message is declared once.
    #[error("MessageTwice")]
    MessageTwice,
    /// Each saga is declared once.
    #[error("SagaTwice")]
    SagaTwice,
    /// The field names of a message, of a saga with its correlation property, and of a message that is made differ.
    #[error("FieldTwice")]
    FieldTwice,
    /// A correlation property is a number or a text.
    #[error("BadCorrelation")]
    BadCorrelation,
    /// A revision lies from 1 to 1000, and one since which a field is there from 2 to the saga's.
    #[error("BadRevision")]
    BadRevision,
    /// Each type names a declared message.
    #[error("UnknownMessage")]
    UnknownMessage,
    /// In a saga a message stands in at most one of start, find and reply, and in at most one timeout.
    #[error("PartTwice")]
    PartTwice,
    /// A field that is named exists.
    #[error("UnknownField")]
    UnknownField,
    /// A message that is made is given every field.
    #[error("FieldMissing")]
    FieldMissing,
    /// What speaks of a saga stands in a part of one.
    #[error("NoSaga")]
    NoSaga,
    /// The correlation property isn't set.
    #[error("SetsCorrelation")]
    SetsCorrelation,
    /// The message of a timeout statement has a timeout part in the saga.
    #[error("NoTimeoutPart")]
    NoTimeoutPart,
    /// A name that is made is new among those in sight.
    #[error("NameTwice")]
    NameTwice,
    /// A name that is used is in sight.
    #[error("UnknownName")]
    UnknownName,
    /// A row's name is built of what the message alone says.
    #[error("RowName")]
    RowName,
    /// Kinds agree.
    #[error("WrongType")]
    WrongType,
    /// There was no memory for the check.
    #[error("NoMemory")]
    NoMemory,
}

/// A rule that is broken, and the number of bytes before the token where it is.
#[derive(Clone, Copy, Debug, PartialEq, Eq)]
pub struct Breach {
    pub at: u32,
    pub rule: CheckKind,
}

/// A list of broken rules.
pub(crate) type Breaches = Items<Breach>;

/// A name with its place.
#[derive(Debug, Drop)]
pub struct Placed {
    pub name: Text,
    pub at: u32,
}

impl Copied for Placed {
    fn copy(&self) -> Result<Placed, NoMemory> {
        let name = self.name.copy()?;
        Ok(Placed { name, at: self.at })
    }
}

pub(crate) fn blame(breaches: &mut Breaches, at: u32, rule: CheckKind) -> Result<(), NoMemory>
    ensures { OnOk result (breaches.new ≡ breaches.old ++ spec.breach at rule) }
{
    breaches.push(Breach { at, rule })
}

pub(crate) fn want_true(
    breaches: &mut Breaches,
    holds: bool,
    at: u32,
    rule: CheckKind,
) -> Result<(), NoMemory>
    ensures { OnOk result (breaches.new ≡ breaches.old ++ spec.unless_true holds at rule) }
{
    if holds {
        Ok(())
    } else {
        blame(breaches, at, rule)
    }
}

fn want_others(
    breaches: &mut Breaches,
    rule: CheckKind,
    name: &Text,
    others: &[Placed],
) -> Result<(), NoMemory>
    ensures { OnOk result (breaches.new ≡ breaches.old ++ again rule name.now others.now) }
{
    for p in others {
        want_true(breaches, !(p.name == *name), p.at, rule)?;
    }
    Ok(())
}

/// Adds each two that have one name.
fn want_pairs(breaches: &mut Breaches, rule: CheckKind, names: &[Placed]) -> Result<(), NoMemory>
    ensures { OnOk result (breaches.new ≡ breaches.old ++ twice rule names.now) }
{
    let mut left = names;
    while let [p, others @ ..] = left {
        want_others(breaches, rule, &p.name, others)?;
        left = others;
    }
    Ok(())
}

/// Whether no name stands twice.
fn all_differ(alloc: Global, names: &[Placed]) -> Result<bool, NoMemory>
    ensures { IfOk result (λ b. b ≡ true → AllDiffer names.now) }
{
    let mut before = ByName::new(alloc);
    for p in names {
        if is_among(&before, &p.name) {
            return Ok(false);
        }
        let name = p.name.copy()?;
        before.insert(name, p.at)?;
    }
    Ok(true)
}

/// Adds each name that stands before too. Names that differ, as they mostly do, are not compared two by two.
pub(crate) fn want_distinct(
    alloc: Global,
    breaches: &mut Breaches,
    rule: CheckKind,
    names: &[Placed],
) -> Result<(), NoMemory>
    ensures { OnOk result (breaches.new ≡ breaches.old ++ twice rule names.now) }
{
    if all_differ(alloc, names)? {
        return Ok(());
    }
    want_pairs(breaches, rule, names)
}

fn rank(rule: CheckKind) -> u32
    ensures { result ≡ rank rule }
{
    match rule {
        CheckKind::MessageTwice => 0,
        CheckKind::SagaTwice => 1,
        CheckKind::FieldTwice => 2,
        CheckKind::BadCorrelation => 3,
        CheckKind::BadRevision => 4,
        CheckKind::UnknownMessage => 5,
        CheckKind::PartTwice => 6,
        CheckKind::UnknownField => 7,
        CheckKind::FieldMissing => 8,
        CheckKind::NoSaga => 9,
        CheckKind::SetsCorrelation => 10,
        CheckKind::NoTimeoutPart => 11,
        CheckKind::NameTwice => 12,
        CheckKind::UnknownName => 13,
        CheckKind::RowName => 14,
        CheckKind::WrongType => 15,
        CheckKind::NoMemory => 16,
    }
}

fn is_before(a: Breach, b: Breach) -> bool
    ensures { result ≡ is_before a b }
{
    a.at < b.at || (a.at == b.at && rank(a.rule) < rank(b.rule))
}

/// The breach that no other is before.
pub(crate) fn first_of(breaches: &[Breach]) -> Option<Breach>
    ensures { result ≡ first_of breaches.now }
{
    let mut best = None;
    for f in breaches {
        best = match best {
            None => Some(*f),
            Some(b) => Some(if is_before(*f, b) { *f } else { b }),
        };
    }
    best
}

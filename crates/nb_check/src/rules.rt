//! The rules that a script breaks.
ghost use Rattle.std.specs.Prelude.{◌≡◌, ◌++◌, ◌∷◌, map, IfOk, OnOk, Some, option_copied};
ghost use Rattle.nb_script.specs.Tree as tree;
ghost use Rattle.nb_script.specs.Tree.{block, script};
ghost use Rattle.nb_check.specs.Breaches.{twice};
ghost use Rattle.nb_check.specs.Declarations as declared;
ghost use Rattle.nb_check.specs.Statements.{unless_known};
ghost use Rattle.nb_check.specs.Rules as spec;

use crate::breach::{
    Breach, Breaches, CheckKind, Placed, blame, first_of, want_distinct, want_true,
};
use crate::scope::{SagaScope, Scope};
use crate::sight::{is_kind, want_kind};
use crate::tables::{FieldTable, MessageTable};
use crate::types::{Declared, field_of, revision_of, timeouts, type_text};
use nb_base::{Copied, Items, NoMemory, Text};
use nb_script::expr::TypeName;
use nb_script::item::{
    Answer, Field, FieldKind, Item, Literal, MessageField, Part, Revision, Saga, SagaField, Since,
};
use nb_script::stmt::Block;
use std::alloc::Global;

fn placed_type(alloc: Global, name: &TypeName) -> Result<Placed, NoMemory>
    ensures { IfOk result (λ p. p ≡ spec.placed_type name.now) }
{
    let text = type_text(alloc, name)?;
    Ok(Placed {
        name: text,
        at: name.at,
    })
}

fn placed_field(field: &Field) -> Result<Placed, NoMemory>
    ensures { IfOk result (λ p. p ≡ spec.placed_field field.now) }
{
    let name = field.name.copy()?;
    Ok(Placed { name, at: field.at })
}

fn place_message(alloc: Global, i: &Item, placed: &mut Items<Placed>) -> Result<(), NoMemory>
    ensures { OnOk result (placed.new ≡ placed.old ++ spec.placed_message (tree.item i.now)) }
{
    if let Item::Message { name, .. } = i {
        placed.push(placed_type(alloc, name)?)?;
    }
    Ok(())
}

fn placed_messages(alloc: Global, items: &[Item]) -> Result<Items<Placed>, NoMemory>
    ensures { IfOk result (λ ps. ps ≡ spec.placed_messages (script items.now)) }
{
    let mut placed = Items::new(alloc);
    for i in items {
        place_message(alloc, i, &mut placed)?;
    }
    Ok(placed)
}

fn place_saga(i: &Item, placed: &mut Items<Placed>) -> Result<(), NoMemory>
    ensures { OnOk result (placed.new ≡ placed.old ++ spec.placed_saga (tree.item i.now)) }
{
    if let Item::Saga(saga) = i {
        let name = saga.name.copy()?;
        placed.push(Placed {
            name,
            at: saga.name_at,
        })?;
    }
    Ok(())
}

fn placed_sagas(alloc: Global, items: &[Item]) -> Result<Items<Placed>, NoMemory>
    ensures { IfOk result (λ ps. ps ≡ spec.placed_sagas (script items.now)) }
{
    let mut placed = Items::new(alloc);
    for i in items {
        place_saga(i, &mut placed)?;
    }
    Ok(placed)
}

fn placed_fields(alloc: Global, fields: &[MessageField]) -> Result<Items<Placed>, NoMemory>
    ensures { IfOk result (λ ps. ps ≡ spec.placed_fields fields.now) }
{
    let mut placed = Items::new(alloc);
    for f in fields {
        placed.push(placed_field(&f.field)?)?;
    }
    Ok(placed)
}

/// The correlation property and the other fields of a saga.
fn placed_state(alloc: Global, saga: &Saga) -> Result<Items<Placed>, NoMemory>
    ensures { IfOk result (λ ps. ps
        ≡ spec.placed_field saga.now.correlation ∷ spec.placed_state saga.now.fields) }
{
    let mut placed = Items::new(alloc);
    placed.push(placed_field(&saga.correlation)?)?;
    for f in saga.fields.as_slice() {
        placed.push(placed_field(&f.field)?)?;
    }
    Ok(placed)
}

fn place_part(alloc: Global, part: &Part, placed: &mut Items<Placed>) -> Result<(), NoMemory>
    ensures { OnOk result (placed.new ≡ placed.old ++ spec.placed_part (tree.part part.now)) }
{
    match part {
        Part::ByField { name, .. } => {
            placed.push(placed_type(alloc, name)?)?;
            Ok(())
        }
        Part::ById {
            answer: Answer::Reply,
            name,
            ..
        } => {
            placed.push(placed_type(alloc, name)?)?;
            Ok(())
        }
        Part::ById {
            answer: Answer::Timeout,
            ..
        } => Ok(()),
    }
}

fn placed_parts(alloc: Global, parts: &[Part]) -> Result<Items<Placed>, NoMemory>
    ensures { IfOk result (λ ps. ps ≡ spec.placed_parts (map tree.part parts.now)) }
{
    let mut placed = Items::new(alloc);
    for p in parts {
        place_part(alloc, p, &mut placed)?;
    }
    Ok(placed)
}

fn place_timeout(alloc: Global, part: &Part, placed: &mut Items<Placed>) -> Result<(), NoMemory>
    ensures { OnOk result (placed.new ≡ placed.old ++ spec.placed_timeout (tree.part part.now)) }
{
    if let Part::ById {
        answer: Answer::Timeout,
        name,
        ..
    } = part
    {
        placed.push(placed_type(alloc, name)?)?;
    }
    Ok(())
}

fn placed_timeouts(alloc: Global, parts: &[Part]) -> Result<Items<Placed>, NoMemory>
    ensures { IfOk result (λ ps. ps ≡ spec.placed_timeouts (map tree.part parts.now)) }
{
    let mut placed = Items::new(alloc);
    for p in parts {
        place_timeout(alloc, p, &mut placed)?;
    }
    Ok(placed)
}

fn want_correlation(breaches: &mut Breaches, field: &Field) -> Result<(), NoMemory>
    ensures { OnOk result (breaches.new ≡ breaches.old ++ spec.correlation_faults field.now) }
{
    let holds = !is_kind(field.kind, FieldKind::Bool);
    want_true(breaches, holds, field.at, CheckKind::BadCorrelation)
}

fn lies_in(low: i64, high: i64, n: i64) -> bool
    ensures { result ≡ spec.lies_in low high n }
{
    low <= n && n <= high
}

fn want_revision(breaches: &mut Breaches, revision: &Option<Revision>) -> Result<(), NoMemory>
    ensures { OnOk result (breaches.new ≡ breaches.old ++ spec.revision_faults revision.now) }
{
    match revision {
        None => Ok(()),
        Some(r) => {
            let holds = lies_in(1, 1000, r.number);
            want_true(breaches, holds, r.number_at, CheckKind::BadRevision)
        }
    }
}

fn literal_kind(literal: &Literal) -> FieldKind
    ensures { result ≡ spec.literal_kind literal.now }
{
    match literal {
        Literal::Number { .. } => FieldKind::Int,
        Literal::Quoted { .. } => FieldKind::Text,
        Literal::Truth { .. } => FieldKind::Bool,
    }
}

/// The place of the first token.
fn literal_place(literal: &Literal) -> u32
    ensures { result ≡ spec.literal_place literal.now }
{
    match literal {
        Literal::Number {
            minus_at: Some(minus_at),
            ..
        } => *minus_at,
        Literal::Number {
            minus_at: None,
            at,
            ..
        } => *at,
        Literal::Quoted { at, .. } | Literal::Truth { at, .. } => *at,
    }
}

fn want_since(
    breaches: &mut Breaches,
    revision: i64,
    kind: FieldKind,
    since: &Option<Since>,
) -> Result<(), NoMemory>
    ensures { OnOk result (breaches.new
        ≡ breaches.old ++ spec.since_faults revision kind since.now) }
{
    match since {
        None => Ok(()),
        Some(since) => {
            let holds = lies_in(2, revision, since.revision);
            want_true(breaches, holds, since.number_at, CheckKind::BadRevision)?;
            let literal = &since.literal;
            want_kind(
                breaches,
                kind,
                Some(literal_kind(literal)),
                literal_place(literal),
            )?;
            Ok(())
        }
    }
}

fn want_state(breaches: &mut Breaches, revision: i64, fields: &[SagaField]) -> Result<(), NoMemory>
    ensures { OnOk result (breaches.new ≡ breaches.old ++ spec.state_faults revision fields.now) }
{
    for f in fields {
        want_since(breaches, revision, f.field.kind, &f.since)?;
    }
    Ok(())
}

fn saga_kinds(alloc: Global, saga: &Saga) -> Result<Items<Declared>, NoMemory>
    ensures { IfOk result (λ ds. ds
        ≡ declared.field_of saga.now.correlation ∷ spec.state_kinds saga.now.fields) }
{
    let mut kinds = Items::new(alloc);
    kinds.push(field_of(&saga.correlation)?)?;
    for f in saga.fields.as_slice() {
        kinds.push(field_of(&f.field)?)?;
    }
    Ok(kinds)
}

/// What a part of a saga sees of it.
fn saga_scope(alloc: Global, saga: &Saga) -> Result<SagaScope, NoMemory>
    ensures { IfOk result (λ s. s ≡ spec.saga_sight (tree.saga saga.now)) }
{
    let correlation = saga.correlation.name.copy()?;
    let fields = FieldTable::new(alloc, saga_kinds(alloc, saga)?)?;
    let timeouts = timeouts(alloc, saga.parts.as_slice())?;
    SagaScope::new(alloc, correlation, fields, timeouts)
}

fn want_message(
    breaches: &mut Breaches,
    fields: Option<&FieldTable>,
    at: u32,
) -> Result<(), NoMemory>
    ensures { OnOk result (breaches.new
        ≡ breaches.old ++ unless_known (option_copied fields.entry) at) }
{
    match fields {
        None => blame(breaches, at, CheckKind::UnknownMessage),
        Some(_) => Ok(()),
    }
}

/// Adds the rules that a block of a message of this type breaks.
fn want_block(
    alloc: Global,
    breaches: &mut Breaches,
    messages: &MessageTable,
    name: &TypeName,
    saga: Option<&SagaScope>,
    b: &Block,
) -> Result<(), NoMemory>
    ensures { OnOk result (breaches.new
        ≡ breaches.old
        ++ spec.block_faults messages.now name.now (option_copied saga.entry) (block b.now)) }
{
    let text = type_text(alloc, name)?;
    let fields = messages.fields_of(&text);
    want_message(breaches, fields, name.at)?;
    let mut scope = Scope::new(alloc, fields, saga);
    scope.follow_block(alloc, messages, b, breaches)?;
    Ok(())
}

fn want_found(
    breaches: &mut Breaches,
    kind: Option<FieldKind>,
    at: u32,
    correlation: FieldKind,
) -> Result<(), NoMemory>
    ensures { OnOk result (breaches.new ≡ breaches.old ++ spec.found_by kind at correlation) }
{
    match kind {
        None => blame(breaches, at, CheckKind::UnknownField),
        Some(k) => want_kind(breaches, correlation, Some(k), at),
    }
}

/// The property by which a saga is found has the kind of the correlation property.
fn want_by(
    breaches: &mut Breaches,
    fields: Option<&FieldTable>,
    field: &Text,
    at: u32,
    correlation: FieldKind,
) -> Result<(), NoMemory>
    ensures { OnOk result (breaches.new
        ≡ breaches.old
        ++ spec.by_faults (option_copied fields.entry) field.now at correlation) }
{
    match fields {
        None => Ok(()),
        Some(declared) => want_found(breaches, declared.kind_in(field), at, correlation),
    }
}

fn want_part(
    alloc: Global,
    breaches: &mut Breaches,
    messages: &MessageTable,
    saga: &SagaScope,
    correlation: FieldKind,
    part: &Part,
) -> Result<(), NoMemory>
    ensures { OnOk result (breaches.new
        ≡ breaches.old
        ++ spec.part_faults messages.now saga.now correlation (tree.part part.now)) }
{
    match part {
        Part::ByField {
            name,
            field_at,
            field,
            block,
            ..
        } => {
            let text = type_text(alloc, name)?;
            want_by(
                breaches,
                messages.fields_of(&text),
                field,
                *field_at,
                correlation,
            )?;
            want_block(alloc, breaches, messages, name, Some(saga), block)?;
            Ok(())
        }
        Part::ById { name, block, .. } => {
            want_block(alloc, breaches, messages, name, Some(saga), block)
        }
    }
}

fn want_parts(
    alloc: Global,
    breaches: &mut Breaches,
    messages: &MessageTable,
    saga: &Saga,
) -> Result<(), NoMemory>
    ensures { OnOk result (breaches.new
        ≡ breaches.old
        ++ spec.parts_faults messages.now
        (spec.saga_sight (tree.saga saga.now)) saga.now.correlation.kind
        (map tree.part saga.now.parts)) }
{
    let scope = saga_scope(alloc, saga)?;
    for p in saga.parts.as_slice() {
        want_part(alloc, breaches, messages, &scope, saga.correlation.kind, p)?;
    }
    Ok(())
}

/// Adds the rules that the fields and the revision of a saga break.
fn want_declared(alloc: Global, breaches: &mut Breaches, saga: &Saga) -> Result<(), NoMemory>
    ensures { OnOk result (breaches.new
        ≡ breaches.old ++ spec.declared_faults (tree.saga saga.now)) }
{
    let placed = placed_state(alloc, saga)?;
    want_distinct(alloc, breaches, CheckKind::FieldTwice, placed.as_slice())?;
    want_correlation(breaches, &saga.correlation)?;
    want_revision(breaches, &saga.revision)?;
    want_state(
        breaches,
        revision_of(&saga.revision),
        saga.fields.as_slice(),
    )?;
    Ok(())
}

fn want_saga(
    alloc: Global,
    breaches: &mut Breaches,
    messages: &MessageTable,
    saga: &Saga,
) -> Result<(), NoMemory>
    ensures { OnOk result (breaches.new
        ≡ breaches.old ++ spec.saga_faults messages.now (tree.saga saga.now)) }
{
    want_declared(alloc, breaches, saga)?;
    let parts = placed_parts(alloc, saga.parts.as_slice())?;
    want_distinct(alloc, breaches, CheckKind::PartTwice, parts.as_slice())?;
    let timeouts = placed_timeouts(alloc, saga.parts.as_slice())?;
    want_distinct(alloc, breaches, CheckKind::PartTwice, timeouts.as_slice())?;
    want_parts(alloc, breaches, messages, saga)?;
    Ok(())
}

fn want_item(
    alloc: Global,
    breaches: &mut Breaches,
    messages: &MessageTable,
    i: &Item,
) -> Result<(), NoMemory>
    ensures { OnOk result (breaches.new
        ≡ breaches.old ++ spec.item_faults messages.now (tree.item i.now)) }
{
    match i {
        Item::Message { fields, .. } => {
            let placed = placed_fields(alloc, fields.as_slice())?;
            want_distinct(alloc, breaches, CheckKind::FieldTwice, placed.as_slice())
        }
        Item::Handler { name, block, .. } => {
            want_block(alloc, breaches, messages, name, None, block)
        }
        Item::Saga(saga) => want_saga(alloc, breaches, messages, saga),
    }
}

fn want_items(
    alloc: Global,
    breaches: &mut Breaches,
    messages: &MessageTable,
    items: &[Item],
) -> Result<(), NoMemory>
    ensures { OnOk result (breaches.new
        ≡ breaches.old ++ spec.items_faults messages.now (script items.now)) }
{
    for i in items {
        want_item(alloc, breaches, messages, i)?;
    }
    Ok(())
}

/// Each rule that a script breaks, given the messages that it declares.
pub(crate) fn script_faults(
    alloc: Global,
    messages: &MessageTable,
    items: &[Item],
) -> Result<Breaches, NoMemory>
    requires { messages.now ≡ declared.messages (script items.now) }
    ensures { IfOk result (λ bs. bs ≡ spec.script_faults (script items.now)) }
{
    let mut breaches = Items::new(alloc);
    let placed = placed_messages(alloc, items)?;
    want_distinct(
        alloc,
        &mut breaches,
        CheckKind::MessageTwice,
        placed.as_slice(),
    )?;
    let placed = placed_sagas(alloc, items)?;
    want_distinct(
        alloc,
        &mut breaches,
        CheckKind::SagaTwice,
        placed.as_slice(),
    )?;
    want_items(alloc, &mut breaches, messages, items)?;
    Ok(breaches)
}

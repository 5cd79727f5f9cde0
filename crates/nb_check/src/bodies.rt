//! A message's body, read by the kinds of the fields that its type declares.
ghost use Rattle.serde_json.specs.View.{view};
ghost use Rattle.nb_check.specs.Bodies as spec;
ghost use Rattle.nb_check.specs.Bodies.{Decodes, member_value, field_in, fields_in, object_fields, json_of, without_mark};
ghost use Rattle.std.specs.Prelude.{◌≡◌, Some};
ghost use Rattle.serde_json.specs.Find.{get};

use crate::types::{Declared, default_of};
use nb_base::{Copied, Field, Fields, Items, NoMemory, Text, Value};
use nb_script::item::FieldKind;
use serde_json::Value as Json;
use std::alloc::Global;
use thiserror::Error;

/// Why a body gives no fields.
#[derive(Clone, Copy, Debug, Drop, PartialEq, Eq, Error)]
pub enum BodyFault {
    /// It is no JSON object, or a declared field has a member of another kind.
    #[error("undecodable")]
    Undecodable,
    #[error("no memory")]
    NoMemory,
}

impl From<NoMemory> for BodyFault {
    ghost use Rattle.std.specs.Prelude.{◌≡◌};
    ghost use Rattle.nb_check.specs.declared.bodies.BodyFault.TheVariants.{NoMemory};

    ghost from_gives = { λ _ e. e ≡ NoMemory };

    fn from(_refused: NoMemory) -> BodyFault {
        BodyFault::NoMemory
    }
}

/// The body without one byte order mark at its start.
fn without_mark(body: &[u8]) -> &[u8]
    ensures { result.now ≡ without_mark body.now }
{
    match body.strip_prefix(&[0xEF, 0xBB, 0xBF]) {
        Some(rest) => rest,
        None => body,
    }
}

/// A value of this kind.
fn given(alloc: Global, kind: FieldKind, value: &Json) -> Result<Value, BodyFault>
    ensures { Decodes result (spec.given kind (view value.now)) }
{
    match kind {
        FieldKind::Int => match value.as_i64() {
            Some(n) => Ok(Value::Int(n)),
            None => Err(BodyFault::Undecodable),
        },
        FieldKind::Text => match value.as_str() {
            Some(text) => Ok(Value::Text(Text::new(alloc, text)?)),
            None => Err(BodyFault::Undecodable),
        },
        FieldKind::Bool => match value.as_bool() {
            Some(b) => Ok(Value::Bool(b)),
            None => Err(BodyFault::Undecodable),
        },
    }
}

/// The value of a member, which is the default where it is absent or null.
fn member_value(alloc: Global, field: &Declared, object: &Json) -> Result<Value, BodyFault>
    ensures { Decodes result (member_value field.now.kind (get field.now.name (view object.now))) }
{
    match object.get(field.name.as_str()) {
        None => Ok(default_of(alloc, field.kind)?),
        Some(Json::Null) => Ok(default_of(alloc, field.kind)?),
        Some(value) => given(alloc, field.kind, value),
    }
}

fn field_in(alloc: Global, field: &Declared, object: &Json) -> Result<Field, BodyFault>
    ensures { Decodes result (field_in field.now (view object.now)) }
{
    let value = member_value(alloc, field, object)?;
    let name = field.name.copy()?;
    Ok(Field { name, value })
}

fn fields_in(alloc: Global, fields: &[Declared], object: &Json) -> Result<Fields, BodyFault>
    ensures { Decodes result (fields_in fields.now (view object.now)) }
{
    let mut found = Items::new(alloc);
    for f in fields {
        found.push(field_in(alloc, f, object)?)?;
    }
    Ok(found)
}

/// The value that the bytes are.
fn json_of(alloc: Global, bytes: &[u8]) -> Result<Json, BodyFault>
    ensures { spec.Reads result (json_of bytes.now) }
{
    match Json::from_slice(alloc, bytes) {
        Ok(value) => Ok(value),
        Err(e) if e.is_memory() => Err(BodyFault::NoMemory),
        Err(_) => Err(BodyFault::Undecodable),
    }
}

fn object_fields(alloc: Global, fields: &[Declared], value: &Json) -> Result<Fields, BodyFault>
    ensures { Decodes result (object_fields fields.now (Some (view value.now))) }
{
    if !value.is_object() {
        return Err(BodyFault::Undecodable);
    }
    fields_in(alloc, fields, value)
}

/// The declared fields, in order, of a body. One byte order mark at its start is skipped, a member that is absent or null
/// has 0, the empty text or false, and other members are ignored.
pub(crate) fn decoded(alloc: Global, fields: &[Declared], body: &Text) -> Result<Fields, BodyFault>
    ensures { Decodes result (spec.decoded fields.now body.now) }
{
    let value = json_of(alloc, without_mark(body.as_str().as_bytes()))?;
    object_fields(alloc, fields, &value)
}

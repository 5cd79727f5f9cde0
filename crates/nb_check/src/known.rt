//! What is known of a message before anything is read: its id and its fields, and by them the names of rows.
ghost use Rattle.std.specs.Prelude.{◌≡◌, IfOk, option_copied, option_and_then};
ghost use Rattle.nb_script.specs.Tree.{tree};
ghost use Rattle.nb_check.specs.Keys as spec;
ghost use Rattle.nb_check.specs.Keys.{value_in, text_in, shown, field_value, message_value, constant_text, call_text, is_join, static_text};

use nb_base::{Copied, Field, Fields, NoMemory, Text, Value};
use nb_script::expr::{Binary, Constant, Expr, Function, Holder};
use std::alloc::Global;

/// The id and the fields of a message.
#[derive(Debug, Drop)]
pub struct Known {
    pub id: Text,
    pub fields: Fields,
}

impl Copied for Known {
    fn copy(&self) -> Result<Known, NoMemory> {
        let id = self.id.copy()?;
        let fields = self.fields.copy()?;
        Ok(Known { id, fields })
    }
}

/// The value of the first field of this name.
pub(crate) fn value_in<'a>(name: &Text, fields: &'a [Field]) -> Option<&'a Value>
    ensures { option_copied result ≡ value_in name.now fields.now }
{
    for f in fields {
        if f.name == *name {
            return Some(&f.value);
        }
    }
    None
}

/// What `text(..)` makes of a number or a truth value.
fn shown(alloc: Global, value: &Value) -> Result<Option<Text>, NoMemory>
    ensures { IfOk result (λ t. t ≡ shown value.now) }
{
    match value {
        Value::Int(n) => {
            let text = format!(in alloc; "{n}")?;
            Ok(Some(Text::of_string(text)?))
        }
        Value::Text(_) => Ok(None),
        Value::Bool(true) => Ok(Some(Text::new(alloc, "true")?)),
        Value::Bool(false) => Ok(Some(Text::new(alloc, "false")?)),
    }
}

fn shown_if(alloc: Global, value: Option<&Value>) -> Result<Option<Text>, NoMemory>
    ensures { IfOk result (λ t. t ≡ option_and_then shown (option_copied value.entry)) }
{
    match value {
        Some(value) => shown(alloc, value),
        None => Ok(None),
    }
}

fn text_if(value: Option<&Value>) -> Result<Option<Text>, NoMemory>
    ensures { IfOk result (λ t. t ≡ option_and_then text_in (option_copied value.entry)) }
{
    match value {
        Some(Value::Text(text)) => Ok(Some(text.copy()?)),
        _ => Ok(None),
    }
}

fn joined(left: Option<Text>, right: Option<Text>) -> Result<Option<Text>, NoMemory>
    ensures { IfOk result (λ t. t ≡ spec.joined left right) }
{
    match (left, right) {
        (Some(left), Some(right)) => {
            let mut text = left.into_string();
            text.push_str(right.as_str())?;
            Ok(Some(Text::of_string(text)?))
        }
        _ => Ok(None),
    }
}

pub(crate) fn is_join(op: Binary) -> bool
    ensures { result ≡ is_join op }
{
    match op {
        Binary::Join => true,
        _ => false,
    }
}

impl Known {
    fn field_value(&self, holder: Holder, name: &Text) -> Option<&Value>
        ensures { option_copied result ≡ field_value holder name.now self.now }
    {
        match holder {
            Holder::Message => value_in(name, self.fields.as_slice()),
            Holder::Saga => None,
        }
    }

    /// The value of an expression that is a field of the message, in parentheses or not.
    fn message_value(&self, e: &Expr) -> Option<&Value>
        ensures { option_copied result ≡ message_value (tree e.now) self.now }
    {
        match e {
            Expr::Field { holder, name, .. } => self.field_value(*holder, name),
            Expr::Paren { inner, .. } => self.message_value(inner.get()),
            _ => None,
        }
    }

    fn constant_text(&self, constant: Constant) -> Result<Option<Text>, NoMemory>
        ensures { IfOk result (λ t. t ≡ constant_text constant self.now) }
    {
        match constant {
            Constant::Id => Ok(Some(self.id.copy()?)),
            _ => Ok(None),
        }
    }

    fn call_text(
        &self,
        alloc: Global,
        function: Function,
        e: &Expr,
    ) -> Result<Option<Text>, NoMemory>
        ensures { IfOk result (λ t. t ≡ call_text function (message_value (tree e.now) self.now)) }
    {
        match function {
            Function::Text => shown_if(alloc, self.message_value(e)),
            _ => Ok(None),
        }
    }

    /// What an expression that may name a row says.
    pub(crate) fn static_text(&self, alloc: Global, e: &Expr) -> Result<Option<Text>, NoMemory>
        ensures { IfOk result (λ t. t ≡ static_text (tree e.now) self.now) }
    {
        match e {
            Expr::Quoted { text, .. } => Ok(Some(text.copy()?)),
            Expr::Constant { constant, .. } => self.constant_text(*constant),
            Expr::Field { holder, name, .. } => text_if(self.field_value(*holder, name)),
            Expr::Call {
                function,
                argument,
                ..
            } => self.call_text(alloc, *function, argument.get()),
            Expr::Paren { inner, .. } => self.static_text(alloc, inner.get()),
            Expr::Infix {
                left,
                op,
                right,
                ..
            } => {
                if is_join(*op) {
                    let left = self.static_text(alloc, left.get())?;
                    let right = self.static_text(alloc, right.get())?;
                    joined(left, right)
                } else {
                    Ok(None)
                }
            }
            _ => Ok(None),
        }
    }
}

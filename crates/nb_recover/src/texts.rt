//! Values and keys as text.
ghost use Rattle.std.specs.Prelude.{◌≡◌, string_bytes, IfOk};
ghost use Rattle.json.specs.Print.{quoted};
ghost use Rattle.nb_recover.specs.Fails.{value_text, key_text, conflict_text};

use nb_base::{Key, NoMemory, Text, Value};
use std::alloc::Global;

/// A text as JSON text.
pub fn json_text(alloc: Global, text: &Text) -> Result<String, NoMemory>
    ensures { IfOk result (λ s. string_bytes s ≡ quoted text.now) }
{
    let copy = String::from_str(alloc, text.as_str())?;
    let value = serde_json::Value::String(copy);
    Ok(value.to_string(alloc)?)
}

/// A number in decimal, a text as JSON text, and `true` or `false`.
pub fn value_text(alloc: Global, value: &Value) -> Result<String, NoMemory>
    ensures { IfOk result (λ s. string_bytes s ≡ value_text value.now) }
{
    match value {
        Value::Int(n) => Ok(format!(in alloc; "{n}")?),
        Value::Text(text) => json_text(alloc, text),
        Value::Bool(true) => Ok(String::from_str(alloc, "true")?),
        Value::Bool(false) => Ok(String::from_str(alloc, "false")?),
    }
}

/// A saga with its correlation value or its id, or a row with its name.
pub fn key_text(alloc: Global, key: &Key) -> Result<String, NoMemory>
    ensures { IfOk result (λ s. string_bytes s ≡ key_text key.now) }
{
    match key {
        Key::ByCorr { saga, corr } => {
            let saga = saga.as_str();
            let corr = value_text(alloc, corr)?;
            Ok(format!(in alloc; "saga {saga} {corr}")?)
        }
        Key::ById { saga, id } => {
            let saga = saga.as_str();
            let id = json_text(alloc, id)?;
            Ok(format!(in alloc; "saga {saga} id {id}")?)
        }
        Key::Row { name } => {
            let name = json_text(alloc, name)?;
            Ok(format!(in alloc; "row {name}")?)
        }
    }
}

/// What was read at a key, and what stands there.
pub fn conflict_text(alloc: Global, key: &Key, seen: u64, now: u64) -> Result<Text, NoMemory>
    ensures { IfOk result (λ t. t ≡ conflict_text key.now seen now) }
{
    let key = key_text(alloc, key)?;
    let text = format!(in alloc; "{key} was read at version {seen} and stands at version {now}")?;
    Text::of_string(text)
}

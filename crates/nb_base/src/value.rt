//! Values of the script, the names under which rows are kept, and lists of them.

use crate::items::{Copied, Items};
use crate::no_memory::NoMemory;
use crate::text::Text;

/// A list of texts.
pub type Names = Items<Text>;

/// A list of numbers.
pub type Numbers = Items<u64>;

/// A number, a text or a truth value, compared in this order, and then by value, texts by their bytes.
#[derive(Debug, Drop, PartialEq, Eq, PartialOrd, Ord)]
pub enum Value {
    Int(i64),
    Text(Text),
    Bool(bool),
}

impl Copied for Value {
    fn copy(&self) -> Result<Value, NoMemory> {
        match self {
            Value::Int(n) => Ok(Value::Int(*n)),
            Value::Text(text) => Ok(Value::Text(text.copy()?)),
            Value::Bool(b) => Ok(Value::Bool(*b)),
        }
    }
}

/// A name with its value.
#[derive(Debug, Drop, PartialEq, Eq)]
pub struct Field {
    pub name: Text,
    pub value: Value,
}

/// A list of fields.
pub type Fields = Items<Field>;

impl Copied for Field {
    fn copy(&self) -> Result<Field, NoMemory> {
        let name = self.name.copy()?;
        let value = self.value.copy()?;
        Ok(Field { name, value })
    }
}

/// What a message reads: the saga with a correlation value, the saga with an id, or the row with a name. Keys are
/// compared in this order, and then by their fields.
#[derive(Debug, Drop, PartialEq, Eq, PartialOrd, Ord)]
pub enum Key {
    ByCorr { saga: Text, corr: Value },
    ById { saga: Text, id: Text },
    Row { name: Text },
}

/// A list of keys.
pub type Keys = Items<Key>;

impl Copied for Key {
    fn copy(&self) -> Result<Key, NoMemory> {
        match self {
            Key::ByCorr { saga, corr } => Ok(Key::ByCorr {
                saga: saga.copy()?,
                corr: corr.copy()?,
            }),
            Key::ById { saga, id } => Ok(Key::ById {
                saga: saga.copy()?,
                id: id.copy()?,
            }),
            Key::Row { name } => Ok(Key::Row { name: name.copy()? }),
        }
    }
}

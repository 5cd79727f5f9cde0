//! The place of a saga: its type, and the value of its correlation property.

use crate::items::Copied;
use crate::no_memory::NoMemory;
use crate::text::Text;
use crate::value::Value;

/// The place of a saga, compared by the type's bytes, and then by the value.
#[derive(Debug, Drop, PartialEq, Eq, PartialOrd, Ord)]
pub struct SagaKey {
    /// The saga's type.
    pub saga: Text,
    /// The value of its correlation property.
    pub corr: Value,
}

impl Copied for SagaKey {
    fn copy(&self) -> Result<SagaKey, NoMemory> {
        let saga = self.saga.copy()?;
        let corr = self.corr.copy()?;
        Ok(SagaKey { saga, corr })
    }
}

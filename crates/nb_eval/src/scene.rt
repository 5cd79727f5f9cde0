//! Where a message is handled, and what was done so far.

use nb_base::{Field, Fields, Intents, Moment, Reads, SagaRef, Text, Value, Writes};
use sqlite_items::Items as Rows;

/// What doesn't change while a message is handled.
#[derive(Debug, Drop)]
pub struct Scene {
    /// The fields of the message's body.
    pub fields: Fields,
    /// The message's id.
    pub id: Text,
    /// The id of the saga that the headers name, or the empty text.
    pub saga_id: Text,
    /// The reply address, or the empty text.
    pub reply_to: Text,
    /// How often the message was tried again after a delay.
    pub round: u32,
    pub moment: Moment,
    /// When the message was sent, where that can be read.
    pub sent: Option<Moment>,
    /// What was read of the tables.
    pub reads: Reads,
}

/// The saga on which a block works.
#[derive(Debug, Drop)]
pub struct Instance {
    /// The saga's type.
    pub saga: Text,
    /// The name of the correlation property.
    pub property: Text,
    /// The declared revision.
    pub revision: u32,
    pub which: SagaRef,
    pub corr: Value,
    pub originator: Text,
    pub original: Text,
    /// The fields beside the correlation property.
    pub fields: Rows<Field>,
    pub completed: bool,
}

/// A row that was stored to, or erased where there is no value.
#[derive(Debug, Drop)]
pub struct Touched {
    pub name: Text,
    pub value: Option<i64>,
}

/// What was done so far, and the names in sight.
#[derive(Debug, Drop)]
pub struct State {
    /// The saga, in a part of one.
    pub saga: Option<Instance>,
    /// The names that `let` made.
    pub names: Rows<Field>,
    /// The rows that were stored to or erased, each once.
    pub touched: Rows<Touched>,
    /// The changes of sagas.
    pub writes: Writes,
    pub intents: Intents,
    /// The bytes of the bodies of the intents.
    pub size: u64,
}

//! The trees of messages, handlers and sagas.

use crate::expr::TypeName;
use crate::stmt::Block;
use nb_base::Text;
use sqlite_items::Items;

/// The kind of a field's values.
#[derive(Clone, Copy, Debug, PartialEq, Eq)]
pub enum FieldKind {
    Int,
    Text,
    Bool,
}

/// `name: kind`
#[derive(Debug, Drop)]
pub struct Field {
    pub at: u32,
    pub name: Text,
    pub colon_at: u32,
    pub kind_at: u32,
    pub kind: FieldKind,
}

/// A message's field, and a comma behind it. Only the last one may be without.
#[derive(Debug, Drop)]
pub struct MessageField {
    pub field: Field,
    pub comma_at: Option<u32>,
}

/// The value of a field in a new saga, and in the rows that were stored before the field was there.
#[derive(Debug, Drop)]
pub enum Literal {
    /// With a minus in front, or without. The number isn't negative.
    Number {
        minus_at: Option<u32>,
        at: u32,
        number: i64,
    },
    Quoted {
        at: u32,
        text: Text,
    },
    Truth {
        at: u32,
        value: bool,
    },
}

/// `since revision = literal`
#[derive(Debug, Drop)]
pub struct Since {
    pub at: u32,
    pub number_at: u32,
    pub revision: i64,
    pub equals_at: u32,
    pub literal: Literal,
}

/// A saga's field, and a comma behind it. Only the last one may be without.
#[derive(Debug, Drop)]
pub struct SagaField {
    pub field: Field,
    /// None: since revision 1.
    pub since: Option<Since>,
    pub comma_at: Option<u32>,
}

/// `revision number`
#[derive(Debug, Drop)]
pub struct Revision {
    pub at: u32,
    pub number_at: u32,
    pub number: i64,
}

/// What a message must be for a part that finds its saga by a field.
#[derive(Clone, Copy, Debug, PartialEq, Eq)]
pub enum Finder {
    /// It may start a saga.
    Start,
    /// It finds one that was started.
    Find,
}

/// What a message must be for a part that finds its saga by id.
#[derive(Clone, Copy, Debug, PartialEq, Eq)]
pub enum Answer {
    /// It is a reply to a message of the saga.
    Reply,
    /// It is a timeout of the saga.
    Timeout,
}

/// What a saga does with a message.
#[derive(Debug, Drop)]
pub enum Part {
    /// `start Type by field { .. }`, `find ..`
    ByField {
        at: u32,
        finder: Finder,
        name: TypeName,
        by_at: u32,
        field_at: u32,
        field: Text,
        block: Block,
    },
    /// `reply Type { .. }`, `timeout ..`
    ById {
        at: u32,
        answer: Answer,
        name: TypeName,
        block: Block,
    },
}

/// `saga name revision number on correlation { fields { .. } parts }`
#[derive(Debug, Drop)]
pub struct Saga {
    pub at: u32,
    pub name_at: u32,
    pub name: Text,
    /// None: revision 1.
    pub revision: Option<Revision>,
    pub on_at: u32,
    pub correlation: Field,
    pub open_at: u32,
    pub fields_at: u32,
    pub fields_open_at: u32,
    pub fields: Items<SagaField>,
    pub fields_close_at: u32,
    pub parts: Items<Part>,
    pub close_at: u32,
}

/// An item of a script, with the place of each token.
#[derive(Debug, Drop)]
pub enum Item {
    /// `message Type { fields }`
    Message {
        at: u32,
        name: TypeName,
        open_at: u32,
        fields: Items<MessageField>,
        close_at: u32,
    },
    /// `handler Type { .. }`
    Handler {
        at: u32,
        name: TypeName,
        block: Block,
    },
    Saga(Saga),
}

//! The tree of an expression. A place is the number of bytes before a token's first byte.

use nb_base::Text;
use sqlite_items::{Boxed, Items};

/// An operator in front of its operand.
#[derive(Clone, Copy, Debug, PartialEq, Eq)]
pub enum Unary {
    /// `-`
    Negative,
    /// `!`
    Not,
}

/// An operator between its operands.
#[derive(Clone, Copy, Debug, PartialEq, Eq)]
pub enum Binary {
    /// `*`
    Times,
    /// `+`
    Plus,
    /// `-`
    Minus,
    /// `++`, which joins texts
    Join,
    /// `==`
    Equal,
    /// `!=`
    Unequal,
    /// `<`
    Less,
    /// `<=`
    LessOrEqual,
    /// `>`
    Greater,
    /// `>=`
    GreaterOrEqual,
    /// `&&`
    And,
    /// `||`
    Or,
}

/// A word that stands for a value.
#[derive(Clone, Copy, Debug, PartialEq, Eq)]
pub enum Constant {
    True,
    False,
    Retries,
    Now,
    Sent,
    Id,
}

/// What has fields.
#[derive(Clone, Copy, Debug, PartialEq, Eq)]
pub enum Holder {
    /// The message, `msg`.
    Message,
    Saga,
}

/// A function of one argument.
#[derive(Clone, Copy, Debug, PartialEq, Eq)]
pub enum Function {
    Row,
    Has,
    Text,
    Len,
}

/// An expression, with the place of each token.
#[derive(Debug, Drop)]
pub enum Expr {
    /// Not negative.
    Number {
        at: u32,
        value: i64,
    },
    /// The text between the quotes, without its escapes.
    Quoted {
        at: u32,
        text: Text,
    },
    Constant {
        at: u32,
        constant: Constant,
    },
    /// `msg.name`, `saga.name`
    Field {
        at: u32,
        holder: Holder,
        dot_at: u32,
        name_at: u32,
        name: Text,
    },
    /// A name that a `let` made.
    Name {
        at: u32,
        name: Text,
    },
    /// `row(argument)`, `has(..)`, `text(..)`, `len(..)`
    Call {
        at: u32,
        function: Function,
        open_at: u32,
        argument: Boxed<Expr>,
        close_at: u32,
    },
    /// `(inner)`
    Paren {
        open_at: u32,
        inner: Boxed<Expr>,
        close_at: u32,
    },
    Prefix {
        at: u32,
        op: Unary,
        operand: Boxed<Expr>,
    },
    Infix {
        left: Boxed<Expr>,
        at: u32,
        op: Binary,
        right: Boxed<Expr>,
    },
}

/// A name behind a dot of a type.
#[derive(Debug, Drop)]
pub struct Dotted {
    pub dot_at: u32,
    pub at: u32,
    pub name: Text,
}

/// A message's type, as `Shop.PlaceOrder`.
#[derive(Debug, Drop)]
pub struct TypeName {
    pub at: u32,
    pub name: Text,
    pub others: Items<Dotted>,
}

/// `name: value`, and a comma behind it. Only the last one of a list may be without.
#[derive(Debug, Drop)]
pub struct Arg {
    pub at: u32,
    pub name: Text,
    pub colon_at: u32,
    pub value: Expr,
    pub comma_at: Option<u32>,
}

/// A message that is made: `Type { name: value, .. }`.
#[derive(Debug, Drop)]
pub struct Make {
    pub name: TypeName,
    pub open_at: u32,
    pub args: Items<Arg>,
    pub close_at: u32,
}

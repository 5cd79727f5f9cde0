//! The trees of statements.

use crate::expr::{Expr, Make};
use nb_base::Text;
use sqlite_items::{Boxed, Items};

/// `row(name)`, where a statement changes a row.
#[derive(Debug, Drop)]
pub struct RowName {
    pub at: u32,
    pub open_at: u32,
    pub name: Expr,
    pub close_at: u32,
}

/// `after delay`
#[derive(Debug, Drop)]
pub struct After {
    pub at: u32,
    pub delay: Expr,
}

/// To where a message is sent.
#[derive(Clone, Copy, Debug, PartialEq, Eq)]
pub enum Destination {
    /// `send`: to the queue of its route.
    Route,
    /// `local`: to the endpoint's own queue.
    Local,
}

/// How a statement refuses the message.
#[derive(Clone, Copy, Debug, PartialEq, Eq)]
pub enum Refusal {
    /// `fail`, a fault that is tried again.
    Fail,
    /// `reject`, an unrecoverable one.
    Reject,
}

/// `{ body }`
#[cycle(ast)]
#[derive(Debug, Drop)]
pub struct Block {
    pub open_at: u32,
    pub body: Items<Stmt>,
    pub close_at: u32,
}

/// A statement, with the place of each token.
#[cycle(ast)]
#[derive(Debug, Drop)]
pub enum Stmt {
    /// `let name = value;`
    Let {
        at: u32,
        name_at: u32,
        name: Text,
        equals_at: u32,
        value: Expr,
        semi_at: u32,
    },
    /// `set field = value;`
    Set {
        at: u32,
        field_at: u32,
        field: Text,
        equals_at: u32,
        value: Expr,
        semi_at: u32,
    },
    /// `put row(name) = value;`
    Put {
        at: u32,
        row: RowName,
        equals_at: u32,
        value: Expr,
        semi_at: u32,
    },
    /// `add row(name) by value;`
    Add {
        at: u32,
        row: RowName,
        by_at: u32,
        value: Expr,
        semi_at: u32,
    },
    /// `erase row(name);`
    Erase {
        at: u32,
        row: RowName,
        semi_at: u32,
    },
    /// `after delay send Type { .. };`, `local ..`
    Send {
        after: Option<After>,
        at: u32,
        to: Destination,
        make: Make,
        semi_at: u32,
    },
    /// `publish Type { .. };`
    Publish {
        at: u32,
        make: Make,
        semi_at: u32,
    },
    /// `reply Type { .. };`, `reply originator ..`
    Reply {
        at: u32,
        originator_at: Option<u32>,
        make: Make,
        semi_at: u32,
    },
    /// `timeout delay Type { .. };`
    Timeout {
        at: u32,
        delay: Expr,
        make: Make,
        semi_at: u32,
    },
    /// `complete;`
    Complete {
        at: u32,
        semi_at: u32,
    },
    /// `fail name text;`, `reject ..`
    Refuse {
        at: u32,
        refusal: Refusal,
        name_at: u32,
        name: Text,
        text: Expr,
        semi_at: u32,
    },
    /// `if test { .. }` and what follows
    If {
        at: u32,
        test: Expr,
        block: Block,
        otherwise: Else,
    },
}

/// What stands behind the block of an `if`.
#[cycle(ast)]
#[derive(Debug, Drop)]
pub enum Else {
    Nothing,
    /// `else { .. }`
    Last {
        at: u32,
        block: Block,
    },
    /// `else if test { .. }` and what follows
    Chain {
        at: u32,
        if_at: u32,
        test: Expr,
        block: Block,
        otherwise: Boxed<Else>,
    },
}

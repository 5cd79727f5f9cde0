//! Scripts: their tokens, their trees, the parser and the printer.
#![tactic(auto)]

mod blocks;
mod content;
pub mod expr;
mod expressions;
mod fault;
pub mod item;
mod items;
mod lexeme;
mod lexer;
mod line;
mod line_expr;
mod line_item;
mod line_stmt;
mod parser;
pub mod place;
mod print_script;
mod printer;
pub mod script;
mod sharing;
mod statements;
pub mod stmt;
pub mod tree;

pub use lexer::{Token, TokenKind, Tokens};
pub use place::Place;
pub use print_script::print;
pub use script::{ScriptFault, ScriptKind, parse, tokens};
pub use tree::Script;

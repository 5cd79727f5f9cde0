//! The tokens of statements.
ghost use Rattle.std.specs.Prelude.{◌≡◌, ◌++◌, option_map, OnOk};
ghost use Rattle.nb_script.specs.Tree as seen;
ghost use Rattle.nb_script.specs.Printing as spec;

use crate::expr::{Expr, Make};
use crate::lexeme::{Keyword, Symbol};
use crate::line::Line;
use crate::line_expr::LOOSEST;
use crate::stmt::{After, Block, Else, RowName, Stmt};
use nb_base::NoMemory;

impl Line {
    // A value, and the end of its statement.
    fn ended(&mut self, value: &Expr) -> Result<(), NoMemory>
        ensures { OnOk result (self.new ≡ self.old ++ spec.ended (seen.tree value.now)) }
    {
        self.expr(LOOSEST, value)?;
        self.symbol(Symbol::Semi)
    }

    // A message that is made, and the end of its statement.
    fn made(&mut self, make: &Make) -> Result<(), NoMemory>
        ensures { OnOk result (self.new ≡ self.old ++ spec.made (seen.make make.now)) }
    {
        self.make(make)?;
        self.symbol(Symbol::Semi)
    }

    fn row_name(&mut self, row: &RowName) -> Result<(), NoMemory>
        ensures { OnOk result (self.new ≡ self.old ++ spec.row_name (seen.row_name row.now)) }
    {
        self.key(Keyword::Row)?;
        self.symbol(Symbol::Open)?;
        self.expr(LOOSEST, &row.name)?;
        self.symbol(Symbol::Close)
    }

    fn delay(&mut self, after: &Option<After>) -> Result<(), NoMemory>
        ensures { OnOk result (self.new
            ≡ self.old ++ spec.delay (option_map seen.after after.now)) }
    {
        match after {
            None => Ok(()),
            Some(after) => {
                self.key(Keyword::After)?;
                self.expr(LOOSEST, &after.delay)
            }
        }
    }

    fn originator(&mut self, at: Option<u32>) -> Result<(), NoMemory>
        ensures { OnOk result (self.new ≡ self.old ++ spec.originator at) }
    {
        match at {
            None => Ok(()),
            Some(_) => self.key(Keyword::Originator),
        }
    }

    // A keyword, a word, and what it gets.
    fn assignment(&mut self, keyword: Keyword, name: &str, value: &Expr) -> Result<(), NoMemory>
        ensures { OnOk result (self.new
            ≡ self.old ++ spec.assignment keyword name.now (seen.tree value.now)) }
    {
        self.key(keyword)?;
        self.word(name)?;
        self.symbol(Symbol::Assign)?;
        self.ended(value)
    }

    /// A statement.
    #[cycle(statement)]
    pub fn statement(&mut self, statement: &Stmt) -> Result<(), NoMemory>
        ensures { OnOk result (self.new ≡ self.old ++ spec.statement (seen.phrase statement.now)) }
    {
        match statement {
            Stmt::Let { name, value, .. } => self.assignment(Keyword::Let, name.as_str(), value),
            Stmt::Set { field, value, .. } => self.assignment(Keyword::Set, field.as_str(), value),
            Stmt::Put { row, value, .. } => {
                self.key(Keyword::Put)?;
                self.row_name(row)?;
                self.symbol(Symbol::Assign)?;
                self.ended(value)
            }
            Stmt::Add { row, value, .. } => {
                self.key(Keyword::Add)?;
                self.row_name(row)?;
                self.key(Keyword::By)?;
                self.ended(value)
            }
            Stmt::Erase { row, .. } => {
                self.key(Keyword::Erase)?;
                self.row_name(row)?;
                self.symbol(Symbol::Semi)
            }
            Stmt::Send {
                after,
                to,
                make,
                ..
            } => {
                self.delay(after)?;
                self.key(to.keyword())?;
                self.made(make)
            }
            Stmt::Publish { make, .. } => {
                self.key(Keyword::Publish)?;
                self.made(make)
            }
            Stmt::Reply {
                originator_at,
                make,
                ..
            } => {
                self.key(Keyword::Reply)?;
                self.originator(*originator_at)?;
                self.made(make)
            }
            Stmt::Timeout { delay, make, .. } => {
                self.key(Keyword::Timeout)?;
                self.expr(LOOSEST, delay)?;
                self.made(make)
            }
            Stmt::Complete { .. } => {
                self.key(Keyword::Complete)?;
                self.symbol(Symbol::Semi)
            }
            Stmt::Refuse {
                refusal,
                name,
                text,
                ..
            } => {
                self.key(refusal.keyword())?;
                self.word(name.as_str())?;
                self.ended(text)
            }
            Stmt::If {
                test,
                block,
                otherwise,
                ..
            } => {
                self.key(Keyword::If)?;
                self.expr(LOOSEST, test)?;
                self.block(block)?;
                self.alternative(otherwise)
            }
        }
    }

    /// A block with its braces.
    #[cycle(statement)]
    pub fn block(&mut self, block: &Block) -> Result<(), NoMemory>
        ensures { OnOk result (self.new ≡ self.old ++ spec.block (seen.block block.now)) }
    {
        self.symbol(Symbol::OpenBrace)?;
        for statement in block.body.as_slice() {
            self.statement(statement)?;
        }
        self.symbol(Symbol::CloseBrace)
    }

    // What stands behind the block of an `if`.
    #[cycle(statement)]
    fn alternative(&mut self, otherwise: &Else) -> Result<(), NoMemory>
        ensures { OnOk result (self.new
            ≡ self.old ++ spec.alternative (seen.otherwise otherwise.now)) }
    {
        match otherwise {
            Else::Nothing => Ok(()),
            Else::Last { block, .. } => {
                self.key(Keyword::Else)?;
                self.block(block)
            }
            Else::Chain {
                test,
                block,
                otherwise,
                ..
            } => {
                self.key(Keyword::Else)?;
                self.key(Keyword::If)?;
                self.expr(LOOSEST, test)?;
                self.block(block)?;
                self.alternative(otherwise.get())
            }
        }
    }
}

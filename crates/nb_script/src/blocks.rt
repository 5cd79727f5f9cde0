//! Reads blocks and what may stand in them.
ghost use Rattle.std.specs.Prelude.{◌≡◌, ◌<◌, slice_get, length, suc, map};
ghost use Rattle.nb_script.specs.Tree.{phrase, Gives};
ghost use Rattle.nb_script.specs.Tree as seen;
ghost use Rattle.nb_script.specs.Reading as step;
ghost use Rattle.nb_script.specs.ReadingScript as read;
ghost use Rattle.nb_script.specs.Branches.{branch_of};

use crate::expr::Expr;
use crate::expressions::is_zero;
use crate::fault::{Fault, Halt};
use crate::lexeme::{Keyword, Seen, Symbol};
use crate::parser::Parser;
use crate::stmt::{Block, Destination, Else, Refusal, Stmt};
use sqlite_items::{Boxed, Items};

/// What stands behind an `if`.
#[derive(Debug, Drop)]
pub struct Branch {
    pub test: Expr,
    pub block: Block,
    pub otherwise: Else,
}

impl Parser<'_> {
    /// A block, with room for so many levels.
    #[cycle(stmt)]
    #[tactic(auto, unfolding(crate::specs::ReadingScript::block))]
    pub fn block(&self, room: u32, at: usize) -> Result<(Block, usize), Halt>
        ensures { Gives (λ x. (seen.block x.0, x.1)) result
            (read.block room (read.inside (suc (length self.now.lexemes.now)) room)
            (slice_get self.now.lexemes.now) at) }
    {
        let (open_at, next) = self.take_symbol(is_zero(room), Symbol::OpenBrace, at)?;
        let (body, next) = self.inside(room, next)?;
        let (close_at, next) = self.symbol(Symbol::CloseBrace, next)?;
        let block = Block {
            open_at,
            body,
            close_at,
        };
        Ok((block, next))
    }

    // What stands in a block, one level deeper.
    #[cycle(stmt)]
    #[tactic(auto, unfolding(crate::specs::ReadingScript::inside))]
    fn inside(&self, room: u32, at: usize) -> Result<(Items<Stmt>, usize), Halt>
        requires { 0 < room }
        ensures { Gives (λ x. (map phrase x.0, x.1)) result
            ((read.inside (suc (length self.now.lexemes.now)) room).body
            (slice_get self.now.lexemes.now) at) }
    {
        self.body(room - 1, at)
    }

    // What stands behind the `if` of an `else if`, one level deeper.
    #[cycle(stmt)]
    #[tactic(auto, unfolding(crate::specs::ReadingScript::inside))]
    fn inside_branch(&self, room: u32, at: usize) -> Result<(Branch, usize), Halt>
        requires { 0 < room }
        ensures { Gives (λ x. (branch_of x.0, x.1)) result
            ((read.inside (suc (length self.now.lexemes.now)) room).branch
            (slice_get self.now.lexemes.now) at) }
    {
        self.branch(room - 1, at)
    }

    #[cycle(stmt)]
    #[tactic(auto, unfolding(crate::specs::ReadingScript::alternative))]
    fn otherwise(&self, room: u32, at: usize) -> Result<(Else, usize), Halt>
        ensures { Gives (λ x. (seen.otherwise x.0, x.1)) result
            (read.alternative room (read.inside (suc (length self.now.lexemes.now)) room)
            (slice_get self.now.lexemes.now) at) }
    {
        match self.seen(at) {
            Seen::Key(Keyword::Else) => self.else_part(room, at),
            _ => Ok((Else::Nothing, at)),
        }
    }

    #[cycle(stmt)]
    fn else_part(&self, room: u32, at: usize) -> Result<(Else, usize), Halt>
        ensures { Gives (λ x. (seen.otherwise x.0, x.1)) result
            (read.else_part room (read.inside (suc (length self.now.lexemes.now)) room)
            (slice_get self.now.lexemes.now) at) }
    {
        let (place, next) = self.key(Keyword::Else, at)?;
        match self.seen(next) {
            Seen::Key(Keyword::If) => self.else_if(room, place, next),
            _ => self.else_block(room, place, next),
        }
    }

    #[cycle(stmt)]
    #[tactic(auto, unfolding(crate::specs::ReadingScript::else_if))]
    fn else_if(&self, room: u32, place: u32, at: usize) -> Result<(Else, usize), Halt>
        ensures { Gives (λ x. (seen.otherwise x.0, x.1)) result
            (read.else_if room (read.inside (suc (length self.now.lexemes.now)) room) place
            (slice_get self.now.lexemes.now) at) }
    {
        let (if_at, next) = self.take_word(is_zero(room), Keyword::If.text(), at)?;
        let (branch, next) = self.inside_branch(room, next)?;
        let Branch {
            test,
            block,
            otherwise,
        } = branch;
        let part = Else::Chain {
            at: place,
            if_at,
            test,
            block,
            otherwise: Boxed::new(self.alloc, otherwise)?,
        };
        Ok((part, next))
    }

    #[cycle(stmt)]
    #[tactic(auto, unfolding(crate::specs::ReadingScript::else_block))]
    fn else_block(&self, room: u32, place: u32, at: usize) -> Result<(Else, usize), Halt>
        ensures { Gives (λ x. (seen.otherwise x.0, x.1)) result
            (read.else_block room (read.inside (suc (length self.now.lexemes.now)) room) place
            (slice_get self.now.lexemes.now) at) }
    {
        let (block, next) = self.block(room, at)?;
        Ok((Else::Last { at: place, block }, next))
    }

    #[cycle(stmt)]
    #[tactic(auto, unfolding(crate::specs::ReadingScript::branch))]
    fn branch(&self, room: u32, at: usize) -> Result<(Branch, usize), Halt>
        ensures { Gives (λ x. (branch_of x.0, x.1)) result
            (read.branch room (read.inside (suc (length self.now.lexemes.now)) room)
            (slice_get self.now.lexemes.now) at) }
    {
        let (test, next) = self.expr(room, at)?;
        let (block, next) = self.block(room, next)?;
        let (otherwise, next) = self.otherwise(room, next)?;
        let branch = Branch {
            test,
            block,
            otherwise,
        };
        Ok((branch, next))
    }

    #[cycle(stmt)]
    #[tactic(auto, unfolding(crate::specs::ReadingScript::if_statement))]
    fn if_statement(&self, room: u32, at: usize) -> Result<(Stmt, usize), Halt>
        ensures { Gives (λ x. (phrase x.0, x.1)) result
            (read.if_statement room (read.inside (suc (length self.now.lexemes.now)) room)
            (slice_get self.now.lexemes.now) at) }
    {
        let (at, next) = self.key(Keyword::If, at)?;
        let (branch, next) = self.branch(room, next)?;
        let Branch {
            test,
            block,
            otherwise,
        } = branch;
        let stmt = Stmt::If {
            at,
            test,
            block,
            otherwise,
        };
        Ok((stmt, next))
    }

    #[cycle(stmt)]
    fn statement_of(&self, room: u32, keyword: Keyword, at: usize) -> Result<(Stmt, usize), Halt>
        ensures { Gives (λ x. (phrase x.0, x.1)) result
            (read.statement_of (suc (length self.now.lexemes.now)) room
            (read.inside (suc (length self.now.lexemes.now)) room) keyword
            (slice_get self.now.lexemes.now) at) }
    {
        match keyword {
            Keyword::Let => self.let_statement(room, at),
            Keyword::Set => self.set_statement(room, at),
            Keyword::Put => self.put_statement(room, at),
            Keyword::Add => self.add_statement(room, at),
            Keyword::Erase => self.erase_statement(room, at),
            Keyword::After => self.after_statement(room, at),
            Keyword::Send => self.sent(room, None, Destination::Route, at),
            Keyword::Local => self.sent(room, None, Destination::Local, at),
            Keyword::Publish => self.publish_statement(room, at),
            Keyword::Reply => self.reply_statement(room, at),
            Keyword::Timeout => self.timeout_statement(room, at),
            Keyword::Complete => self.complete_statement(at),
            Keyword::Fail => self.refuse_statement(room, Refusal::Fail, at),
            Keyword::Reject => self.refuse_statement(room, Refusal::Reject, at),
            Keyword::If => self.if_statement(room, at),
            _ => Err(Halt::Stopped(Fault::Expected, at)),
        }
    }

    #[cycle(stmt)]
    #[tactic(auto, unfolding(crate::specs::ReadingScript::statement))]
    fn statement(&self, room: u32, at: usize) -> Result<(Stmt, usize), Halt>
        ensures { Gives (λ x. (phrase x.0, x.1)) result
            (read.statement (suc (length self.now.lexemes.now)) room
            (read.inside (suc (length self.now.lexemes.now)) room)
            (slice_get self.now.lexemes.now) at) }
    {
        match self.seen(at) {
            Seen::Key(keyword) => self.statement_of(room, keyword, at),
            _ => Err(Halt::Stopped(Fault::Expected, at)),
        }
    }

    // Statements up to a closing brace.
    #[cycle(stmt)]
    fn body(&self, room: u32, at: usize) -> Result<(Items<Stmt>, usize), Halt>
        ensures { Gives (λ x. (map phrase x.0, x.1)) result
            (step.many (suc (length self.now.lexemes.now)) step.closes step.always
            (read.statement (suc (length self.now.lexemes.now)) room
            (read.inside (suc (length self.now.lexemes.now)) room))
            (slice_get self.now.lexemes.now) at) }
    {
        let mut body = Items::new(self.alloc);
        let mut here = at;
        for _ in 0..self.lines() {
            if self.closes(here) {
                return Ok((body, here));
            }
            let (stmt, next) = self.statement(room, here)?;
            body.push(stmt)?;
            here = next;
        }
        Err(Halt::Stopped(Fault::Expected, here))
    }
}

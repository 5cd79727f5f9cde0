//! Reads types, messages that are made, and statements.
ghost use Rattle.std.specs.Prelude.{◌≡◌, ◌-◌, ◌<◌, slice_get, length, suc, map, option_map};
ghost use Rattle.nb_script.specs.Spelling.{arg_goes_on, is_there, destination_key, refusal_key};
ghost use Rattle.nb_script.specs.Tree.{phrase, Gives};
ghost use Rattle.nb_script.specs.Tree as seen;
ghost use Rattle.nb_script.specs.Reading as step;
ghost use Rattle.nb_script.specs.ReadingScript as read;

use crate::expr::{Arg, Dotted, Make, TypeName};
use crate::fault::{Fault, Halt};
use crate::lexeme::{Keyword, Seen, Symbol};
use crate::parser::Parser;
use crate::stmt::{After, Destination, Refusal, RowName, Stmt};
use sqlite_items::Items;

impl Destination {
    /// The word of the statement.
    pub fn keyword(self) -> Keyword
        ensures { result ≡ destination_key self }
    {
        match self {
            Destination::Route => Keyword::Send,
            Destination::Local => Keyword::Local,
        }
    }
}

impl Refusal {
    /// The word of the statement.
    pub fn keyword(self) -> Keyword
        ensures { result ≡ refusal_key self }
    {
        match self {
            Refusal::Fail => Keyword::Fail,
            Refusal::Reject => Keyword::Reject,
        }
    }
}

// Whether there is a comma.
pub(crate) fn is_there(comma_at: Option<u32>) -> bool
    ensures { result ≡ is_there comma_at }
{
    match comma_at {
        Some(_) => true,
        None => false,
    }
}

impl Parser<'_> {
    // Whether the token at a position closes a brace.
    pub(crate) fn closes(&self, at: usize) -> bool
        ensures { result ≡ step.closes (slice_get self.now.lexemes.now at) }
    {
        matches!(self.seen(at), Seen::Symbol(Symbol::CloseBrace))
    }

    fn no_dot(&self, at: usize) -> bool
        ensures { result ≡ read.no_dot (slice_get self.now.lexemes.now at) }
    {
        !matches!(self.seen(at), Seen::Symbol(Symbol::Dot))
    }

    #[tactic(auto, unfolding(crate::specs::ReadingScript::dotted))]
    fn dotted(&self, at: usize) -> Result<(Dotted, usize), Halt>
        ensures { Gives (λ x. x) result (read.dotted (slice_get self.now.lexemes.now) at) }
    {
        let (dot_at, next) = self.symbol(Symbol::Dot, at)?;
        let ((at, name), next) = self.name(next)?;
        Ok((Dotted { dot_at, at, name }, next))
    }

    // The names behind the dots of a type.
    fn others(&self, at: usize) -> Result<(Items<Dotted>, usize), Halt>
        ensures { Gives (λ x. x) result
            (step.many (suc (length self.now.lexemes.now)) read.no_dot step.always read.dotted
            (slice_get self.now.lexemes.now) at) }
    {
        let mut others = Items::new(self.alloc);
        let mut here = at;
        for _ in 0..self.lines() {
            if self.no_dot(here) {
                return Ok((others, here));
            }
            let (dotted, next) = self.dotted(here)?;
            others.push(dotted)?;
            here = next;
        }
        Err(Halt::Stopped(Fault::Expected, here))
    }

    /// A message's type.
    #[tactic(auto, unfolding(crate::specs::ReadingScript::type_name))]
    pub fn type_name(&self, at: usize) -> Result<(TypeName, usize), Halt>
        ensures { Gives (λ x. x) result
            (read.type_name (suc (length self.now.lexemes.now))
            (slice_get self.now.lexemes.now) at) }
    {
        let ((at, name), next) = self.name(at)?;
        let (others, next) = self.others(next)?;
        Ok((TypeName { at, name, others }, next))
    }

    /// A comma that may be there.
    #[tactic(auto, unfolding(crate::specs::ReadingScript::comma))]
    pub fn comma(&self, at: usize) -> Result<(Option<u32>, usize), Halt>
        ensures { Gives (λ x. x) result (read.comma (slice_get self.now.lexemes.now) at) }
    {
        match self.seen(at) {
            Seen::Symbol(Symbol::Comma) => {
                let (place, next) = self.symbol(Symbol::Comma, at)?;
                Ok((Some(place), next))
            }
            _ => Ok((None, at)),
        }
    }

    #[tactic(auto, unfolding(crate::specs::ReadingScript::arg))]
    fn arg(&self, room: u32, at: usize) -> Result<(Arg, usize), Halt>
        ensures { Gives (λ x. (seen.arg x.0, x.1)) result
            (read.arg room (slice_get self.now.lexemes.now) at) }
    {
        let ((at, name), next) = self.word(at)?;
        let (colon_at, next) = self.symbol(Symbol::Colon, next)?;
        let (value, next) = self.expr(room, next)?;
        let (comma_at, next) = self.comma(next)?;
        let arg = Arg {
            at,
            name,
            colon_at,
            value,
            comma_at,
        };
        Ok((arg, next))
    }

    // The fields of a message that is made.
    fn args(&self, room: u32, at: usize) -> Result<(Items<Arg>, usize), Halt>
        ensures { Gives (λ x. (map seen.arg x.0, x.1)) result
            (step.many (suc (length self.now.lexemes.now)) step.closes arg_goes_on (read.arg room)
            (slice_get self.now.lexemes.now) at) }
    {
        let mut args = Items::new(self.alloc);
        let mut here = at;
        for _ in 0..self.lines() {
            if self.closes(here) {
                return Ok((args, here));
            }
            let (arg, next) = self.arg(room, here)?;
            let goes_on = is_there(arg.comma_at);
            args.push(arg)?;
            here = next;
            if !goes_on {
                return Ok((args, here));
            }
        }
        Err(Halt::Stopped(Fault::Expected, here))
    }

    /// A message that is made.
    #[tactic(auto, unfolding(crate::specs::ReadingScript::make))]
    pub fn make(&self, room: u32, at: usize) -> Result<(Make, usize), Halt>
        ensures { Gives (λ x. (seen.make x.0, x.1)) result
            (read.make (suc (length self.now.lexemes.now)) room
            (slice_get self.now.lexemes.now) at) }
    {
        let (name, next) = self.type_name(at)?;
        let (open_at, next) = self.symbol(Symbol::OpenBrace, next)?;
        let (args, next) = self.args(room, next)?;
        let (close_at, next) = self.symbol(Symbol::CloseBrace, next)?;
        let made = Make {
            name,
            open_at,
            args,
            close_at,
        };
        Ok((made, next))
    }

    #[tactic(auto, unfolding(crate::specs::ReadingScript::row_name))]
    fn row_name(&self, room: u32, at: usize) -> Result<(RowName, usize), Halt>
        ensures { Gives (λ x. (seen.row_name x.0, x.1)) result
            (read.row_name room (slice_get self.now.lexemes.now) at) }
    {
        let (at, next) = self.key(Keyword::Row, at)?;
        let (open_at, next) = self.symbol(Symbol::Open, next)?;
        let (name, next) = self.expr(room, next)?;
        let (close_at, next) = self.symbol(Symbol::Close, next)?;
        let row = RowName {
            at,
            open_at,
            name,
            close_at,
        };
        Ok((row, next))
    }

    #[tactic(auto, unfolding(crate::specs::ReadingScript::let_statement))]
    pub(crate) fn let_statement(&self, room: u32, at: usize) -> Result<(Stmt, usize), Halt>
        ensures { Gives (λ x. (phrase x.0, x.1)) result
            (read.let_statement room (slice_get self.now.lexemes.now) at) }
    {
        let (at, next) = self.key(Keyword::Let, at)?;
        let ((name_at, name), next) = self.name(next)?;
        let (equals_at, next) = self.symbol(Symbol::Assign, next)?;
        let (value, next) = self.expr(room, next)?;
        let (semi_at, next) = self.symbol(Symbol::Semi, next)?;
        let stmt = Stmt::Let {
            at,
            name_at,
            name,
            equals_at,
            value,
            semi_at,
        };
        Ok((stmt, next))
    }

    #[tactic(auto, unfolding(crate::specs::ReadingScript::set_statement))]
    pub(crate) fn set_statement(&self, room: u32, at: usize) -> Result<(Stmt, usize), Halt>
        ensures { Gives (λ x. (phrase x.0, x.1)) result
            (read.set_statement room (slice_get self.now.lexemes.now) at) }
    {
        let (at, next) = self.key(Keyword::Set, at)?;
        let ((field_at, field), next) = self.word(next)?;
        let (equals_at, next) = self.symbol(Symbol::Assign, next)?;
        let (value, next) = self.expr(room, next)?;
        let (semi_at, next) = self.symbol(Symbol::Semi, next)?;
        let stmt = Stmt::Set {
            at,
            field_at,
            field,
            equals_at,
            value,
            semi_at,
        };
        Ok((stmt, next))
    }

    #[tactic(auto, unfolding(crate::specs::ReadingScript::put_statement))]
    pub(crate) fn put_statement(&self, room: u32, at: usize) -> Result<(Stmt, usize), Halt>
        ensures { Gives (λ x. (phrase x.0, x.1)) result
            (read.put_statement room (slice_get self.now.lexemes.now) at) }
    {
        let (at, next) = self.key(Keyword::Put, at)?;
        let (row, next) = self.row_name(room, next)?;
        let (equals_at, next) = self.symbol(Symbol::Assign, next)?;
        let (value, next) = self.expr(room, next)?;
        let (semi_at, next) = self.symbol(Symbol::Semi, next)?;
        let stmt = Stmt::Put {
            at,
            row,
            equals_at,
            value,
            semi_at,
        };
        Ok((stmt, next))
    }

    #[tactic(auto, unfolding(crate::specs::ReadingScript::add_statement))]
    pub(crate) fn add_statement(&self, room: u32, at: usize) -> Result<(Stmt, usize), Halt>
        ensures { Gives (λ x. (phrase x.0, x.1)) result
            (read.add_statement room (slice_get self.now.lexemes.now) at) }
    {
        let (at, next) = self.key(Keyword::Add, at)?;
        let (row, next) = self.row_name(room, next)?;
        let (by_at, next) = self.key(Keyword::By, next)?;
        let (value, next) = self.expr(room, next)?;
        let (semi_at, next) = self.symbol(Symbol::Semi, next)?;
        let stmt = Stmt::Add {
            at,
            row,
            by_at,
            value,
            semi_at,
        };
        Ok((stmt, next))
    }

    #[tactic(auto, unfolding(crate::specs::ReadingScript::erase_statement))]
    pub(crate) fn erase_statement(&self, room: u32, at: usize) -> Result<(Stmt, usize), Halt>
        ensures { Gives (λ x. (phrase x.0, x.1)) result
            (read.erase_statement room (slice_get self.now.lexemes.now) at) }
    {
        let (at, next) = self.key(Keyword::Erase, at)?;
        let (row, next) = self.row_name(room, next)?;
        let (semi_at, next) = self.symbol(Symbol::Semi, next)?;
        Ok((Stmt::Erase { at, row, semi_at }, next))
    }

    // The word of a message that is sent.
    fn destination_word(&self, to: Destination, at: usize) -> Result<(u32, usize), Halt>
        ensures { Gives (λ x. x) result
            (step.key (destination_key to) (slice_get self.now.lexemes.now) at) }
    {
        self.key(to.keyword(), at)
    }

    // The word of a statement that refuses the message.
    fn refusal_word(&self, refusal: Refusal, at: usize) -> Result<(u32, usize), Halt>
        ensures { Gives (λ x. x) result
            (step.key (refusal_key refusal) (slice_get self.now.lexemes.now) at) }
    {
        self.key(refusal.keyword(), at)
    }

    // A message that is sent, behind its delay.
    #[tactic(auto, unfolding(crate::specs::ReadingScript::sent))]
    pub(crate) fn sent(
        &self,
        room: u32,
        delay: Option<After>,
        to: Destination,
        at: usize,
    ) -> Result<(Stmt, usize), Halt>
        ensures { Gives (λ x. (phrase x.0, x.1)) result
            (read.sent (suc (length self.now.lexemes.now)) room (option_map seen.after delay) to
            (slice_get self.now.lexemes.now) at) }
    {
        let (at, next) = self.destination_word(to, at)?;
        let (make, next) = self.make(room, next)?;
        let (semi_at, next) = self.symbol(Symbol::Semi, next)?;
        let stmt = Stmt::Send {
            after: delay,
            at,
            to,
            make,
            semi_at,
        };
        Ok((stmt, next))
    }

    #[tactic(auto, unfolding(crate::specs::ReadingScript::after))]
    fn after(&self, room: u32, at: usize) -> Result<(After, usize), Halt>
        ensures { Gives (λ x. (seen.after x.0, x.1)) result
            (read.after room (slice_get self.now.lexemes.now) at) }
    {
        let (at, next) = self.key(Keyword::After, at)?;
        let (delay, next) = self.expr(room, next)?;
        Ok((After { at, delay }, next))
    }

    // What stands behind a delay.
    fn sent_by(&self, room: u32, delay: Option<After>, at: usize) -> Result<(Stmt, usize), Halt>
        ensures { Gives (λ x. (phrase x.0, x.1)) result
            (step.by_seen
            (read.sent_by (suc (length self.now.lexemes.now)) room
            (option_map seen.after delay)) (slice_get self.now.lexemes.now) at) }
    {
        match self.seen(at) {
            Seen::Key(Keyword::Send) => self.sent(room, delay, Destination::Route, at),
            Seen::Key(Keyword::Local) => self.sent(room, delay, Destination::Local, at),
            _ => Err(Halt::Stopped(Fault::Expected, at)),
        }
    }

    #[tactic(auto, unfolding(crate::specs::ReadingScript::after_statement))]
    pub(crate) fn after_statement(&self, room: u32, at: usize) -> Result<(Stmt, usize), Halt>
        ensures { Gives (λ x. (phrase x.0, x.1)) result
            (read.after_statement (suc (length self.now.lexemes.now)) room
            (slice_get self.now.lexemes.now) at) }
    {
        let (delay, next) = self.after(room, at)?;
        self.sent_by(room, Some(delay), next)
    }

    #[tactic(auto, unfolding(crate::specs::ReadingScript::publish_statement))]
    pub(crate) fn publish_statement(&self, room: u32, at: usize) -> Result<(Stmt, usize), Halt>
        ensures { Gives (λ x. (phrase x.0, x.1)) result
            (read.publish_statement (suc (length self.now.lexemes.now)) room
            (slice_get self.now.lexemes.now) at) }
    {
        let (at, next) = self.key(Keyword::Publish, at)?;
        let (make, next) = self.make(room, next)?;
        let (semi_at, next) = self.symbol(Symbol::Semi, next)?;
        Ok((Stmt::Publish { at, make, semi_at }, next))
    }

    #[tactic(auto, unfolding(crate::specs::ReadingScript::originator))]
    fn originator(&self, at: usize) -> Result<(Option<u32>, usize), Halt>
        ensures { Gives (λ x. x) result (read.originator (slice_get self.now.lexemes.now) at) }
    {
        match self.seen(at) {
            Seen::Key(Keyword::Originator) => {
                let (place, next) = self.key(Keyword::Originator, at)?;
                Ok((Some(place), next))
            }
            _ => Ok((None, at)),
        }
    }

    #[tactic(auto, unfolding(crate::specs::ReadingScript::reply_statement))]
    pub(crate) fn reply_statement(&self, room: u32, at: usize) -> Result<(Stmt, usize), Halt>
        ensures { Gives (λ x. (phrase x.0, x.1)) result
            (read.reply_statement (suc (length self.now.lexemes.now)) room
            (slice_get self.now.lexemes.now) at) }
    {
        let (at, next) = self.key(Keyword::Reply, at)?;
        let (originator_at, next) = self.originator(next)?;
        let (make, next) = self.make(room, next)?;
        let (semi_at, next) = self.symbol(Symbol::Semi, next)?;
        let stmt = Stmt::Reply {
            at,
            originator_at,
            make,
            semi_at,
        };
        Ok((stmt, next))
    }

    #[tactic(auto, unfolding(crate::specs::ReadingScript::timeout_statement))]
    pub(crate) fn timeout_statement(&self, room: u32, at: usize) -> Result<(Stmt, usize), Halt>
        ensures { Gives (λ x. (phrase x.0, x.1)) result
            (read.timeout_statement (suc (length self.now.lexemes.now)) room
            (slice_get self.now.lexemes.now) at) }
    {
        let (at, next) = self.key(Keyword::Timeout, at)?;
        let (delay, next) = self.expr(room, next)?;
        let (make, next) = self.make(room, next)?;
        let (semi_at, next) = self.symbol(Symbol::Semi, next)?;
        let stmt = Stmt::Timeout {
            at,
            delay,
            make,
            semi_at,
        };
        Ok((stmt, next))
    }

    #[tactic(auto, unfolding(crate::specs::ReadingScript::complete_statement))]
    pub(crate) fn complete_statement(&self, at: usize) -> Result<(Stmt, usize), Halt>
        ensures { Gives (λ x. (phrase x.0, x.1)) result
            (read.complete_statement (slice_get self.now.lexemes.now) at) }
    {
        let (at, next) = self.key(Keyword::Complete, at)?;
        let (semi_at, next) = self.symbol(Symbol::Semi, next)?;
        Ok((Stmt::Complete { at, semi_at }, next))
    }

    #[tactic(auto, unfolding(crate::specs::ReadingScript::refuse_statement))]
    pub(crate) fn refuse_statement(
        &self,
        room: u32,
        refusal: Refusal,
        at: usize,
    ) -> Result<(Stmt, usize), Halt>
        ensures { Gives (λ x. (phrase x.0, x.1)) result
            (read.refuse_statement room refusal (slice_get self.now.lexemes.now) at) }
    {
        let (at, next) = self.refusal_word(refusal, at)?;
        let ((name_at, name), next) = self.name(next)?;
        let (text, next) = self.expr(room, next)?;
        let (semi_at, next) = self.symbol(Symbol::Semi, next)?;
        let stmt = Stmt::Refuse {
            at,
            refusal,
            name_at,
            name,
            text,
            semi_at,
        };
        Ok((stmt, next))
    }
}

//! Reads messages, handlers and sagas.
ghost use Rattle.std.specs.Prelude.{◌≡◌, ◌<◌, slice_get, length, suc, map, codes};
ghost use Rattle.nb_script.specs.Spelling.{kind_key, truth_key, finder_key, answer_key, message_field_goes_on, saga_field_goes_on};
ghost use Rattle.nb_script.specs.Tree.{part, item, Gives};
ghost use Rattle.nb_script.specs.Heads.{head_of};
ghost use Rattle.nb_script.specs.Reading as step;
ghost use Rattle.nb_script.specs.ReadingScript as read;

use crate::fault::{Fault, Halt};
use crate::item::{
    Answer, Field, FieldKind, Finder, Item, Literal, MessageField, Part, Revision, Saga, SagaField,
    Since,
};
use crate::lexeme::{Keyword, Seen, Symbol};
use crate::parser::Parser;
use crate::statements::is_there;
use nb_base::Text;
use sqlite_items::Items;

/// A saga up to the fields' opening brace.
#[derive(Debug, Drop)]
pub struct Head {
    pub at: u32,
    pub name_at: u32,
    pub name: Text,
    pub revision: Option<Revision>,
    pub on_at: u32,
    pub correlation: Field,
    pub open_at: u32,
    pub fields_at: u32,
    pub fields_open_at: u32,
}

impl FieldKind {
    /// The word of the kind.
    pub fn keyword(self) -> Keyword
        ensures { result ≡ kind_key self }
    {
        match self {
            FieldKind::Int => Keyword::Int,
            FieldKind::Text => Keyword::Text,
            FieldKind::Bool => Keyword::Bool,
        }
    }
}

impl Finder {
    /// The word of the part.
    pub fn keyword(self) -> Keyword
        ensures { result ≡ finder_key self }
    {
        match self {
            Finder::Start => Keyword::Start,
            Finder::Find => Keyword::Find,
        }
    }
}

impl Answer {
    /// The word of the part.
    pub fn keyword(self) -> Keyword
        ensures { result ≡ answer_key self }
    {
        match self {
            Answer::Reply => Keyword::Reply,
            Answer::Timeout => Keyword::Timeout,
        }
    }
}

fn truth_keyword(value: bool) -> Keyword
    ensures { result ≡ truth_key value }
{
    if value { Keyword::True } else { Keyword::False }
}

impl Parser<'_> {
    // This kind.
    fn kind_is(&self, kind: FieldKind, at: usize) -> Result<((u32, FieldKind), usize), Halt>
        ensures { Gives (λ x. x) result (read.kind_is kind (slice_get self.now.lexemes.now) at) }
    {
        let (place, next) = self.key(kind.keyword(), at)?;
        Ok(((place, kind), next))
    }

    #[tactic(auto, unfolding(crate::specs::ReadingScript::field_kind))]
    fn field_kind(&self, at: usize) -> Result<((u32, FieldKind), usize), Halt>
        ensures { Gives (λ x. x) result (read.field_kind (slice_get self.now.lexemes.now) at) }
    {
        match self.seen(at) {
            Seen::Key(Keyword::Int) => self.kind_is(FieldKind::Int, at),
            Seen::Key(Keyword::Text) => self.kind_is(FieldKind::Text, at),
            Seen::Key(Keyword::Bool) => self.kind_is(FieldKind::Bool, at),
            _ => Err(Halt::Stopped(Fault::Expected, at)),
        }
    }

    #[tactic(auto, unfolding(crate::specs::ReadingScript::field))]
    fn field(&self, at: usize) -> Result<(Field, usize), Halt>
        ensures { Gives (λ x. x) result (read.field (slice_get self.now.lexemes.now) at) }
    {
        let ((at, name), next) = self.word(at)?;
        let (colon_at, next) = self.symbol(Symbol::Colon, next)?;
        let ((kind_at, kind), next) = self.field_kind(next)?;
        let field = Field {
            at,
            name,
            colon_at,
            kind_at,
            kind,
        };
        Ok((field, next))
    }

    #[tactic(auto, unfolding(crate::specs::ReadingScript::message_field))]
    fn message_field(&self, at: usize) -> Result<(MessageField, usize), Halt>
        ensures { Gives (λ x. x) result (read.message_field (slice_get self.now.lexemes.now) at) }
    {
        let (field, next) = self.field(at)?;
        let (comma_at, next) = self.comma(next)?;
        Ok((MessageField { field, comma_at }, next))
    }

    // The fields of a message.
    fn message_fields(&self, at: usize) -> Result<(Items<MessageField>, usize), Halt>
        ensures { Gives (λ x. x) result
            (step.many (suc (length self.now.lexemes.now)) step.closes message_field_goes_on
            read.message_field (slice_get self.now.lexemes.now) at) }
    {
        let mut fields = Items::new(self.alloc);
        let mut here = at;
        for _ in 0..self.lines() {
            if self.closes(here) {
                return Ok((fields, here));
            }
            let (field, next) = self.message_field(here)?;
            let goes_on = is_there(field.comma_at);
            fields.push(field)?;
            here = next;
            if !goes_on {
                return Ok((fields, here));
            }
        }
        Err(Halt::Stopped(Fault::Expected, here))
    }

    #[tactic(auto, unfolding(crate::specs::ReadingScript::negative_literal))]
    fn negative_literal(&self, at: usize) -> Result<(Literal, usize), Halt>
        ensures { Gives (λ x. x) result
            (read.negative_literal (slice_get self.now.lexemes.now) at) }
    {
        let (minus_at, next) = self.symbol(Symbol::Minus, at)?;
        let ((at, number), next) = self.number(next)?;
        let literal = Literal::Number {
            minus_at: Some(minus_at),
            at,
            number,
        };
        Ok((literal, next))
    }

    fn truth_literal(&self, value: bool, at: usize) -> Result<(Literal, usize), Halt>
        ensures { Gives (λ x. x) result
            (read.truth_literal value (slice_get self.now.lexemes.now) at) }
    {
        let (at, next) = self.key(truth_keyword(value), at)?;
        Ok((Literal::Truth { at, value }, next))
    }

    #[tactic(auto, unfolding(crate::specs::ReadingScript::literal_value))]
    fn literal(&self, at: usize) -> Result<(Literal, usize), Halt>
        ensures { Gives (λ x. x) result (read.literal_value (slice_get self.now.lexemes.now) at) }
    {
        match self.seen(at) {
            Seen::Symbol(Symbol::Minus) => self.negative_literal(at),
            Seen::Number => {
                let ((at, number), next) = self.number(at)?;
                let literal = Literal::Number {
                    minus_at: None,
                    at,
                    number,
                };
                Ok((literal, next))
            }
            Seen::Quoted => {
                let ((at, text), next) = self.quoted(at)?;
                Ok((Literal::Quoted { at, text }, next))
            }
            Seen::Key(Keyword::True) => self.truth_literal(true, at),
            Seen::Key(Keyword::False) => self.truth_literal(false, at),
            _ => Err(Halt::Stopped(Fault::Expected, at)),
        }
    }

    fn since_part(&self, at: usize) -> Result<(Option<Since>, usize), Halt>
        ensures { Gives (λ x. x) result (read.since_part (slice_get self.now.lexemes.now) at) }
    {
        let (at, next) = self.this("since", at)?;
        let ((number_at, revision), next) = self.number(next)?;
        let (equals_at, next) = self.symbol(Symbol::Assign, next)?;
        let (literal, next) = self.literal(next)?;
        let since = Since {
            at,
            number_at,
            revision,
            equals_at,
            literal,
        };
        Ok((Some(since), next))
    }

    #[tactic(auto, unfolding(crate::specs::ReadingScript::since))]
    fn since(&self, at: usize) -> Result<(Option<Since>, usize), Halt>
        ensures { Gives (λ x. x) result (read.since (slice_get self.now.lexemes.now) at) }
    {
        if self.is_word("since", at) {
            self.since_part(at)
        } else {
            Ok((None, at))
        }
    }

    #[tactic(auto, unfolding(crate::specs::ReadingScript::saga_field))]
    fn saga_field(&self, at: usize) -> Result<(SagaField, usize), Halt>
        ensures { Gives (λ x. x) result (read.saga_field (slice_get self.now.lexemes.now) at) }
    {
        let (field, next) = self.field(at)?;
        let (since, next) = self.since(next)?;
        let (comma_at, next) = self.comma(next)?;
        let field = SagaField {
            field,
            since,
            comma_at,
        };
        Ok((field, next))
    }

    // The fields of a saga.
    fn saga_fields(&self, at: usize) -> Result<(Items<SagaField>, usize), Halt>
        ensures { Gives (λ x. x) result
            (step.many (suc (length self.now.lexemes.now)) step.closes saga_field_goes_on
            read.saga_field (slice_get self.now.lexemes.now) at) }
    {
        let mut fields = Items::new(self.alloc);
        let mut here = at;
        for _ in 0..self.lines() {
            if self.closes(here) {
                return Ok((fields, here));
            }
            let (field, next) = self.saga_field(here)?;
            let goes_on = is_there(field.comma_at);
            fields.push(field)?;
            here = next;
            if !goes_on {
                return Ok((fields, here));
            }
        }
        Err(Halt::Stopped(Fault::Expected, here))
    }

    fn revision_part(&self, at: usize) -> Result<(Option<Revision>, usize), Halt>
        ensures { Gives (λ x. x) result (read.revision_part (slice_get self.now.lexemes.now) at) }
    {
        let (at, next) = self.this("revision", at)?;
        let ((number_at, number), next) = self.number(next)?;
        let revision = Revision {
            at,
            number_at,
            number,
        };
        Ok((Some(revision), next))
    }

    #[tactic(auto, unfolding(crate::specs::ReadingScript::revision))]
    fn revision(&self, at: usize) -> Result<(Option<Revision>, usize), Halt>
        ensures { Gives (λ x. x) result (read.revision (slice_get self.now.lexemes.now) at) }
    {
        if self.is_word("revision", at) {
            self.revision_part(at)
        } else {
            Ok((None, at))
        }
    }

    fn finder_word(&self, finder: Finder, at: usize) -> Result<(u32, usize), Halt>
        ensures { Gives (λ x. x) result
            (step.key (finder_key finder) (slice_get self.now.lexemes.now) at) }
    {
        self.key(finder.keyword(), at)
    }

    fn answer_word(&self, answer: Answer, at: usize) -> Result<(u32, usize), Halt>
        ensures { Gives (λ x. x) result
            (step.key (answer_key answer) (slice_get self.now.lexemes.now) at) }
    {
        self.key(answer.keyword(), at)
    }

    #[tactic(auto, unfolding(crate::specs::ReadingScript::by_field))]
    fn by_field(&self, room: u32, finder: Finder, at: usize) -> Result<(Part, usize), Halt>
        ensures { Gives (λ x. (part x.0, x.1)) result
            (read.by_field (suc (length self.now.lexemes.now)) room
            (read.inside (suc (length self.now.lexemes.now)) room) finder
            (slice_get self.now.lexemes.now) at) }
    {
        let (at, next) = self.finder_word(finder, at)?;
        let (name, next) = self.type_name(next)?;
        let (by_at, next) = self.key(Keyword::By, next)?;
        let ((field_at, field), next) = self.word(next)?;
        let (block, next) = self.block(room, next)?;
        let part = Part::ByField {
            at,
            finder,
            name,
            by_at,
            field_at,
            field,
            block,
        };
        Ok((part, next))
    }

    #[tactic(auto, unfolding(crate::specs::ReadingScript::by_id))]
    fn by_id(&self, room: u32, answer: Answer, at: usize) -> Result<(Part, usize), Halt>
        ensures { Gives (λ x. (part x.0, x.1)) result
            (read.by_id (suc (length self.now.lexemes.now)) room
            (read.inside (suc (length self.now.lexemes.now)) room) answer
            (slice_get self.now.lexemes.now) at) }
    {
        let (at, next) = self.answer_word(answer, at)?;
        let (name, next) = self.type_name(next)?;
        let (block, next) = self.block(room, next)?;
        let part = Part::ById {
            at,
            answer,
            name,
            block,
        };
        Ok((part, next))
    }

    #[tactic(auto, unfolding(crate::specs::ReadingScript::part))]
    fn part(&self, room: u32, at: usize) -> Result<(Part, usize), Halt>
        ensures { Gives (λ x. (part x.0, x.1)) result
            (read.part (suc (length self.now.lexemes.now)) room
            (read.inside (suc (length self.now.lexemes.now)) room)
            (slice_get self.now.lexemes.now) at) }
    {
        match self.seen(at) {
            Seen::Key(Keyword::Start) => self.by_field(room, Finder::Start, at),
            Seen::Key(Keyword::Find) => self.by_field(room, Finder::Find, at),
            Seen::Key(Keyword::Reply) => self.by_id(room, Answer::Reply, at),
            Seen::Key(Keyword::Timeout) => self.by_id(room, Answer::Timeout, at),
            _ => Err(Halt::Stopped(Fault::Expected, at)),
        }
    }

    // The parts of a saga.
    fn parts(&self, room: u32, at: usize) -> Result<(Items<Part>, usize), Halt>
        ensures { Gives (λ x. (map part x.0, x.1)) result
            (step.many (suc (length self.now.lexemes.now)) step.closes step.always
            (read.part (suc (length self.now.lexemes.now)) room
            (read.inside (suc (length self.now.lexemes.now)) room))
            (slice_get self.now.lexemes.now) at) }
    {
        let mut parts = Items::new(self.alloc);
        let mut here = at;
        for _ in 0..self.lines() {
            if self.closes(here) {
                return Ok((parts, here));
            }
            let (part, next) = self.part(room, here)?;
            parts.push(part)?;
            here = next;
        }
        Err(Halt::Stopped(Fault::Expected, here))
    }

    #[tactic(auto, unfolding(crate::specs::ReadingScript::message))]
    fn message(&self, at: usize) -> Result<(Item, usize), Halt>
        ensures { Gives (λ x. (item x.0, x.1)) result
            (read.message (suc (length self.now.lexemes.now)) (slice_get self.now.lexemes.now) at) }
    {
        let (at, next) = self.key(Keyword::Message, at)?;
        let (name, next) = self.type_name(next)?;
        let (open_at, next) = self.symbol(Symbol::OpenBrace, next)?;
        let (fields, next) = self.message_fields(next)?;
        let (close_at, next) = self.symbol(Symbol::CloseBrace, next)?;
        let item = Item::Message {
            at,
            name,
            open_at,
            fields,
            close_at,
        };
        Ok((item, next))
    }

    #[tactic(auto, unfolding(crate::specs::ReadingScript::handler))]
    fn handler(&self, room: u32, at: usize) -> Result<(Item, usize), Halt>
        ensures { Gives (λ x. (item x.0, x.1)) result
            (read.handler (suc (length self.now.lexemes.now)) room
            (read.inside (suc (length self.now.lexemes.now)) room)
            (slice_get self.now.lexemes.now) at) }
    {
        let (at, next) = self.key(Keyword::Handler, at)?;
        let (name, next) = self.type_name(next)?;
        let (block, next) = self.block(room, next)?;
        Ok((Item::Handler { at, name, block }, next))
    }

    #[tactic(auto, unfolding(crate::specs::ReadingScript::head))]
    fn head(&self, at: usize) -> Result<(Head, usize), Halt>
        ensures { Gives (λ x. (head_of x.0, x.1)) result
            (read.head (slice_get self.now.lexemes.now) at) }
    {
        let (at, next) = self.key(Keyword::Saga, at)?;
        let ((name_at, name), next) = self.name(next)?;
        let (revision, next) = self.revision(next)?;
        let (on_at, next) = self.key(Keyword::On, next)?;
        let (correlation, next) = self.field(next)?;
        let (open_at, next) = self.symbol(Symbol::OpenBrace, next)?;
        let (fields_at, next) = self.key(Keyword::Fields, next)?;
        let (fields_open_at, next) = self.symbol(Symbol::OpenBrace, next)?;
        let head = Head {
            at,
            name_at,
            name,
            revision,
            on_at,
            correlation,
            open_at,
            fields_at,
            fields_open_at,
        };
        Ok((head, next))
    }

    #[tactic(auto, unfolding(crate::specs::ReadingScript::saga))]
    fn saga(&self, room: u32, at: usize) -> Result<(Item, usize), Halt>
        ensures { Gives (λ x. (item x.0, x.1)) result
            (read.saga (suc (length self.now.lexemes.now)) room
            (read.inside (suc (length self.now.lexemes.now)) room)
            (slice_get self.now.lexemes.now) at) }
    {
        let (head, next) = self.head(at)?;
        let (fields, next) = self.saga_fields(next)?;
        let (fields_close_at, next) = self.symbol(Symbol::CloseBrace, next)?;
        let (parts, next) = self.parts(room, next)?;
        let (close_at, next) = self.symbol(Symbol::CloseBrace, next)?;
        let saga = Saga {
            at: head.at,
            name_at: head.name_at,
            name: head.name,
            revision: head.revision,
            on_at: head.on_at,
            correlation: head.correlation,
            open_at: head.open_at,
            fields_at: head.fields_at,
            fields_open_at: head.fields_open_at,
            fields,
            fields_close_at,
            parts,
            close_at,
        };
        Ok((Item::Saga(saga), next))
    }

    #[tactic(auto, unfolding(crate::specs::ReadingScript::item))]
    fn item(&self, room: u32, at: usize) -> Result<(Item, usize), Halt>
        ensures { Gives (λ x. (item x.0, x.1)) result
            (read.item (suc (length self.now.lexemes.now)) room
            (read.inside (suc (length self.now.lexemes.now)) room)
            (slice_get self.now.lexemes.now) at) }
    {
        match self.seen(at) {
            Seen::Key(Keyword::Message) => self.message(at),
            Seen::Key(Keyword::Handler) => self.handler(room, at),
            Seen::Key(Keyword::Saga) => self.saga(room, at),
            _ => Err(Halt::Stopped(Fault::Expected, at)),
        }
    }

    fn ends(&self, at: usize) -> bool
        ensures { result ≡ read.is_end (slice_get self.now.lexemes.now at) }
    {
        self.lexemes.get(at).is_none()
    }

    // The items of a script.
    fn items(&self, room: u32, at: usize) -> Result<(Items<Item>, usize), Halt>
        ensures { Gives (λ x. (map item x.0, x.1)) result
            (step.many (suc (length self.now.lexemes.now)) read.is_end step.always
            (read.item (suc (length self.now.lexemes.now)) room
            (read.inside (suc (length self.now.lexemes.now)) room))
            (slice_get self.now.lexemes.now) at) }
    {
        let mut items = Items::new(self.alloc);
        let mut here = at;
        for _ in 0..self.lines() {
            if self.ends(here) {
                return Ok((items, here));
            }
            let (item, next) = self.item(room, here)?;
            items.push(item)?;
            here = next;
        }
        Err(Halt::Stopped(Fault::Expected, here))
    }

    /// All items, and nothing behind them, with room for so many levels.
    #[tactic(auto, unfolding(crate::specs::ReadingScript::whole))]
    pub fn whole(&self, room: u32) -> Result<(Items<Item>, usize), Halt>
        ensures { Gives (λ x. (map item x.0, x.1)) result
            (read.whole (suc (length self.now.lexemes.now)) room
            (slice_get self.now.lexemes.now) 0) }
    {
        let (items, next) = self.items(room, 0)?;
        if self.ends(next) {
            Ok((items, next))
        } else {
            Err(Halt::Stopped(Fault::Expected, next))
        }
    }
}

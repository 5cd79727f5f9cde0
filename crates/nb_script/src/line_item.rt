//! The tokens of messages, handlers and sagas.
ghost use Rattle.std.specs.Prelude.{◌≡◌, ◌++◌, map, OnOk};
ghost use Rattle.nb_script.specs.Tree as seen;
ghost use Rattle.nb_script.specs.Printing as spec;

use crate::expr::TypeName;
use crate::item::{Field, Item, Literal, MessageField, Part, Revision, Saga, SagaField, Since};
use crate::lexeme::{Keyword, Symbol};
use crate::line::Line;
use nb_base::NoMemory;

impl Line {
    fn field(&mut self, field: &Field) -> Result<(), NoMemory>
        ensures { OnOk result (self.new ≡ self.old ++ spec.field field.now) }
    {
        self.word(field.name.as_str())?;
        self.symbol(Symbol::Colon)?;
        self.key(field.kind.keyword())
    }

    // Fields of a message, each behind a comma.
    fn more_message_fields(&mut self, fields: &[MessageField]) -> Result<(), NoMemory>
        ensures { OnOk result (self.new
            ≡ self.old ++ spec.all_of (spec.behind_comma spec.message_field) fields.now) }
    {
        for field in fields {
            self.symbol(Symbol::Comma)?;
            self.field(&field.field)?;
        }
        Ok(())
    }

    fn message_fields(&mut self, fields: &[MessageField]) -> Result<(), NoMemory>
        ensures { OnOk result (self.new ≡ self.old ++ spec.listed spec.message_field fields.now) }
    {
        match fields {
            [] => Ok(()),
            [field, others @ ..] => {
                self.field(&field.field)?;
                self.more_message_fields(others)
            }
        }
    }

    // The sign of a number. Zero has none.
    fn sign(&mut self, minus_at: Option<u32>, number: i64) -> Result<(), NoMemory>
        ensures { OnOk result (self.new ≡ self.old ++ spec.sign minus_at number) }
    {
        match minus_at {
            Some(_) if number != 0 => self.symbol(Symbol::Minus),
            _ => Ok(()),
        }
    }

    fn literal(&mut self, literal: &Literal) -> Result<(), NoMemory>
        ensures { OnOk result (self.new ≡ self.old ++ spec.literal_tokens literal.now) }
    {
        match literal {
            Literal::Number {
                minus_at,
                number,
                ..
            } => {
                self.sign(*minus_at, *number)?;
                self.number(*number)
            }
            Literal::Quoted { text, .. } => self.quoted(text.as_str()),
            Literal::Truth { value: true, .. } => self.key(Keyword::True),
            Literal::Truth { value: false, .. } => self.key(Keyword::False),
        }
    }

    fn since(&mut self, since: &Option<Since>) -> Result<(), NoMemory>
        ensures { OnOk result (self.new ≡ self.old ++ spec.since since.now) }
    {
        match since {
            None => Ok(()),
            Some(since) => {
                self.word("since")?;
                self.number(since.revision)?;
                self.symbol(Symbol::Assign)?;
                self.literal(&since.literal)
            }
        }
    }

    fn saga_field(&mut self, field: &SagaField) -> Result<(), NoMemory>
        ensures { OnOk result (self.new ≡ self.old ++ spec.saga_field field.now) }
    {
        self.field(&field.field)?;
        self.since(&field.since)
    }

    // Fields of a saga, each behind a comma.
    fn more_saga_fields(&mut self, fields: &[SagaField]) -> Result<(), NoMemory>
        ensures { OnOk result (self.new
            ≡ self.old ++ spec.all_of (spec.behind_comma spec.saga_field) fields.now) }
    {
        for field in fields {
            self.symbol(Symbol::Comma)?;
            self.saga_field(field)?;
        }
        Ok(())
    }

    fn saga_fields(&mut self, fields: &[SagaField]) -> Result<(), NoMemory>
        ensures { OnOk result (self.new ≡ self.old ++ spec.listed spec.saga_field fields.now) }
    {
        match fields {
            [] => Ok(()),
            [field, others @ ..] => {
                self.saga_field(field)?;
                self.more_saga_fields(others)
            }
        }
    }

    fn revision(&mut self, revision: &Option<Revision>) -> Result<(), NoMemory>
        ensures { OnOk result (self.new ≡ self.old ++ spec.revision revision.now) }
    {
        match revision {
            None => Ok(()),
            Some(revision) => {
                self.word("revision")?;
                self.number(revision.number)
            }
        }
    }

    fn part(&mut self, part: &Part) -> Result<(), NoMemory>
        ensures { OnOk result (self.new ≡ self.old ++ spec.part (seen.part part.now)) }
    {
        match part {
            Part::ByField {
                finder,
                name,
                field,
                block,
                ..
            } => {
                self.key(finder.keyword())?;
                self.type_name(name)?;
                self.key(Keyword::By)?;
                self.word(field.as_str())?;
                self.block(block)
            }
            Part::ById {
                answer,
                name,
                block,
                ..
            } => {
                self.key(answer.keyword())?;
                self.type_name(name)?;
                self.block(block)
            }
        }
    }

    fn parts(&mut self, parts: &[Part]) -> Result<(), NoMemory>
        ensures { OnOk result (self.new
            ≡ self.old ++ spec.all_of spec.part (map seen.part parts.now)) }
    {
        for part in parts {
            self.part(part)?;
        }
        Ok(())
    }

    // A saga up to its fields.
    fn saga_head(&mut self, saga: &Saga) -> Result<(), NoMemory>
        ensures { OnOk result (self.new ≡ self.old ++ spec.saga_head (seen.saga saga.now)) }
    {
        self.key(Keyword::Saga)?;
        self.word(saga.name.as_str())?;
        self.revision(&saga.revision)?;
        self.key(Keyword::On)?;
        self.field(&saga.correlation)
    }

    // The fields of a saga, and what it does.
    fn saga_body(&mut self, saga: &Saga) -> Result<(), NoMemory>
        ensures { OnOk result (self.new ≡ self.old ++ spec.saga_body (seen.saga saga.now)) }
    {
        self.symbol(Symbol::OpenBrace)?;
        self.key(Keyword::Fields)?;
        self.symbol(Symbol::OpenBrace)?;
        self.saga_fields(saga.fields.as_slice())?;
        self.symbol(Symbol::CloseBrace)?;
        self.parts(saga.parts.as_slice())?;
        self.symbol(Symbol::CloseBrace)
    }

    fn message(&mut self, name: &TypeName, fields: &[MessageField]) -> Result<(), NoMemory>
        ensures { OnOk result (self.new ≡ self.old ++ spec.message name.now fields.now) }
    {
        self.key(Keyword::Message)?;
        self.type_name(name)?;
        self.symbol(Symbol::OpenBrace)?;
        self.message_fields(fields)?;
        self.symbol(Symbol::CloseBrace)
    }

    /// An item.
    pub fn item(&mut self, item: &Item) -> Result<(), NoMemory>
        ensures { OnOk result (self.new ≡ self.old ++ spec.item (seen.item item.now)) }
    {
        match item {
            Item::Message { name, fields, .. } => self.message(name, fields.as_slice()),
            Item::Handler { name, block, .. } => {
                self.key(Keyword::Handler)?;
                self.type_name(name)?;
                self.block(block)
            }
            Item::Saga(saga) => {
                self.saga_head(saga)?;
                self.saga_body(saga)
            }
        }
    }
}

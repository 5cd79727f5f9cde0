//! Reads tokens one by one. A position goes in, and the next one comes out.
ghost use Rattle.std.specs.Prelude.{◌≡◌, ◌<◌, ◌-◌, ◌^◌, slice_get, length, OnOk, suc, false, Some, None};
ghost use Rattle.nb_script.specs.Tree.{Gives};
ghost use Rattle.nb_script.specs.Reading as read;
ghost use Rattle.nb_script.specs.ReadingScript.{is_next};

use crate::fault::{Fault, Halt};
use crate::lexeme::{Content, Keyword, Lexeme, Seen, Symbol};
use nb_base::{Copied, Text};
use std::alloc::Global;

/// Reads trees from a row of tokens.
#[derive(Clone, Copy)]
pub struct Parser<'a> {
    pub alloc: Global,
    pub lexemes: &'a [Lexeme],
}

impl Parser<'_> {
    /// How many lines a list may have: one more than there are tokens.
    pub fn lines(&self) -> usize
        ensures { result ≡ suc (length self.now.lexemes.now) }
    {
        self.lexemes.len() + 1
    }

    /// What the token at a position is seen as.
    #[tactic(auto, unfolding(crate::specs::Reading::seen))]
    pub fn seen(&self, at: usize) -> Seen
        ensures { result ≡ read.seen (slice_get self.now.lexemes.now at) }
    {
        let Some(lexeme) = self.lexemes.get(at) else {
            return Seen::End;
        };
        match &lexeme.content {
            Content::Word(word) => match Keyword::of(word.as_str()) {
                Some(keyword) => Seen::Key(keyword),
                None => Seen::Name,
            },
            Content::Number(_) => Seen::Number,
            Content::Quoted(_) => Seen::Quoted,
            Content::Symbol(symbol) => Seen::Symbol(*symbol),
        }
    }

    /// Whether the token at a position is this word.
    pub fn is_word(&self, word: &str, at: usize) -> bool
        ensures { result ≡ is_next word.now (slice_get self.now.lexemes.now at) }
    {
        let Some(lexeme) = self.lexemes.get(at) else {
            return false;
        };
        match &lexeme.content {
            Content::Word(text) => text.as_str() == word,
            _ => false,
        }
    }

    /// This symbol, which may be past the limits.
    #[tactic(auto, unfolding(crate::specs::Reading::take))]
    pub fn take_symbol(&self, past: bool, symbol: Symbol, at: usize) -> Result<(u32, usize), Halt>
        ensures value { Gives (λ x. x) result
            (read.take past (read.want_symbol symbol) (slice_get self.now.lexemes.now) at) }
        ensures room { OnOk result (past ≡ false) }
    {
        let Some(lexeme) = self.lexemes.get(at) else {
            return Err(Halt::Stopped(Fault::Expected, at));
        };
        match &lexeme.content {
            Content::Symbol(s) if *s as u8 == symbol as u8 => taken(past, lexeme.at, at),
            _ => Err(Halt::Stopped(Fault::Expected, at)),
        }
    }

    /// This word, which may be past the limits.
    #[tactic(auto, unfolding(crate::specs::Reading::take))]
    pub fn take_word(&self, past: bool, word: &str, at: usize) -> Result<(u32, usize), Halt>
        ensures value { Gives (λ x. x) result
            (read.take past (read.want_this word.now) (slice_get self.now.lexemes.now) at) }
        ensures room { OnOk result (past ≡ false) }
    {
        let Some(lexeme) = self.lexemes.get(at) else {
            return Err(Halt::Stopped(Fault::Expected, at));
        };
        match &lexeme.content {
            Content::Word(text) if text.as_str() == word => taken(past, lexeme.at, at),
            _ => Err(Halt::Stopped(Fault::Expected, at)),
        }
    }

    /// This symbol.
    #[tactic(auto, unfolding(crate::specs::Reading::symbol))]
    pub fn symbol(&self, symbol: Symbol, at: usize) -> Result<(u32, usize), Halt>
        ensures { Gives (λ x. x) result (read.symbol symbol (slice_get self.now.lexemes.now) at) }
    {
        self.take_symbol(false, symbol, at)
    }

    /// This word, which is no keyword.
    #[tactic(auto, unfolding(crate::specs::Reading::this))]
    pub fn this(&self, word: &str, at: usize) -> Result<(u32, usize), Halt>
        ensures { Gives (λ x. x) result (read.this word.now (slice_get self.now.lexemes.now) at) }
    {
        self.take_word(false, word, at)
    }

    /// This keyword.
    #[tactic(auto, unfolding(crate::specs::Reading::key))]
    pub fn key(&self, keyword: Keyword, at: usize) -> Result<(u32, usize), Halt>
        ensures { Gives (λ x. x) result (read.key keyword (slice_get self.now.lexemes.now) at) }
    {
        self.this(keyword.text(), at)
    }

    /// Any word.
    #[tactic(auto, unfolding(crate::specs::Reading::word, crate::specs::Reading::take))]
    pub fn word(&self, at: usize) -> Result<((u32, Text), usize), Halt>
        ensures { Gives (λ x. x) result (read.word (slice_get self.now.lexemes.now) at) }
    {
        let Some(lexeme) = self.lexemes.get(at) else {
            return Err(Halt::Stopped(Fault::Expected, at));
        };
        match &lexeme.content {
            Content::Word(text) => Ok(((lexeme.at, text.copy()?), at + 1)),
            _ => Err(Halt::Stopped(Fault::Expected, at)),
        }
    }

    /// A word that is no keyword.
    #[tactic(auto, unfolding(crate::specs::Reading::name, crate::specs::Reading::take))]
    pub fn name(&self, at: usize) -> Result<((u32, Text), usize), Halt>
        ensures { Gives (λ x. x) result (read.name (slice_get self.now.lexemes.now) at) }
    {
        let Some(lexeme) = self.lexemes.get(at) else {
            return Err(Halt::Stopped(Fault::Expected, at));
        };
        match &lexeme.content {
            Content::Word(text) => match Keyword::of(text.as_str()) {
                None => Ok(((lexeme.at, text.copy()?), at + 1)),
                Some(_) => Err(Halt::Stopped(Fault::Expected, at)),
            },
            _ => Err(Halt::Stopped(Fault::Expected, at)),
        }
    }

    /// A number.
    #[tactic(auto, unfolding(crate::specs::Reading::number, crate::specs::Reading::take))]
    pub fn number(&self, at: usize) -> Result<((u32, i64), usize), Halt>
        ensures { Gives (λ x. x) result (read.number (slice_get self.now.lexemes.now) at) }
    {
        let Some(lexeme) = self.lexemes.get(at) else {
            return Err(Halt::Stopped(Fault::Expected, at));
        };
        match &lexeme.content {
            Content::Number(n) => Ok(((lexeme.at, *n), at + 1)),
            _ => Err(Halt::Stopped(Fault::Expected, at)),
        }
    }

    /// A text in quotes.
    #[tactic(auto, unfolding(crate::specs::Reading::quoted, crate::specs::Reading::take))]
    pub fn quoted(&self, at: usize) -> Result<((u32, Text), usize), Halt>
        ensures { Gives (λ x. x) result (read.quoted (slice_get self.now.lexemes.now) at) }
    {
        let Some(lexeme) = self.lexemes.get(at) else {
            return Err(Halt::Stopped(Fault::Expected, at));
        };
        match &lexeme.content {
            Content::Quoted(text) => Ok(((lexeme.at, text.copy()?), at + 1)),
            _ => Err(Halt::Stopped(Fault::Expected, at)),
        }
    }
}

// A token that is wanted, unless it is past the limits.
fn taken(past: bool, place: u32, at: usize) -> Result<(u32, usize), Halt>
    requires { at < 2 ^ 64 - 1 }
    ensures value { Gives (λ x. x) result (read.taken past (Some place) (λ _. None) at) }
    ensures room { OnOk result (past ≡ false) }
{
    if past {
        Err(Halt::Stopped(Fault::TooDeep, at))
    } else {
        Ok((place, at + 1))
    }
}

//! The tokens of a line that is printed.
ghost use Rattle.std.specs.Prelude.{◌≡◌, ◌++◌, ◌∷◌, [], IfOk, OnOk};
ghost use Rattle.nb_script.specs.declared.lexeme.Content.TheVariants as c;
ghost use Rattle.nb_script.specs.Printing.{key};

use crate::lexeme::{Content, Keyword, Symbol};
use nb_base::{NoMemory, Text};
use sqlite_items::Items;
use std::alloc::Global;
use std::marker::Model;

/// Tokens, to which others are added at the end.
#[derive(Drop)]
pub struct Line {
    alloc: Global,
    tokens: Items<Content>,
}

impl Model for Line {
    ghost use Rattle.std.specs.Prelude.{List};
    ghost use Rattle.nb_script.specs.declared.lexeme.Content.{Content};

    ghost Value = { List Content };

    ghost view = { λ l. l.tokens };
}

impl Line {
    /// No tokens.
    pub fn new(alloc: Global) -> Line
        ensures { result ≡ [] }
    {
        Line {
            alloc,
            tokens: Items::new(alloc),
        }
    }

    /// The tokens in order.
    pub fn tokens(&self) -> &[Content]
        ensures { result.now ≡ self.now }
    {
        self.tokens.as_slice()
    }

    fn push(&mut self, token: Content) -> Result<(), NoMemory>
        ensures { OnOk result (self.new ≡ self.old ++ token ∷ []) }
    {
        self.tokens.push(token)?;
        Ok(())
    }

    /// A word.
    pub fn word(&mut self, word: &str) -> Result<(), NoMemory>
        ensures { OnOk result (self.new ≡ self.old ++ c.Word word.now ∷ []) }
    {
        let word = Text::new(self.alloc, word)?;
        self.push(Content::Word(word))
    }

    /// A keyword.
    pub fn key(&mut self, keyword: Keyword) -> Result<(), NoMemory>
        ensures { OnOk result (self.new ≡ self.old ++ key keyword ∷ []) }
    {
        self.word(keyword.text())
    }

    /// A symbol.
    pub fn symbol(&mut self, symbol: Symbol) -> Result<(), NoMemory>
        ensures { OnOk result (self.new ≡ self.old ++ c.Symbol symbol ∷ []) }
    {
        self.push(Content::Symbol(symbol))
    }

    /// A number.
    pub fn number(&mut self, n: i64) -> Result<(), NoMemory>
        ensures { OnOk result (self.new ≡ self.old ++ c.Number n ∷ []) }
    {
        self.push(Content::Number(n))
    }

    /// A text that is printed in quotes.
    pub fn quoted(&mut self, text: &str) -> Result<(), NoMemory>
        ensures { OnOk result (self.new ≡ self.old ++ c.Quoted text.now ∷ []) }
    {
        let text = Text::new(self.alloc, text)?;
        self.push(Content::Quoted(text))
    }
}

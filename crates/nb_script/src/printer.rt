//! Prints tokens, each with a space behind it.
ghost use Rattle.std.specs.Prelude.{◌≡◌, ◌++◌, ◌∷◌, [], IfOk, OnOk};
ghost use Rattle.std.specs.Fmt.{signed_decimal};
ghost use Rattle.std.specs.Str.{IsUtf8};
ghost use Rattle.nb_script.specs.Printing.{symbol_text, escape_of, escaped, token_text, texts};

use crate::lexeme::{Content, Symbol};
use nb_base::{NoMemory, Text};
use std::alloc::Global;
use std::marker::Model;

impl Symbol {
    /// The symbol as it is written.
    pub fn text(self) -> &'static str
        ensures { result.now ≡ symbol_text self }
    {
        match self {
            Symbol::OpenBrace => "{",
            Symbol::CloseBrace => "}",
            Symbol::Open => "(",
            Symbol::Close => ")",
            Symbol::Comma => ",",
            Symbol::Semi => ";",
            Symbol::Colon => ":",
            Symbol::Dot => ".",
            Symbol::Assign => "=",
            Symbol::Equal => "==",
            Symbol::Unequal => "!=",
            Symbol::Less => "<",
            Symbol::LessOrEqual => "<=",
            Symbol::Greater => ">",
            Symbol::GreaterOrEqual => ">=",
            Symbol::Plus => "+",
            Symbol::Join => "++",
            Symbol::Minus => "-",
            Symbol::Star => "*",
            Symbol::And => "&&",
            Symbol::Or => "||",
            Symbol::Not => "!",
        }
    }
}

/// What was printed so far.
#[derive(Drop)]
pub struct Printer {
    alloc: Global,
    bytes: Vec<u8>,
}

impl Model for Printer {
    ghost use Rattle.std.specs.Prelude.{List, ℕ};

    ghost Value = { List ℕ };

    ghost view = { λ p. p.bytes.items };
}

impl Printer {
    /// Nothing yet.
    pub fn new(alloc: Global) -> Printer
        ensures { result ≡ [] }
    {
        Printer {
            alloc,
            bytes: Vec::new(alloc),
        }
    }

    /// What was printed.
    pub fn into_text(self) -> Result<Text, NoMemory>
        ensures value { IfOk result (λ t. t ≡ self) }
        ensures utf8 { IfOk result (λ t. IsUtf8 t) }
    {
        match String::from_utf8(self.bytes) {
            Ok(text) => Text::of_string(text),
            Err(_) => Err(NoMemory),
        }
    }

    fn push(&mut self, text: &str) -> Result<(), NoMemory>
        ensures { OnOk result (self.new ≡ self.old ++ text.now) }
    {
        self.bytes.extend_from_slice(text.as_bytes())?;
        Ok(())
    }

    fn push_byte(&mut self, b: u8) -> Result<(), NoMemory>
        ensures { OnOk result (self.new ≡ self.old ++ b ∷ []) }
    {
        self.bytes.push(b)?;
        Ok(())
    }

    /// Ends a line.
    pub fn end_line(&mut self) -> Result<(), NoMemory>
        ensures { OnOk result (self.new ≡ self.old ++ 10 ∷ []) }
    {
        self.push_byte(b'\n')
    }

    fn push_escaped(&mut self, b: u8) -> Result<(), NoMemory>
        ensures { OnOk result (self.new ≡ self.old ++ escape_of b) }
    {
        match b {
            b'"' => self.push("\\\""),
            b'\\' => self.push("\\\\"),
            b'\n' => self.push("\\n"),
            b'\r' => self.push("\\r"),
            b'\t' => self.push("\\t"),
            _ => self.push_byte(b),
        }
    }

    fn push_all_escaped(&mut self, bytes: &[u8]) -> Result<(), NoMemory>
        ensures { OnOk result (self.new ≡ self.old ++ escaped bytes.now) }
    {
        for b in bytes {
            self.push_escaped(*b)?;
        }
        Ok(())
    }

    fn push_number(&mut self, n: i64) -> Result<(), NoMemory>
        ensures { OnOk result (self.new ≡ self.old ++ signed_decimal n) }
    {
        let digits = format!(in self.alloc; "{n}")?;
        self.push(digits.as_str())
    }

    fn push_quoted(&mut self, text: &str) -> Result<(), NoMemory>
        ensures { OnOk result (self.new ≡ self.old ++ 34 ∷ (escaped text.now ++ 34 ∷ [])) }
    {
        self.push_byte(b'"')?;
        self.push_all_escaped(text.as_bytes())?;
        self.push_byte(b'"')
    }

    #[tactic(auto, unfolding(crate::specs::Printing::token_text))]
    fn push_token(&mut self, token: &Content) -> Result<(), NoMemory>
        ensures { OnOk result (self.new ≡ self.old ++ token_text token.now) }
    {
        match token {
            Content::Word(word) => self.push(word.as_str()),
            Content::Number(n) => self.push_number(*n),
            Content::Quoted(text) => self.push_quoted(text.as_str()),
            Content::Symbol(symbol) => self.push(symbol.text()),
        }
    }

    /// Tokens, each with a space behind it.
    pub fn tokens(&mut self, tokens: &[Content]) -> Result<(), NoMemory>
        ensures { OnOk result (self.new ≡ self.old ++ texts tokens.now) }
    {
        for token in tokens {
            self.push_token(token)?;
            self.push_byte(b' ')?;
        }
        Ok(())
    }
}

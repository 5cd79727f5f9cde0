//! Scripts: their tokens, and their trees.
ghost use Rattle.std.specs.Prelude.{◌≡◌, ◌≤◌, length, slice_get, option_map, IfOk, IfErr};
ghost use Rattle.nb_script.specs.declared.script.TheConstants.{MOST_BYTES};
ghost use Rattle.nb_script.specs.Lexing.{lexed, lexemes_of};
ghost use Rattle.nb_script.specs.Answer.{IsFirstPlace};
ghost use Rattle.nb_script.specs.Scripts.{items_of, text_of};
ghost use Rattle.nb_script.specs.Spans.{Rise};
ghost use Rattle.nb_script.specs.Parsing.{StandsAt, IsText, IsScriptText, IsFault, IsLexFault, IsEarly, AreTokens, lex_kind, kind_of};

use crate::content::lexemes;
use crate::fault::{Fault, Halt};
use crate::lexeme::Lexeme;
use crate::lexer::{LexFault, Tail, Tokens, scan};
use crate::parser::Parser;
use crate::place::place_of;
use crate::tree::Script;
use nb_base::{NoMemory, Text};
use std::alloc::Global;
use thiserror::Error;

/// The most bytes of a script.
pub const MOST_BYTES: usize = 1048576;

/// The most levels that may be open.
pub const LEVELS: u32 = 100;

/// Why a text is no script.
#[derive(Clone, Copy, Debug, Drop, PartialEq, Eq, Error)]
pub enum ScriptKind {
    #[error("TooLong")]
    TooLong,
    #[error("NotUtf8")]
    NotUtf8,
    #[error("BadToken")]
    BadToken,
    #[error("BadText")]
    BadText,
    #[error("BadNumber")]
    BadNumber,
    #[error("TooDeep")]
    TooDeep,
    #[error("Expected")]
    Expected,
    #[error("NoMemory")]
    NoMemory,
}

/// Where and why a text is no script. Lines and columns count from 1, a column counts bytes.
#[derive(Clone, Copy, Debug, Drop, PartialEq, Eq, Error)]
#[error("{line}:{column}: {kind}")]
pub struct ScriptFault {
    pub line: u32,
    pub column: u32,
    pub kind: ScriptKind,
}

const NOWHERE: ScriptFault = ScriptFault {
    line: 0,
    column: 0,
    kind: ScriptKind::NoMemory,
};

impl From<NoMemory> for ScriptFault {
    ghost use Rattle.nb_script.specs.Parsing.{nowhere};

    ghost from_gives = { λ _ e. e ≡ nowhere };

    fn from(_e: NoMemory) -> ScriptFault {
        NOWHERE
    }
}

// A fault at a byte of the text.
fn fault_at(text: &[u8], at: usize, kind: ScriptKind) -> ScriptFault
    requires { length text.now ≤ MOST_BYTES }
    ensures place { StandsAt text.now at result }
    ensures kind { result.kind ≡ kind }
{
    let place = place_of(text, at);
    ScriptFault {
        line: place.line,
        column: place.column,
        kind,
    }
}

// The fault where no token can be read.
fn unreadable(text: &[u8], fault: LexFault, at: u32) -> ScriptFault
    requires { length text.now ≤ MOST_BYTES }
    ensures place { StandsAt text.now at result }
    ensures kind { result.kind ≡ lex_kind fault }
{
    let kind = match fault {
        LexFault::Token => ScriptKind::BadToken,
        LexFault::Text => ScriptKind::BadText,
        LexFault::Number => ScriptKind::BadNumber,
    };
    fault_at(text, at as usize, kind)
}

// The text, where it isn't too long and is UTF-8.
fn readable(text: &[u8]) -> Result<&str, ScriptFault>
    ensures ok { IfOk result (λ s. IsText text.now × (s.now ≡ text.now)) }
    ensures err { IfErr result (λ f. IsEarly text.now f) }
{
    if text.len() > MOST_BYTES {
        return Err(ScriptFault {
            line: 1,
            column: 1,
            kind: ScriptKind::TooLong,
        });
    }
    match std::str::from_utf8(text) {
        Ok(text) => Ok(text),
        Err(error) => Err(fault_at(text, error.valid_up_to(), ScriptKind::NotUtf8)),
    }
}

/// All tokens of a text, in order, or the first place at which none can be read.
#[tactic(auto, using(crate::proofs::Rising::spans_rise))]
pub fn tokens(alloc: Global, text: &[u8]) -> Result<Tokens, ScriptFault>
    ensures ok { IfOk result (λ ts. AreTokens text.now ts) }
    ensures rise { IfOk result (λ ts. Rise 0 ts) }
    ensures err { IfErr result (λ f. IsLexFault text.now f) }
{
    let text = readable(text)?.as_bytes();
    let scanned = scan(alloc, text)?;
    match scanned.tail {
        Tail::End => Ok(scanned.tokens),
        Tail::Bad(fault, at) => Err(unreadable(text, fault, at)),
    }
}

fn kind_of(fault: Fault) -> ScriptKind
    ensures { result ≡ kind_of fault }
{
    match fault {
        Fault::TooDeep => ScriptKind::TooDeep,
        Fault::Expected => ScriptKind::Expected,
    }
}

// The place of a token.
fn place_at(lexemes: &[Lexeme], token: usize) -> Option<u32>
    ensures { result ≡ option_map (λ t. t.at) (slice_get lexemes.now token) }
{
    let lexeme = lexemes.get(token)?;
    Some(lexeme.at)
}

// The fault at the token at which the parser stopped.
#[tactic(auto, using(crate::proofs::Parsed::stuck_some, crate::proofs::Parsed::stuck_none, crate::proofs::Parsed::stuck_bad))]
fn stuck(text: &[u8], lexemes: &[Lexeme], tail: Tail, fault: Fault, token: usize) -> ScriptFault
    requires short { length text.now ≤ MOST_BYTES }
    requires text { IsText text.now }
    requires tokens { lexemes.now ≡ lexemes_of text.now }
    requires tail { (lexed text.now).tail ≡ tail }
    requires first { IsFirstPlace lexemes.now fault token }
    ensures { IsFault text.now result }
{
    match place_at(lexemes, token) {
        Some(at) => fault_at(text, at as usize, kind_of(fault)),
        None => match tail {
            Tail::End => fault_at(text, text.len(), kind_of(fault)),
            Tail::Bad(fault, at) => unreadable(text, fault, at),
        },
    }
}

/// The script for which the text stands, or the first place at which it is none.
pub fn parse(alloc: Global, text: &[u8]) -> Result<Script, ScriptFault>
    ensures ok { IfOk result (λ s. IsScriptText text.now (items_of s)) }
    ensures text { IfOk result (λ s. text_of s ≡ text.now) }
    ensures err { IfErr result (λ f. IsFault text.now f) }
{
    let valid = readable(text)?;
    let source = Text::new(alloc, valid)?;
    let scanned = scan(alloc, text)?;
    let lexemes = lexemes(alloc, text, scanned.tokens.as_slice())?;
    let row = lexemes.as_slice();
    let parser = Parser {
        alloc,
        lexemes: row,
    };
    match parser.whole(LEVELS) {
        Ok((items, _)) => match scanned.tail {
            Tail::End => Ok(Script::made(items, source)),
            Tail::Bad(fault, at) => Err(unreadable(text, fault, at)),
        },
        Err(Halt::Memory) => Err(NOWHERE),
        Err(Halt::Stopped(fault, token)) => Err(stuck(text, row, scanned.tail, fault, token)),
    }
}

impl Script {
    /// A copy of the script.
    #[tactic(auto, using(crate::proofs::Rereading::same_read))]
    pub fn copy(&self, alloc: Global) -> Result<Script, NoMemory>
        ensures items { IfOk result (λ s. ∥ items_of s ≡ items_of self.now ∥₁) }
        ensures text { IfOk result (λ s. text_of s ≡ text_of self.now) }
    {
        match parse(alloc, self.text().as_bytes()) {
            Ok(script) => Ok(script),
            Err(_) => Err(NoMemory),
        }
    }
}

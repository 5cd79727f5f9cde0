//! What tokens say.
ghost use Rattle.std.specs.Prelude.{◌≡◌, map, unwrap_or, IfOk, pos, false};
ghost use Rattle.nb_script.specs.Lexing.{escape, unescaped, within_quotes, symbol_of, number_of, slice_of, lexeme_of};

use crate::lexeme::{Content, Lexeme, Symbol};
use crate::lexer::{Token, TokenKind, number_of};
use nb_base::{NoMemory, Text};
use std::alloc::Global;

fn escape(b: u8) -> u8
    ensures { result ≡ escape b }
{
    match b {
        b'n' => b'\n',
        b'r' => b'\r',
        b't' => b'\t',
        _ => b,
    }
}

// The bytes for which those between the quotes stand.
fn unescaped(alloc: Global, raw: &[u8]) -> Result<Vec<u8>, NoMemory>
    ensures { IfOk result (λ v. v.items ≡ unescaped false raw.now) }
{
    let mut bytes = Vec::new(alloc);
    let mut behind = false;
    for b in raw {
        if behind {
            bytes.push(escape(*b))?;
            behind = false;
        } else if *b == b'\\' {
            behind = true;
        } else {
            bytes.push(*b)?;
        }
    }
    Ok(bytes)
}

fn symbol_of(text: &str) -> Symbol
    ensures { result ≡ symbol_of text.now }
{
    match text {
        "{" => Symbol::OpenBrace,
        "}" => Symbol::CloseBrace,
        "(" => Symbol::Open,
        ")" => Symbol::Close,
        "," => Symbol::Comma,
        ";" => Symbol::Semi,
        ":" => Symbol::Colon,
        "." => Symbol::Dot,
        "=" => Symbol::Assign,
        "==" => Symbol::Equal,
        "!=" => Symbol::Unequal,
        "<" => Symbol::Less,
        "<=" => Symbol::LessOrEqual,
        ">" => Symbol::Greater,
        ">=" => Symbol::GreaterOrEqual,
        "+" => Symbol::Plus,
        "++" => Symbol::Join,
        "-" => Symbol::Minus,
        "*" => Symbol::Star,
        "&&" => Symbol::And,
        "||" => Symbol::Or,
        _ => Symbol::Not,
    }
}

// The bytes of a token.
fn slice_of(text: &[u8], token: Token) -> &[u8]
    ensures { result.now ≡ slice_of text.now token }
{
    let from = token.from as usize;
    let to = token.to as usize;
    if from >= text.len() {
        return &text[text.len()..];
    }
    let rest = &text[from..];
    let len = to.saturating_sub(from);
    if len < rest.len() { &rest[..len] } else { rest }
}

// A text of these bytes. Those of a token of a UTF-8 text are UTF-8.
fn text_of(bytes: Vec<u8>) -> Result<Text, NoMemory>
    ensures { IfOk result (λ t. t ≡ bytes.items) }
{
    match String::from_utf8(bytes) {
        Ok(text) => Text::of_string(text),
        Err(_) => Err(NoMemory),
    }
}

fn number(raw: &[u8]) -> i64
    ensures { result ≡ pos (unwrap_or (number_of raw.now) 0) }
{
    match number_of(raw) {
        Some(n) => n as i64,
        None => 0,
    }
}

fn symbol(raw: &[u8]) -> Result<Symbol, NoMemory>
    ensures { IfOk result (λ s. s ≡ symbol_of raw.now) }
{
    match std::str::from_utf8(raw) {
        Ok(text) => Ok(symbol_of(text)),
        Err(_) => Err(NoMemory),
    }
}

fn quoted(alloc: Global, raw: &[u8]) -> Result<Text, NoMemory>
    ensures { IfOk result (λ t. t ≡ unescaped false (within_quotes raw.now)) }
{
    if raw.len() < 2 {
        return text_of(Vec::new(alloc));
    }
    text_of(unescaped(alloc, &raw[1..raw.len() - 1])?)
}

/// What a token says, and its place.
pub fn lexeme_of(alloc: Global, text: &[u8], token: Token) -> Result<Lexeme, NoMemory>
    ensures { IfOk result (λ l. l ≡ lexeme_of text.now token) }
{
    let raw = slice_of(text, token);
    let content = match token.kind {
        TokenKind::Word => Content::Word(text_of(Vec::from_slice(alloc, raw)?)?),
        TokenKind::Number => Content::Number(number(raw)),
        TokenKind::Text => Content::Quoted(quoted(alloc, raw)?),
        TokenKind::Symbol => Content::Symbol(symbol(raw)?),
    };
    Ok(Lexeme {
        at: token.from,
        content,
    })
}

/// What tokens say.
pub fn lexemes(alloc: Global, text: &[u8], tokens: &[Token]) -> Result<Vec<Lexeme>, NoMemory>
    ensures { IfOk result (λ v. v.items ≡ map (lexeme_of text.now) tokens.now) }
{
    let mut lexemes = Vec::new(alloc);
    for token in tokens {
        lexemes.push(lexeme_of(alloc, text, *token)?)?;
    }
    Ok(lexemes)
}

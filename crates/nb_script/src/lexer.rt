//! Tokens: words, numbers, texts and symbols, with blanks and comments between them.
ghost use Rattle.std.specs.Prelude.{◌≡◌, ◌+◌, ◌≤◌, ◌<◌, ◌^◌, ◌==◌, not, length, drop, take_while, IfSome, IfOk};
ghost use Rattle.nb_script.specs.declared.script.TheConstants.{MOST_BYTES};
ghost use Rattle.nb_script.specs.Lexing.{is_letter, is_digit, is_word, is_blank, is_escape, inside_len, text_len, number_of, symbol_len, piece, piece_len, lexed};
ghost use Rattle.nb_script.specs.Lexing as spec;

use nb_base::{Copied, Items, NoMemory};
use std::alloc::Global;

/// What a token is.
#[derive(Clone, Copy, Debug, PartialEq, Eq)]
pub enum TokenKind {
    /// A letter or `_`, and then letters, digits and `_`.
    Word,
    /// Digits.
    Number,
    /// A text in double quotes.
    Text,
    Symbol,
}

/// A token, by the places of its bytes: from its first one to the one behind it.
#[derive(Clone, Copy, Debug, PartialEq, Eq)]
pub struct Token {
    pub kind: TokenKind,
    pub from: u32,
    pub to: u32,
}

impl Copied for Token {
    fn copy(&self) -> Result<Token, NoMemory> {
        Ok(*self)
    }
}

/// Tokens in the order of a text.
pub type Tokens = Items<Token>;

/// Why no token can be read.
#[derive(Clone, Copy, Debug, PartialEq, Eq)]
pub enum LexFault {
    /// No token begins so.
    Token,
    /// A text doesn't end, or has a character or an escape that it may not have.
    Text,
    /// A number is too great.
    Number,
}

/// What stands at a place of a text.
#[derive(Clone, Copy, Debug, PartialEq, Eq)]
pub enum Piece {
    End,
    /// Blanks or a comment.
    Gap(usize),
    Token(TokenKind, usize),
    Bad(LexFault),
}

/// What stands behind the last token that can be read.
#[derive(Clone, Copy, Debug, PartialEq, Eq)]
pub enum Tail {
    End,
    /// A fault at a place.
    Bad(LexFault, u32),
}

/// The tokens of a text up to where none can be read.
#[derive(Debug, Drop)]
pub struct Scanned {
    pub tokens: Tokens,
    pub tail: Tail,
}

fn is_letter(b: u8) -> bool
    ensures { result ≡ is_letter b }
{
    matches!(b, b'a'..=b'z' | b'A'..=b'Z' | b'_')
}

fn is_digit(b: u8) -> bool
    ensures { result ≡ is_digit b }
{
    matches!(b, b'0'..=b'9')
}

fn is_word(b: u8) -> bool
    ensures { result ≡ is_word b }
{
    is_letter(b) || is_digit(b)
}

fn is_blank(b: u8) -> bool
    ensures { result ≡ is_blank b }
{
    matches!(b, b' ' | b'\t' | b'\r' | b'\n')
}

fn is_escape(b: u8) -> bool
    ensures { result ≡ is_escape b }
{
    matches!(b, b'"' | b'\\' | b'n' | b'r' | b't')
}

fn word_len(bytes: &[u8]) -> usize
    ensures value { result ≡ length (take_while is_word bytes.now) }
    ensures bound { result ≤ length bytes.now }
{
    bytes.iter().take_while(|b| is_word(**b)).count()
}

fn number_len(bytes: &[u8]) -> usize
    ensures value { result ≡ length (take_while is_digit bytes.now) }
    ensures bound { result ≤ length bytes.now }
{
    bytes.iter().take_while(|b| is_digit(**b)).count()
}

fn blank_len(bytes: &[u8]) -> usize
    ensures value { result ≡ length (take_while is_blank bytes.now) }
    ensures bound { result ≤ length bytes.now }
{
    bytes.iter().take_while(|b| is_blank(**b)).count()
}

fn line_len(bytes: &[u8]) -> usize
    ensures value { result ≡ length (take_while (λ b. not (b == 10)) bytes.now) }
    ensures bound { result ≤ length bytes.now }
{
    bytes.iter().take_while(|b| **b != b'\n').count()
}

// The bytes of a text behind its opening quote, with its closing one.
fn text_len(bytes: &[u8]) -> Option<usize>
    requires { length bytes.now < 2 ^ 32 }
    ensures value { result ≡ text_len bytes.now }
    ensures bound { IfSome result (λ n. n ≤ length bytes.now) }
{
    let mut at = 0;
    while at < bytes.len() {
        let (_, after) = bytes.split_at(at + 1);
        let step = inside_len(bytes[at], after)?;
        if step == 0 {
            return Some(at + 1);
        }
        at += step;
    }
    None
}

// The bytes of one character inside of a text, by its first one and those after it, and 0 for the closing quote.
fn inside_len(b: u8, after: &[u8]) -> Option<usize>
    ensures value { result ≡ inside_len b after.now }
    ensures bound { IfSome result (λ n. n ≤ length after.now + 1) }
{
    match b {
        b'"' => Some(0),
        b'\\' => match after {
            [c, ..] if is_escape(*c) => Some(2),
            _ => None,
        },
        0..=31 => None,
        _ => Some(1),
    }
}

/// The value of digits, where it isn't above 9223372036854775807.
pub fn number_of(digits: &[u8]) -> Option<u64>
    ensures value { result ≡ number_of digits.now }
    ensures bound { IfSome result (λ n. n ≤ 9223372036854775807) }
{
    let mut n: u64 = 0;
    for b in digits {
        if n > 922337203685477580 {
            return None;
        }
        n = n * 10 + u64::from(b.saturating_sub(48));
        if n > 9223372036854775807 {
            return None;
        }
    }
    Some(n)
}

// A number in front.
fn number_piece(bytes: &[u8]) -> Piece
    ensures value { result ≡ spec.number_piece (length (take_while is_digit bytes.now))
        (number_of (take_while is_digit bytes.now)) }
    ensures bound { piece_len result ≤ length bytes.now }
{
    let len = number_len(bytes);
    match number_of(&bytes[..len]) {
        Some(_) => Piece::Token(TokenKind::Number, len),
        None => Piece::Bad(LexFault::Number),
    }
}

// The longest symbol in front.
fn symbol_len(bytes: &[u8]) -> usize
    ensures value { result ≡ symbol_len bytes.now }
    ensures bound { result ≤ length bytes.now }
{
    match bytes {
        [b'=' | b'!' | b'<' | b'>', b'=', ..] => 2,
        [b'+', b'+', ..] | [b'&', b'&', ..] | [b'|', b'|', ..] => 2,
        [
            b'{'
            | b'}'
            | b'('
            | b')'
            | b','
            | b';'
            | b':'
            | b'.'
            | b'='
            | b'<'
            | b'>'
            | b'+'
            | b'-'
            | b'*'
            | b'!',
            ..
        ] => 1,
        _ => 0,
    }
}

/// What stands in front.
#[tactic(auto, unfolding(crate::specs::Lexing::piece))]
pub fn front_of(bytes: &[u8]) -> Piece
    requires { length bytes.now < 2 ^ 32 }
    ensures value { result ≡ piece bytes.now }
    ensures bound { piece_len result ≤ length bytes.now }
{
    match bytes {
        [] => Piece::End,
        [b'/', b'/', ..] => Piece::Gap(line_len(bytes)),
        [b'"', rest @ ..] => match text_len(rest) {
            Some(n) => Piece::Token(TokenKind::Text, n + 1),
            None => Piece::Bad(LexFault::Text),
        },
        [b, ..] if is_blank(*b) => Piece::Gap(blank_len(bytes)),
        [b, ..] if is_letter(*b) => Piece::Token(TokenKind::Word, word_len(bytes)),
        [b, ..] if is_digit(*b) => number_piece(bytes),
        _ => match symbol_len(bytes) {
            0 => Piece::Bad(LexFault::Token),
            n => Piece::Token(TokenKind::Symbol, n),
        },
    }
}

/// The tokens of a text, up to where none can be read.
pub fn scan(alloc: Global, text: &[u8]) -> Result<Scanned, NoMemory>
    requires { length text.now ≤ MOST_BYTES }
    ensures { IfOk result (λ s. s ≡ lexed text.now) }
{
    let mut tokens = Items::new(alloc);
    let mut at = 0;
    for _ in 0..text.len() {
        let (_, rest) = text.split_at(at);
        match front_of(rest) {
            Piece::End => return Ok(Scanned {
                tokens,
                tail: Tail::End,
            }),
            Piece::Gap(n) => at += n,
            Piece::Token(kind, n) => {
                let from = at as u32;
                at += n;
                let to = at as u32;
                tokens.push(Token { kind, from, to })?;
            }
            Piece::Bad(fault) => {
                let tail = Tail::Bad(fault, at as u32);
                return Ok(Scanned { tokens, tail });
            }
        }
    }
    Ok(Scanned {
        tokens,
        tail: Tail::End,
    })
}

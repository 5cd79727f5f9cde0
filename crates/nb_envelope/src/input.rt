//! An input of lines, each an envelope.
ghost use Rattle.std.specs.Prelude.{◌≡◌, ◌<◌, ◌∷◌, ◌++◌, ◌==◌, ◌≤◌, [], length, position, count_by, MatchOption, IfSome, OnOk};
ghost use Rattle.std.specs.Str.Lines.{lines, strip_carriage_return};
ghost use Rattle.nb_envelope.specs.Inputs.{line_past, line_at, messages_of, Gives, GivesSome, one_or_none};

use crate::line::{LineFault, read_line};
use nb_base::{Copied, Envelope, Envelopes, Items, NoMemory};
use std::alloc::Global;

/// The most bytes that an input has.
const MOST_BYTES: usize = 16777216;

/// The most lines that an input has, the empty ones too.
const MOST_LINES: u64 = 100000;

/// Why a line of an input is bad.
#[derive(Debug, Drop)]
pub enum InputKind {
    /// The first byte past 16777216 stands in the line.
    TooMuch,
    /// The line is the 100001st.
    TooMany,
    /// The line is no envelope.
    Line(LineFault),
    NoMemory,
}

/// The first bad line of an input, counted from 1, or 0 where there was no memory.
#[derive(Debug, Drop)]
pub struct InputFault {
    pub line: u64,
    pub kind: InputKind,
}

impl Copied for InputKind {
    fn copy(&self) -> Result<InputKind, NoMemory> {
        match self {
            InputKind::TooMuch => Ok(InputKind::TooMuch),
            InputKind::TooMany => Ok(InputKind::TooMany),
            InputKind::Line(fault) => Ok(InputKind::Line(fault.copy()?)),
            InputKind::NoMemory => Ok(InputKind::NoMemory),
        }
    }
}

impl Copied for InputFault {
    fn copy(&self) -> Result<InputFault, NoMemory> {
        Ok(InputFault {
            line: self.line,
            kind: self.kind.copy()?,
        })
    }
}

impl From<NoMemory> for InputFault {
    ghost use Rattle.std.specs.Prelude.{◌≡◌};
    ghost use Rattle.nb_envelope.specs.declared.input.InputKind.TheVariants.{NoMemory};

    ghost from_gives = { λ _ e. e ≡ record { line = 0; kind = NoMemory } };

    fn from(_refused: NoMemory) -> InputFault {
        InputFault {
            line: 0,
            kind: InputKind::NoMemory,
        }
    }
}

/// The line without the one carriage return at its end, if it has one.
fn stripped(line: &[u8]) -> &[u8]
    ensures { result.now ≡ strip_carriage_return line.now }
{
    match line {
        [front @ .., b'\r'] => front,
        _ => line,
    }
}

/// The place of the first line feed.
fn feed_at(rest: &[u8]) -> Option<usize>
    ensures place { result ≡ position (λ b. b == 10) rest.now }
    ensures within { IfSome result (λ i. i < length rest.now) }
{
    rest.iter().position(|b| *b == b'\n')
}

/// The first line, and what follows it.
pub fn next_line(rest: &[u8]) -> Option<(&[u8], &[u8])>
    ensures value { MatchOption result
        (rest.now ≡ [])
        (λ p. lines rest.now ≡ p.0.now ∷ lines p.1.now) }
    ensures shorter { IfSome result (λ p. length p.1.now < length rest.now) }
{
    if rest.is_empty() {
        return None;
    }
    match feed_at(rest) {
        Some(i) => Some((stripped(&rest[..i]), &rest[i + 1..])),
        None => Some((rest, &rest[rest.len()..])),
    }
}

/// How many line feeds there are.
fn feeds_in(bytes: &[u8]) -> usize
    ensures value { result ≡ count_by (λ b. b == 10) bytes.now }
    ensures few { result ≤ length bytes.now }
{
    bytes.iter().filter(|b| **b == b'\n').count()
}

/// The line of the first byte past the limit of 16777216.
pub fn line_past(input: &[u8]) -> Option<u64>
    ensures { result ≡ line_past input.now }
{
    if input.len() <= MOST_BYTES {
        return None;
    }
    let (front, _) = input.split_at(MOST_BYTES);
    Some(feeds_in(front) as u64 + 1)
}

/// The envelope of the line with this number, if it isn't empty.
pub fn message_at(
    alloc: Global,
    past: Option<u64>,
    n: u64,
    line: &[u8],
) -> Result<Option<Envelope>, InputFault>
    ensures { GivesSome result (line_at past n line.now) }
{
    if past == Some(n) {
        return Err(InputFault {
            line: n,
            kind: InputKind::TooMuch,
        });
    }
    if n > MOST_LINES {
        return Err(InputFault {
            line: n,
            kind: InputKind::TooMany,
        });
    }
    if line.is_empty() {
        return Ok(None);
    }
    match read_line(alloc, line) {
        Ok(message) => Ok(Some(message)),
        Err(LineFault::NoMemory) => Err(InputFault::from(NoMemory)),
        Err(e) => Err(InputFault {
            line: n,
            kind: InputKind::Line(e),
        }),
    }
}

/// Adds the envelope, if there is one.
fn keep(list: &mut Envelopes, message: Option<Envelope>) -> Result<(), NoMemory>
    ensures ok { OnOk result (list.new ≡ list.old ++ one_or_none message) }
{
    match message {
        Some(message) => list.push(message),
        None => Ok(()),
    }
}

/// The envelopes of an input, or its first bad line. The input is cut at line feeds, a carriage return before one is
/// dropped, and empty lines are skipped but counted.
pub fn read_lines(alloc: Global, input: &[u8]) -> Result<Envelopes, InputFault>
    ensures { Gives result (messages_of input.now) }
{
    let past = line_past(input);
    let mut list = Items::new(alloc);
    let mut rest = input;
    let mut n = 1;
    while let Some((line, more)) = next_line(rest) {
        let message = message_at(alloc, past, n, line)?;
        keep(&mut list, message)?;
        rest = more;
        n += 1;
    }
    Ok(list)
}

//! What headers say of a message: its id, its type and its round of retries.
ghost use Rattle.std.specs.Prelude.{◌≡◌, ◌<◌, ◌≤◌, ◌^◌, ◌==◌, true, bytes_eq, length, position, IfSome};
ghost use Rattle.std.specs.Char.{is_ascii_digit};
ghost use Rattle.std.specs.List.{list_all, before_first};
ghost use Rattle.std.specs.Str.Parse.{digits_value};
ghost use Rattle.nb_headers.specs.Reads.{id_of, type_name, trimmed_start, trimmed_end, entries_of, first_declared, message_type, is_round, round_in, round_of};

use crate::names::{ENCLOSED_MESSAGE_TYPES, MESSAGE_ID, RETRIES};
use nb_base::{Envelope, Names, Text};

/// The id of a message, which isn't empty.
#[tactic(auto, unfolding(crate::specs::Reads::id_of))]
pub fn message_id(envelope: &Envelope) -> &Text
    ensures value { result.now ≡ id_of envelope.now }
    ensures some { 0 < length result.now }
{
    envelope.header(MESSAGE_ID).unwrap()
}

/// The bytes without the spaces at their start.
fn trimmed_start(mut text: &[u8]) -> &[u8]
    ensures { result.now ≡ trimmed_start text.entry.now }
{
    while let [b' ', rest @ ..] = text {
        text = rest;
    }
    text
}

/// The bytes without the spaces at their end.
fn trimmed_end(mut text: &[u8]) -> &[u8]
    ensures { result.now ≡ trimmed_end text.entry.now }
{
    while let [rest @ .., b' '] = text {
        text = rest;
    }
    text
}

/// What stands before the first comma.
fn before_comma(entry: &str) -> &[u8]
    ensures { result.now ≡ before_first (λ c. c == 44) entry.now }
{
    match entry.split_once(',') {
        Some((name, _)) => name.as_bytes(),
        None => entry.as_bytes(),
    }
}

/// The name of a type: what stands before the first comma, without the spaces (U+0020 alone) round it.
pub fn type_name(entry: &str) -> &[u8]
    ensures { result.now ≡ type_name entry.now }
{
    trimmed_end(trimmed_start(before_comma(entry)))
}

/// The position at which a name is declared.
fn declared_at(name: &[u8], declared: &Names) -> Option<usize>
    ensures place { result ≡ position (bytes_eq name.now) declared.now }
    ensures within { IfSome result (λ i. i < length declared.now) }
{
    declared
        .as_slice()
        .iter()
        .position(|other| name == other.as_str().as_bytes())
}

/// The position at which the name of an entry is declared.
fn place_of(entry: &str, declared: &Names) -> Option<u32>
    ensures { result ≡ position (bytes_eq (type_name entry.now)) declared.now }
{
    let _count = declared.len();
    let place = declared_at(type_name(entry), declared)?;
    Some(place as u32)
}

/// The position of the first entry that is declared.
fn first_declared(text: &str, declared: &Names) -> Option<u32>
    ensures { result ≡ first_declared declared.now (entries_of text.now) }
{
    let mut rest = text;
    while let Some((entry, more)) = rest.split_once(';') {
        if let Some(place) = place_of(entry, declared) {
            return Some(place);
        }
        rest = more;
    }
    place_of(rest, declared)
}

/// The type of a message, as a position among the declared names: the header of its types is cut at the semicolons, each
/// entry is cut before its first comma and trimmed of spaces (U+0020 alone), and the first declared one counts.
#[tactic(auto, unfolding(crate::specs::Reads::message_type))]
pub fn message_type(envelope: &Envelope, declared: &Names) -> Option<u32>
    ensures { result ≡ message_type envelope.now declared.now }
{
    match envelope.header(ENCLOSED_MESSAGE_TYPES) {
        Some(text) => first_declared(text.as_str(), declared),
        None => None,
    }
}

/// Whether each byte is a decimal digit.
fn all_digits(text: &str) -> bool
    ensures { result ≡ list_all is_ascii_digit text.now }
{
    text.as_bytes().iter().all(|b| b.is_ascii_digit())
}

/// The value of one to four digits.
fn value(text: &str) -> u32
    requires some { 0 < length text.now }
    requires few { length text.now ≤ 4 }
    requires digits { list_all is_ascii_digit text.now ≡ true }
    ensures { result ≡ digits_value 10 text.now }
{
    text.parse().unwrap_or(0)
}

/// The round that a text gives.
fn round_in(text: &str) -> u32
    ensures { result ≡ round_in text.now }
{
    if text.is_empty() || text.len() > 4 || !all_digits(text) {
        return 0;
    }
    let round = value(text);
    if round > 1000 {
        return 0;
    }
    round
}

/// How many rounds of delayed retries a message has had, as its header says in one to four digits, from 0 to 1000.
/// Without that header, or with another text, it has had none.
#[tactic(auto, unfolding(crate::specs::Reads::round_of))]
pub fn round(envelope: &Envelope) -> u32
    ensures { result ≡ round_of envelope.now }
{
    match envelope.header(RETRIES) {
        Some(text) => round_in(text.as_str()),
        None => 0,
    }
}

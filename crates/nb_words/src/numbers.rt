//! Numbers and commands, as the words write them.
ghost use Rattle.std.specs.Prelude.{◌≡◌, ◌^◌, nat_lt, if◌then◌else◌, true, Some, None};
ghost use Rattle.std.specs.Char.{is_ascii_digit};
ghost use Rattle.std.specs.List.{list_all};
ghost use Rattle.std.specs.Str.Parse.{digits_value};
ghost use Rattle.nb_words.specs.Cli.{is_number, number_in, command_of};

use crate::words::Command;

/// The command that a word names.
pub fn command_named(word: &str) -> Option<Command>
    ensures { result ≡ command_of word.now }
{
    match word {
        "run" => Some(Command::Run),
        "show" => Some(Command::Show),
        "retry" => Some(Command::Retry),
        "purge" => Some(Command::Purge),
        "sample" => Some(Command::Sample),
        _ => None,
    }
}

/// Whether each byte is a decimal digit.
fn all_digits(text: &str) -> bool
    ensures { result ≡ list_all is_ascii_digit text.now }
{
    text.as_bytes().iter().all(|b| b.is_ascii_digit())
}

/// Whether the text is one to twenty decimal digits.
fn is_number(text: &str) -> bool
    ensures { result ≡ is_number text.now }
{
    if text.is_empty() || text.len() > 20 {
        return false;
    }
    all_digits(text)
}

/// The value of one to twenty digits, where 64 bits hold it.
fn value(text: &str) -> Option<u64>
    requires { is_number text.now ≡ true }
    ensures { result ≡ (if nat_lt (digits_value 10 text.now)
        (2 ^ 64) then Some (digits_value 10 text.now) else None) }
{
    text.parse::<u64>().ok()
}

/// One to twenty digits with a value in the range.
pub fn number(text: &str, low: u64, high: u64) -> Option<u64>
    ensures { result ≡ number_in low high text.now }
{
    if !is_number(text) {
        return None;
    }
    let n = value(text)?;
    if low <= n && n <= high { Some(n) } else { None }
}

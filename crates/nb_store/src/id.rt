//! The ids of sagas: a text, the number of the commit that gave the id, and an index, parted by slashes.
ghost use Rattle.std.specs.Prelude.{◌≡◌, ◌≢◌, ◌&&◌, nat_le, ◌≤◌, ◌<◌, ◌^◌, ◌++◌, ◌∷◌, ◌↔◌, ℕ, IsTrue, MatchOption};
ghost use Rattle.std.specs.Char.{is_ascii_digit};
ghost use Rattle.std.specs.Fmt.{decimal};
ghost use Rattle.std.specs.List.{list_all};
ghost use Rattle.nb_base.specs.Sound.{is_index, IsSagaId, IsVersion};
ghost use Rattle.nb_store.specs.Ids.{HasNoSlash};

/// What stands before the last slash, and after it.
fn split_last(text: &str) -> Option<(&str, &str)>
    ensures { MatchOption result (HasNoSlash text.now) (λ p. (text.now ≡ p.0.now ++ 47 ∷ p.1.now) × HasNoSlash p.1.now) }
{
    text.rsplit_once('/')
}

/// Whether each byte is a decimal digit.
fn all_digits(text: &str) -> bool
    ensures { result ≡ list_all is_ascii_digit text.now }
{
    text.as_bytes().iter().all(|b| b.is_ascii_digit())
}

/// Whether the text is a number from 1, without leading zeros.
fn is_index(text: &str) -> bool
    ensures { result ≡ is_index text.now }
{
    match text.as_bytes() {
        [first, ..] => *first > b'0' && all_digits(text),
        [] => false,
    }
}

/// The number from 1 that the text is, without leading zeros.
fn number_in(text: &str) -> Option<u64>
    ensures { MatchOption result ((n : ℕ) → 1 ≤ n → n < 2 ^ 64 → text.now ≢ decimal n) (λ n. text.now ≡ decimal n) }
{
    if !is_index(text) {
        return None;
    }
    match text.parse::<u64>() {
        Ok(n) => Some(n),
        Err(_) => None,
    }
}

/// Whether a number lies from 1 to this one.
pub(crate) fn is_from_1(n: u64, most: u64) -> bool
    ensures { result ≡ (nat_le 1 n && nat_le n most) }
{
    1 <= n && n <= most
}

/// Whether the text is a number from 1 to this one, without leading zeros.
fn is_version(text: &str, commits: u64) -> bool
    ensures { IsTrue result ↔ ((n : ℕ) × IsVersion commits n × (text.now ≡ decimal n)) }
{
    match number_in(text) {
        Some(n) => is_from_1(n, commits),
        None => false,
    }
}

/// Whether the text is the id of a saga, given by one of the first so many commits.
pub(crate) fn is_saga_id(id: &str, commits: u64) -> bool
    ensures { IsTrue result ↔ IsSagaId commits id.now }
{
    let Some((front, index)) = split_last(id) else {
        return false;
    };
    let Some((_, number)) = split_last(front) else {
        return false;
    };
    is_index(index) && is_version(number, commits)
}

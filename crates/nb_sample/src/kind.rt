//! The kinds of messages in the sample.
ghost use Rattle.std.specs.Prelude.{◌≡◌};
ghost use Rattle.nb_sample.specs.Kinds.{kind_of, type_name};

/// A kind of messages, by what handling one does.
#[derive(Clone, Copy, Debug, Drop)]
pub(crate) enum Kind {
    /// Adds an amount to an account.
    Deposit,
    /// Opens a ticket, which is a saga.
    Open,
    /// Shuts the ticket that was opened before.
    Shut,
    /// Is never handled, and goes to the error queue at once.
    Refuse,
    /// Is handled after a delayed retry.
    Flaky,
}

/// The kind of the message for which the seed and the number add up to `k`.
pub(crate) fn kind_of(k: u128) -> Kind
    ensures { result ≡ kind_of k }
{
    match k % 4 {
        0 => Kind::Deposit,
        1 => Kind::Open,
        2 => Kind::Shut,
        _ if k % 100 == 99 => Kind::Refuse,
        _ => Kind::Flaky,
    }
}

/// The type of its messages.
pub(crate) fn type_name(kind: Kind) -> &'static str
    ensures { result.now ≡ type_name kind }
{
    match kind {
        Kind::Deposit => "Deposit",
        Kind::Open => "Open",
        Kind::Shut => "Shut",
        Kind::Refuse => "Refuse",
        Kind::Flaky => "Flaky",
    }
}

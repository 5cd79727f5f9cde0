//! The bodies of the sample's messages.
ghost use Rattle.std.specs.Prelude.{◌≡◌, ◌<◌, IfOk};
ghost use Rattle.nb_sample.specs.Kinds.{deposit_body, open_body, shut_body, body_of};

use crate::kind::Kind;
use nb_base::{NoMemory, Text};
use std::alloc::Global;

/// What adds an amount to an account.
fn deposit_body(alloc: Global, k: u128) -> Result<Text, NoMemory>
    ensures { IfOk result (λ t. t ≡ deposit_body k) }
{
    let digit = k % 10;
    let text = format!(in alloc; "{{\"account\":\"a{digit}\",\"amount\":{digit}}}")?;
    Text::of_string(text)
}

/// What opens a ticket.
fn open_body(alloc: Global, k: u128) -> Result<Text, NoMemory>
    ensures { IfOk result (λ t. t ≡ open_body k) }
{
    let ticket = k % 100;
    let text = format!(in alloc; "{{\"ticket\":\"t{ticket}\"}}")?;
    Text::of_string(text)
}

/// What shuts the ticket that was opened before.
fn shut_body(alloc: Global, k: u128) -> Result<Text, NoMemory>
    requires { 0 < k }
    ensures { IfOk result (λ t. t ≡ shut_body k) }
{
    let force = k % 8 == 2;
    let ticket = (k - 1) % 100;
    let text = format!(in alloc; "{{\"force\":{force},\"ticket\":\"t{ticket}\"}}")?;
    Text::of_string(text)
}

/// The body of a message of this kind.
pub(crate) fn body_of(alloc: Global, kind: Kind, k: u128) -> Result<Text, NoMemory>
    requires { 0 < k }
    ensures { IfOk result (λ t. t ≡ body_of kind k) }
{
    match kind {
        Kind::Deposit => deposit_body(alloc, k),
        Kind::Open => open_body(alloc, k),
        Kind::Shut => shut_body(alloc, k),
        Kind::Refuse | Kind::Flaky => Text::new(alloc, "{}"),
    }
}

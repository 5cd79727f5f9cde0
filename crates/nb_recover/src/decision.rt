//! Whether a message that failed is tried again.
ghost use Rattle.std.specs.Prelude.{◌≡◌, ◌+◌, ◌*◌, ◌≤◌};
ghost use Rattle.nb_recover.specs.Decisions.{policy_of, decide};

use crate::moves::Move;
use nb_base::{Action, Policies, Settings};

/// The action that the policies have for the faults of a name.
fn policy_of(policies: &Policies, name: &str) -> Option<Action>
    ensures { result ≡ policy_of policies.now name.now }
{
    policies
        .as_slice()
        .iter()
        .find(|p| name == p.name.as_str())
        .map(|p| p.action)
}

/// The seconds that a round of delayed retries waits.
fn delay_of(round: u32, increase: u64) -> u64
    requires rounds { round ≤ 1000 }
    requires increase { increase ≤ 86400 }
    ensures { result ≡ round * increase }
{
    u64::from(round) * increase
}

/// What is done after a failure by a fault of this name, or by a conflict, whose name is `Conflict`. The entry has failed
/// so many times, this time included, in this round of delayed retries.
#[tactic(auto, unfolding(crate::specs::Decisions::decide))]
pub fn decide(settings: &Settings, name: &str, fails: u32, round: u32, unrecoverable: bool) -> Move
    ensures { result ≡ decide settings.now name.now fails round unrecoverable }
{
    match policy_of(&settings.policies, name) {
        Some(Action::Discard) => Move::Discard,
        Some(Action::Error) => Move::Error,
        _ if unrecoverable => Move::Error,
        _ if fails <= settings.immediate => Move::Again,
        None if round < settings.delayed => Move::Later {
            round: round + 1,
            delay: delay_of(round + 1, settings.increase),
        },
        Some(Action::Immediate) | None => Move::Error,
    }
}

//! What a command does at a hub.
ghost use Rattle.std.specs.Prelude.{◌≡◌, IfOk, OnErr};
ghost use Rattle.nb_endpoint.specs.Works.{CanDo, IsListed, chore_of};
ghost use Rattle.nb_hub.specs.Kept.{seen};
ghost use Rattle.nb_hub.specs.Ledgers.{past_of};

use nb_base::{Handling, Names, NoMemory, Numbers};
use nb_cells::Cells;
use nb_hub::Hub;
use nb_words::Command;

/// What a command does at a hub.
#[derive(Drop)]
pub enum Chore {
    /// Loads messages, and handles what is due.
    Handle,
    /// Nothing.
    Rest,
    /// Puts these entries of the error queue back.
    Return(Numbers),
    /// Purges these records.
    Purge(Names),
}

/// What a command does at this hub.
pub fn chore_of<M: Handling + Drop, P: Cells, D: Cells>(
    command: Command,
    hub: &Hub<M, P, D>,
) -> Result<Chore, NoMemory>
    ensures chore { IfOk result
        (λ x. x ≡ chore_of command (seen (past_of (M.meaning hub.now.handlers) hub.now.course))) }
    ensures refused { OnErr result (IsListed command) }
    ensures can { IfOk result
        (λ x. CanDo x (seen (past_of (M.meaning hub.now.handlers) hub.now.course))) }
{
    match command {
        Command::Run => Ok(Chore::Handle),
        Command::Show => Ok(Chore::Rest),
        Command::Retry => match hub.returnable() {
            Ok(numbers) => Ok(Chore::Return(numbers)),
            Err(NoMemory) => Err(NoMemory),
        },
        Command::Purge => match hub.purgeable() {
            Ok(ids) => Ok(Chore::Purge(ids)),
            Err(NoMemory) => Err(NoMemory),
        },
        Command::Sample => Ok(Chore::Rest),
    }
}

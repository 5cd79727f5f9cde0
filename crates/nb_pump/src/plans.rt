//! What is done at a desk at rest: messages are loaded, what failed is put back, records are
//! purged.
ghost use Rattle.std.specs.Prelude.{◌≡◌, false};
ghost use Rattle.nb_core.specs.Legal.{halted};
ghost use Rattle.nb_pump.specs.Drains.{Standing};
ghost use Rattle.nb_pump.specs.Plans.{CanPurgeAll, CanReturnAll, Goes, StandOnce};
ghost use Rattle.nb_pump.specs.Plans.{loads_of, purges_of, returns_of};

use nb_base::{Copied, Envelope, Items, Names, NoMemory, Numbers};
use nb_core::{Desk, DeskFault};

/// Loads messages into the own queue, in order.
pub fn load_all<D: Desk>(desk: &mut D, messages: &Items<Envelope>) -> Result<(), DeskFault>
    requires standing { Standing (D.view desk.old) }
    requires on { halted (D.view desk.old).events ≡ false }
    ensures loads { Goes (loads_of messages.now) result (D.view desk.old) (D.view desk.new) }
    ensures stands { (start : D.Start) → D.stands start desk.old → D.stands start desk.new }
    ensures caused { D.caused desk.old → D.caused desk.new }
{
    for i in 0..messages.len() {
        let envelope = match messages.at(i).copy() {
            Ok(envelope) => envelope,
            Err(NoMemory) => return Err(DeskFault::NoMemory),
        };
        match desk.load(envelope) {
            Ok(()) => {}
            Err(fault) => return Err(fault),
        }
    }
    Ok(())
}

/// Puts entries of the error queue back into the queues in which they failed, in order.
pub fn return_all<D: Desk>(desk: &mut D, numbers: &Numbers) -> Result<(), DeskFault>
    requires standing { Standing (D.view desk.old) }
    requires on { halted (D.view desk.old).events ≡ false }
    requires can { CanReturnAll (D.view desk.old) numbers.now }
    requires once { StandOnce numbers.now }
    ensures returns { Goes (returns_of numbers.now) result (D.view desk.old) (D.view desk.new) }
    ensures stands { (start : D.Start) → D.stands start desk.old → D.stands start desk.new }
    ensures caused { D.caused desk.old → D.caused desk.new }
{
    for i in 0..numbers.len() {
        let number = *numbers.at(i);
        match desk.put_back(number) {
            Ok(()) => {}
            Err(fault) => return Err(fault),
        }
        match desk.drop_back(number) {
            Ok(()) => {}
            Err(fault) => return Err(fault),
        }
    }
    Ok(())
}

/// Purges records, in order.
pub fn purge_all<D: Desk>(desk: &mut D, ids: &Names) -> Result<(), DeskFault>
    requires standing { Standing (D.view desk.old) }
    requires on { halted (D.view desk.old).events ≡ false }
    requires can { CanPurgeAll (D.view desk.old) ids.now }
    requires once { StandOnce ids.now }
    ensures purges { Goes (purges_of ids.now) result (D.view desk.old) (D.view desk.new) }
    ensures stands { (start : D.Start) → D.stands start desk.old → D.stands start desk.new }
    ensures caused { D.caused desk.old → D.caused desk.new }
{
    for i in 0..ids.len() {
        match desk.purge(ids.at(i)) {
            Ok(()) => {}
            Err(fault) => return Err(fault),
        }
    }
    Ok(())
}

//! The changes of cells that the writes of a plan are.
ghost use Rattle.std.specs.Prelude.{◌≡◌, IfOk, OnOk};
ghost use Rattle.std.specs.List.{AllByRecursion};
ghost use Rattle.nb_saga_store.specs.Writes.{written_of, change_of, changes_of, CanWrite};
ghost use Rattle.nb_saga_store.specs.Written.{IsSpelled};

use crate::written::Written;
use nb_base::{Items, NoMemory, Plan, Text, Write};
use nb_cells::{Change, Changes};
use std::alloc::Global;

/// The change of the cell that a write of the commit with this number changes.
#[tactic(auto, using(crate::proofs::ChangeLaws::can_spell))]
fn write_change(alloc: Global, write: &Write, endpoint: &Text, n: u64) -> Result<Change, NoMemory>
    requires { CanWrite write.now }
    ensures change { IfOk result (λ c. c ≡ change_of (written_of endpoint.now n write.now)) }
    ensures fits { OnOk result (IsSpelled (written_of endpoint.now n write.now)) }
{
    Written::of(alloc, write, endpoint, n)?.change(alloc)
}

/// The changes of the writes of a plan by the commit with this number, in order. New sagas get its ids.
pub fn write_changes(
    alloc: Global,
    plan: &Plan,
    endpoint: &Text,
    n: u64,
) -> Result<Changes, NoMemory>
    requires { AllByRecursion CanWrite plan.now.writes }
    ensures changes { IfOk result (λ changes. changes ≡ changes_of endpoint.now n plan.now.writes) }
    ensures fits { OnOk result (AllByRecursion (λ w. IsSpelled (written_of endpoint.now n w)) plan.now.writes) }
{
    let mut changes = Items::new(alloc);
    for i in 0..plan.writes.len() {
        let change = write_change(alloc, plan.writes.at(i), endpoint, n)?;
        changes.push(change)?;
    }
    Ok(changes)
}

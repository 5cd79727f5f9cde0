//! How work over two stores ends: the report, or the fault that was met.
ghost use Rattle.std.specs.Prelude.{◌≡◌, List, IfErr};
ghost use Rattle.nb_core.specs.declared.event.Event.{Event};
ghost use Rattle.nb_endpoint.specs.Faults.{of_start, IsMet, IsStatusOf, EndIs};

use crate::printing::{Worked, print};
use crate::status::Status;
use nb_base::Sink;
use nb_core::{DeskFault, History, State};
use nb_hub::StartFault;
use std::alloc::Global;

/// The status of a hub that can't be started.
pub fn of_start(fault: StartFault) -> Status
    ensures { result ≡ of_start fault }
{
    match fault {
        StartFault::StoreFailed => Status::BaseFault,
        StartFault::PostFailed => Status::PostFault,
        StartFault::Damaged { store, space, key } => Status::Damaged { store, space, key },
        StartFault::NoMemory => Status::NoMemory,
    }
}

/// The status of work that met a fault.
fn of_fault(fault: DeskFault) -> Status
    requires { (es : List Event) × IsMet fault es }
    ensures { IsStatusOf fault result }
{
    match fault {
        DeskFault::StoreFailed => Status::BaseFault,
        DeskFault::PostFailed => Status::PostFault,
        DeskFault::Spent => Status::Spent,
        DeskFault::Halted => unreachable!(),
        DeskFault::NoMemory => Status::NoMemory,
    }
}

/// Prints the report, where the work was done, or says why it wasn't.
pub fn end<O: Sink>(
    alloc: Global,
    done: Result<bool, DeskFault>,
    turns: u64,
    history: &History,
    state: &State,
    out: &mut O,
) -> Worked
    requires { IfErr done (λ fault. IsMet fault history.now.events) }
    ensures { EndIs done turns history.now.events state.now result
        (O.held out.old) (O.held out.new) (O.count out.old) (O.count out.new) }
{
    match done {
        Ok(true) => print(alloc, state, Status::Done, out),
        Ok(false) => print(alloc, state, Status::NotDrained { takes: turns }, out),
        Err(fault) => Worked {
            status: of_fault(fault),
            printed: 0,
        },
    }
}

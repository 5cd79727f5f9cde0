//! The script of the top call.
ghost use Rattle.std.specs.Prelude.{◌≡◌};
ghost use Rattle.nb_endpoint.specs.Scripts as texts;
ghost use Rattle.nb_endpoint.specs.Scripts.{Checks};

use crate::status::{Mistake, Status};
use nb_check::{CheckFault, CheckKind, Checked, check};
use nb_script::{Script, ScriptFault, ScriptKind, parse};
use std::alloc::Global;

/// The status of a text that is no script.
fn of_text(fault: ScriptFault) -> Status
    ensures { result ≡ texts.of_text fault }
{
    match fault.kind {
        ScriptKind::NoMemory => Status::NoMemory,
        kind => Status::Script {
            line: fault.line,
            column: fault.column,
            kind: Mistake::Syntax(kind),
        },
    }
}

/// The status of a script that breaks a rule.
fn of_rule(fault: CheckFault) -> Status
    ensures { result ≡ texts.of_rule fault }
{
    match fault.kind {
        CheckKind::NoMemory => Status::NoMemory,
        kind => Status::Script {
            line: fault.line,
            column: fault.column,
            kind: Mistake::Rule(kind),
        },
    }
}

/// The well-typed script for which bytes stand, or the first place at which they are none.
pub(crate) fn checked_of(alloc: Global, bytes: &[u8]) -> Result<Checked, Status>
    ensures { Checks bytes.now result }
{
    let script = match parse(alloc, bytes) {
        Ok(script) => script,
        Err(fault) => return Err(of_text(fault)),
    };
    match check(alloc, script) {
        Ok(checked) => Ok(checked),
        Err(fault) => Err(of_rule(fault)),
    }
}

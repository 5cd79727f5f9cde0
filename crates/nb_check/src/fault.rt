//! Why a script isn't checked.
ghost use Rattle.std.specs.Prelude.{◌≡◌};
ghost use Rattle.nb_script.specs.Scripts.{text_of};
ghost use Rattle.nb_check.specs.Faults.{StandsAt};

use crate::breach::{Breach, CheckKind};
use nb_base::NoMemory;
use nb_script::Script;
use thiserror::Error;

/// The first place of a script that breaks a rule, and of the rules that are broken there the first. Lines and columns
/// count from 1, a column counts bytes.
#[derive(Clone, Copy, Debug, Drop, PartialEq, Eq, Error)]
#[error("{line}:{column}: {kind}")]
pub struct CheckFault {
    pub line: u32,
    pub column: u32,
    pub kind: CheckKind,
}

impl CheckFault {
    pub(crate) fn of(script: &Script, breach: Breach) -> CheckFault
        ensures { StandsAt (text_of script.now) breach result }
    {
        let place = script.place(breach.at);
        CheckFault {
            line: place.line,
            column: place.column,
            kind: breach.rule,
        }
    }
}

impl From<NoMemory> for CheckFault {
    ghost use Rattle.nb_check.specs.Faults.{nowhere};

    ghost from_gives = { λ _ e. e ≡ nowhere };

    fn from(_refused: NoMemory) -> CheckFault {
        CheckFault {
            line: 0,
            column: 0,
            kind: CheckKind::NoMemory,
        }
    }
}

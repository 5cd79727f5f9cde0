//! The settings of the top call.
ghost use Rattle.nb_check.specs.Sends.{sends};
ghost use Rattle.nb_endpoint.specs.Configured.{Configures};
ghost use Rattle.nb_script.specs.Tree.{script};

use crate::status::Status;
use nb_base::Settings;
use nb_check::Checked;
use nb_settings::{SettingsRefusal, read_settings};
use std::alloc::Global;

/// The settings for which bytes stand, for a script, or their first bad key.
pub(crate) fn settings_of(
    alloc: Global,
    bytes: &[u8],
    checked: &Checked,
) -> Result<Settings, Status>
    ensures { Configures bytes.now (script checked.now) result }
{
    match read_settings(alloc, bytes, checked) {
        Ok(settings) => Ok(settings),
        Err(SettingsRefusal::Fault(fault)) => Err(Status::Settings {
            key: fault.key,
            kind: fault.kind,
        }),
        Err(SettingsRefusal::NoMemory) => Err(Status::NoMemory),
    }
}

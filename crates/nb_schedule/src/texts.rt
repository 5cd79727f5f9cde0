//! The script and the settings of an endpoint that sells, and how they are read.
ghost use Rattle.std.specs.Prelude.{◌≡◌, IfOk};
ghost use Rattle.nb_check.specs.Sends.{sends};
ghost use Rattle.nb_script.specs.Tree.{script};
ghost use Rattle.nb_settings.specs.Missing.{AreRouted};

use nb_base::{NoMemory, Settings};
use nb_check::check;
use nb_eval::Handlers;
use nb_script::parse;
use nb_settings::{SettingsRefusal, read_settings};
use std::alloc::Global;
use thiserror::Error;

/// Orders that are placed, paid and cancelled or expire; accounts; and messages that fail.
pub const SCRIPT: &str = "message Shop.PlaceOrder { orderId: text, amount: int }
message Charge { orderId: text, amount: int }
message OrderPaid { orderId: text }
message Cancel { orderId: text }
message OrderExpired { orderId: text }
message Credit { account: text, amount: int }
message Work { } message Bad { } message No { } message Ask { } message Told { }
saga Order on orderId: text {
  fields { total: int, paid: bool }
  start Shop.PlaceOrder by orderId {
    set total = saga.total + msg.amount;
    send Charge { orderId: msg.orderId, amount: msg.amount };
    timeout 3600 OrderExpired { orderId: msg.orderId };
  }
  find OrderPaid by orderId { set paid = true; complete; }
  find Cancel by orderId { complete; }
  timeout OrderExpired { add row(\"expired\") by 1; complete; }
}
handler OrderPaid { add row(\"paid\") by 1; }
handler Credit { add row(msg.account) by msg.amount; }
handler Work { if retries < 2 { fail Busy \"later\"; } add row(\"done\") by 1; }
handler Bad { fail Broken \"always\"; }
handler No { reject Refused \"never\"; }
handler Ask { reply Told { }; }
";

/// The endpoint Sales, with the usual retries.
pub const SETTINGS: &str = "endpoint = \"Sales\"
[recoverability]
[routes]
Charge = \"Billing\"
";

/// Why a text wasn't read.
#[derive(Debug, Drop, Error)]
pub enum Unread {
    /// It is no script, or the script breaks a rule.
    #[error("no script")]
    Script,
    /// It is no file of settings for the script.
    #[error("no settings")]
    Settings,
    /// There was no memory.
    #[error("no memory")]
    NoMemory,
}

impl From<NoMemory> for Unread {
    fn from(_refused: NoMemory) -> Unread {
        Unread::NoMemory
    }
}

/// The handlers of a script.
pub fn handlers_of(alloc: Global, text: &str) -> Result<Handlers, Unread> {
    let Ok(script) = parse(alloc, text.as_bytes()) else {
        return Err(Unread::Script);
    };
    match check(alloc, script) {
        Ok(checked) => Ok(Handlers { checked }),
        Err(_) => Err(Unread::Script),
    }
}

/// The settings of a file, for these handlers.
pub(crate) fn settings_of(
    alloc: Global,
    text: &str,
    handlers: &Handlers,
) -> Result<Settings, Unread>
    ensures { IfOk result (λ s. AreRouted s.routes (sends (script handlers.now.checked))) }
{
    match read_settings(alloc, text.as_bytes(), &handlers.checked) {
        Ok(settings) => Ok(settings),
        Err(SettingsRefusal::Fault(_)) => Err(Unread::Settings),
        Err(SettingsRefusal::NoMemory) => Err(Unread::NoMemory),
    }
}

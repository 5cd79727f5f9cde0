//! The script and the settings with which the sample's messages are handled.
ghost use Rattle.std.specs.Prelude.{◌≡◌};
ghost use Rattle.nb_sample.specs.Texts.{script, settings};

const SCRIPT: &str = "message Deposit { account: text, amount: int }
message Open { ticket: text }
message Shut { ticket: text, force: bool }
message Flaky { } message Refuse { }
saga Ticket on ticket: text {
  fields { opens: int, shuts: int }
  start Open by ticket { set opens = saga.opens + 1; local Deposit { account: \"o\", amount: 1 }; }
  find Shut by ticket { set shuts = saga.shuts + 1; if msg.force { complete; } }
}
handler Deposit { add row(msg.account) by msg.amount; }
handler Flaky { if retries < 1 { fail Busy \"first round\"; } add row(\"f\") by 1; }
handler Refuse { reject Refused \"never\"; }
";

const SETTINGS: &str = "endpoint = \"Sample\"
[recoverability]
immediate = 1
delayed = 1
";

/// The text of the script.
pub fn script() -> &'static str
    ensures { result.now ≡ script }
{
    SCRIPT
}

/// The text of the settings file.
pub fn settings() -> &'static str
    ensures { result.now ≡ settings }
{
    SETTINGS
}
